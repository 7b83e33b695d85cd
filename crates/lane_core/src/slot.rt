// A thread of a lane, begun or not.
ghost use Rattle.std.specs.Prelude.{◌≡◌, ◌%◌, Contains, Ok};
ghost use Rattle.lane_core.specs.Parts.{AsksNothing, FollowsAt, IsOnlyOf, Paced, WithMemory};
ghost use Rattle.lane_core.specs.declared.pace.Pace.TheVariants as pace;

use crate::pace::{LaneEnd, Pace};
use crate::part::{Part, ask_part, offer_part};
use gate_core::{Gate, Meeting};
use std::alloc::Global;
use vm_model::Plain;

/// The number of a thread, and the thread from when it was begun.
#[derive(Drop)]
pub struct Slot {
    pub thread: u32,
    pub part: Option<Part>,
}

/// Offers the operation of a slot's thread. One that wasn't begun is begun first, where it was started.
pub fn step<G: Gate, M: Meeting>(
    slot: &mut Slot,
    alloc: Global,
    plain: &Plain,
    gate: &G,
    seat: &mut G::Seat,
    meeting: &M,
    lane: u32,
    known: &mut u64,
) -> Result<Pace, LaneEnd>
    requires seat { G.IsSeatOf gate.now seat.old }
    requires lane { Contains (G.told seat.old).lanes lane }
    requires thread { slot.old.thread % (G.about gate.now).lanes ≡ lane }
    requires follows { FollowsAt plain.now (G.told seat.old) lane slot.old.thread slot.old.part }
    ensures seat { G.IsSeatOf gate.now seat.new }
    ensures thread { slot.new.thread ≡ slot.old.thread }
    ensures only { IsOnlyOf slot.old.thread lane (G.told seat.old) (G.told seat.new) }
    ensures paced { Paced result (G.told seat.old) (G.told seat.new) }
    ensures follows { WithMemory result (FollowsAt plain.now (G.told seat.new) lane slot.new.thread slot.new.part) }
    ensures ended { result ≡ Ok pace.Ended → AsksNothing slot.new.part }
{
    let thread = slot.thread;
    match &mut slot.part {
        Some(part) => offer_part(part, alloc, plain, gate, seat, meeting, lane, thread, known),
        None => match ask_part(alloc, plain, gate, seat, lane, thread) {
            Ok(Some(mut part)) => {
                let pace = offer_part(
                    &mut part, alloc, plain, gate, seat, meeting, lane, thread, known,
                );
                slot.part = Some(part);
                pace
            }
            Ok(None) => Ok(Pace::Still),
            Err(end) => Err(end),
        },
    }
}

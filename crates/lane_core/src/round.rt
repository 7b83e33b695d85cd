// One round over the threads of a lane.
ghost use Rattle.std.specs.Prelude.{◌≡◌, ◌%◌, ◌≤◌, ℕ, Contains, Ok};
ghost use Rattle.std.specs.List.{AllByRecursion};
ghost use Rattle.lane_core.specs.Parts.{Paced, WithMemory};
ghost use Rattle.lane_core.specs.Slots.{AllFollow, AllQuiet, AreOfLane, RisesFrom, RoundOf, joined as joined_pace, threads_in};
ghost use Rattle.lane_core.specs.declared.pace.Pace.TheVariants as pace;

use crate::pace::{LaneEnd, Pace};
use crate::slot::{Slot, step};
use gate_core::{Gate, Meeting};
use std::alloc::Global;
use vm_model::Plain;

/// How far two parts of a lane went on together.
fn joined(one: Pace, other: Pace) -> Pace
    ensures { result ≡ joined_pace one other }
{
    match one {
        Pace::Ended => other,
        Pace::Still => match other {
            Pace::Ended | Pace::Still => Pace::Still,
            Pace::Moved => Pace::Moved,
        },
        Pace::Moved => Pace::Moved,
    }
}

/// Steps each slot once, in order.
pub fn round<G: Gate, M: Meeting>(
    slots: &mut Vec<Slot>,
    alloc: Global,
    plain: &Plain,
    gate: &G,
    seat: &mut G::Seat,
    meeting: &M,
    lane: u32,
    known: &mut u64,
) -> Result<Pace, LaneEnd>
    requires seat { G.IsSeatOf gate.now seat.old }
    requires lane { Contains (G.told seat.old).lanes lane }
    requires of_lane { AreOfLane (G.about gate.now).lanes lane (threads_in slots.old.items) }
    requires rises { RisesFrom 0 (threads_in slots.old.items) }
    requires follows { AllFollow plain.now (G.told seat.old) lane slots.old.items }
    ensures seat { G.IsSeatOf gate.now seat.new }
    ensures threads { threads_in slots.new.items ≡ threads_in slots.old.items }
    ensures round { RoundOf (threads_in slots.old.items) lane (G.told seat.old) (G.told seat.new) }
    ensures paced { Paced result (G.told seat.old) (G.told seat.new) }
    ensures follows { WithMemory result (AllFollow plain.now (G.told seat.new) lane slots.new.items) }
    ensures ended { result ≡ Ok pace.Ended → AllQuiet slots.new.items }
{
    let mut pace = Pace::Ended;
    for i in 0..slots.len() {
        let slot = &mut slots[i];
        match step(slot, alloc, plain, gate, seat, meeting, lane, known) {
            Ok(next) => pace = joined(pace, next),
            Err(end) => return Err(end),
        }
    }
    Ok(pace)
}

ghost use Rattle.std.specs.Prelude.{◌≡◌, ◌<◌, ◌≤◌, ◌%◌, [], Contains, IfOk, Ok};
ghost use Rattle.vm_model.specs.declared.limits.TheConstants.{MOST_LANES};
ghost use Rattle.lane_core.specs.Lanes.{AreThreads, IsNewAt, Follows, parts_of};
ghost use Rattle.gate_core.specs.Seats.{SeatView};
ghost use Rattle.lane_core.specs.Parts.{Paced, WithMemory};
ghost use Rattle.lane_core.specs.Slots.{AllQuiet, RoundOf, threads_in};
ghost use Rattle.lane_core.specs.declared.pace.Pace.TheVariants as pace;

use crate::pace::{LaneEnd, Pace};
use crate::part::Part;
use crate::round::round;
use crate::slot::Slot;
use gate_core::{Gate, Meeting};
use local_machine::Local;
use schedule_log::Folding;
use std::alloc::Global;
use std::marker::Model;
use vm_model::{MOST_THREADS, NoMemory, Plain};

/// A lane: of the threads of a run those whose number modulo the number of lanes is the lane's own. It begins a thread where
/// its seat sees it started, and runs each with the replies that the gate gives. Of each it keeps the intervals of its clocks.
#[derive(Drop)]
pub struct Lane {
    number: u32,
    lanes: u32,
    slots: Vec<Slot>,
}

impl Model for Lane {
    ghost use Rattle.lane_core.specs.Lanes.{LaneView};

    ghost Value = { LaneView };

    ghost use Rattle.lane_core.specs.LaneFields.{IsKept, view_of};

    ghost view = { view_of };

    ghost invariant = { IsKept };
}

/// The slot of a thread before the run: the main thread is begun, and no other.
fn new_slot(alloc: Global, plain: &Plain, thread: u32) -> Result<Slot, NoMemory>
    ensures thread { IfOk result (λ slot. slot.thread ≡ thread) }
    ensures new { IfOk result (λ slot. IsNewAt plain.now thread slot.part) }
{
    if thread != 0 {
        return Ok(Slot { thread, part: None });
    }
    let mut local = Local::first(alloc, plain)?;
    local.advance(alloc, plain)?;
    let folding = Folding::new(alloc, thread);
    Ok(Slot {
        thread,
        part: Some(Part { local, folding }),
    })
}

impl Lane {
    /// The lane of this number, of 1 to 16, before the run: lane 0 has the main thread at its first operation, and no other
    /// thread was begun.
    pub fn new(alloc: Global, plain: &Plain, number: u32, lanes: u32) -> Result<Lane, NoMemory>
        requires number { number < lanes }
        requires lanes { lanes ≤ MOST_LANES }
        ensures number { IfOk result (λ lane. lane.number ≡ number) }
        ensures lanes { IfOk result (λ lane. lane.lanes ≡ lanes) }
        ensures follows { IfOk result (λ lane. (seat : SeatView) → seat.own number ≡ [] → Follows plain.now seat lane) }
    {
        let mut slots = Vec::new(alloc);
        for thread in 0..MOST_THREADS {
            if thread % lanes != number {
                continue;
            }
            slots.push(new_slot(alloc, plain, thread)?)?;
        }
        Ok(Lane {
            number,
            lanes,
            slots,
        })
    }

    /// The number of the lane, from 0 on. It takes no memory.
    pub fn number(&self) -> u32
        ensures { result ≡ self.now.number }
    {
        self.number
    }

    /// Steps each thread of the lane once, in order of number.
    pub(crate) fn round<G: Gate, M: Meeting>(
        &mut self,
        alloc: Global,
        plain: &Plain,
        gate: &G,
        seat: &mut G::Seat,
        meeting: &M,
        known: &mut u64,
    ) -> Result<Pace, LaneEnd>
        requires seat { G.IsSeatOf gate.now seat.old }
        requires lane { Contains (G.told seat.old).lanes self.old.number }
        requires lanes { (G.about gate.now).lanes ≡ self.old.lanes }
        requires follows { Follows plain.now (G.told seat.old) self.old }
        ensures seat { G.IsSeatOf gate.now seat.new }
        ensures number { self.new.number ≡ self.old.number }
        ensures lanes { self.new.lanes ≡ self.old.lanes }
        ensures round { RoundOf (threads_in self.old.slots) self.old.number (G.told seat.old) (G.told seat.new) }
        ensures paced { Paced result (G.told seat.old) (G.told seat.new) }
        ensures follows { WithMemory result (Follows plain.now (G.told seat.new) self.new) }
        ensures ended { result ≡ Ok pace.Ended → AllQuiet self.new.slots }
        ensures threads { AreThreads self.new.number self.new.lanes (threads_in self.new.slots) }
    {
        let number = self.number;
        round(
            &mut self.slots,
            alloc,
            plain,
            gate,
            seat,
            meeting,
            number,
            known,
        )
    }

    /// The threads that were begun, in order of number: each number, the thread where it stands, and the intervals of its
    /// clocks. After `NoMemory` they are lost.
    pub fn into_parts(self, alloc: Global) -> Result<Vec<(u32, Local, Folding)>, NoMemory>
        ensures parts { IfOk result (λ parts. parts.items ≡ parts_of self.slots) }
        ensures threads { AreThreads self.number self.lanes (threads_in self.slots) }
    {
        let Lane { slots, .. } = self;
        let mut parts = Vec::new(alloc);
        for slot in slots {
            let Slot { thread, part } = slot;
            match part {
                Some(part) => {
                    let Part { local, folding } = part;
                    parts.push((thread, local, folding))?;
                }
                None => {}
            }
        }
        Ok(parts)
    }
}

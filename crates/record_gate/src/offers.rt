ghost use Rattle.std.specs.Prelude.{◌≡◌, ◌||◌};
ghost use Rattle.record_gate.specs.Offers.{offer_of};

use crate::answers::Committing;
use crate::gate::RecordGate;
use crate::seat::RecordSeat;
use gate_core::{Begun, Gate, Offer};
use std::alloc::Global;
use vm_model::Op;

/// What a lane is told of an answer.
fn offered(answer: Committing) -> Offer
    ensures { result ≡ offer_of answer }
{
    match answer {
        Committing::Committed { clock, reply } => Offer::Committed { clock, reply },
        Committing::Busy => Offer::Again,
        Committing::Blocked => Offer::Again,
        Committing::Over(_) => Offer::Leave,
        Committing::Spent => Offer::Leave,
        Committing::NoMemory => Offer::NoMemory,
    }
}

/// Notes that the lane has nothing left to do.
fn tell_off(seat: &mut RecordSeat, off: bool)
    ensures { seat.new ≡ record seat.old { is_told_off = seat.old.is_told_off || off } }
{
    if off {
        seat.is_told_off = true;
    }
}

impl Gate for RecordGate {
    ghost use Rattle.record_gate.specs.Offers.{about_of, told_of};
    ghost use Rattle.record_gate.specs.Seats.{IsSeatOf as IsMade};

    type Seat = RecordSeat;

    ghost about = { about_of };

    ghost told = { told_of };

    ghost IsSeatOf = { IsMade };

    fn offer(&self, alloc: Global, seat: &mut RecordSeat, thread: u32, op: Op) -> Offer {
        let answer = self.try_commit(alloc, seat, thread, op);
        let offer = offered(answer);
        tell_off(seat, offer.is_leave());
        offer
    }

    fn begun(&self, seat: &mut RecordSeat, thread: u32) -> Begun {
        let begun = RecordGate::begun(self, seat, thread);
        tell_off(seat, begun.is_over());
        begun
    }

    fn clock(&self, seat: &mut RecordSeat) -> u64 {
        RecordGate::clock(self, seat)
    }
}

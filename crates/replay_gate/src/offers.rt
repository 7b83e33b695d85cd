//! The gate as lanes work with it.
ghost use Rattle.std.specs.Prelude.{◌≡◌, ◌||◌};
ghost use Rattle.replay_gate.specs.Offers.{offer_of};

use crate::gate::{ReplayGate, ReplaySeat};
use crate::turning::Turning;
use gate_core::{Begun, Gate, Offer};
use std::alloc::Global;
use vm_model::Op;

/// What a lane is told of the answer.
fn offered(answer: Turning) -> Offer
    ensures { result ≡ offer_of answer }
{
    match answer {
        Turning::Committed { clock, reply } => Offer::Committed { clock, reply },
        Turning::NotYet { clock: _ } => Offer::Again,
        Turning::Differs { clock: _ } => Offer::Leave,
        Turning::NoMemory => Offer::NoMemory,
    }
}

/// Tells the seat off, if that is to be.
fn tell_off(seat: &mut ReplaySeat, off: bool)
    ensures { seat.new ≡ record seat.old { is_told_off = seat.old.is_told_off || off } }
{
    if off {
        seat.is_told_off = true;
    }
}

impl Gate for ReplayGate {
    ghost use Rattle.replay_gate.specs.Offers.{about_of, told_of};
    ghost use Rattle.replay_gate.specs.Gates.{IsSeatOf as IsMadeBy};

    type Seat = ReplaySeat;

    ghost about = { about_of };

    ghost told = { told_of };

    ghost IsSeatOf = { IsMadeBy };

    fn offer(&self, alloc: Global, seat: &mut ReplaySeat, thread: u32, op: Op) -> Offer {
        let answer = self.try_turn(alloc, seat, thread, op);
        let offer = offered(answer);
        tell_off(seat, offer.is_leave());
        offer
    }

    fn begun(&self, seat: &mut ReplaySeat, thread: u32) -> Begun {
        let begun = ReplayGate::begun(self, seat, thread);
        tell_off(seat, begun.is_over());
        begun
    }

    fn clock(&self, seat: &mut ReplaySeat) -> u64 {
        ReplayGate::clock(self, seat)
    }
}

use crate::gate::RecordGate;
use crate::seat::RecordSeat;
use gate_core::WorldGate;
use shared_world::World;

impl WorldGate for RecordGate {
    ghost use Rattle.record_gate.specs.WorldGates.{IsAdmitted, budget_of, gives_of};

    ghost budget = { budget_of };

    ghost gives = { gives_of };

    ghost Admits = { IsAdmitted };

    fn split(&self, seat: &mut RecordSeat, lane: u32) -> RecordSeat {
        RecordGate::split(self, seat, lane)
    }

    fn join(&self, into: &mut RecordSeat, ended: RecordSeat) {
        RecordGate::join(self, into, ended)
    }

    fn close(self, seat: RecordSeat) -> World {
        RecordGate::close(self, seat)
    }
}

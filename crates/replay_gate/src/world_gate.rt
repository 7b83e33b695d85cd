//! The gate before its world.

use crate::gate::{ReplayGate, ReplaySeat};
use gate_core::WorldGate;
use shared_world::World;

impl WorldGate for ReplayGate {
    ghost use Rattle.replay_gate.specs.Replayed.{budget_of, gives_of, IsReplayOf};

    ghost budget = { budget_of };

    ghost gives = { gives_of };

    ghost Admits = { IsReplayOf };

    fn split(&self, seat: &mut ReplaySeat, lane: u32) -> ReplaySeat {
        ReplayGate::split(self, seat, lane)
    }

    #[tactic(auto, using(crate::proofs::Telling::sees_so))]
    fn join(&self, into: &mut ReplaySeat, ended: ReplaySeat) {
        ReplayGate::join(self, into, ended)
    }

    fn close(self, seat: ReplaySeat) -> World {
        ReplayGate::close(self, seat)
    }
}

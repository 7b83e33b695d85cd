ghost use Rattle.std.specs.Prelude.{◌≡◌};
ghost use Rattle.record_gate.specs.Judging.{Answers, world_after, IsWhole, begun_in, FitsReply};

use crate::answers::Committing;
use gate_core::Begun;
use shared_world::{ApplyFault, World};
use std::alloc::Global;
use vm_model::{End, Op};

/// Does an operation of a thread on the world that is held, unless the run has ended, the budget is spent, or the operation
/// isn't enabled.
pub fn judge(alloc: Global, world: &mut World, thread: u32, op: Op) -> Committing
    ensures answer { Answers world.old thread op result }
    ensures world { world.new ≡ world_after world.old thread op result }
    ensures whole { IsWhole world.old → IsWhole world.new }
    ensures fits { FitsReply world.old.declarations op result }
{
    if let Some(fault) = world.fault() {
        return Committing::Over(End::Fault(fault));
    }
    if world.all_ended() {
        return Committing::Over(End::Done);
    }
    let clock = world.clock();
    if clock == world.budget() {
        return Committing::Spent;
    }
    match world.apply(alloc, thread, op) {
        Ok(reply) => Committing::Committed { clock, reply },
        Err(ApplyFault::Blocked) => Committing::Blocked,
        Err(ApplyFault::NoMemory) => Committing::NoMemory,
    }
}

/// Whether a thread was started by another one.
pub fn find(world: &World, thread: u32) -> Begun
    ensures { result ≡ begun_in world.now thread }
{
    match world.target(thread) {
        Some(target) => Begun::Yes(target),
        None => {
            if world.fault().is_some() || world.all_ended() {
                Begun::Over
            } else {
                Begun::NotYet
            }
        }
    }
}

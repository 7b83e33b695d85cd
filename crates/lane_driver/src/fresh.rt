// Threads that no lane ran.
ghost use Rattle.std.specs.Prelude.{◌≡◌, ◌≢◌, ◌<◌, ◌≤◌, ℕ, All, length, IfOk, IsSome, Some};
ghost use Rattle.vm_model.specs.declared.limits.TheConstants.{MOST_THREADS};
ghost use Rattle.machine_model.specs.Machine.{threads_of};
ghost use Rattle.local_machine.specs.LocalView.{IsReady};
ghost use Rattle.projection_laws.specs.Projections.{first_in, target_in};

use event_machine::{first_thread, started_thread};
use local_machine::Local;
use shared_world::World;
use std::alloc::Global;
use vm_model::{NoMemory, ObjRef, Plain};

/// How many threads were started. Each event is one of theirs.
pub fn started_count(world: &World) -> u32
    ensures value { result ≡ length world.now.shared.rows }
    ensures few { result ≤ MOST_THREADS }
    ensures threads { All (λ t. t < result) (threads_of world.now.history) }
{
    // that the history is legal stands in its clauses
    let _history = world.history();
    world.rows()
}

/// The object that a thread was started for. Each started thread but the first has one.
fn target_of(world: &World, thread: u32) -> Option<ObjRef>
    ensures value { result ≡ target_in world.now.history thread }
    ensures some { thread ≢ 0 → thread < length world.now.shared.rows → IsSome result }
{
    // as in `started_count`
    let _history = world.history();
    world.target(thread)
}

/// A thread that was started, at its first operation.
pub fn fresh_thread(
    alloc: Global,
    plain: &Plain,
    world: &World,
    thread: u32,
) -> Result<Local, NoMemory>
    requires { thread < length world.now.shared.rows }
    ensures state { IfOk result (λ l. first_in plain.now world.now.history thread ≡ Some l.state) }
    ensures ready { IfOk result (IsReady plain.now) }
{
    if thread == 0 {
        return first_thread(alloc, plain);
    }
    let Some(target) = target_of(world, thread) else {
        unreachable!()
    };
    started_thread(alloc, plain, target)
}

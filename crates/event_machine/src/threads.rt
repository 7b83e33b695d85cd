// The threads by themselves.
ghost use Rattle.std.specs.Prelude.{◌≡◌, ◌++◌, ◌∷◌, [], ◌<◌, length, map, slice_get, IfOk, OnOk, IsSome};
ghost use Rattle.machine_model.specs.LocalStep.{absorb, first_of_main, first_of_thread, settled};
ghost use Rattle.machine_model.specs.Machine.{begun};
ghost use Rattle.local_machine.specs.LocalView.{IsReady};
ghost use Rattle.event_machine.specs.MachineView.{AllReady, pending_at, state_of};
ghost use Rattle.event_machine.specs.Turns.{AsksFor, GoesOnAt, gone_on};

use local_machine::Local;
use std::alloc::Global;
use vm_model::{NoMemory, ObjRef, Op, Plain, Reply};

/// The first thread at its first operation.
pub fn first_thread(alloc: Global, plain: &Plain) -> Result<Local, NoMemory>
    ensures state { IfOk result (λ l. l.state ≡ settled plain.now (first_of_main plain.now)) }
    ensures ready { IfOk result (IsReady plain.now) }
{
    let mut local = Local::first(alloc, plain)?;
    local.advance(alloc, plain)?;
    Ok(local)
}

/// The thread that is started for this object, at its first operation.
pub fn started_thread(alloc: Global, plain: &Plain, target: ObjRef) -> Result<Local, NoMemory>
    ensures state { IfOk result (λ l. l.state ≡ settled plain.now (first_of_thread plain.now target)) }
    ensures ready { IfOk result (IsReady plain.now) }
{
    let mut local = Local::of_thread(alloc, plain, target)?;
    local.advance(alloc, plain)?;
    Ok(local)
}

/// Brings a thread to its next operation, after the reply to the last one.
fn go_on_one(local: &mut Local, alloc: Global, plain: &Plain, reply: Reply) -> Result<(), NoMemory>
    requires ready { IsReady plain.now local.old }
    requires asks { IsSome local.old.pending }
    ensures state { OnOk result (local.new.state ≡ gone_on plain.now local.old.state local.old.pending reply) }
    ensures ready { OnOk result (IsReady plain.now local.new) }
{
    local.absorb(plain, reply);
    local.advance(alloc, plain)
}

/// The same for one of the threads.
pub fn go_on(
    locals: &mut Vec<Local>,
    alloc: Global,
    plain: &Plain,
    thread: usize,
    reply: Reply,
) -> Result<(), NoMemory>
    requires thread { thread < length locals.old.items }
    requires ready { AllReady plain.now locals.old.items }
    requires asks { IsSome (pending_at locals.old.items thread) }
    ensures states { OnOk result (GoesOnAt plain.now locals.old.items thread reply locals.new.items) }
    ensures ready { OnOk result (AllReady plain.now locals.new.items) }
{
    let local = &mut locals[thread];
    go_on_one(local, alloc, plain, reply)
}

/// Adds the thread that an operation and its reply start, if they start one.
pub fn start(
    locals: &mut Vec<Local>,
    alloc: Global,
    plain: &Plain,
    op: Op,
    reply: Reply,
) -> Result<(), NoMemory>
    requires { AllReady plain.now locals.old.items }
    ensures states { OnOk result (map state_of locals.new.items ≡ map state_of locals.old.items ++ begun plain.now op reply) }
    ensures ready { OnOk result (AllReady plain.now locals.new.items) }
{
    match op {
        Op::Start { target } => match reply {
            Reply::Began(_) => return begin(locals, alloc, plain, target),
            _ => return Ok(()),
        },
        _ => return Ok(()),
    }
}

/// Adds a started thread.
fn begin(
    locals: &mut Vec<Local>,
    alloc: Global,
    plain: &Plain,
    target: ObjRef,
) -> Result<(), NoMemory>
    requires { AllReady plain.now locals.old.items }
    ensures states { OnOk result (map state_of locals.new.items ≡ map state_of locals.old.items ++ settled plain.now (first_of_thread plain.now target) ∷ []) }
    ensures ready { OnOk result (AllReady plain.now locals.new.items) }
{
    let local = started_thread(alloc, plain, target)?;
    locals.push(local)?;
    Ok(())
}

/// The operation that a thread asks for.
pub fn operation_at(locals: &[Local], thread: u32) -> Option<Op>
    ensures { result ≡ pending_at locals.now thread }
{
    match locals.get(thread as usize) {
        Some(local) => local.operation(),
        None => None,
    }
}

/// Equal threads.
pub fn copy_all(alloc: Global, locals: &[Local]) -> Result<Vec<Local>, NoMemory>
    ensures { IfOk result (λ copies. copies.items ≡ locals.now) }
{
    let mut copies = Vec::new(alloc);
    for local in locals {
        copies.push(local.copy(alloc)?)?;
    }
    Ok(copies)
}

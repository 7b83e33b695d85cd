// The way to the next operation.
ghost use Rattle.std.specs.Prelude.{◌≡◌, ◌≤◌, length, true, Some, IfOk, OnErr, vec_len, vec_capacity};
ghost use Rattle.vm_model.specs.declared.limits.TheConstants.{MOST_LOCAL_STEPS, MOST_TEXT_BYTES};
ghost use Rattle.vm_model.specs.Program.{IsSmall};
ghost use Rattle.machine_model.specs.LocalStep.{entering as model_entering, fault_at as model_fault_at};
ghost use Rattle.frame_actions.specs.Acts.{plain};
ghost use Rattle.frame_actions.specs.declared.acted.Acted.TheVariants as acted;
ghost use Rattle.local_machine.specs.Completions.{completion_with};
ghost use Rattle.local_machine.specs.Fields.{AreAtCalls, HasRoomFor, Stands, callers, completion_of};
ghost use Rattle.local_machine.specs.LocalView.{is_running};
ghost use Rattle.local_machine.specs.States.{HasRoomIn, IsReached, StandsAt, StandsIn, ready_at, ready_elsewhere, state_of, wanted, wanted_call, wanted_return};
ghost use Rattle.local_machine.specs.Steps.{IsOnTheWay};

use crate::calls::{arity_at, first_frame, reserve_caller};
use crate::completion::{Completion, Ready};
use crate::phase::Phase;
use crate::step::{look, settle};
use frame_actions::{Acted, Frame};
use std::alloc::Global;
use vm_model::{FaultKind, Lock, MOST_FRAMES, NoMemory, Op, Program};

/// The fault of this kind at the frame's instruction.
fn fault_at(kind: FaultKind, frame: &Frame) -> Op
    ensures { result ≡ model_fault_at kind (plain frame.now) }
{
    Op::Fault {
        kind,
        method: frame.method,
        at: frame.place,
    }
}

/// The operation of a call, which has room for a frame or not.
fn wanted_by_call(lock: Option<Lock>, frame: &Frame, has_room: bool) -> Op
    ensures { result ≡ wanted_call lock (plain frame.now) has_room }
{
    if !has_room {
        return fault_at(FaultKind::StackOverflow, frame);
    }
    match lock {
        Some(lock) => Op::Enter { lock },
        None => Op::Tick,
    }
}

/// The operation of a return.
fn wanted_by_return(lock: Option<Lock>, has_caller: bool) -> Op
    ensures { result ≡ wanted_return lock has_caller }
{
    match lock {
        Some(lock) => Op::Exit { lock },
        None => { if has_caller { Op::Tick } else { Op::ThreadEnd } }
    }
}

/// What a frame that calls this method asks for, and what completes it, with the room that this takes.
fn prepare_call(
    alloc: Global,
    program: &Program,
    method: u32,
    lock: Option<Lock>,
    top: &Frame,
    below: &mut Vec<Frame>,
    spares: &mut Vec<Frame>,
) -> Result<Ready, NoMemory>
    requires { Stands (acted.Calls method lock) top.now }
    ensures op { IfOk result (λ r. r.op ≡ wanted (acted.Calls method lock) (plain top.now) (length below.old.items)) }
    ensures completion { IfOk result (λ r. completion_of r.completion ≡ completion_with program.now (acted.Calls method lock) (plain top.now)) }
    ensures room { IfOk result (λ r. HasRoomFor r.completion top.now below.new.items (vec_len below.new) (vec_capacity below.new)) }
    ensures below { callers below.new.items ≡ callers below.old.items }
{
    let op = Some(wanted_by_call(lock, top, below.len() < MOST_FRAMES - 1));
    let taken = arity_at(program, method);
    let arguments = top.stack.arguments(taken);
    let callee = first_frame(alloc, program, method, arguments, lock, spares)?;
    let Ok(callee) = Box::new(alloc, callee) else {
        return Err(NoMemory);
    };
    let Ok(()) = below.reserve(1) else {
        return Err(NoMemory);
    };
    let completion = Completion::Calls(taken, callee);
    Ok(Ready { op, completion })
}

/// What a frame whose instruction does this asks for, and what completes it, with the room that this takes. A step of the
/// thread alone that is left makes a Tick.
fn prepare(
    alloc: Global,
    program: &Program,
    acted: Acted,
    top: &Frame,
    below: &mut Vec<Frame>,
    spares: &mut Vec<Frame>,
) -> Result<Ready, NoMemory>
    requires { Stands acted top.now }
    ensures op { IfOk result (λ r. r.op ≡ wanted acted (plain top.now) (length below.old.items)) }
    ensures completion { IfOk result (λ r. completion_of r.completion ≡ completion_with program.now acted (plain top.now)) }
    ensures room { IfOk result (λ r. HasRoomFor r.completion top.now below.new.items (vec_len below.new) (vec_capacity below.new)) }
    ensures below { callers below.new.items ≡ callers below.old.items }
{
    match acted {
        Acted::Goes => Ok(Ready {
            op: Some(Op::Tick),
            completion: Completion::Nothing,
        }),
        Acted::Calls(method, lock) => {
            prepare_call(alloc, program, method, lock, top, below, spares)
        }
        Acted::Gives(given) => {
            let op = Some(wanted_by_return(top.lock, 0 < below.len()));
            reserve_caller(below)?;
            let completion = Completion::Gives(given);
            Ok(Ready { op, completion })
        }
        Acted::Asks(op, taken) => Ok(Ready {
            op: Some(op),
            completion: Completion::Takes(taken),
        }),
        Acted::Fails(kind) => Ok(Ready {
            op: Some(fault_at(kind, top)),
            completion: Completion::Nothing,
        }),
        Acted::Undefined => Ok(Ready {
            op: None,
            completion: Completion::Nothing,
        }),
    }
}

/// What the instruction does at which a thread stands, once the thread has made its own steps; none where it stands at no
/// instruction.
fn stand(
    alloc: Global,
    program: &Program,
    phase: Phase,
    top: &mut Frame,
    below: &mut Vec<Frame>,
    spares: &mut Vec<Frame>,
    steps: &mut u32,
) -> Result<Option<Acted>, NoMemory>
    requires small { IsSmall program.now }
    requires few { length program.now.methods ≤ MOST_TEXT_BYTES }
    requires steps { steps.old ≤ MOST_LOCAL_STEPS }
    requires below { AreAtCalls (callers below.old.items) }
    ensures ok { IfOk result (λ acted. StandsAt program.now phase (plain top.old) (callers below.old.items) steps.old (plain top.new) (callers below.new.items) steps.new acted) }
    ensures stands { IfOk result (λ acted. StandsIn acted top.new) }
    ensures err { OnErr result (IsOnTheWay program.now (state_of phase top.old below.old.items) steps.old (state_of phase top.new below.new.items) steps.new) }
    ensures running { OnErr result (is_running (state_of phase top.old below.old.items) ≡ true) }
    ensures steps { steps.new ≤ MOST_LOCAL_STEPS }
    ensures below { AreAtCalls (callers below.new.items) }
{
    match phase {
        Phase::Plain => {
            let acted = settle(alloc, program, top, below, spares, steps)?;
            Ok(Some(acted))
        }
        Phase::Waiting { .. } => {
            let acted = look(alloc, program, top)?;
            Ok(Some(acted))
        }
        Phase::Entering | Phase::Left | Phase::Raised(_) | Phase::Ended => Ok(None),
    }
}

/// What a thread asks for that stands at no instruction; none where it is ended.
fn elsewhere(phase: Phase, top: &Frame) -> Option<Ready>
    ensures { result ≡ ready_elsewhere phase (plain top.now) }
{
    match phase {
        Phase::Entering => Some(Ready {
            op: entering(top.lock),
            completion: Completion::Begins,
        }),
        Phase::Left => Some(Ready {
            op: Some(Op::ThreadEnd),
            completion: Completion::Nothing,
        }),
        Phase::Raised(kind) => Some(Ready {
            op: Some(fault_at(kind, top)),
            completion: Completion::Nothing,
        }),
        Phase::Plain | Phase::Waiting { .. } | Phase::Ended => None,
    }
}

/// What a thread asks for whose instruction is prepared so: one that waits takes its lock again first.
fn ready_at(phase: Phase, ready: Ready) -> Ready
    ensures { result ≡ ready_at phase ready }
{
    match phase {
        Phase::Waiting { lock, count } => Ready {
            op: Some(Op::Resume { lock, count }),
            completion: ready.completion,
        },
        _ => ready,
    }
}

/// Brings a thread to its next operation, with the room that the reply will need; none where it is ended.
pub fn reach(
    alloc: Global,
    program: &Program,
    phase: Phase,
    top: &mut Frame,
    below: &mut Vec<Frame>,
    spares: &mut Vec<Frame>,
    steps: &mut u32,
) -> Result<Option<Ready>, NoMemory>
    requires small { IsSmall program.now }
    requires few { length program.now.methods ≤ MOST_TEXT_BYTES }
    requires steps { steps.old ≤ MOST_LOCAL_STEPS }
    requires below { AreAtCalls (callers below.old.items) }
    ensures ok { IfOk result (λ ready. IsReached program.now (state_of phase top.old below.old.items) steps.old (state_of phase top.new below.new.items) steps.new ready) }
    ensures room { IfOk result (λ ready. HasRoomIn ready top.new below.new.items (vec_len below.new) (vec_capacity below.new)) }
    ensures err { OnErr result (IsOnTheWay program.now (state_of phase top.old below.old.items) steps.old (state_of phase top.new below.new.items) steps.new) }
    ensures running { OnErr result (is_running (state_of phase top.old below.old.items) ≡ true) }
    ensures steps { steps.new ≤ MOST_LOCAL_STEPS }
    ensures below { AreAtCalls (callers below.new.items) }
{
    let Some(acted) = stand(alloc, program, phase, top, below, spares, steps)? else {
        return Ok(elsewhere(phase, top));
    };
    let ready = prepare(alloc, program, acted, top, below, spares)?;
    Ok(Some(ready_at(phase, ready)))
}

/// The operation of a thread whose first method is synchronized.
fn entering(lock: Option<Lock>) -> Option<Op>
    ensures { result ≡ model_entering lock }
{
    match lock {
        Some(lock) => Some(Op::Enter { lock }),
        None => None,
    }
}

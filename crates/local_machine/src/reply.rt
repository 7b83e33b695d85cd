// What a reply does to a thread.
ghost use Rattle.std.specs.Prelude.{◌≡◌, vec_len, vec_capacity};
ghost use Rattle.machine_model.specs.LocalStep.{outcome as model_outcome};
ghost use Rattle.frame_actions.specs.Acts.{plain};
ghost use Rattle.local_machine.specs.Completions.{completed_by};
ghost use Rattle.local_machine.specs.Fields.{AreAtCalls, HasRoomFor, callers, completion_of};
ghost use Rattle.local_machine.specs.Outcomes.{answered_by, outcome_of};
ghost use Rattle.local_machine.specs.States.{state_of};

use crate::calls::{enter, give_back};
use crate::completion::Completion;
use crate::phase::Phase;
use frame_actions::Frame;
use vm_model::{FaultKind, Lock, Op, Reply, Value};

/// What a reply does to the thread.
#[derive(Clone, Copy, Debug, PartialEq, Eq)]
pub enum Outcome {
    /// Nothing.
    Stays,
    Ends,
    Raises(FaultKind),
    StartsWaiting(Lock, u32),
    /// What was asked for is done, with this value or none.
    Completes(Option<Value>),
}

/// What this reply to this operation does.
pub fn outcome_after(op: Op, reply: Reply) -> Outcome
    ensures { result ≡ outcome_of (model_outcome op reply) }
{
    match reply {
        Reply::Got(value) => Outcome::Completes(Some(value)),
        Reply::Made(value) => Outcome::Completes(Some(value)),
        Reply::Began(_) => Outcome::Completes(None),
        Reply::Waits(count) => match op {
            Op::Wait { lock } => Outcome::StartsWaiting(lock, count),
            _ => Outcome::Completes(None),
        },
        Reply::Raise(kind) => Outcome::Raises(kind),
        Reply::Unit => match op {
            Op::Tick => Outcome::Stays,
            Op::Fault { .. } => Outcome::Stays,
            Op::ThreadEnd => Outcome::Ends,
            _ => Outcome::Completes(None),
        },
    }
}

/// Does what was left to do, with the value of the reply, if it brought one. It takes no memory.
pub fn complete(
    completion: Completion,
    brought: Option<Value>,
    phase: &mut Phase,
    top: &mut Frame,
    below: &mut Vec<Frame>,
    spares: &mut Vec<Frame>,
)
    requires room { HasRoomFor completion top.old below.old.items (vec_len below.old) (vec_capacity below.old) }
    requires below { AreAtCalls (callers below.old.items) }
    ensures state { state_of phase.new top.new below.new.items ≡ completed_by (completion_of completion) brought (plain top.old) (callers below.old.items) (state_of phase.old top.old below.old.items) }
    ensures below { AreAtCalls (callers below.new.items) }
{
    match completion {
        Completion::Nothing => {}
        Completion::Begins => *phase = Phase::Plain,
        Completion::Takes(taken) => {
            top.stack.remove(taken);
            if let Some(value) = brought {
                top.stack.push(value);
            }
            top.place += 1;
            *phase = Phase::Plain;
        }
        Completion::Calls(taken, callee) => {
            enter(Box::into_inner(callee), taken, top, below);
            *phase = Phase::Plain;
        }
        Completion::Gives(given) => {
            if give_back(given, top, below, spares) {
                *phase = Phase::Plain;
            } else {
                *phase = Phase::Left;
            }
        }
    }
}

/// Goes on after a reply of this outcome. It takes no memory.
pub fn answer(
    outcome: Outcome,
    completion: Completion,
    phase: &mut Phase,
    top: &mut Frame,
    below: &mut Vec<Frame>,
    spares: &mut Vec<Frame>,
)
    requires room { HasRoomFor completion top.old below.old.items (vec_len below.old) (vec_capacity below.old) }
    requires below { AreAtCalls (callers below.old.items) }
    ensures state { state_of phase.new top.new below.new.items ≡ answered_by outcome (completion_of completion) (plain top.old) (callers below.old.items) (state_of phase.old top.old below.old.items) }
    ensures below { AreAtCalls (callers below.new.items) }
{
    match outcome {
        Outcome::Stays => {}
        Outcome::Ends => *phase = Phase::Ended,
        Outcome::Raises(kind) => *phase = Phase::Raised(kind),
        Outcome::StartsWaiting(lock, count) => *phase = Phase::Waiting { lock, count },
        Outcome::Completes(brought) => complete(completion, brought, phase, top, below, spares),
    }
}

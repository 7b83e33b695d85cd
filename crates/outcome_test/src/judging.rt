//! What a run shows against a fault.

ghost use Rattle.std.specs.Prelude.{◌≡◌, ◌≤◌, None, Some, length, IfOk};
ghost use Rattle.vm_model.specs.declared.limits.TheConstants.{MOST_EVENTS, MOST_SWITCHES};
ghost use Rattle.machine_model.specs.Machine.{end_of, start_machine};
ghost use Rattle.schedule_model.specs.Outcomes.{is_same_fault, kind_number, outcome_of, outcome_of_end};

use schedule_model::{Outcome, Schedule};
use std::alloc::Global;
use switch_schedule::run_schedule;
use vm_model::{End, Fault, FaultKind, NoMemory, Plain};

fn kind_number(kind: FaultKind) -> u64
    ensures { result ≡ kind_number kind }
{
    match kind {
        FaultKind::NullPointer => 0,
        FaultKind::Arithmetic => 1,
        FaultKind::ArrayIndex => 2,
        FaultKind::NegativeSize => 3,
        FaultKind::MonitorState => 4,
        FaultKind::ThreadState => 5,
        FaultKind::StackOverflow => 6,
        FaultKind::HeapFull => 7,
        FaultKind::OutputFull => 8,
        FaultKind::ThreadsFull => 9,
        FaultKind::Thrown(class) => 10 + u64::from(class),
    }
}

/// All four parts are equal.
fn is_same_fault(f: Fault, g: Fault) -> bool
    ensures { result ≡ is_same_fault f g }
{
    kind_number(f.kind) == kind_number(g.kind)
        && f.thread == g.thread
        && f.method == g.method
        && f.at == g.at
}

/// What the end of a run shows against a fault (Zeller and Hildebrandt 2002): it passes where all threads ended, and fails
/// where it ended in this very fault, of the same kind, thread, method and instruction.
pub fn outcome(end: &End, fault: &Fault) -> Outcome
    ensures { result ≡ outcome_of_end fault.now (Some end.now) }
{
    match *end {
        End::Done => Outcome::Pass,
        End::Fault(other) => {
            if is_same_fault(other, *fault) {
                Outcome::Fail
            } else {
                Outcome::Unresolved
            }
        }
        End::Stuck => Outcome::Unresolved,
        End::Spent => Outcome::Unresolved,
    }
}

/// What the run of a schedule shows, made from the start of the program.
pub(crate) fn outcome_of(
    alloc: Global,
    plain: &Plain,
    fault: &Fault,
    events: u64,
    schedule: &Schedule,
) -> Result<Outcome, NoMemory>
    requires few { length schedule.now ≤ MOST_SWITCHES }
    requires some { 1 ≤ events }
    requires limit { events ≤ MOST_EVENTS }
    requires begins { end_of plain.now (start_machine plain.now) events ≡ None }
    ensures { IfOk result (λ o. outcome_of plain.now events fault.now schedule.now ≡ o) }
{
    let ran = run_schedule(alloc, plain, schedule, events)?;
    Ok(outcome(&ran.end, fault))
}

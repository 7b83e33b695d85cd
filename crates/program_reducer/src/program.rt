//! Reduction of a schedule of one program.

ghost use Rattle.std.specs.Prelude.{◌≡◌, ◌≤◌, None, length, All, IfOk, IfErr};
ghost use Rattle.vm_model.specs.declared.limits.TheConstants.{MOST_EVENTS, MOST_SWITCHES};
ghost use Rattle.vm_model.specs.declared.ends.End.TheVariants as end;
ghost use Rattle.machine_model.specs.Machine.{end_of, start_machine};
ghost use Rattle.schedule_model.specs.Outcomes.{outcome_of};
ghost use Rattle.program_isolator.specs.Isolations.{EndsSo};
ghost use Rattle.switch_schedule.specs.Texts.{AreTimes};
ghost use Rattle.switch_reducer.specs.Answers.{IsSpent};
ghost use Rattle.program_reducer.specs.Reductions.{tests_on, IsLeftOf, IsReduction, Refuses};

use crate::refusal::ReductionRefusal;
use outcome_test::{SerialRounds, WideRounds};
use program_isolator::end_of_run;
use schedule_model::laws::same_faults_are_equal;
use schedule_model::{Rounds, Schedule};
use std::alloc::Global;
use std::thread::Threads;
use switch_reducer::{ReduceFault, Reduced, reduce};
use vm_model::{End, Fault, Plain};

/// What is left against one fault, by rounds of the program's runs that have asked nothing yet.
fn reduce_with<R: Rounds>(
    alloc: Global,
    _plain: &Plain,
    fail: &Schedule,
    _fault: Fault,
    _events: u64,
    budget: u64,
    rounds: &mut R,
) -> Result<Reduced, ReduceFault>
    requires size { length fail.now ≤ MOST_SWITCHES }
    requires fails { EndsSo _plain.now _events fail.now (end.Fault _fault) }
    requires outcome { R.outcome rounds.old ≡ outcome_of _plain.now _events _fault }
    requires fresh { R.asked rounds.old ≡ 0 }
    ensures left { IfOk result (IsLeftOf _plain.now _events fail.now _fault) }
    ensures within { IfOk result (λ r. tests_on _plain.now _events _fault fail.now ≤ budget) }
    ensures few { IfOk result (λ r. length r.schedule ≤ MOST_SWITCHES) }
    ensures spent { IfErr result (IsSpent budget (tests_on _plain.now _events _fault fail.now)) }
{
    same_faults_are_equal();
    reduce(alloc, fail, budget, rounds)
}

/// What is left against one fault, by tests on one thread.
fn reduce_serially(
    alloc: Global,
    plain: &Plain,
    fail: &Schedule,
    fault: Fault,
    events: u64,
    budget: u64,
) -> Result<Reduced, ReduceFault>
    requires size { length fail.now ≤ MOST_SWITCHES }
    requires some { 1 ≤ events }
    requires limit { events ≤ MOST_EVENTS }
    requires begins { end_of plain.now (start_machine plain.now) events ≡ None }
    requires fails { EndsSo plain.now events fail.now (end.Fault fault) }
    ensures left { IfOk result (IsLeftOf plain.now events fail.now fault) }
    ensures within { IfOk result (λ r. tests_on plain.now events fault fail.now ≤ budget) }
    ensures few { IfOk result (λ r. length r.schedule ≤ MOST_SWITCHES) }
    ensures spent { IfErr result (IsSpent budget (tests_on plain.now events fault fail.now)) }
{
    let mut rounds = SerialRounds::new(alloc, plain, fault, events)?;
    reduce_with(alloc, plain, fail, fault, events, budget, &mut rounds)
}

/// What is left against one fault, by tests on several threads.
fn reduce_widely<H: Threads + Sync>(
    rt: &H,
    alloc: Global,
    plain: &Plain,
    fail: &Schedule,
    fault: Fault,
    events: u64,
    budget: u64,
    workers: u32,
) -> Result<Reduced, ReduceFault>
    requires size { length fail.now ≤ MOST_SWITCHES }
    requires some { 1 ≤ events }
    requires limit { events ≤ MOST_EVENTS }
    requires begins { end_of plain.now (start_machine plain.now) events ≡ None }
    requires fails { EndsSo plain.now events fail.now (end.Fault fault) }
    ensures left { IfOk result (IsLeftOf plain.now events fail.now fault) }
    ensures within { IfOk result (λ r. tests_on plain.now events fault fail.now ≤ budget) }
    ensures few { IfOk result (λ r. length r.schedule ≤ MOST_SWITCHES) }
    ensures spent { IfErr result (IsSpent budget (tests_on plain.now events fault fail.now)) }
{
    let mut rounds = WideRounds::new(rt, alloc, plain, fault, events, workers)?;
    reduce_with(alloc, plain, fail, fault, events, budget, &mut rounds)
}

/// What is left against one fault.
fn reduce_fault<H: Threads + Sync>(
    rt: &H,
    alloc: Global,
    plain: &Plain,
    fail: &Schedule,
    fault: Fault,
    events: u64,
    budget: u64,
    workers: u32,
) -> Result<Reduced, ReduceFault>
    requires size { length fail.now ≤ MOST_SWITCHES }
    requires some { 1 ≤ events }
    requires limit { events ≤ MOST_EVENTS }
    requires begins { end_of plain.now (start_machine plain.now) events ≡ None }
    requires fails { EndsSo plain.now events fail.now (end.Fault fault) }
    ensures left { IfOk result (IsLeftOf plain.now events fail.now fault) }
    ensures within { IfOk result (λ r. tests_on plain.now events fault fail.now ≤ budget) }
    ensures few { IfOk result (λ r. length r.schedule ≤ MOST_SWITCHES) }
    ensures spent { IfErr result (IsSpent budget (tests_on plain.now events fault fail.now)) }
{
    if 1 < workers {
        reduce_widely(rt, alloc, plain, fail, fault, events, budget, workers)
    } else {
        reduce_serially(alloc, plain, fail, fault, events, budget)
    }
}

/// Leaves switches out of a failing schedule of a program, until its run ends otherwise without any single one of those that
/// are left (Zeller and Hildebrandt 2002). The fault is that of the schedule's own run.
///
/// `events`, from 1 to 1,048,576, is how many events a run may make; `budget` is how many tests are allowed; `workers` is how
/// many tests may be run at once. The answer is the same for every number of workers.
pub fn reduce_program<H: Threads + Sync>(
    rt: &H,
    alloc: Global,
    plain: &Plain,
    fail: &Schedule,
    events: u64,
    budget: u64,
    workers: u32,
) -> Result<Reduced, ReductionRefusal>
    requires size { length fail.now ≤ MOST_SWITCHES }
    requires some { 1 ≤ events }
    requires limit { events ≤ MOST_EVENTS }
    requires begins { end_of plain.now (start_machine plain.now) events ≡ None }
    ensures reduction { IfOk result (IsReduction plain.now events fail.now budget) }
    ensures few { IfOk result (λ found. length found.schedule ≤ MOST_SWITCHES) }
    // What is left can be stored for as many events as the given times.
    ensures times { AreTimes events fail.now → IfOk result (λ found. AreTimes events found.schedule) }
    ensures small { AreTimes events fail.now → IfOk result (λ found. All (λ time. time ≤ MOST_EVENTS) found.schedule) }
    ensures refuses { IfErr result (Refuses plain.now events fail.now budget) }
{
    match end_of_run(alloc, plain, fail, events)? {
        End::Fault(fault) => Ok(reduce_fault(
            rt, alloc, plain, fail, fault, events, budget, workers,
        )?),
        other => Err(ReductionRefusal::NotFailing(other)),
    }
}

//! Isolation between two schedules of one program.

ghost use Rattle.std.specs.Prelude.{◌≡◌, ◌≤◌, None, length, IfOk, IfErr};
ghost use Rattle.vm_model.specs.declared.limits.TheConstants.{MOST_EVENTS, MOST_SWITCHES};
ghost use Rattle.vm_model.specs.declared.ends.End.TheVariants as end;
ghost use Rattle.machine_model.specs.Machine.{end_of, start_machine};
ghost use Rattle.schedule_model.specs.Outcomes.{outcome_of};
ghost use Rattle.dd_isolator.specs.Answers.{IsSpent};
ghost use Rattle.program_isolator.specs.Isolations.{tests_between, EndsSo, IsFoundBetween, IsIsolation, Refuses};

use crate::refusal::IsolationRefusal;
use dd_isolator::{IsolateFault, isolate};
use outcome_test::{SerialRounds, WideRounds};
use schedule_model::{Isolated, Rounds, Schedule};
use std::alloc::Global;
use std::thread::Threads;
use switch_schedule::run_schedule;
use vm_model::{End, Fault, NoMemory, Plain};

/// How the run of a schedule ends. `events`, from 1 to 1,048,576, is how many events it may make.
pub fn end_of_run(
    alloc: Global,
    plain: &Plain,
    schedule: &Schedule,
    events: u64,
) -> Result<End, NoMemory>
    requires few { length schedule.now ≤ MOST_SWITCHES }
    requires some { 1 ≤ events }
    requires limit { events ≤ MOST_EVENTS }
    requires begins { end_of plain.now (start_machine plain.now) events ≡ None }
    ensures { IfOk result (EndsSo plain.now events schedule.now) }
{
    let ran = run_schedule(alloc, plain, schedule, events)?;
    Ok(ran.end)
}

/// The isolation against one fault, by rounds of the program's runs that have asked nothing yet.
fn isolate_with<R: Rounds>(
    alloc: Global,
    _plain: &Plain,
    pass: &Schedule,
    fail: &Schedule,
    _fault: Fault,
    events: u64,
    budget: u64,
    rounds: &mut R,
) -> Result<Isolated, IsolateFault>
    requires pass_size { length pass.now ≤ MOST_SWITCHES }
    requires fail_size { length fail.now ≤ MOST_SWITCHES }
    requires limit { events ≤ MOST_EVENTS }
    requires passes { EndsSo _plain.now events pass.now end.Done }
    requires fails { EndsSo _plain.now events fail.now (end.Fault _fault) }
    requires outcome { R.outcome rounds.old ≡ outcome_of _plain.now events _fault }
    requires events { R.events rounds.old ≡ events }
    requires fresh { R.asked rounds.old ≡ 0 }
    ensures found { IfOk result (IsFoundBetween _plain.now events pass.now fail.now _fault) }
    ensures within { IfOk result (λ r. tests_between _plain.now events _fault pass.now fail.now ≤ budget) }
    ensures same_size { IfOk result (λ r. length r.fail ≡ length r.pass) }
    ensures spent { IfErr result (IsSpent budget (tests_between _plain.now events _fault pass.now fail.now)) }
{
    isolate(alloc, pass, fail, events, budget, rounds)
}

/// The isolation against one fault, on one thread.
fn isolate_serially(
    alloc: Global,
    plain: &Plain,
    pass: &Schedule,
    fail: &Schedule,
    fault: Fault,
    events: u64,
    budget: u64,
) -> Result<Isolated, IsolateFault>
    requires pass_size { length pass.now ≤ MOST_SWITCHES }
    requires fail_size { length fail.now ≤ MOST_SWITCHES }
    requires some { 1 ≤ events }
    requires limit { events ≤ MOST_EVENTS }
    requires begins { end_of plain.now (start_machine plain.now) events ≡ None }
    requires passes { EndsSo plain.now events pass.now end.Done }
    requires fails { EndsSo plain.now events fail.now (end.Fault fault) }
    ensures found { IfOk result (IsFoundBetween plain.now events pass.now fail.now fault) }
    ensures within { IfOk result (λ r. tests_between plain.now events fault pass.now fail.now ≤ budget) }
    ensures same_size { IfOk result (λ r. length r.fail ≡ length r.pass) }
    ensures spent { IfErr result (IsSpent budget (tests_between plain.now events fault pass.now fail.now)) }
{
    let mut rounds = SerialRounds::new(alloc, plain, fault, events)?;
    isolate_with(alloc, plain, pass, fail, fault, events, budget, &mut rounds)
}

/// The isolation against one fault, on several threads.
fn isolate_widely<H: Threads + Sync>(
    rt: &H,
    alloc: Global,
    plain: &Plain,
    pass: &Schedule,
    fail: &Schedule,
    fault: Fault,
    events: u64,
    budget: u64,
    workers: u32,
) -> Result<Isolated, IsolateFault>
    requires pass_size { length pass.now ≤ MOST_SWITCHES }
    requires fail_size { length fail.now ≤ MOST_SWITCHES }
    requires some { 1 ≤ events }
    requires limit { events ≤ MOST_EVENTS }
    requires begins { end_of plain.now (start_machine plain.now) events ≡ None }
    requires passes { EndsSo plain.now events pass.now end.Done }
    requires fails { EndsSo plain.now events fail.now (end.Fault fault) }
    ensures found { IfOk result (IsFoundBetween plain.now events pass.now fail.now fault) }
    ensures within { IfOk result (λ r. tests_between plain.now events fault pass.now fail.now ≤ budget) }
    ensures same_size { IfOk result (λ r. length r.fail ≡ length r.pass) }
    ensures spent { IfErr result (IsSpent budget (tests_between plain.now events fault pass.now fail.now)) }
{
    let mut rounds = WideRounds::new(rt, alloc, plain, fault, events, workers)?;
    isolate_with(alloc, plain, pass, fail, fault, events, budget, &mut rounds)
}

/// The isolation against one fault.
fn isolate_fault<H: Threads + Sync>(
    rt: &H,
    alloc: Global,
    plain: &Plain,
    pass: &Schedule,
    fail: &Schedule,
    fault: Fault,
    events: u64,
    budget: u64,
    workers: u32,
) -> Result<Isolated, IsolateFault>
    requires pass_size { length pass.now ≤ MOST_SWITCHES }
    requires fail_size { length fail.now ≤ MOST_SWITCHES }
    requires some { 1 ≤ events }
    requires limit { events ≤ MOST_EVENTS }
    requires begins { end_of plain.now (start_machine plain.now) events ≡ None }
    requires passes { EndsSo plain.now events pass.now end.Done }
    requires fails { EndsSo plain.now events fail.now (end.Fault fault) }
    ensures found { IfOk result (IsFoundBetween plain.now events pass.now fail.now fault) }
    ensures within { IfOk result (λ r. tests_between plain.now events fault pass.now fail.now ≤ budget) }
    ensures same_size { IfOk result (λ r. length r.fail ≡ length r.pass) }
    ensures spent { IfErr result (IsSpent budget (tests_between plain.now events fault pass.now fail.now)) }
{
    if 1 < workers {
        isolate_widely(rt, alloc, plain, pass, fail, fault, events, budget, workers)
    } else {
        isolate_serially(alloc, plain, pass, fail, fault, events, budget)
    }
}

/// Isolates what makes the difference between a passing and a failing schedule of a program: a pair of schedules that no
/// shift of a single switch time by one brings nearer to each other (Zeller and Hildebrandt 2002; Choi and Zeller 2002).
///
/// `events`, from 1 to 1,048,576, is how many events a run may make; `budget` is how many tests are allowed; `workers` is how
/// many tests may be run at once. The answer is the same for every number of workers.
pub fn isolate_program<H: Threads + Sync>(
    rt: &H,
    alloc: Global,
    plain: &Plain,
    pass: &Schedule,
    fail: &Schedule,
    events: u64,
    budget: u64,
    workers: u32,
) -> Result<Isolated, IsolationRefusal>
    requires pass_size { length pass.now ≤ MOST_SWITCHES }
    requires fail_size { length fail.now ≤ MOST_SWITCHES }
    requires some { 1 ≤ events }
    requires limit { events ≤ MOST_EVENTS }
    requires begins { end_of plain.now (start_machine plain.now) events ≡ None }
    ensures isolation { IfOk result (IsIsolation plain.now events pass.now fail.now budget) }
    ensures same_size { IfOk result (λ found. length found.fail ≡ length found.pass) }
    ensures refuses { IfErr result (Refuses plain.now events pass.now fail.now budget) }
{
    match end_of_run(alloc, plain, pass, events)? {
        End::Done => {}
        other => return Err(IsolationRefusal::NotPassing(other)),
    }
    match end_of_run(alloc, plain, fail, events)? {
        End::Fault(fault) => Ok(isolate_fault(
            rt, alloc, plain, pass, fail, fault, events, budget, workers,
        )?),
        other => Err(IsolationRefusal::NotFailing(other)),
    }
}

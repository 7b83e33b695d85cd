//! Tests that are run side by side.

ghost use Rattle.std.specs.Prelude.{◌≡◌, ◌≤◌, ◌<◌, ◌+◌, ◌^◌, None, length, All, IfOk};
ghost use Rattle.std.specs.List.{AllZip, HoldsAt};
ghost use Rattle.vm_model.specs.declared.limits.TheConstants.{MOST_EVENTS, MOST_SWITCHES};
ghost use Rattle.machine_model.specs.Machine.{end_of, start_machine};
ghost use Rattle.schedule_model.specs.Finds.{IsFirstResolved};
ghost use Rattle.schedule_model.specs.Outcomes.{outcome_of};
ghost use Rattle.outcome_test.specs.Rounds.{Shows};

use crate::judging::outcome_of;
use rayon::prelude::*;
use schedule_model::{Found, Outcome, Schedule};
use std::alloc::Global;
use std::thread::Threads;
use vm_model::{Fault, NoMemory, Plain};

/// What each of some tests shows, in order; they are run side by side.
fn outcomes<H: Threads + Sync>(
    rt: &H,
    alloc: Global,
    plain: &Plain,
    fault: &Fault,
    events: u64,
    tests: &[Schedule],
) -> Result<Vec<Result<Outcome, NoMemory>>, NoMemory>
    requires sizes { All (λ test. length test ≤ MOST_SWITCHES) tests.now }
    requires some { 1 ≤ events }
    requires limit { events ≤ MOST_EVENTS }
    requires begins { end_of plain.now (start_machine plain.now) events ≡ None }
    ensures { IfOk result (λ shown. AllZip (Shows (outcome_of plain.now events fault.now)) tests.now shown.items) }
{
    Ok(
        tests
            .par_iter()
            .with_min_len(1)
            .map(
                |test: &Schedule| -> Result<Outcome, NoMemory>
                    requires { (length test.now ≤ MOST_SWITCHES) × (1 ≤ events) × (events ≤ MOST_EVENTS) × (end_of plain.now (start_machine plain.now) events ≡ None) }
                    ensures { Shows (outcome_of plain.entry.now events fault.entry.now) test.now result }
                { outcome_of(alloc, plain, fault, events, test) },
            )
            .collect(rt, alloc)?,
    )
}

/// What one of some tests was found to show.
fn shown_at(
    shown: &[Result<Outcome, NoMemory>],
    plain: &Plain,
    fault: &Fault,
    events: u64,
    tests: &[Schedule],
    i: usize,
) -> Result<Outcome, NoMemory>
    requires each { AllZip (Shows (outcome_of plain.now events fault.now)) tests.now shown.now }
    requires within { i < length shown.now }
    ensures { IfOk result (λ o. HoldsAt (λ test. outcome_of plain.now events fault.now test ≡ o) tests.now i) }
{
    shown[i]
}

/// The first resolved one of some tests, by what each was found to show. Memory that ran out counts where no test before it
/// is resolved.
fn first_shown(
    shown: &[Result<Outcome, NoMemory>],
    plain: &Plain,
    fault: &Fault,
    events: u64,
    tests: &[Schedule],
) -> Result<Found, NoMemory>
    requires few { length tests.now < 2 ^ 32 }
    requires same { length shown.now ≡ length tests.now }
    requires each { AllZip (Shows (outcome_of plain.now events fault.now)) tests.now shown.now }
    ensures { IfOk result (IsFirstResolved (outcome_of plain.now events fault.now) tests.now) }
{
    for i in 0..shown.len() {
        let outcome = shown_at(shown, plain, fault, events, tests, i)?;
        match outcome {
            Outcome::Pass => return Ok(Found::Resolved {
                at: i as u32,
                outcome,
            }),
            Outcome::Fail => return Ok(Found::Resolved {
                at: i as u32,
                outcome,
            }),
            Outcome::Unresolved => {}
        }
    }
    Ok(Found::NoneResolved)
}

/// The first resolved one of a group of tests, which are run side by side.
fn group<H: Threads + Sync>(
    rt: &H,
    alloc: Global,
    plain: &Plain,
    fault: &Fault,
    events: u64,
    tests: &[Schedule],
) -> Result<Found, NoMemory>
    requires few { length tests.now < 2 ^ 32 }
    requires sizes { All (λ test. length test ≤ MOST_SWITCHES) tests.now }
    requires some { 1 ≤ events }
    requires limit { events ≤ MOST_EVENTS }
    requires begins { end_of plain.now (start_machine plain.now) events ≡ None }
    ensures { IfOk result (IsFirstResolved (outcome_of plain.now events fault.now) tests.now) }
{
    let shown = outcomes(rt, alloc, plain, fault, events, tests)?;
    first_shown(shown.as_slice(), plain, fault, events, tests)
}

/// The first resolved one of some tests, group by group of so many.
pub(crate) fn first_of<H: Threads + Sync>(
    rt: &H,
    alloc: Global,
    plain: &Plain,
    fault: &Fault,
    events: u64,
    workers: usize,
    tests: &[Schedule],
) -> Result<Found, NoMemory>
    requires few { length tests.now < 2 ^ 32 }
    requires sizes { All (λ test. length test ≤ MOST_SWITCHES) tests.now }
    requires some { 1 ≤ events }
    requires limit { events ≤ MOST_EVENTS }
    requires begins { end_of plain.now (start_machine plain.now) events ≡ None }
    requires some_worker { 1 ≤ workers }
    ensures { IfOk result (IsFirstResolved (outcome_of plain.now events fault.now) tests.now) }
{
    let mut done = 0;
    while done < tests.len() {
        let end = done + workers.min(tests.len() - done);
        match group(rt, alloc, plain, fault, events, &tests[done..end])? {
            Found::Resolved { at, outcome } => return Ok(Found::Resolved {
                at: done as u32 + at,
                outcome,
            }),
            Found::NoneResolved => done = end,
        }
    }
    Ok(Found::NoneResolved)
}

//! Rounds of tests on one thread.

ghost use Rattle.outcome_test.specs.Memos.{Remembers};
ghost use Rattle.outcome_test.specs.Resumed.{AreUnder};
ghost use Rattle.std.specs.Prelude.{◌≡◌, ◌≤◌, ◌<◌, ◌+◌, ◌^◌, None, length, All, IfOk};
ghost use Rattle.vm_model.specs.declared.limits.TheConstants.{MOST_EVENTS, MOST_SWITCHES};
ghost use Rattle.vm_model.specs.declared.ends.Fault.{Fault};
ghost use Rattle.machine_model.specs.Machine.{end_of, start_machine};
ghost use Rattle.schedule_model.specs.Finds.{IsFirstResolved};
ghost use Rattle.schedule_model.specs.Outcomes.{outcome_of};
ghost use Rattle.switch_schedule.proofs.Alike.{reads_counts};
ghost use Rattle.outcome_test.specs.Rounds.{counted};

use crate::judging::outcome;
use crate::memo::Memo;
use crate::resuming::Resumed;
use schedule_model::{Found, Outcome, Rounds, Schedule};
use std::alloc::Global;
use std::marker::Model;
use thread_driver::in_order;
use vm_model::{Fault, NoMemory, Plain};

/// Rounds on one thread of the tool's own: tests are run in order, up to the first resolved one. What a test showed is
/// remembered, of at most 4,096 tests with at most 4,194,304 times in all, and no such test is run again. At most 16 runs are
/// kept, each paused where it parted from an earlier one, and a test goes on from the one of them that has most of its run.
#[derive(Drop)]
pub struct SerialRounds<'a> {
    plain: &'a Plain,
    fault: Fault,
    events: u64,
    memo: Memo,
    runs: Resumed,
    resolved: u64,
    unresolved: u64,
}

impl<'a> Model for SerialRounds<'a> {
    ghost use Rattle.outcome_test.specs.Rounds.{RoundsState};
    ghost use Rattle.outcome_test.specs.SerialView.{view_of, IsKept};

    ghost Value = { RoundsState };

    ghost view = { view_of };

    ghost invariant = { IsKept };
}

impl<'a> SerialRounds<'a> {
    /// Rounds that have asked nothing yet, of runs of a program from its start. `fault` is what a run has to end in to fail;
    /// `events`, from 1 to 1,048,576, is how many events it may make.
    pub fn new(
        alloc: Global,
        plain: &'a Plain,
        fault: Fault,
        events: u64,
    ) -> Result<SerialRounds<'a>, NoMemory>
        requires some { 1 ≤ events }
        requires limit { events ≤ MOST_EVENTS }
        requires begins { end_of plain.now (start_machine plain.now) events ≡ None }
        ensures { IfOk result (λ rounds. rounds ≡ record { program = plain.now; fault = fault; events = events; resolved = 0; unresolved = 0 }) }
    {
        Ok(SerialRounds {
            plain,
            fault,
            events,
            memo: Memo::new(alloc),
            runs: Resumed::new(alloc),
            resolved: 0,
            unresolved: 0,
        })
    }

    /// How many events were made by tests that were run to their ends, without those that they had from paused runs. It stays at
    /// 2^64 - 1 once it is there. It takes no memory.
    pub fn turns(&self) -> u64 {
        self.runs.turns()
    }
}

/// What a test shows: as it is remembered, or else by its run.
fn shown(
    alloc: Global,
    plain: &Plain,
    fault: &Fault,
    events: u64,
    memo: &mut Memo,
    runs: &mut Resumed,
    test: &Schedule,
) -> Result<Outcome, NoMemory>
    requires few { length test.now ≤ MOST_SWITCHES }
    requires some { 1 ≤ events }
    requires limit { events ≤ MOST_EVENTS }
    requires begins { end_of plain.now (start_machine plain.now) events ≡ None }
    requires remembers { Remembers (outcome_of plain.now events fault.now) memo.old }
    requires under { AreUnder plain.now events runs.old }
    ensures shows { IfOk result (λ o. outcome_of plain.now events fault.now test.now ≡ o) }
    ensures remembers { Remembers (outcome_of plain.now events fault.now) memo.new }
    ensures under { AreUnder plain.now events runs.new }
{
    let sorted = in_order(alloc, &test.times)?;
    if let Some(shown) = memo.shown(sorted.as_slice()) {
        return Ok(shown);
    }
    let times = Vec::from_slice(alloc, &sorted)?;
    let end = runs.end_of(alloc, plain, times, events)?;
    let shown = outcome(&end, fault);
    memo.remember(sorted, shown)?;
    Ok(shown)
}

/// The first resolved one of some tests.
fn first_of(
    alloc: Global,
    plain: &Plain,
    fault: &Fault,
    events: u64,
    memo: &mut Memo,
    runs: &mut Resumed,
    tests: &[Schedule],
) -> Result<Found, NoMemory>
    requires few { length tests.now < 2 ^ 32 }
    requires sizes { All (λ test. length test ≤ MOST_SWITCHES) tests.now }
    requires some { 1 ≤ events }
    requires limit { events ≤ MOST_EVENTS }
    requires begins { end_of plain.now (start_machine plain.now) events ≡ None }
    requires remembers { Remembers (outcome_of plain.now events fault.now) memo.old }
    requires under { AreUnder plain.now events runs.old }
    ensures first { IfOk result (IsFirstResolved (outcome_of plain.now events fault.now) tests.now) }
    ensures remembers { Remembers (outcome_of plain.now events fault.now) memo.new }
    ensures under { AreUnder plain.now events runs.new }
{
    for i in 0..tests.len() {
        let outcome = shown(alloc, plain, fault, events, memo, runs, &tests[i])?;
        match outcome {
            Outcome::Pass => return Ok(Found::Resolved {
                at: i as u32,
                outcome,
            }),
            Outcome::Fail => return Ok(Found::Resolved {
                at: i as u32,
                outcome,
            }),
            Outcome::Unresolved => {}
        }
    }
    Ok(Found::NoneResolved)
}

impl<'a> Rounds for SerialRounds<'a> {
    ghost outcome = { λ s. outcome_of s.program s.events s.fault };

    ghost events = { λ s. s.events };

    ghost asked = { λ s. s.resolved + s.unresolved };

    ghost unresolved = { λ s. s.unresolved };

    ghost reads_counts = { λ s. reads_counts s.program s.events s.fault };

    ghost unresolved_counted = { λ s. counted s.resolved s.unresolved };

    fn first_resolved(&mut self, alloc: Global, tests: &[Schedule]) -> Result<Found, NoMemory> {
        let found = first_of(
            alloc,
            self.plain,
            &self.fault,
            self.events,
            &mut self.memo,
            &mut self.runs,
            tests,
        )?;
        match found {
            Found::Resolved { at, outcome: _ } => {
                self.resolved += 1;
                self.unresolved += u64::from(at);
            }
            Found::NoneResolved => {
                self.unresolved += tests.len() as u64;
            }
        }
        Ok(found)
    }

    fn asked(&self) -> u64 {
        self.resolved + self.unresolved
    }

    fn unresolved(&self) -> u64 {
        self.unresolved
    }
}

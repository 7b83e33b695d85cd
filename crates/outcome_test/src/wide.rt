//! Rounds of tests on several threads.

ghost use Rattle.std.specs.Prelude.{◌≡◌, ◌≤◌, ◌<◌, ◌+◌, ◌^◌, None, length, IfOk};
ghost use Rattle.vm_model.specs.declared.limits.TheConstants.{MOST_EVENTS};
ghost use Rattle.machine_model.specs.Machine.{end_of, start_machine};
ghost use Rattle.schedule_model.specs.Outcomes.{outcome_of};
ghost use Rattle.switch_schedule.proofs.Alike.{reads_counts};
ghost use Rattle.outcome_test.specs.Rounds.{counted};

use crate::side::first_of;
use crate::starter::Starter;
use schedule_model::{Found, Rounds, Schedule};
use std::alloc::Global;
use std::marker::Model;
use std::thread::Threads;
use vm_model::{Fault, NoMemory, Plain};

/// Rounds on several threads of the tool's own: groups of tests are run side by side, up to the first group with a resolved
/// test, and their outcomes are read in order.
pub struct WideRounds<'a, H: Threads + Sync> {
    starter: Starter<H>,
    plain: &'a Plain,
    fault: Fault,
    events: u64,
    workers: u32,
    resolved: u64,
    unresolved: u64,
}

impl<'a, H: Threads + Sync> Model for WideRounds<'a, H> {
    ghost use Rattle.outcome_test.specs.Rounds.{RoundsState};
    ghost use Rattle.outcome_test.specs.WideView.{view_of, IsKept};

    ghost Value = { RoundsState };

    ghost view = { view_of };

    ghost invariant = { IsKept };
}

impl<'a, H: Threads + Sync> Drop for WideRounds<'a, H> {
    fn drop(self) {
        let WideRounds {
            starter: _,
            plain: _,
            fault: _,
            events: _,
            workers: _,
            resolved: _,
            unresolved: _,
        } = self;
    }
}

impl<'a, H: Threads + Sync> WideRounds<'a, H> {
    /// Rounds that have asked nothing yet, of runs of a program from its start. `fault` is what a run has to end in to fail;
    /// `events`, from 1 to 1,048,576, is how many events it may make; `workers` is how many tests a group has, where 0 counts
    /// as 1.
    pub fn new(
        rt: &H,
        _alloc: Global,
        plain: &'a Plain,
        fault: Fault,
        events: u64,
        workers: u32,
    ) -> Result<WideRounds<'a, H>, NoMemory>
        requires some { 1 ≤ events }
        requires limit { events ≤ MOST_EVENTS }
        requires begins { end_of plain.now (start_machine plain.now) events ≡ None }
        ensures { IfOk result (λ rounds. rounds ≡ record { program = plain.now; fault = fault; events = events; resolved = 0; unresolved = 0 }) }
    {
        Ok(WideRounds {
            starter: Starter::of(rt),
            plain,
            fault,
            events,
            workers,
            resolved: 0,
            unresolved: 0,
        })
    }
}

impl<'a, H: Threads + Sync> Rounds for WideRounds<'a, H> {
    ghost outcome = { λ s. outcome_of s.program s.events s.fault };

    ghost events = { λ s. s.events };

    ghost asked = { λ s. s.resolved + s.unresolved };

    ghost unresolved = { λ s. s.unresolved };

    ghost reads_counts = { λ s. reads_counts s.program s.events s.fault };

    ghost unresolved_counted = { λ s. counted s.resolved s.unresolved };

    fn first_resolved(&mut self, alloc: Global, tests: &[Schedule]) -> Result<Found, NoMemory> {
        let workers = self.workers.max(1) as usize;
        let found = first_of(
            &self.starter,
            alloc,
            self.plain,
            &self.fault,
            self.events,
            workers,
            tests,
        )?;
        match found {
            Found::Resolved { at, outcome: _ } => {
                self.resolved += 1;
                self.unresolved += u64::from(at);
            }
            Found::NoneResolved => {
                self.unresolved += tests.len() as u64;
            }
        }
        Ok(found)
    }

    fn asked(&self) -> u64 {
        self.resolved + self.unresolved
    }

    fn unresolved(&self) -> u64 {
        self.unresolved
    }
}

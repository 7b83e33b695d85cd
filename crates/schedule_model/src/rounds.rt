//! Tests of schedules, several at a time.

ghost use Rattle.std.specs.Prelude.{◌≡◌, ◌<◌, ◌≤◌, ◌+◌, ◌^◌, ℕ, List, length, take, All, IfOk, OnErr};
ghost use Rattle.vm_model.specs.declared.limits.TheConstants.{MOST_SWITCHES};
ghost use Rattle.schedule_model.specs.declared.outcome.Outcome.{Outcome};
ghost use Rattle.schedule_model.specs.Outcomes.{ReadsCounts, unresolved_among};
ghost use Rattle.schedule_model.specs.Finds.{IsFirstResolved, tests_counted};

use crate::outcome::Outcome;
use crate::schedule::Schedule;
use std::alloc::Global;
use vm_model::NoMemory;

/// The first resolved one of several tests.
#[derive(Clone, Copy, Debug, PartialEq, Eq)]
pub enum Found {
    /// The least place whose outcome is `Pass` or `Fail`, from 0, and that outcome.
    Resolved { at: u32, outcome: Outcome },
    /// Every test is unresolved.
    NoneResolved,
}

/// Runs tests of one program against one fault, several at a time, and counts them.
pub trait Rounds {
    /// What each schedule shows.
    ghost outcome: { Self → List ℕ → Outcome };

    /// How many events a run may make.
    ghost events: { Self → ℕ };

    /// How many tests have counted so far.
    ghost asked: { Self → ℕ };

    /// How many of them were unresolved.
    ghost unresolved: { Self → ℕ };

    /// The first resolved one of the tests, each of at most 16,384 times. Those up to and with it count, or all where none
    /// is resolved. After an `Err` memory was not found, and none counts.
    fn first_resolved(&mut self, alloc: Global, tests: &[Schedule]) -> Result<Found, NoMemory>
        requires few { length tests.now < 2 ^ 32 }
        requires sizes { All (λ test. length test ≤ MOST_SWITCHES) tests.now }
        requires room { asked self.old + length tests.now < 2 ^ 64 }
        ensures first { IfOk result (IsFirstResolved (outcome self.old) tests.now) }
        ensures asked { IfOk result (λ found. asked self.new ≡ asked self.old + tests_counted tests.now found) }
        ensures unresolved { IfOk result (λ found. unresolved self.new ≡ unresolved self.old + unresolved_among (outcome self.old) (take (tests_counted tests.now found) tests.now)) }
        ensures err { OnErr result ((asked self.new ≡ asked self.old) × (unresolved self.new ≡ unresolved self.old)) }
        ensures outcome { outcome self.new ≡ outcome self.old }
        ensures events { events self.new ≡ events self.old };

    /// How many tests have counted so far.
    fn asked(&self) -> u64
        ensures { result ≡ asked self.now };

    /// How many of them were unresolved.
    fn unresolved(&self) -> u64
        ensures { result ≡ unresolved self.now };

    // Only how often each time below the number of events occurs is read.
    ghost reads_counts: { (rounds : Self) → ReadsCounts (events rounds) (outcome rounds) };

    // What is unresolved has counted.
    ghost unresolved_counted: { (rounds : Self) → unresolved rounds ≤ asked rounds };
}

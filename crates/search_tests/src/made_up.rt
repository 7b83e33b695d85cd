//! Made-up runs, of which one fails where a switch stands before event 5.

ghost use Rattle.std.specs.Prelude.{◌≡◌};
ghost use Rattle.search_tests.specs.MadeUp.{none_unresolved, outcome_at_five, reads_five};

use schedule_model::{Found, Outcome, Rounds, Schedule};
use std::alloc::Global;
use vm_model::NoMemory;

/// Rounds of such runs, of which none is unresolved.
#[derive(Drop)]
pub struct FailsAtFive {
    pub asked: u64,
}

/// What such a run of a schedule shows.
pub fn shows(schedule: &Schedule) -> Outcome
    ensures { result ≡ outcome_at_five schedule.now }
{
    if schedule.times.contains(&5) {
        Outcome::Fail
    } else {
        Outcome::Pass
    }
}

impl Rounds for FailsAtFive {
    ghost outcome = { λ s. outcome_at_five };

    ghost events = { λ s. 20 };

    ghost asked = { λ s. s.asked };

    ghost unresolved = { λ s. 0 };

    ghost reads_counts = { λ s. reads_five };

    ghost unresolved_counted = { λ s. none_unresolved s.asked };

    fn first_resolved(&mut self, _alloc: Global, tests: &[Schedule]) -> Result<Found, NoMemory> {
        if tests.is_empty() {
            return Ok(Found::NoneResolved);
        }
        self.asked += 1;
        Ok(Found::Resolved {
            at: 0,
            outcome: shows(&tests[0]),
        })
    }

    fn asked(&self) -> u64 {
        self.asked
    }

    fn unresolved(&self) -> u64 {
        0
    }
}

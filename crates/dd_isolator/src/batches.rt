//! The tests of a round, several at a time.

ghost use Rattle.std.specs.Prelude.{◌≡◌, ◌≤◌, ◌<◌, ◌+◌, ◌^◌, length, map, All, IfOk};
ghost use Rattle.std.specs.List.{range_with_len};
ghost use Rattle.vm_model.specs.declared.limits.TheConstants.{MOST_SWITCHES};

use schedule_model::Schedule;
use std::alloc::Global;
use vm_model::NoMemory;

/// The greatest number of tests that are asked for at once.
pub const MOST_IN_BATCH: u64 = 64;

/// A round of tests. Each has a number, from 0 on.
pub trait NumberedTests {
    ghost use Rattle.std.specs.Prelude.{ℕ, List};

    /// How many tests there are.
    ghost size: { Self → ℕ };

    /// The times of each test.
    ghost times: { Self → ℕ → List ℕ };

    /// The schedule of a test. After an `Err` memory was not found.
    fn schedule(&self, alloc: Global, i: u64) -> Result<Schedule, NoMemory>
        requires { i < size self.now }
        ensures times { IfOk result (λ test. test ≡ times self.now i) }
        ensures few { IfOk result (λ test. length test ≤ MOST_SWITCHES) };
}

/// The schedules of so many tests, from one on. After an `Err` memory was not found.
pub fn batch<T: NumberedTests>(
    alloc: Global,
    round: &T,
    from: u64,
    count: u64,
) -> Result<Vec<Schedule>, NoMemory>
    requires within { from + count ≤ T.size round.now }
    requires few { from + count < 2 ^ 64 }
    ensures tests { IfOk result (λ tests. tests.items ≡ map (T.times round.now) (range_with_len from count)) }
    ensures sizes { IfOk result (λ tests. All (λ test. length test ≤ MOST_SWITCHES) tests.items) }
{
    let end = from + count;
    let mut tests = Vec::new(alloc);
    for i in from..end {
        tests.push(round.schedule(alloc, i)?)?;
    }
    Ok(tests)
}

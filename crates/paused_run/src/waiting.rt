//! Times in rising order: which of them are still to come, and where two lists of them part.

ghost use Rattle.std.specs.Prelude.{◌≡◌, ◌≤◌, ◌+◌, length, drop, MatchOption};
ghost use Rattle.thread_driver.specs.Waiting.{Awaits, Rises};
ghost use Rattle.paused_run.specs.Partings.{AreAlike, PartAt};

/// How many times stand before this clock.
pub fn passed_before(times: &[u32], clock: u64) -> usize
    requires rising { Rises 0 times.now }
    ensures within { result ≤ length times.now }
    ensures waits { Awaits times.now clock (drop result times.now) }
{
    let mut passed = 0;
    let mut rest = times;
    while let [time, later @ ..] = rest {
        if u64::from(*time) >= clock {
            break;
        }
        passed += 1;
        rest = later;
    }
    passed
}

/// The first time that doesn't occur as often in both.
pub fn parting(own: &[u32], other: &[u32]) -> Option<u32>
    requires own { Rises 0 own.now }
    requires other { Rises 0 other.now }
    ensures { MatchOption result (AreAlike own.now other.now) (λ time. PartAt time own.now other.now) }
{
    let mut same = 0;
    while same < own.len() {
        if same == other.len() {
            return Some(own[same]);
        }
        if own[same] < other[same] {
            return Some(own[same]);
        }
        if own[same] > other[same] {
            return Some(other[same]);
        }
        same += 1;
    }
    if same < other.len() {
        Some(other[same])
    } else {
        None
    }
}

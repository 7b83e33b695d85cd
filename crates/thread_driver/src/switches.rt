//! The times of a schedule in order, of which each event takes its own.

ghost use Rattle.std.specs.Prelude.{◌≡◌, ◌≤◌, ◌+◌, length, drop, IfOk, IsPermutation};
ghost use Rattle.vm_model.specs.declared.limits.TheConstants.{MOST_SWITCHES};
ghost use Rattle.machine_model.specs.Ring.{switches_at};
ghost use Rattle.thread_driver.specs.Waiting.{Awaits, Rises};

use std::alloc::Global;
use vm_model::NoMemory;

/// The times in rising order, each as often as it was given.
pub fn in_order(alloc: Global, times: &[u32]) -> Result<Vec<u32>, NoMemory>
    ensures awaits { IfOk result (λ v. Awaits times.now 0 v.items) }
    ensures same { IfOk result (λ v. IsPermutation times.now v.items) }
    ensures size { IfOk result (λ v. length v.items ≡ length times.now) }
{
    let mut sorted = Vec::from_slice(alloc, times)?;
    sorted.sort_unstable();
    Ok(sorted)
}

/// How many of the times that are left are this event's. They stand first.
pub fn places_at(waiting: &[u32], event: u64) -> u32
    requires few { length waiting.now ≤ MOST_SWITCHES }
    requires rising { Rises event waiting.now }
    ensures value { result ≡ switches_at waiting.now event }
    ensures within { result ≤ length waiting.now }
    ensures rest { Awaits waiting.now (event + 1) (drop result waiting.now) }
{
    let mut places = 0;
    let mut rest = waiting;
    while let [time, later @ ..] = rest {
        if u64::from(*time) != event {
            break;
        }
        places += 1;
        rest = later;
    }
    places
}

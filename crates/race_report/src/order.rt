//! Which of two events is before the other.

ghost use Rattle.std.specs.Prelude.{◌≡◌, ◌<◌, ◌≤◌, ◌↔◌, IfOk, All, length, true};
ghost use Rattle.vm_model.specs.declared.limits.TheConstants.{MOST_EVENTS, MOST_THREADS};
ghost use Rattle.race_report.specs.HappensBefore.{HappensBefore};
ghost use Rattle.race_report.specs.Knowledge.{IsClockOf};

use crate::clocks::advance;
use crate::vector_clock::VectorClock;
use std::alloc::Global;
use std::collections::HashMap;
use vm_model::{Entry, NoMemory};

/// The vector clock of the event at a position.
fn clock_of_event(
    alloc: Global,
    history: &[Entry],
    position: usize,
) -> Result<VectorClock, NoMemory>
    requires within { position < length history.now }
    requires few { length history.now ≤ MOST_EVENTS }
    requires threads { All (λ e. e.thread < MOST_THREADS) history.now }
    ensures clock { IfOk result (λ clock. IsClockOf history.now position clock) }
{
    let mut clocks = HashMap::new(alloc);
    let mut starts = Vec::new(alloc);
    for earlier in 0..position {
        advance(&mut clocks, &mut starts, history, earlier)?;
    }
    advance(&mut clocks, &mut starts, history, position)
}

/// Whether an event is before another one, by the vector clock of the second. Both are given by their clocks, the numbers of
/// events in the history, from 0. It looks at all events up to the second one.
pub fn happens_before(
    alloc: Global,
    history: &[Entry],
    first: usize,
    second: usize,
) -> Result<bool, NoMemory>
    requires first { first < length history.now }
    requires second { second < length history.now }
    requires few { length history.now ≤ MOST_EVENTS }
    requires threads { All (λ e. e.thread < MOST_THREADS) history.now }
    ensures order { IfOk result (λ before. (before ≡ true) ↔ HappensBefore history.now first second) }
{
    if first == second {
        return Ok(false);
    }
    let clock = clock_of_event(alloc, history, second)?;
    Ok((first as u32) < clock.time(history[first].thread))
}

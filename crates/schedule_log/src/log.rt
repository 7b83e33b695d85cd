ghost use Rattle.std.specs.Prelude.{◌≡◌, IfOk};

use crate::folding::Folding;
use crate::interval::Interval;
use crate::placing::{events_of, merged};
use std::alloc::Global;
use std::marker::Model;
use vm_model::{EndKind, NoMemory};

/// A recorded run, as far as it depends on the interleaving: for how many events there was leave, which thread made
/// each event, and how the run ended.
///
/// Each log is lawful: the budget is from 1 to `MOST_EVENTS`; the intervals, of threads below 64, tile the clocks below the
/// number of events, which is from 1 to the budget; and the end is `Spent` only where it is the budget.
#[derive(Debug, Drop)]
pub struct Log {
    budget: u64,
    intervals: Vec<Interval>,
    end: EndKind,
}

impl Model for Log {
    ghost use Rattle.schedule_log.specs.Logs.{PlainLog};

    ghost Value = { PlainLog };

    ghost use Rattle.schedule_log.specs.LogView.{view_of, IsKept};

    ghost view = { view_of };

    ghost invariant = { IsKept };
}

impl Log {
    ghost use Rattle.schedule_log.specs.Logs.{IsLawful, events, expansion};
    ghost use Rattle.schedule_log.specs.Parts.{log_of_parts};

    /// The log of intervals that are in order of `first`.
    pub(crate) fn in_order(budget: u64, intervals: Vec<Interval>, end: EndKind) -> Log
        requires { IsLawful (record { budget = budget; intervals = intervals.items; end = end }) }
        ensures { result ≡ record { budget = budget; intervals = intervals.items; end = end } }
    {
        Log {
            budget,
            intervals,
            end,
        }
    }

    /// The log of a run: `budget` is the number of events that were allowed, from 1 to `MOST_EVENTS`, and each part has the
    /// intervals of one thread. The parts are given up, also where memory is missing.
    pub fn of(
        alloc: Global,
        budget: u64,
        parts: Vec<Folding>,
        end: EndKind,
    ) -> Result<Log, NoMemory>
        requires { IsLawful (log_of_parts budget parts.items end) }
        ensures { IfOk result (λ l. l ≡ log_of_parts budget parts.items end) }
    {
        let mut intervals = Vec::new(alloc);
        for part in &parts {
            intervals = merged(alloc, &intervals, part.intervals())?;
        }
        Ok(Log {
            budget,
            intervals,
            end,
        })
    }

    /// For how many events there was leave, from 1 to `MOST_EVENTS`.
    pub fn budget(&self) -> u64
        ensures { result ≡ self.now.budget }
    {
        self.budget
    }

    /// How the run ended, without the fault itself.
    pub fn end(&self) -> EndKind
        ensures { result ≡ self.now.end }
    {
        self.end
    }

    /// The intervals in order of `first`. The first begins at 0, and each other right after the one before it.
    pub fn intervals(&self) -> &[Interval]
        ensures items { result.now ≡ self.now.intervals }
        ensures lawful { IsLawful self.now }
    {
        &self.intervals
    }

    /// The number of events, from 1 to the budget.
    pub fn events(&self) -> u64
        ensures count { result ≡ events self.now }
        ensures lawful { IsLawful self.now }
    {
        events_of(&self.intervals)
    }

    /// The number of the thread of each event, in order of clock: as many numbers as events.
    pub fn expand(&self, alloc: Global) -> Result<Vec<u32>, NoMemory>
        ensures threads { IfOk result (λ v. v.items ≡ expansion self.now) }
        ensures lawful { IsLawful self.now }
    {
        let mut threads = Vec::new(alloc);
        for i in self.intervals.iter() {
            let count = threads.len() + (i.last + 1 - i.first) as usize;
            threads.resize(count, i.thread)?;
        }
        Ok(threads)
    }

    /// An equal log of its own.
    pub fn copy(&self, alloc: Global) -> Result<Log, NoMemory>
        ensures { IfOk result (λ l. l ≡ self.now) }
    {
        Ok(Log {
            budget: self.budget,
            intervals: Vec::from_slice(alloc, &self.intervals)?,
            end: self.end,
        })
    }
}

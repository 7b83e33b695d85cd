//! What tests showed, so that none is run twice.

ghost use Rattle.std.specs.Prelude.{◌≡◌, ◌≤◌, None, [], length};
ghost use Rattle.outcome_test.specs.Memos.{shown_of, times_in, MayAdd};

use indexmap::IndexMap;
use schedule_model::Outcome;
use std::alloc::Global;
use std::marker::Model;
use vm_model::NoMemory;

/// The greatest number of tests that are remembered.
const MOST_KEPT_TESTS: usize = 4_096;

/// The greatest number of times that they have in all.
const MOST_KEPT_TIMES: usize = 4_194_304;

/// What tests showed, by their times in order.
#[derive(Drop)]
pub(crate) struct Memo {
    outcomes: IndexMap<Vec<u32>, Outcome>,
    times: usize,
}

impl Model for Memo {
    ghost use Rattle.outcome_test.specs.Memos.{Rows};
    ghost use Rattle.outcome_test.specs.MemoView.{view_of, IsKept};

    ghost Value = { Rows };

    ghost view = { view_of };

    ghost invariant = { IsKept };
}

impl Memo {
    pub(crate) fn new(alloc: Global) -> Memo
        ensures { result ≡ [] }
    {
        Memo {
            outcomes: IndexMap::new(alloc),
            times: 0,
        }
    }

    /// What the test of these times in order showed, if it is remembered.
    pub(crate) fn shown(&self, sorted: &[u32]) -> Option<Outcome>
        ensures { result ≡ shown_of sorted.now self.now }
    {
        self.outcomes.get(sorted).copied()
    }

    /// Remembers what the test of these times in order showed, where there is room.
    pub(crate) fn remember(&mut self, sorted: Vec<u32>, shown: Outcome) -> Result<(), NoMemory>
        requires { shown_of sorted.items self.old ≡ None }
        ensures adds { MayAdd sorted.items shown self.old self.new }
        ensures few { length self.new ≤ MOST_KEPT_TESTS }
        ensures small { times_in self.new ≤ MOST_KEPT_TIMES }
    {
        let size = sorted.len();
        if self.outcomes.len() < MOST_KEPT_TESTS && size <= MOST_KEPT_TIMES - self.times {
            self.outcomes.insert(sorted, shown)?;
            self.times += size;
        }
        Ok(())
    }
}

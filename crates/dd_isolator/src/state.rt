//! A state of the search.

ghost use Rattle.std.specs.Prelude.{◌≡◌, ◌≤◌, ◌<◌, ◌^◌, true, length, IfOk};
ghost use Rattle.vm_model.specs.declared.limits.TheConstants.{MOST_SWITCHES};
ghost use Rattle.schedule_model.specs.declared.outcome.Outcome.TheVariants.{Pass, Fail};
ghost use Rattle.schedule_model.specs.Outcomes.{is_resolved};
ghost use Rattle.dd_isolator.specs.Rounds.{IsState, State, added, after, refined, round_size, state, taken, test, units_of};

use crate::batches::NumberedTests;
use crate::shifts::{copied, cut, units, with_units};
use schedule_model::{Outcome, Schedule};
use std::alloc::Global;
use std::marker::Model;
use vm_model::NoMemory;

/// A state of the search: a passing schedule, a failing one of as many places, and into how many parts the units between
/// them are cut.
#[derive(Drop)]
pub(crate) struct SearchState {
    passing: Vec<u32>,
    failing: Vec<u32>,
    parts: u64,
}

impl Model for SearchState {
    ghost use Rattle.dd_isolator.specs.Rounds.{State};

    ghost Value = { State };

    ghost use Rattle.dd_isolator.specs.StateView.{IsKept, view_of};

    ghost view = { view_of };

    ghost invariant = { IsKept };
}

impl SearchState {
    /// The state of two schedules, with no more parts than there are units.
    pub(crate) fn new(passing: Vec<u32>, failing: Vec<u32>, parts: u64) -> SearchState
        requires same { length failing.items ≡ length passing.items }
        requires few { length passing.items ≤ MOST_SWITCHES }
        requires two { 2 ≤ parts }
        ensures state { result ≡ state passing.items failing.items parts }
        ensures fine { IsState result }
        ensures few { length result.passing ≤ MOST_SWITCHES }
    {
        let total = units(&passing, &failing);
        SearchState {
            passing,
            failing,
            parts: parts.min(total),
        }
    }

    pub(crate) fn units(&self) -> u64
        ensures units { result ≡ units_of self.now }
        ensures small { result ≤ 2 ^ 46 }
        ensures parts { self.now.parts ≤ result }
    {
        units(&self.passing, &self.failing)
    }

    fn parts(&self) -> u64
        ensures { result ≡ self.now.parts }
    {
        self.parts
    }

    /// How many tests its round has.
    #[tactic(auto, unfolding(crate::specs::Rounds::round_size))]
    pub(crate) fn round_size(&self) -> u64
        ensures size { result ≡ round_size self.now }
        ensures small { result ≤ 2 ^ 47 }
    {
        let total = self.units();
        if 1 < total { 2 * self.parts } else { 0 }
    }

    /// A part added to the passing schedule.
    #[tactic(auto, using(crate::proofs::Stating::length_with))]
    fn added(&self, alloc: Global, i: u64) -> Result<Vec<u32>, NoMemory>
        requires { i < self.now.parts }
        ensures times { IfOk result (λ times. times.items ≡ (added self.now i).times) }
        ensures same { IfOk result (λ times. length times.items ≡ length self.now.passing) }
        ensures few { IfOk result (λ times. length times.items ≤ MOST_SWITCHES) }
    {
        let total = self.units();
        let low = cut(total, self.parts, i);
        let high = cut(total, self.parts, i + 1);
        with_units(alloc, low, high, &self.passing, &self.failing)
    }

    /// A part taken from the failing schedule.
    #[tactic(auto, using(crate::proofs::Stating::length_with))]
    fn taken(&self, alloc: Global, i: u64) -> Result<Vec<u32>, NoMemory>
        requires { i < self.now.parts }
        ensures times { IfOk result (λ times. times.items ≡ (taken self.now i).times) }
        ensures same { IfOk result (λ times. length times.items ≡ length self.now.passing) }
        ensures few { IfOk result (λ times. length times.items ≤ MOST_SWITCHES) }
    {
        let total = self.units();
        let low = cut(total, self.parts, i);
        let high = cut(total, self.parts, i + 1);
        with_units(alloc, low, high, &self.failing, &self.passing)
    }

    /// A test of its round.
    #[tactic(auto, using(crate::proofs::Stating::below_twice))]
    pub(crate) fn test(&self, alloc: Global, i: u64) -> Result<Vec<u32>, NoMemory>
        requires { i < round_size self.now }
        ensures times { IfOk result (λ times. times.items ≡ (test self.now i).times) }
        ensures same { IfOk result (λ times. length times.items ≡ length self.now.passing) }
        ensures few { IfOk result (λ times. length times.items ≤ MOST_SWITCHES) }
    {
        let parts = self.parts();
        if i < parts {
            self.added(alloc, i)
        } else {
            self.taken(alloc, i - parts)
        }
    }

    pub(crate) fn passing(&self) -> &[u32]
        ensures value { result.now ≡ self.now.passing }
        ensures few { length self.now.passing ≤ MOST_SWITCHES }
    {
        &self.passing
    }

    pub(crate) fn failing(&self) -> &[u32]
        ensures value { result.now ≡ self.now.failing }
        ensures same { length self.now.failing ≡ length self.now.passing }
        ensures few { length self.now.passing ≤ MOST_SWITCHES }
    {
        &self.failing
    }

    /// The state of a schedule of its round that passes.
    #[tactic(auto, using(crate::proofs::Stating::below_twice))]
    fn passed(&self, alloc: Global, place: u64) -> Result<SearchState, NoMemory>
        requires { place < round_size self.now }
        ensures { IfOk result (λ next. next ≡ after self.now (test self.now place).side (test self.now place).times Pass) }
    {
        let passing = self.test(alloc, place)?;
        let failing = copied(alloc, self.failing())?;
        let parts = self.parts();
        if place < parts {
            Ok(SearchState::new(passing, failing, (parts - 1).max(2)))
        } else {
            Ok(SearchState::new(passing, failing, 2))
        }
    }

    /// The state of a schedule of its round that fails.
    #[tactic(auto, using(crate::proofs::Stating::below_twice))]
    fn failed(&self, alloc: Global, place: u64) -> Result<SearchState, NoMemory>
        requires { place < round_size self.now }
        ensures { IfOk result (λ next. next ≡ after self.now (test self.now place).side (test self.now place).times Fail) }
    {
        let failing = self.test(alloc, place)?;
        let passing = copied(alloc, self.passing())?;
        let parts = self.parts();
        if place < parts {
            Ok(SearchState::new(passing, failing, 2))
        } else {
            Ok(SearchState::new(passing, failing, (parts - 1).max(2)))
        }
    }

    /// The state that a resolved test of its round makes of it.
    pub(crate) fn after(
        &self,
        alloc: Global,
        place: u64,
        outcome: Outcome,
    ) -> Result<SearchState, NoMemory>
        requires place { place < round_size self.now }
        requires resolved { is_resolved outcome ≡ true }
        ensures { IfOk result (λ next. next ≡ after self.now (test self.now place).side (test self.now place).times outcome) }
    {
        match outcome {
            Outcome::Pass => self.passed(alloc, place),
            Outcome::Fail => self.failed(alloc, place),
            Outcome::Unresolved => unreachable!(),
        }
    }

    /// The state with finer parts, where there are some.
    pub(crate) fn refined(&self, alloc: Global) -> Result<Option<SearchState>, NoMemory>
        ensures { IfOk result (λ next. next ≡ refined self.now) }
    {
        if self.parts < self.units() {
            Ok(Some(SearchState::new(
                copied(alloc, &self.passing)?,
                copied(alloc, &self.failing)?,
                2 * self.parts,
            )))
        } else {
            Ok(None)
        }
    }
}

impl NumberedTests for SearchState {
    ghost use Rattle.dd_isolator.specs.Rounds.{round_size, test};

    ghost size = { round_size };

    ghost times = { λ s i. (test s i).times };

    fn schedule(&self, alloc: Global, i: u64) -> Result<Schedule, NoMemory> {
        let times = self.test(alloc, i)?;
        Ok(Schedule { times })
    }
}

//! A state of the search.

ghost use Rattle.std.specs.Prelude.{◌≡◌, ◌≤◌, ◌<◌, ◌^◌, true, length, IfOk};
ghost use Rattle.vm_model.specs.declared.limits.TheConstants.{MOST_SWITCHES};
ghost use Rattle.dd_isolator.specs.Shifts.{cut};
ghost use Rattle.switch_reducer.specs.Rounds.{IsState, State, complement, part, refined, round_size, state, test};

use dd_isolator::NumberedTests;
use schedule_model::Schedule;
use std::alloc::Global;
use std::marker::Model;
use vm_model::NoMemory;

/// Where part `i` of so many begins.
fn cut(size: usize, parts: usize, i: usize) -> usize
    requires few { size ≤ MOST_SWITCHES }
    requires some { 0 < parts }
    requires most { parts ≤ size }
    requires within { i ≤ parts }
    ensures place { result ≡ cut size parts i }
    ensures within { result ≤ size }
{
    i * size / parts
}

/// A state of the search: a failing schedule, and into how many parts it is cut.
#[derive(Drop)]
pub(crate) struct SearchState {
    times: Vec<u32>,
    parts: usize,
}

impl Model for SearchState {
    ghost use Rattle.switch_reducer.specs.Rounds.{State};

    ghost Value = { State };

    ghost use Rattle.switch_reducer.specs.StateView.{IsKept, view_of};

    ghost view = { view_of };

    ghost invariant = { IsKept };
}

impl SearchState {
    /// The state of a schedule, with no more parts than there are times.
    pub(crate) fn new(times: Vec<u32>, parts: usize) -> SearchState
        requires few { length times.items ≤ MOST_SWITCHES }
        requires two { 2 ≤ parts }
        ensures state { result ≡ state times.items parts }
        ensures fine { IsState result }
        ensures few { length result.times ≤ MOST_SWITCHES }
    {
        let size = times.len();
        SearchState {
            times,
            parts: parts.min(size),
        }
    }

    /// How many tests its round has.
    #[tactic(auto, unfolding(crate::specs::Rounds::round_size))]
    pub(crate) fn round_size(&self) -> usize
        ensures size { result ≡ round_size self.now }
        ensures small { result ≤ 32768 }
    {
        if 1 < self.times.len() {
            if 2 < self.parts {
                2 * self.parts
            } else {
                self.parts
            }
        } else {
            0
        }
    }

    fn parts(&self) -> usize
        ensures parts { result ≡ self.now.parts }
        ensures few { result ≤ MOST_SWITCHES }
    {
        self.parts
    }

    /// A part alone.
    fn part(&self, alloc: Global, i: usize) -> Result<Vec<u32>, NoMemory>
        requires { i < self.now.parts }
        ensures times { IfOk result (λ times. times.items ≡ part self.now i) }
        ensures few { IfOk result (λ times. length times.items ≤ MOST_SWITCHES) }
    {
        let size = self.times.len();
        let low = cut(size, self.parts, i);
        let high = cut(size, self.parts, i + 1);
        Ok(self.times[low..high].to_vec(alloc)?)
    }

    /// All but a part.
    fn complement(&self, alloc: Global, i: usize) -> Result<Vec<u32>, NoMemory>
        requires { i < self.now.parts }
        ensures times { IfOk result (λ times. times.items ≡ complement self.now i) }
        ensures few { IfOk result (λ times. length times.items ≤ MOST_SWITCHES) }
    {
        let size = self.times.len();
        let low = cut(size, self.parts, i);
        let high = cut(size, self.parts, i + 1);
        let mut times = self.times[..low].to_vec(alloc)?;
        times.extend_from_slice(&self.times[high..])?;
        Ok(times)
    }

    /// The state that follows if this test of its round fails.
    pub(crate) fn test(&self, alloc: Global, i: usize) -> Result<SearchState, NoMemory>
        requires { i < round_size self.now }
        ensures { IfOk result (λ next. next ≡ test self.now i) }
    {
        let parts = self.parts();
        if i < parts {
            Ok(SearchState::new(self.part(alloc, i)?, 2))
        } else {
            Ok(SearchState::new(self.complement(alloc, i - parts)?, (parts - 1).max(2)))
        }
    }

    /// Its schedule.
    pub(crate) fn into_schedule(self) -> Schedule
        ensures times { result ≡ self.times }
        ensures few { length result ≤ MOST_SWITCHES }
    {
        Schedule { times: self.times }
    }

    /// The state with finer parts, where there are some.
    pub(crate) fn refined(&self, alloc: Global) -> Result<Option<SearchState>, NoMemory>
        ensures { IfOk result (λ next. next ≡ refined self.now) }
    {
        if self.parts < self.times.len() {
            Ok(Some(SearchState::new(self.times.to_vec(alloc)?, 2 * self.parts)))
        } else {
            Ok(None)
        }
    }
}

impl NumberedTests for SearchState {
    ghost use Rattle.switch_reducer.specs.Rounds.{round_size, test};

    ghost size = { round_size };

    ghost times = { λ s i. (test s i).times };

    fn schedule(&self, alloc: Global, i: u64) -> Result<Schedule, NoMemory> {
        Ok(self.test(alloc, i as usize)?.into_schedule())
    }
}

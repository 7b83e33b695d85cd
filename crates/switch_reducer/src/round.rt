//! A round of tests: the first failing one decides.

ghost use Rattle.std.specs.Prelude.{◌≡◌, ◌≤◌, ◌<◌, ◌+◌, ◌^◌, length, IfOk, IfErr, OnOk};
ghost use Rattle.schedule_model.specs.Outcomes.{unresolved_among};
ghost use Rattle.switch_reducer.specs.Rounds.{follower, is_fail, made, round_of, round_size, schedules_within};
ghost use Rattle.switch_reducer.specs.Answers.{Decides, HasSpent, IsAnswered, IsSpent};

use crate::fault::ReduceFault;
use crate::state::SearchState;
use dd_isolator::{MOST_IN_BATCH, batch};
use schedule_model::{Found, Outcome, Rounds};
use std::alloc::Global;
use vm_model::NoMemory;

/// How many tests of a batch are answered, and whether the last of them fails; none before it does.
#[derive(Clone, Copy)]
pub(crate) struct Answered {
    pub count: usize,
    pub fails: bool,
}

/// Whether a test fails alike. One that is unresolved doesn't.
pub(crate) fn is_fail(outcome: Outcome) -> bool
    ensures { result ≡ is_fail outcome }
{
    match outcome {
        Outcome::Pass | Outcome::Unresolved => false,
        Outcome::Fail => true,
    }
}

/// The first of so many tests of a round, from one on, up to the first that passes or fails.
fn ask<R: Rounds>(
    alloc: Global,
    state: &SearchState,
    from: usize,
    count: usize,
    rounds: &mut R,
) -> Result<Answered, NoMemory>
    requires within { from + count ≤ round_size state.now }
    requires some { 0 < count }
    requires few { count ≤ MOST_IN_BATCH }
    requires size { from + count < 2 ^ 64 }
    requires room { R.asked rounds.old + count < 2 ^ 64 }
    ensures answered { IfOk result (IsAnswered (R.outcome rounds.old) state.now from count) }
    ensures asked { IfOk result (λ a. R.asked rounds.new ≡ R.asked rounds.old + a.count) }
    ensures unresolved { IfOk result (λ a. R.unresolved rounds.new ≡ R.unresolved rounds.old + unresolved_among (R.outcome rounds.old) (schedules_within state.now from a.count)) }
    ensures outcome { R.outcome rounds.new ≡ R.outcome rounds.old }
    ensures events { R.events rounds.new ≡ R.events rounds.old }
{
    let tests = batch(alloc, state, from as u64, count as u64)?;
    match rounds.first_resolved(alloc, tests.as_slice())? {
        Found::Resolved { at, outcome } => Ok(Answered {
            count: at as usize + 1,
            fails: is_fail(outcome),
        }),
        Found::NoneResolved => Ok(Answered {
            count,
            fails: false,
        }),
    }
}

/// The first failing test of a round, by its number, while the budget lasts. The tests are asked for in batches, each
/// from the first test on that isn't answered yet.
fn first_failing<R: Rounds>(
    alloc: Global,
    state: &SearchState,
    budget: u64,
    rounds: &mut R,
) -> Result<Option<usize>, ReduceFault>
    requires { R.asked rounds.old ≤ budget }
    ensures decides { IfOk result (Decides (R.outcome rounds.old) state.now) }
    ensures asked { OnOk result (R.asked rounds.new ≡ R.asked rounds.old + length (made (R.outcome rounds.old) (round_of state.now))) }
    ensures unresolved { OnOk result (R.unresolved rounds.new ≡ R.unresolved rounds.old + unresolved_among (R.outcome rounds.old) (made (R.outcome rounds.old) (round_of state.now))) }
    ensures within { OnOk result (R.asked rounds.new ≤ budget) }
    ensures spent { IfErr result (IsSpent budget (R.asked rounds.old + length (made (R.outcome rounds.old) (round_of state.now)))) }
    ensures all_made { IfErr result (HasSpent budget (R.asked rounds.new)) }
    ensures outcome { R.outcome rounds.new ≡ R.outcome rounds.old }
    ensures events { R.events rounds.new ≡ R.events rounds.old }
{
    let size = state.round_size();
    let mut done = 0;
    while done < size {
        let left = budget - rounds.asked();
        if left == 0 {
            return Err(ReduceFault::TestsSpent { asked: budget });
        }
        let count = left.min((size - done) as u64).min(MOST_IN_BATCH) as usize;
        let answered = ask(alloc, state, done, count, rounds)?;
        done += answered.count;
        if answered.fails {
            return Ok(Some(done - 1));
        }
    }
    Ok(None)
}

/// The state that follows, if one does.
pub(crate) fn follower<R: Rounds>(
    alloc: Global,
    state: &SearchState,
    budget: u64,
    rounds: &mut R,
) -> Result<Option<SearchState>, ReduceFault>
    requires { R.asked rounds.old ≤ budget }
    ensures next { IfOk result (λ next. next ≡ follower (R.outcome rounds.old) state.now) }
    ensures asked { OnOk result (R.asked rounds.new ≡ R.asked rounds.old + length (made (R.outcome rounds.old) (round_of state.now))) }
    ensures unresolved { OnOk result (R.unresolved rounds.new ≡ R.unresolved rounds.old + unresolved_among (R.outcome rounds.old) (made (R.outcome rounds.old) (round_of state.now))) }
    ensures within { OnOk result (R.asked rounds.new ≤ budget) }
    ensures spent { IfErr result (IsSpent budget (R.asked rounds.old + length (made (R.outcome rounds.old) (round_of state.now)))) }
    ensures all_made { IfErr result (HasSpent budget (R.asked rounds.new)) }
    ensures outcome { R.outcome rounds.new ≡ R.outcome rounds.old }
    ensures events { R.events rounds.new ≡ R.events rounds.old }
{
    match first_failing(alloc, state, budget, rounds)? {
        Some(i) => Ok(Some(state.test(alloc, i)?)),
        None => Ok(state.refined(alloc)?),
    }
}

//! A round of tests: the first resolved one decides.

ghost use Rattle.std.specs.Prelude.{◌≡◌, ◌≤◌, ◌<◌, ◌+◌, ◌^◌, length, IfOk, IfErr, OnOk};
ghost use Rattle.schedule_model.specs.Outcomes.{unresolved_among};
ghost use Rattle.dd_isolator.specs.Rounds.{follower, made, round_of, round_size};
ghost use Rattle.dd_isolator.specs.Answers.{Counts, Decides, HasSpent, IsFirstOf, IsSpent};

use crate::batches::{MOST_IN_BATCH, batch};
use crate::fault::IsolateFault;
use crate::state::SearchState;
use schedule_model::{Found, Outcome, Rounds};
use std::alloc::Global;
use vm_model::NoMemory;

/// The first resolved test of a round, by its place in the round, and its outcome.
#[derive(Clone, Copy)]
pub(crate) struct Decision {
    pub place: u64,
    pub outcome: Outcome,
}

/// The first resolved one of so many tests of a round, from one on.
fn ask<R: Rounds>(
    alloc: Global,
    state: &SearchState,
    from: u64,
    count: u64,
    rounds: &mut R,
) -> Result<Option<Decision>, NoMemory>
    requires within { from + count ≤ round_size state.now }
    requires few { count ≤ MOST_IN_BATCH }
    requires size { from + count < 2 ^ 64 }
    requires room { R.asked rounds.old + count < 2 ^ 64 }
    ensures first { IfOk result (IsFirstOf (R.outcome rounds.old) state.now from count) }
    ensures counts { IfOk result (λ found. Counts from count found (R.asked rounds.old) (R.asked rounds.new) (R.unresolved rounds.old) (R.unresolved rounds.new)) }
    ensures outcome { R.outcome rounds.new ≡ R.outcome rounds.old }
    ensures events { R.events rounds.new ≡ R.events rounds.old }
{
    let tests = batch(alloc, state, from, count)?;
    match rounds.first_resolved(alloc, tests.as_slice())? {
        Found::Resolved { at, outcome } => Ok(Some(Decision {
            place: from + u64::from(at),
            outcome,
        })),
        Found::NoneResolved => Ok(None),
    }
}

/// The first resolved test of a round, asked for in batches, while the budget lasts.
fn first_resolved<R: Rounds>(
    alloc: Global,
    state: &SearchState,
    budget: u64,
    rounds: &mut R,
) -> Result<Option<Decision>, IsolateFault>
    requires { R.asked rounds.old ≤ budget }
    ensures decides { IfOk result (Decides (R.outcome rounds.old) state.now) }
    ensures asked { OnOk result (R.asked rounds.new ≡ R.asked rounds.old + length (made (R.outcome rounds.old) (round_of state.now))) }
    ensures unresolved { OnOk result (R.unresolved rounds.new ≡ R.unresolved rounds.old + unresolved_among (R.outcome rounds.old) (made (R.outcome rounds.old) (round_of state.now))) }
    ensures within { OnOk result (R.asked rounds.new ≤ budget) }
    ensures spent { IfErr result (IsSpent budget (R.asked rounds.old + length (made (R.outcome rounds.old) (round_of state.now)))) }
    ensures all_made { IfErr result (HasSpent budget (R.asked rounds.new)) }
    ensures outcome { R.outcome rounds.new ≡ R.outcome rounds.old }
    ensures events { R.events rounds.new ≡ R.events rounds.old }
{
    let size = state.round_size();
    let mut done = 0;
    while done < size {
        let left = budget - rounds.asked();
        if left == 0 {
            return Err(IsolateFault::TestsSpent { asked: budget });
        }
        let count = left.min(size - done).min(MOST_IN_BATCH);
        match ask(alloc, state, done, count, rounds)? {
            Some(decision) => return Ok(Some(decision)),
            None => done += count,
        }
    }
    Ok(None)
}

/// The state that follows, if one does.
pub(crate) fn follower<R: Rounds>(
    alloc: Global,
    state: &SearchState,
    budget: u64,
    rounds: &mut R,
) -> Result<Option<SearchState>, IsolateFault>
    requires { R.asked rounds.old ≤ budget }
    ensures next { IfOk result (λ next. next ≡ follower (R.outcome rounds.old) state.now) }
    ensures asked { OnOk result (R.asked rounds.new ≡ R.asked rounds.old + length (made (R.outcome rounds.old) (round_of state.now))) }
    ensures unresolved { OnOk result (R.unresolved rounds.new ≡ R.unresolved rounds.old + unresolved_among (R.outcome rounds.old) (made (R.outcome rounds.old) (round_of state.now))) }
    ensures within { OnOk result (R.asked rounds.new ≤ budget) }
    ensures spent { IfErr result (IsSpent budget (R.asked rounds.old + length (made (R.outcome rounds.old) (round_of state.now)))) }
    ensures all_made { IfErr result (HasSpent budget (R.asked rounds.new)) }
    ensures outcome { R.outcome rounds.new ≡ R.outcome rounds.old }
    ensures events { R.events rounds.new ≡ R.events rounds.old }
{
    match first_resolved(alloc, state, budget, rounds)? {
        Some(decision) => Ok(Some(state.after(alloc, decision.place, decision.outcome)?)),
        None => Ok(state.refined(alloc)?),
    }
}

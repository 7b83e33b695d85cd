//! The whole work on a schedule.

ghost use Rattle.std.specs.Prelude.{◌≡◌, ◌≤◌, ◌<◌, ◌+◌, ◌*◌, [], ◌∷◌, length, IfOk, IfErr, OnOk};
ghost use Rattle.vm_model.specs.declared.limits.TheConstants.{MOST_SWITCHES};
ghost use Rattle.schedule_model.specs.declared.outcome.Outcome.TheVariants.{Fail};
ghost use Rattle.schedule_model.specs.Outcomes.{unresolved_among};
ghost use Rattle.switch_reducer.specs.declared.fault.ReduceFault.TheVariants as fault;
ghost use Rattle.switch_reducer.specs.Answers.{HasSpent, IsSpent};
ghost use Rattle.switch_reducer.specs.Reduced.{IsReduced};
ghost use Rattle.switch_reducer.specs.Rounds.{is_fail, start};
ghost use Rattle.switch_reducer.specs.Search.{last_from, reduced_in_order, reduced_schedule, tests_from, tests_in_order, tests_needed, unresolved_count};
ghost use Rattle.switch_reducer.specs.Sorted.{sorted};

use crate::fault::ReduceFault;
use crate::round::{follower, is_fail};
use crate::state::SearchState;
use schedule_model::{Found, Rounds, Schedule};
use std::alloc::Global;
use vm_model::NoMemory;

/// What a reduction found.
#[derive(Debug, Drop)]
pub struct Reduced {
    /// It fails alike, and without any one of its times doesn't. Its times are some of those given, in ascending order.
    pub schedule: Schedule,
    /// How many tests counted.
    pub asked: u64,
    /// How many of them were unresolved.
    pub unresolved: u64,
}

/// The times in order.
fn in_order(alloc: Global, times: &[u32]) -> Result<Vec<u32>, NoMemory>
    ensures { IfOk result (λ ordered. ordered.items ≡ sorted times.now) }
{
    let mut ordered = times.to_vec(alloc)?;
    ordered.sort_unstable();
    Ok(ordered)
}

/// Whether the empty schedule fails.
fn empty_fails<R: Rounds>(alloc: Global, budget: u64, rounds: &mut R) -> Result<bool, ReduceFault>
    requires { R.asked rounds.old ≤ budget }
    ensures fails { IfOk result (λ fails. fails ≡ is_fail (R.outcome rounds.old [])) }
    ensures asked { OnOk result (R.asked rounds.new ≡ R.asked rounds.old + 1) }
    ensures unresolved { OnOk result (R.unresolved rounds.new ≡ R.unresolved rounds.old + unresolved_among (R.outcome rounds.old) ([] ∷ [])) }
    ensures within { OnOk result (R.asked rounds.new ≤ budget) }
    ensures spent { IfErr result (IsSpent budget (R.asked rounds.old + 1)) }
    ensures all_made { IfErr result (HasSpent budget (R.asked rounds.new)) }
    ensures outcome { R.outcome rounds.new ≡ R.outcome rounds.old }
    ensures events { R.events rounds.new ≡ R.events rounds.old }
{
    if rounds.asked() == budget {
        return Err(ReduceFault::TestsSpent { asked: budget });
    }
    let empty = [Schedule {
        times: Vec::new(alloc),
    }];
    match rounds.first_resolved(alloc, &empty)? {
        Found::Resolved { outcome, .. } => Ok(is_fail(outcome)),
        Found::NoneResolved => Ok(false),
    }
}

/// Where the search from a schedule ends.
fn search_from<R: Rounds>(
    alloc: Global,
    times: Vec<u32>,
    budget: u64,
    rounds: &mut R,
) -> Result<Schedule, ReduceFault>
    requires few { length times.items ≤ MOST_SWITCHES }
    requires room { R.asked rounds.old ≤ budget }
    ensures last { IfOk result (λ last. last ≡ (last_from (R.outcome rounds.old) (start times.items)).times) }
    ensures asked { OnOk result (R.asked rounds.new ≡ R.asked rounds.old + length (tests_from (R.outcome rounds.old) (start times.items))) }
    ensures unresolved { OnOk result (R.unresolved rounds.new ≡ R.unresolved rounds.old + unresolved_among (R.outcome rounds.old) (tests_from (R.outcome rounds.old) (start times.items))) }
    ensures within { OnOk result (R.asked rounds.new ≤ budget) }
    ensures spent { IfErr result (IsSpent budget (R.asked rounds.old + length (tests_from (R.outcome rounds.old) (start times.items)))) }
    ensures all_made { IfErr result (HasSpent budget (R.asked rounds.new)) }
    ensures outcome { R.outcome rounds.new ≡ R.outcome rounds.old }
    ensures events { R.events rounds.new ≡ R.events rounds.old }
{
    let mut state = SearchState::new(times, 2);
    while let Some(next) = follower(alloc, &state, budget, rounds)? {
        state = next;
    }
    Ok(state.into_schedule())
}

/// What a schedule in order is reduced to.
fn reduce_in_order<R: Rounds>(
    alloc: Global,
    times: Vec<u32>,
    budget: u64,
    rounds: &mut R,
) -> Result<Schedule, ReduceFault>
    requires few { length times.items ≤ MOST_SWITCHES }
    requires room { R.asked rounds.old ≤ budget }
    ensures last { IfOk result (λ last. last ≡ reduced_in_order (R.outcome rounds.old) times.items) }
    ensures asked { OnOk result (R.asked rounds.new ≡ R.asked rounds.old + length (tests_in_order (R.outcome rounds.old) times.items)) }
    ensures unresolved { OnOk result (R.unresolved rounds.new ≡ R.unresolved rounds.old + unresolved_among (R.outcome rounds.old) (tests_in_order (R.outcome rounds.old) times.items)) }
    ensures within { OnOk result (R.asked rounds.new ≤ budget) }
    ensures spent { IfErr result (IsSpent budget (R.asked rounds.old + length (tests_in_order (R.outcome rounds.old) times.items))) }
    ensures all_made { IfErr result (HasSpent budget (R.asked rounds.new)) }
    ensures outcome { R.outcome rounds.new ≡ R.outcome rounds.old }
    ensures events { R.events rounds.new ≡ R.events rounds.old }
{
    if times.is_empty() {
        return Ok(Schedule { times });
    }
    if empty_fails(alloc, budget, rounds)? {
        return Ok(Schedule {
            times: Vec::new(alloc),
        });
    }
    search_from(alloc, times, budget, rounds)
}

/// Leaves switches out of a failing schedule, until without any single one of those that are left it doesn't fail: delta
/// debugging (Zeller and Hildebrandt 2002, `ddmin`) on the times of the switches. The empty schedule is tested first.
///
/// `budget` is how many tests are allowed. Tests are handed over in batches of at most 64, cut to what is left of the budget.
/// Where no answer comes, `rounds` keeps what it counted.
pub fn reduce<R: Rounds>(
    alloc: Global,
    fail: &Schedule,
    budget: u64,
    rounds: &mut R,
) -> Result<Reduced, ReduceFault>
    requires fails { R.outcome rounds.old fail.now ≡ Fail }
    requires size { length fail.now ≤ MOST_SWITCHES }
    requires fresh { R.asked rounds.old ≡ 0 }
    // No single time can be left out of what is found.
    ensures reduced { IfOk result (λ r. IsReduced (R.outcome rounds.old) fail.now r.schedule) }
    ensures no_longer { IfOk result (λ r. length r.schedule ≤ length fail.now) }
    // It is where the search ends, and so many tests are made and unresolved.
    ensures last { IfOk result (λ r. r.schedule ≡ reduced_schedule (R.outcome rounds.old) fail.now) }
    ensures asked { IfOk result (λ r. r.asked ≡ tests_needed (R.outcome rounds.old) fail.now) }
    ensures unresolved { IfOk result (λ r. r.unresolved ≡ unresolved_count (R.outcome rounds.old) fail.now) }
    // The budget is spent exactly where it doesn't allow them.
    ensures within { IfOk result (λ r. r.asked ≤ budget) }
    ensures spent { IfErr result (IsSpent budget (tests_needed (R.outcome rounds.old) fail.now)) }
    ensures made { IfErr result (HasSpent budget (R.asked rounds.new)) }
    // How many there can be.
    ensures few { IfOk result (λ r. r.asked ≤ 8 * (length fail.now * length fail.now)) }
    ensures ample { 8 * (length fail.now * length fail.now) ≤ budget → IfErr result (λ e. e ≡ fault.NoMemory) }
    // The rounds mean what they meant.
    ensures outcome { R.outcome rounds.new ≡ R.outcome rounds.old }
    ensures events { R.events rounds.new ≡ R.events rounds.old }
{
    let times = in_order(alloc, &fail.times)?;
    let schedule = reduce_in_order(alloc, times, budget, rounds)?;
    Ok(Reduced {
        schedule,
        asked: rounds.asked(),
        unresolved: rounds.unresolved(),
    })
}

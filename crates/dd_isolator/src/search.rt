//! The whole search.

ghost use Rattle.std.specs.Prelude.{◌≡◌, ◌≤◌, ◌<◌, ◌+◌, ◌*◌, ◌^◌, length, max, IfOk, IfErr};
ghost use Rattle.vm_model.specs.declared.limits.TheConstants.{MOST_EVENTS, MOST_SWITCHES};
ghost use Rattle.schedule_model.specs.declared.outcome.Outcome.TheVariants.{Fail, Pass};
ghost use Rattle.dd_isolator.specs.declared.fault.IsolateFault.TheVariants as fault;
ghost use Rattle.dd_isolator.specs.Shifts.{padded, units};
ghost use Rattle.dd_isolator.specs.OneMinimal.{IsOneMinimal};
ghost use Rattle.dd_isolator.specs.Search.{last_pair, tests_needed, unresolved_count};
ghost use Rattle.dd_isolator.specs.Answers.{HasSpent, IsSpent};

use crate::fault::IsolateFault;
use crate::round::follower;
use crate::shifts::{copied, padded_to};
use crate::state::SearchState;
use schedule_model::{Isolated, Rounds, Schedule};
use std::alloc::Global;

/// Narrows the difference between a passing and a failing schedule, until no shift of a single switch time by one narrows
/// it further: delta debugging (Zeller and Hildebrandt 2002) on unit shifts (Choi and Zeller 2002).
///
/// `events` is how many events a run of `rounds` may make, from 0 to 1,048,576; the shorter schedule is padded with it.
/// `budget` is how many tests are allowed. Tests are handed over in batches of at most 64, cut to what is left of the
/// budget. Where no answer comes, `rounds` keeps what it counted.
pub fn isolate<R: Rounds>(
    alloc: Global,
    pass: &Schedule,
    fail: &Schedule,
    events: u64,
    budget: u64,
    rounds: &mut R,
) -> Result<Isolated, IsolateFault>
    requires passes { R.outcome rounds.old pass.now ≡ Pass }
    requires fails { R.outcome rounds.old fail.now ≡ Fail }
    requires events { R.events rounds.old ≡ events }
    requires limit { events ≤ MOST_EVENTS }
    requires pass_size { length pass.now ≤ MOST_SWITCHES }
    requires fail_size { length fail.now ≤ MOST_SWITCHES }
    requires fresh { R.asked rounds.old ≡ 0 }
    // No unit shift narrows what is found.
    ensures isolated { IfOk result (λ r. IsOneMinimal (R.outcome rounds.old) (padded events pass.now fail.now) (padded events fail.now pass.now) r.pass r.fail) }
    ensures same_size { IfOk result (λ r. length r.fail ≡ length r.pass) }
    ensures units { IfOk result (λ r. r.units ≡ units r.pass r.fail) }
    // It is where the search ends, and so many tests are made and unresolved.
    ensures last { IfOk result (λ r. (r.pass, r.fail) ≡ last_pair (R.outcome rounds.old) (padded events pass.now fail.now) (padded events fail.now pass.now)) }
    ensures asked { IfOk result (λ r. r.asked ≡ tests_needed (R.outcome rounds.old) (padded events pass.now fail.now) (padded events fail.now pass.now)) }
    ensures unresolved { IfOk result (λ r. r.unresolved ≡ unresolved_count (R.outcome rounds.old) (padded events pass.now fail.now) (padded events fail.now pass.now)) }
    // The budget is spent exactly where it doesn't allow them.
    ensures within { IfOk result (λ r. r.asked ≤ budget) }
    ensures spent { IfErr result (IsSpent budget (tests_needed (R.outcome rounds.old) (padded events pass.now fail.now) (padded events fail.now pass.now))) }
    ensures made { IfErr result (HasSpent budget (R.asked rounds.new)) }
    // How many there can be.
    ensures few { IfOk result (λ r. r.asked ≤ 8 * (units (padded events pass.now fail.now) (padded events fail.now pass.now) * units (padded events pass.now fail.now) (padded events fail.now pass.now))) }
    ensures halves { IfOk result (λ r. r.unresolved ≡ 0 → 2 ^ r.asked ≤ 2 * units (padded events pass.now fail.now) (padded events fail.now pass.now)) }
    ensures ample { 8 * (units (padded events pass.now fail.now) (padded events fail.now pass.now) * units (padded events pass.now fail.now) (padded events fail.now pass.now)) ≤ budget → IfErr result (λ e. e ≡ fault.NoMemory) }
    // The rounds mean what they meant.
    ensures outcome { R.outcome rounds.new ≡ R.outcome rounds.old }
    ensures events { R.events rounds.new ≡ R.events rounds.old }
{
    let size = pass.times.len().max(fail.times.len());
    let passing = padded_to(alloc, &pass.times, size, events as u32)?;
    let failing = padded_to(alloc, &fail.times, size, events as u32)?;
    let mut state = SearchState::new(passing, failing, 2);
    while let Some(next) = follower(alloc, &state, budget, rounds)? {
        state = next;
    }
    Ok(Isolated {
        units: state.units(),
        pass: Schedule {
            times: copied(alloc, state.passing())?,
        },
        fail: Schedule {
            times: copied(alloc, state.failing())?,
        },
        asked: rounds.asked(),
        unresolved: rounds.unresolved(),
    })
}

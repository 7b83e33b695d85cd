ghost use Rattle.std.specs.Prelude.{◌≡◌, ◌≢◌, ℕ, ◌+◌, ◌<◌, ◌≤◌, ◌↔◌, length, OnOk, IfOk, Some, slice_get, All, Bool, true};
ghost use Rattle.vm_model.specs.declared.limits.TheConstants.{MOST_EVENTS, MOST_THREADS};
ghost use Rattle.vm_model.specs.declared.op.Entry.{Entry as EntryOf};
ghost use Rattle.race_report.specs.declared.place.Place.{Place as PlaceOf};
ghost use Rattle.race_report.specs.Knowledge.{IsClockOf};
ghost use Rattle.race_report.specs.Races.{IsReport, IsReportBelow, place_of as place_by};
ghost use Rattle.race_report.specs.Accesses.{ArePlacesKept, IsPlaceKept, HasRace, accesses_of as accesses_by};

use crate::accesses::{Accesses, accesses_of, is_write, latest_unknown, marked, place_of};
use crate::clocks::advance;
use crate::place::Place;
use crate::race::Race;
use crate::vector_clock::VectorClock;
use std::alloc::Global;
use std::collections::HashMap;
use vm_model::{Entry, NoMemory};

/// Reports the race of a place, where the entry at a position is its first one. Answers whether the place has one by then.
fn report(
    found: &mut Vec<Race>,
    history: &[Entry],
    position: usize,
    place: Place,
    last: &Accesses,
    clock: &VectorClock,
) -> Result<bool, NoMemory>
    requires within { position < length history.now }
    requires few { length history.now ≤ MOST_EVENTS }
    requires threads { All (λ e. e.thread < MOST_THREADS) history.now }
    requires place { (e : EntryOf) → slice_get history.now position ≡ Some e → place_by e.op ≡ Some place }
    requires clock { IsClockOf history.now position clock.now }
    requires kept { IsPlaceKept history.now position found.old.items place last.now }
    requires report { IsReportBelow history.now position found.old.items }
    ensures report { OnOk result (IsReportBelow history.now (position + 1) found.new.items) }
    ensures reported { IfOk result (λ reported. (reported ≡ true) ↔ HasRace found.new.items place) }
    ensures others { OnOk result ((other : PlaceOf) → other ≢ place → HasRace found.new.items other ↔ HasRace found.old.items other) }
{
    if last.reported {
        return Ok(true);
    }
    let entry = history[position];
    let latest = latest_unknown(&last.counting(is_write(entry.op)), clock, entry.thread);
    if latest == 0 {
        return Ok(false);
    }
    let first = history[(latest - 1) as usize];
    found.push(Race {
        place,
        first: u64::from(latest - 1),
        first_thread: first.thread,
        second: position as u64,
        second_thread: entry.thread,
    })?;
    Ok(true)
}

/// Notes the access of a place, and the race that it makes.
fn note_place(
    places: &mut HashMap<Place, Accesses>,
    found: &mut Vec<Race>,
    history: &[Entry],
    position: usize,
    place: Place,
    clock: &VectorClock,
) -> Result<(), NoMemory>
    requires within { position < length history.now }
    requires few { length history.now ≤ MOST_EVENTS }
    requires threads { All (λ e. e.thread < MOST_THREADS) history.now }
    requires place { (e : EntryOf) → slice_get history.now position ≡ Some e → place_by e.op ≡ Some place }
    requires clock { IsClockOf history.now position clock.now }
    requires kept { ArePlacesKept history.now position found.old.items places.old }
    ensures kept { OnOk result (ArePlacesKept history.now (position + 1) found.new.items places.new) }
{
    let entry = history[position];
    let last = accesses_of(places, place);
    let reported = report(found, history, position, place, &last, clock)?;
    let now = marked(
        last,
        entry.thread,
        position as u32,
        is_write(entry.op),
        reported,
    );
    places.insert(place, now)?;
    Ok(())
}

/// The same for any entry.
fn note_entry(
    places: &mut HashMap<Place, Accesses>,
    found: &mut Vec<Race>,
    history: &[Entry],
    position: usize,
    clock: &VectorClock,
) -> Result<(), NoMemory>
    requires within { position < length history.now }
    requires few { length history.now ≤ MOST_EVENTS }
    requires threads { All (λ e. e.thread < MOST_THREADS) history.now }
    requires clock { IsClockOf history.now position clock.now }
    requires kept { ArePlacesKept history.now position found.old.items places.old }
    ensures kept { OnOk result (ArePlacesKept history.now (position + 1) found.new.items places.new) }
{
    match place_of(history[position].op) {
        Some(place) => note_place(places, found, history, position, place, clock),
        None => Ok(()),
    }
}

/// The races of a history: one for each place that has one, in order of the second access. That is the first access that
/// races with an earlier one of its place, and the first access is the last such earlier one. All statics, fields and items
/// are alike, since programs tell of no volatile ones. It keeps a vector clock for each thread, each lock and each object
/// whose thread was started, and two for each place. Where memory runs out, nothing is kept.
pub fn races(alloc: Global, history: &[Entry]) -> Result<Vec<Race>, NoMemory>
    requires few { length history.now ≤ MOST_EVENTS }
    requires threads { All (λ e. e.thread < MOST_THREADS) history.now }
    ensures report { IfOk result (λ found. IsReport history.now found.items) }
{
    let mut clocks = HashMap::new(alloc);
    let mut starts = Vec::new(alloc);
    let mut places = HashMap::new(alloc);
    let mut found = Vec::new(alloc);
    for position in 0..history.len() {
        let clock = advance(&mut clocks, &mut starts, history, position)?;
        note_entry(&mut places, &mut found, history, position, &clock)?;
    }
    Ok(found)
}

ghost use Rattle.std.specs.Prelude.{◌≡◌, ℕ, ◌+◌, ◌<◌, ◌≤◌, ◌^◌, Bool, true, false, length, if◌then◌else◌, ◌⊎◌, ◌≢◌};
ghost use Rattle.race_report.specs.Clocks.{time};
ghost use Rattle.race_report.specs.Races.{place_of as place_by, is_write as writes_by};
ghost use Rattle.race_report.specs.Accesses.{accesses_of as accesses_by, IsLatestUnknown, IsMarked};

use crate::place::Place;
use crate::vector_clock::VectorClock;
use std::collections::HashMap;
use vm_model::{MOST_THREADS, Op};

/// The last accesses of a place: for each thread one more than the position of its last access, and of its last write.
#[derive(Clone, Copy, Debug)]
pub struct Accesses {
    pub accesses: VectorClock,
    pub writes: VectorClock,
    /// Whether a race of this place was found.
    pub reported: bool,
}

/// The place that an operation reads or writes, where it is an access.
pub fn place_of(op: Op) -> Option<Place>
    ensures place { result ≡ place_by op }
{
    match op {
        Op::GetStatic { slot } => Some(Place::Static(slot)),
        Op::PutStatic { slot, value: _ } => Some(Place::Static(slot)),
        Op::GetField { obj, place } => Some(Place::Field { obj: obj.id, place }),
        Op::PutField {
            obj,
            place,
            value: _,
        } => Some(Place::Field { obj: obj.id, place }),
        Op::ArrayLoad { arr, index } => Some(Place::Item { arr, index }),
        Op::ArrayStore {
            arr,
            index,
            value: _,
        } => Some(Place::Item { arr, index }),
        _ => None,
    }
}

/// Whether an operation writes a place.
pub fn is_write(op: Op) -> bool
    ensures write { result ≡ writes_by op }
{
    match op {
        Op::PutStatic { slot: _, value: _ } => true,
        Op::PutField {
            obj: _,
            place: _,
            value: _,
        } => true,
        Op::ArrayStore {
            arr: _,
            index: _,
            value: _,
        } => true,
        _ => false,
    }
}

/// The last accesses of a place; of one that wasn't accessed, none.
pub fn accesses_of(places: &HashMap<Place, Accesses>, place: Place) -> Accesses
    ensures accesses { result ≡ accesses_by places.now place }
{
    match places.get(&place) {
        Some(accesses) => *accesses,
        None => Accesses {
            accesses: VectorClock::new(),
            writes: VectorClock::new(),
            reported: false,
        },
    }
}

/// The later of a time so far and a thread's, where the thread is another one and its time isn't known.
fn later_unknown(
    last: &VectorClock,
    clock: &VectorClock,
    thread: u32,
    other: u32,
    latest: u32,
) -> u32
    requires other { other < MOST_THREADS }
    ensures keeps { latest ≤ result }
    ensures found { (result ≡ latest) ⊎ ((other ≢ thread) × (time clock.now other < time last.now other) × (time last.now other ≡ result)) }
    ensures greatest { other ≢ thread → time clock.now other < time last.now other → time last.now other ≤ result }
{
    let time = last.time(other);
    if other != thread && clock.time(other) < time && latest < time {
        time
    } else {
        latest
    }
}

/// The greatest of the last times of other threads that a clock doesn't know, or 0.
pub fn latest_unknown(last: &VectorClock, clock: &VectorClock, thread: u32) -> u32
    ensures latest { IsLatestUnknown last.now clock.now thread result }
{
    let mut latest = 0;
    for other in 0..MOST_THREADS {
        latest = later_unknown(last, clock, thread, other, latest);
    }
    latest
}

impl Accesses {
    /// The accesses that conflict with one of another thread: all with a write, and else the writes.
    pub fn counting(&self, write: bool) -> VectorClock
        ensures counting { result ≡ (if write then self.now.accesses else self.now.writes) }
    {
        if write { self.accesses } else { self.writes }
    }
}

/// A thread's time is one more than a position, where this counts.
fn marked_if(last: VectorClock, thread: u32, position: u32, counts: bool) -> VectorClock
    requires thread { thread < MOST_THREADS }
    requires position { position + 1 < 2 ^ 32 }
    ensures marked { IsMarked last thread position counts result }
{
    let mut last = last;
    if counts {
        last.set(thread, position + 1);
    }
    last
}

/// The last accesses after one more at a position.
pub fn marked(last: Accesses, thread: u32, position: u32, write: bool, reported: bool) -> Accesses
    requires thread { thread < MOST_THREADS }
    requires position { position + 1 < 2 ^ 32 }
    ensures accesses { IsMarked last.accesses thread position true result.accesses }
    ensures writes { IsMarked last.writes thread position write result.writes }
    ensures reported { result.reported ≡ reported }
{
    Accesses {
        accesses: marked_if(last.accesses, thread, position, true),
        writes: marked_if(last.writes, thread, position, write),
        reported,
    }
}

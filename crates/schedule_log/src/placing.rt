//! Lists of intervals in order of `first`.

ghost use Rattle.std.specs.Prelude.{◌≡◌, ◌+◌, ◌<◌, ◌≤◌, length, take, slice_index_or, IfOk};
ghost use Rattle.std.specs.List.{AllByRecursion, list_any};
ghost use Rattle.vm_model.specs.declared.limits.TheConstants.{MOST_EVENTS};
ghost use Rattle.schedule_log.specs.declared.interval.Interval.{Interval};
ghost use Rattle.schedule_log.specs.Intervals.{clock_count, shares};
ghost use Rattle.schedule_log.specs.Ordered.{ApartFrom, ContiguousFrom};
ghost use Rattle.schedule_log.specs.Logs.{put_all};

use crate::interval::Interval;
use std::alloc::Global;
use vm_model::NoMemory;

/// How many clocks there are in intervals that follow directly on each other.
pub fn events_of(intervals: &[Interval]) -> u64
    requires contiguous { ContiguousFrom 0 intervals.now }
    requires low { AllByRecursion (λ (i : Interval). i.last < MOST_EVENTS) intervals.now }
    ensures { result ≡ clock_count intervals.now }
{
    let count = intervals.len();
    if count == 0 {
        0
    } else {
        intervals[count - 1].last + 1
    }
}

/// Both lists in one, in time that grows with their lengths.
pub fn merged(
    alloc: Global,
    placed: &[Interval],
    more: &[Interval],
) -> Result<Vec<Interval>, NoMemory>
    requires { ApartFrom 0 more.now }
    ensures { IfOk result (λ v. v.items ≡ put_all placed.now more.now) }
{
    let mut all = Vec::new(alloc);
    let mut i = 0;
    let mut j = 0;
    while i < placed.len() && j < more.len() {
        if placed[i].first <= more[j].first {
            all.push(placed[i])?;
            i += 1;
        } else {
            all.push(more[j])?;
            j += 1;
        }
    }
    all.extend_from_slice(&placed[i..])?;
    all.extend_from_slice(&more[j..])?;
    Ok(all)
}

/// From `at` on, the first interval that doesn't end before `first`.
pub fn place_of(placed: &[Interval], at: usize, first: u64) -> usize
    requires within { at ≤ length placed.now }
    requires before { AllByRecursion (λ (j : Interval). j.last < first) (take at placed.now) }
    ensures within { result ≤ length placed.now }
    ensures before { AllByRecursion (λ (j : Interval). j.last < first) (take result placed.now) }
    ensures there { (d : Interval) → result < length placed.now → first ≤ (slice_index_or placed.now result d).last }
{
    let mut place = at;
    while place < placed.len() && placed[place].last < first {
        place += 1;
    }
    place
}

/// Whether an interval shares a clock with one that was placed, where `at` is the place of its first clock.
pub fn is_taken(placed: &[Interval], at: usize, first: u64, last: u64) -> bool
    requires order { first ≤ last }
    requires apart { ApartFrom 0 placed.now }
    requires within { at ≤ length placed.now }
    requires before { AllByRecursion (λ (j : Interval). j.last < first) (take at placed.now) }
    requires there { (d : Interval) → at < length placed.now → first ≤ (slice_index_or placed.now at d).last }
    ensures { result ≡ list_any (shares first last) placed.now }
{
    if at == placed.len() {
        return false;
    }
    placed[at].first <= last
}

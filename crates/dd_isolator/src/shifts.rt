//! Lists of times, place by place.

ghost use Rattle.std.specs.Prelude.{◌≡◌, ◌≤◌, ◌<◌, ◌*◌, ◌^◌, length, IfOk, min};
ghost use Rattle.vm_model.specs.declared.limits.TheConstants.{MOST_SWITCHES};
ghost use Rattle.dd_isolator.specs.Shifts.{cut, distance, moved, padded_to, units, with_units};

use std::alloc::Global;
use vm_model::NoMemory;

/// How far two times are apart.
fn distance(x: u32, y: u32) -> u64
    ensures { result ≡ distance x y }
{
    if x < y {
        u64::from(y - x)
    } else {
        u64::from(x - y)
    }
}

/// A time moved by so many units toward another, and never past it.
fn moved(count: u64, x: u32, y: u32) -> u32
    ensures { result ≡ moved count x y }
{
    if x < y {
        x + count.min(u64::from(y - x)) as u32
    } else {
        x - count.min(u64::from(x - y)) as u32
    }
}

/// The sum of the distances.
pub(crate) fn units(xs: &[u32], ys: &[u32]) -> u64
    requires few { length xs.now ≤ MOST_SWITCHES }
    requires same { length ys.now ≡ length xs.now }
    ensures units { result ≡ units xs.now ys.now }
    ensures small { result ≤ 2 ^ 46 }
{
    let mut total = 0;
    for i in 0..xs.len() {
        total += distance(xs[i], ys[i]);
    }
    total
}

#[tactic(auto, unfolding(crate::specs::Shifts::with_units))]
/// The first list with the units from `low` up to, without, `high` of those that lead to the second.
pub(crate) fn with_units(
    alloc: Global,
    low: u64,
    high: u64,
    xs: &[u32],
    ys: &[u32],
) -> Result<Vec<u32>, NoMemory>
    requires order { low ≤ high }
    requires same { length ys.now ≡ length xs.now }
    ensures { IfOk result (λ times. times.items ≡ with_units low high xs.now ys.now) }
{
    let mut low = low;
    let mut high = high;
    let mut times = Vec::new(alloc);
    for i in 0..xs.len() {
        let here = distance(xs[i], ys[i]);
        times.push(moved(high.min(here) - low.min(here), xs[i], ys[i]))?;
        low = low.saturating_sub(here);
        high = high.saturating_sub(here);
    }
    Ok(times)
}

/// The list padded at its end, up to a size, with the time `events`.
pub(crate) fn padded_to(
    alloc: Global,
    times: &[u32],
    size: usize,
    events: u32,
) -> Result<Vec<u32>, NoMemory>
    requires { length times.now ≤ size }
    ensures { IfOk result (λ padded. padded.items ≡ padded_to events size times.now) }
{
    let mut padded = times.to_vec(alloc)?;
    padded.resize(size, events)?;
    Ok(padded)
}

/// Where part `i` of so many begins.
pub(crate) fn cut(total: u64, parts: u64, i: u64) -> u64
    requires some { 0 < parts }
    requires within { i ≤ parts }
    ensures { result ≡ cut total parts i }
{
    (u128::from(i) * u128::from(total) / u128::from(parts)) as u64
}

/// An equal list.
pub(crate) fn copied(alloc: Global, times: &[u32]) -> Result<Vec<u32>, NoMemory>
    ensures { IfOk result (λ copy. copy.items ≡ times.now) }
{
    Ok(times.to_vec(alloc)?)
}

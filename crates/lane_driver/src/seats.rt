// Seats for all lanes, and one seat again.
ghost use Rattle.std.specs.Prelude.{◌≡◌, ◌<◌, ◌≤◌, [], ◌∷◌, ℕ, All, Contains, IfOk, map, vec_len};
ghost use Rattle.vm_model.specs.declared.limits.TheConstants.{MOST_LANES};
ghost use Rattle.crossbeam_utils.specs.Padded.{padded_value};
ghost use Rattle.lane_driver.specs.Joined.{AllOfSeat, number_of, numbers_of};
ghost use Rattle.lane_driver.specs.Working.{IsAtSeat, StaysAtSeat};

use crate::run::{Ran, Work};
use crossbeam_utils::CachePadded;
use gate_core::WorldGate;
use lane_core::{Lane, LaneEnd};
use std::alloc::Global;
use vm_model::{NoMemory, Plain};

/// A new lane at its seat.
fn work_of<G: WorldGate>(
    alloc: Global,
    plain: &Plain,
    gate: &G,
    seat: G::Seat,
    number: u32,
    lanes: u32,
) -> Result<Work<G::Seat>, NoMemory>
    requires number { number < lanes }
    requires lanes { lanes ≤ MOST_LANES }
    requires of { (G.about gate.now).lanes ≡ lanes }
    requires seat { G.IsSeatOf gate.now seat }
    requires has { (G.told seat).lanes ≡ number ∷ [] }
    requires entries { (G.told seat).own number ≡ [] }
    ensures seat { IfOk result (λ w. G.IsSeatOf gate.now w.seat) }
    ensures lane { IfOk result (λ w. IsAtSeat plain.now (G.about gate.now).lanes (G.told w.seat) (padded_value w.lane)) }
    ensures number { IfOk result (λ w. (padded_value w.lane).number ≡ number) }
{
    let lane = CachePadded::new(Lane::new(alloc, plain, number, lanes)?);
    Ok(Work { lane, seat })
}

/// A lane for each number, each at a seat of its own. The first seat keeps lane 0.
pub fn works_of<G: WorldGate>(
    alloc: Global,
    plain: &Plain,
    gate: &G,
    mut first: G::Seat,
    lanes: u32,
) -> Result<Vec<Work<G::Seat>>, NoMemory>
    requires some { 1 ≤ lanes }
    requires lanes { lanes ≤ MOST_LANES }
    requires of { (G.about gate.now).lanes ≡ lanes }
    requires seat { G.IsSeatOf gate.now first }
    requires has { (G.told first).lanes ≡ 0 ∷ [] }
    requires entries { (G.told first).own 0 ≡ [] }
    requires gives { (lane : ℕ) → 1 ≤ lane → lane < lanes → Contains (G.gives first) lane }
    ensures some { IfOk result (λ works. 1 ≤ vec_len works) }
    ensures seats { IfOk result (λ works. All (λ w. G.IsSeatOf gate.now w.seat) works.items) }
    ensures lanes { IfOk result (λ works. All (λ w. IsAtSeat plain.now (G.about gate.now).lanes (G.told w.seat) (padded_value w.lane)) works.items) }
    ensures numbers { IfOk result (λ works. (lane : ℕ) → lane < lanes → Contains (map (λ w. number_of (padded_value w.lane)) works.items) lane) }
{
    let mut works = Vec::new(alloc);
    for lane in 1..lanes {
        let seat = gate.split(&mut first, lane);
        works.push(work_of(alloc, plain, gate, seat, lane, lanes)?)?;
    }
    works.push(work_of(alloc, plain, gate, first, 0, lanes)?)?;
    Ok(works)
}

/// A lane that left, and its seat. `NoMemory` where the lane missed memory.
fn left<G: WorldGate>(
    _plain: &Plain,
    _gate: &G,
    ran: Ran<G::Seat>,
) -> Result<(Lane, G::Seat), NoMemory>
    requires seat { G.IsSeatOf _gate.now ran.seat }
    requires lane { StaysAtSeat _plain.now (G.about _gate.now).lanes (G.told ran.seat) (padded_value ran.lane) ran.end }
    ensures seat { IfOk result (λ it. G.IsSeatOf _gate.now it.1) }
    ensures lane { IfOk result (λ it. IsAtSeat _plain.now (G.about _gate.now).lanes (G.told it.1) it.0) }
    ensures number { IfOk result (λ it. it.0.number ≡ number_of (padded_value ran.lane)) }
{
    let Ran { end, lane, seat } = ran;
    match end {
        LaneEnd::Left => Ok((lane.into_inner(), seat)),
        LaneEnd::NoMemory => Err(NoMemory),
    }
}

/// Joins the seats of all lanes to one, and takes the lanes out. `NoMemory` comes too where a lane missed memory.
pub fn joined<G: WorldGate>(
    alloc: Global,
    plain: &Plain,
    gate: &G,
    mut ran: Vec<Ran<G::Seat>>,
) -> Result<(Vec<Lane>, G::Seat), NoMemory>
    requires some { 1 ≤ vec_len ran }
    requires seats { All (λ r. G.IsSeatOf gate.now r.seat) ran.items }
    requires lanes { All (λ r. StaysAtSeat plain.now (G.about gate.now).lanes (G.told r.seat) (padded_value r.lane) r.end) ran.items }
    ensures seat { IfOk result (λ all. G.IsSeatOf gate.now all.1) }
    ensures lanes { IfOk result (λ all. AllOfSeat plain.now (G.about gate.now).lanes (G.told all.1) all.0.items) }
    ensures numbers { IfOk result (λ all. (k : ℕ) → Contains (map (λ r. number_of (padded_value r.lane)) ran.items) k → Contains (numbers_of all.0.items) k) }
{
    let Some(first) = ran.pop() else {
        unreachable!()
    };
    let (lane, mut into) = left::<G>(plain, gate, first)?;
    let mut lanes = Vec::new(alloc);
    lanes.push(lane)?;
    while let Some(next) = ran.pop() {
        let (lane, seat) = left::<G>(plain, gate, next)?;
        gate.join(&mut into, seat);
        lanes.push(lane)?;
    }
    Ok((lanes, into))
}

// The lanes on threads.
ghost use Rattle.std.specs.Prelude.{◌≡◌, ◌<◌, ℕ, length, IfOk, All, vec_len, slice_index_or};
ghost use Rattle.crossbeam_utils.specs.Padded.{padded_value};
ghost use Rattle.lane_driver.specs.Working.{IsAtSeat, StaysAtSeat};

use crossbeam_utils::CachePadded;
use gate_core::{Gate, Meeting};
use lane_core::{Lane, LaneEnd, lane_work};
use std::alloc::Global;
use std::sync::Wait;
use std::thread;
use std::thread::Threads;
use vm_model::{NoMemory, Plain};

/// A lane before it works, and its seat.
#[derive(Drop)]
pub struct Work<S> {
    pub lane: CachePadded<Lane>,
    pub seat: S,
}

/// A lane that worked, its seat, and why it stopped.
#[derive(Drop)]
pub struct Ran<S> {
    pub end: LaneEnd,
    pub lane: CachePadded<Lane>,
    pub seat: S,
}

/// Runs a lane on this thread.
fn run_lane<R: Wait, G: Gate, M: Meeting>(
    rt: &R,
    alloc: Global,
    plain: &Plain,
    gate: &G,
    meeting: &M,
    work: Work<G::Seat>,
) -> Ran<G::Seat>
    requires seat { G.IsSeatOf gate.now work.seat }
    requires lane { IsAtSeat plain.now (G.about gate.now).lanes (G.told work.seat) (padded_value work.lane) }
    ensures seat { G.IsSeatOf gate.now result.seat }
    ensures lane { StaysAtSeat plain.now (G.about gate.now).lanes (G.told result.seat) (padded_value result.lane) result.end }
    ensures number { (padded_value result.lane).number ≡ (padded_value work.lane).number }
{
    let Work { mut lane, mut seat } = work;
    let end = lane_work(rt, alloc, &mut lane, plain, gate, &mut seat, meeting);
    Ran { end, lane, seat }
}

/// Runs each lane on a thread of its own where one can be made, and joins them all. The lanes come back in their order.
pub fn run_lanes<R: Threads + Wait + Sync, G: Gate, M: Meeting>(
    rt: &R,
    alloc: Global,
    plain: &Plain,
    gate: &G,
    meeting: &M,
    works: Vec<Work<G::Seat>>,
) -> Result<Vec<Ran<G::Seat>>, NoMemory>
    requires seats { All (λ w. G.IsSeatOf gate.now w.seat) works.items }
    requires lanes { All (λ w. IsAtSeat plain.now (G.about gate.now).lanes (G.told w.seat) (padded_value w.lane)) works.items }
    ensures len { IfOk result (λ ran. vec_len ran ≡ vec_len works) }
    ensures seats { IfOk result (λ ran. All (λ r. G.IsSeatOf gate.now r.seat) ran.items) }
    ensures lanes { IfOk result (λ ran. All (λ r. StaysAtSeat plain.now (G.about gate.now).lanes (G.told r.seat) (padded_value r.lane) r.end) ran.items) }
    ensures numbers { IfOk result (λ ran. (i : ℕ) (r : _) (w : _) → i < vec_len works → (padded_value (slice_index_or ran.items i r).lane).number ≡ (padded_value (slice_index_or works.items i w).lane).number) }
{
    let one = |work: Work<G::Seat>| -> Ran<G::Seat>
        requires seat { G.IsSeatOf gate.now work.seat }
        requires lane { IsAtSeat plain.now (G.about gate.now).lanes (G.told work.seat) (padded_value work.lane) }
        ensures seat { G.IsSeatOf gate.entry.now result.seat }
        ensures lane { StaysAtSeat plain.entry.now (G.about gate.entry.now).lanes (G.told result.seat) (padded_value result.lane) result.end }
        ensures number { (padded_value result.lane).number ≡ (padded_value work.lane).number }
    { run_lane(rt, alloc, plain, gate, meeting, work) };
    let Ok(ran) = thread::map_vec(rt, works, &one) else {
        return Err(NoMemory);
    };
    Ok(ran)
}

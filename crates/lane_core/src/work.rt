ghost use Rattle.std.specs.Prelude.{◌≡◌, ◌⊎◌, ◌<◌, ◌+◌, Contains};
ghost use Rattle.lane_core.specs.Lanes.{EndsSo, Follows};
ghost use Rattle.lane_core.specs.Parts.{OtherLanesSame};
ghost use Rattle.gate_core.specs.Seats.{SeesMore};
ghost use Rattle.lane_core.specs.Leaving.{IsSound, LeftBy};

use crate::lane::Lane;
use crate::pace::{LaneEnd, MOST_IDLE, Pace};
use gate_core::{Gate, Meeting};
use std::alloc::Global;
use std::sync::Wait;
use vm_model::Plain;

/// How many rounds in a row nothing moved, after a round more. `is_later`: the clock has moved on elsewhere.
fn idle_after(pace: Pace, is_later: bool, idle: u32) -> u32
    requires { idle < MOST_IDLE }
    ensures { (result ≡ 0) ⊎ ((pace ≡ Pace.Still) × (result ≡ idle + 1)) }
{
    match pace {
        Pace::Still => { if is_later { 0 } else { idle + 1 } }
        Pace::Ended | Pace::Moved => 0,
    }
}

/// Round after round over the threads of a lane.
fn rounds<R: Wait, G: Gate, M: Meeting>(
    rt: &R,
    alloc: Global,
    lane: &mut Lane,
    plain: &Plain,
    gate: &G,
    seat: &mut G::Seat,
    meeting: &M,
) -> LaneEnd
    requires seat { G.IsSeatOf gate.now seat.old }
    requires lane { Contains (G.told seat.old).lanes lane.old.number }
    requires lanes { (G.about gate.now).lanes ≡ lane.old.lanes }
    requires follows { Follows plain.now (G.told seat.old) lane.old }
    ensures seat { G.IsSeatOf gate.now seat.new }
    ensures lanes { (G.told seat.new).lanes ≡ (G.told seat.old).lanes }
    ensures number { lane.new.number ≡ lane.old.number }
    ensures of { (G.about gate.now).lanes ≡ lane.new.lanes }
    ensures sees { SeesMore (G.told seat.old) (G.told seat.new) }
    ensures others { OtherLanesSame lane.old.number (G.told seat.old) (G.told seat.new) }
    ensures follows { result ≡ LaneEnd.Left → Follows plain.now (G.told seat.new) lane.new }
    ensures left { EndsSo result (G.told seat.old) (G.told seat.new) lane.new }
{
    let mut known = gate.clock(seat);
    let mut idle = 0;
    for _ in rt.forever() {
        match lane.round(alloc, plain, gate, seat, meeting, &mut known) {
            Ok(Pace::Ended) => return LaneEnd::Left,
            Ok(pace) => {
                let clock = gate.clock(seat);
                idle = idle_after(pace, clock != known, idle);
                known = clock;
            }
            Err(end) => return end,
        }
        if idle == MOST_IDLE {
            return LaneEnd::Left;
        }
    }
    unreachable!()
}

/// Runs the threads of a lane over a gate: each in its turn offers its operation, and threads that were started are begun.
///
/// `Left` comes only where, within this call, the seat was told off or looked at the gate in vain 65,536 times, or where all
/// threads of the lane have ended. The lane and its seat may be lent to another call then, and the threads go on where they
/// stand. After `NoMemory` the lane can't go on.
pub fn lane_work<R: Wait, G: Gate, M: Meeting>(
    rt: &R,
    alloc: Global,
    lane: &mut Lane,
    plain: &Plain,
    gate: &G,
    seat: &mut G::Seat,
    meeting: &M,
) -> LaneEnd
    requires seat { G.IsSeatOf gate.now seat.old }
    requires lane { Contains (G.told seat.old).lanes lane.old.number }
    requires lanes { (G.about gate.now).lanes ≡ lane.old.lanes }
    requires follows { Follows plain.now (G.told seat.old) lane.old }
    ensures seat { G.IsSeatOf gate.now seat.new }
    ensures lanes { (G.told seat.new).lanes ≡ (G.told seat.old).lanes }
    ensures number { lane.new.number ≡ lane.old.number }
    ensures of { (G.about gate.now).lanes ≡ lane.new.lanes }
    ensures sees { SeesMore (G.told seat.old) (G.told seat.new) }
    ensures others { OtherLanesSame lane.old.number (G.told seat.old) (G.told seat.new) }
    ensures follows { result ≡ LaneEnd.Left → Follows plain.now (G.told seat.new) lane.new }
    ensures ends { EndsSo result (G.told seat.old) (G.told seat.new) lane.new }
    ensures left { IsSound plain.now → LeftBy result plain.now lane.old.lanes lane.old.number (G.told seat.old) (G.told seat.new) }
{
    rounds(rt, alloc, lane, plain, gate, seat, meeting)
}

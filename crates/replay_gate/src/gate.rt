//! The gate and its seats.
ghost use Rattle.std.specs.Prelude.{◌≡◌, ◌≤◌, ◌<◌, ℕ, false, [], ◌++◌, length, Contains, IfOk};
ghost use Rattle.vm_model.specs.declared.limits.TheConstants.{MOST_EVENTS};
ghost use mathlib.Core.List.{IsPrefix};
ghost use Rattle.replay_gate.specs.Answers.{Turned, BegunSo, IsWithinLimit, SameLanes, TargetSo, added, HasAllLanes, Closes, FitsSo, ClassSo};
ghost use Rattle.gate_core.specs.Histories.{entries_of_lane};
ghost use Rattle.replay_gate.specs.Lanes.{lane_of};
ghost use Rattle.replay_gate.specs.Steps.{with_clock, giving, given, joined};
ghost use Rattle.replay_gate.specs.Rule.{first_view};
ghost use Rattle.replay_gate.specs.Gates.{IsSeatOf, IsSameSeat};
ghost use Rattle.replay_gate.specs.Offers.{own_of};

use crate::places::{glance, join, split};
use crate::steps::ReplayRule;
use crate::turning::Turning;
use crate::turns::{begun, turn};
use crate::view::{ReplayView, Terms};
use atomic_table::{Seat, Table};
use gate_core::Begun;
use schedule_log::Log;
use shared_world::World;
use std::alloc::Global;
use std::marker::{Brand, Model};
use vm_model::{NoMemory, Op};
use world_start::Start;

/// The clock and the world of a replay, for lanes that make the events of a log again in its order. The interval of the log
/// that has the clock is the right to the world, so no lane waits for a lock: a thread that comes too early is told so.
#[derive(Drop)]
pub struct ReplayGate {
    terms: Terms,
    table: Table<Option<World>, ReplayView, Terms, ReplayRule, Global>,
}

impl Model for ReplayGate {
    ghost use Rattle.replay_gate.specs.Gates.{GateState};

    ghost Value = { GateState };

    ghost use Rattle.replay_gate.specs.GateView.{gate_of, IsMade};

    ghost view = { gate_of };

    ghost invariant = { IsMade };
}

/// The right of a lane, or of several, at one gate: what makes the events of their threads.
#[derive(Drop)]
pub struct ReplaySeat {
    pub(crate) place: Seat<Option<World>, ReplayView>,
    /// Whether it was told that its lanes have nothing left to do.
    pub(crate) is_told_off: bool,
}

impl Model for ReplaySeat {
    ghost use Rattle.replay_gate.specs.Gates.{SeatState};

    ghost Value = { SeatState };

    ghost use Rattle.replay_gate.specs.GateView.{seat_of, IsFree};

    ghost view = { seat_of };

    ghost invariant = { IsFree };
}

impl ReplayGate {
    /// A gate at the start of a program, with room for as many events as the log's budget, and the seat of lane 0, from which
    /// the seats of the other lanes are split. There are 1 to 16 lanes; a thread belongs to the lane of its number modulo
    /// theirs. Where memory is missing, the start and the log are given up.
    pub fn new(
        alloc: Global,
        start: Start,
        log: Log,
        lanes: u32,
    ) -> Result<(ReplayGate, ReplaySeat), NoMemory>
        requires some { 1 ≤ lanes }
        requires few { lanes ≤ 16 }
        ensures gate { IfOk result (λ made. made.0.terms ≡ record { start = start; log = log; lanes = lanes }) }
        ensures new { IfOk result (λ made. made.1.is_told_off ≡ false) }
        ensures seat { IfOk result (λ made. IsSeatOf made.0 made.1 × (made.1.view ≡ first_view made.0.terms)) }
        ensures gives { IfOk result (λ made. (lane : ℕ) → 1 ≤ lane → lane < lanes → Contains made.1.view.spare lane) }
    {
        let events = budget_of(&log);
        let world = World::new(alloc, start.copy(alloc)?, events)?;
        let mut slots = Vec::with_capacity(alloc, 1)?;
        slots.push_reserved(Some(world));
        let terms = Terms { start, log, lanes };
        match Table::new(alloc, &[0], slots, &terms) {
            Ok((table, place)) => Ok((
                ReplayGate { terms, table },
                ReplaySeat {
                    place,
                    is_told_off: false,
                },
            )),
            Err(_) => Err(NoMemory),
        }
    }

    /// Makes the next event of a thread, 0 to 63, if the log has the thread at the clock that is found. The clock and the world
    /// are as they were after every other answer than `Committed`.
    pub fn try_turn(&self, alloc: Global, seat: &mut ReplaySeat, thread: u32, op: Op) -> Turning
        requires seat { IsSeatOf self.now seat.old }
        requires lane { Contains seat.old.view.lanes (lane_of self.now.terms.lanes thread) }
        ensures seat { IsSeatOf self.now seat.new }
        ensures same { IsSameSeat seat.old seat.new }
        ensures lanes { SameLanes seat.old.view seat.new.view }
        ensures later { IsPrefix seat.old.view.seen seat.new.view.seen }
        ensures turned { Turned seat.old.view seat.new.view thread op result }
        ensures limit { IsWithinLimit result }
        ensures fits { FitsSo self.now.terms.start op result }
        ensures own { (lane : ℕ) → Contains seat.old.view.lanes lane → entries_of_lane self.now.terms.lanes lane seat.new.view.seen ≡ entries_of_lane self.now.terms.lanes lane seat.old.view.seen ++ added self.now.terms.lanes lane thread op result }
    {
        turn(
            alloc,
            &self.table.shared,
            &self.terms.log,
            &mut seat.place,
            thread,
            op,
        )
    }

    /// Whether the thread was started, and for which object, if the log has the thread at the clock that is found; `NotYet` if
    /// it doesn't. `Over` means that the log wants an event of a thread that nothing started. It takes no memory.
    pub fn begun(&self, seat: &mut ReplaySeat, thread: u32) -> Begun
        requires seat { IsSeatOf self.now seat.old }
        requires lane { Contains seat.old.view.lanes (lane_of self.now.terms.lanes thread) }
        ensures seat { IsSeatOf self.now seat.new }
        ensures same { IsSameSeat seat.old seat.new }
        ensures lanes { SameLanes seat.old.view seat.new.view }
        ensures later { IsPrefix seat.old.view.seen seat.new.view.seen }
        ensures told { BegunSo seat.old.view seat.new.view thread result }
        ensures own { (lane : ℕ) → Contains seat.old.view.lanes lane → entries_of_lane self.now.terms.lanes lane seat.new.view.seen ≡ entries_of_lane self.now.terms.lanes lane seat.old.view.seen }
        ensures thread { ClassSo self.now.terms.start result }
        ensures target { TargetSo seat.new.view.seen thread result }
    {
        begun(&self.table.shared, &self.terms.log, &mut seat.place, thread)
    }

    /// Loads the clock: the number of the next event, from 0. Another lane may make that event before this one reads the answer.
    pub fn clock(&self, seat: &mut ReplaySeat) -> u64
        requires seat { IsSeatOf self.now seat.old }
        ensures seat { IsSeatOf self.now seat.new }
        ensures same { IsSameSeat seat.old seat.new }
        ensures view { seat.new.view ≡ with_clock seat.old.view result }
        ensures later { length seat.old.view.seen ≤ result }
    {
        glance(&self.table.shared, &mut seat.place)
    }

    /// Gives a lane to a new seat, which has seen what this one has seen. It takes no memory.
    pub fn split(&self, seat: &mut ReplaySeat, lane: u32) -> ReplaySeat
        requires seat { IsSeatOf self.now seat.old }
        requires may { Contains seat.old.view.spare lane }
        ensures seat { IsSeatOf self.now seat.new }
        ensures same { IsSameSeat seat.old seat.new }
        ensures left { (clock : ℕ) × (seat.new.view ≡ giving lane (with_clock seat.old.view clock)) × (result.view ≡ given lane (with_clock seat.old.view clock)) }
        ensures made { IsSeatOf self.now result × (result.is_told_off ≡ false) }
        ensures fresh { entries_of_lane self.now.terms.lanes lane result.view.seen ≡ [] }
    {
        glance(&self.table.shared, &mut seat.place);
        ReplaySeat {
            place: split::<Brand>(&self.table.shared, &mut seat.place, lane),
            is_told_off: false,
        }
    }

    /// Takes in what another seat has: its lanes, their entries, and what it had seen. It takes no memory.
    pub fn join(&self, into: &mut ReplaySeat, ended: ReplaySeat)
        requires seat { IsSeatOf self.now into.old }
        requires ended { IsSeatOf self.now ended }
        ensures seat { IsSeatOf self.now into.new }
        ensures same { IsSameSeat into.old into.new }
        ensures both { (clock : ℕ) × (into.new.view ≡ with_clock (joined into.old.view ended.view) clock) }
        ensures lanes { into.new.view.lanes ≡ into.old.view.lanes ++ ended.view.lanes }
        ensures first { IsPrefix into.old.view.seen into.new.view.seen }
        ensures second { IsPrefix ended.view.seen into.new.view.seen }
        ensures own { (lane : ℕ) → Contains into.old.view.lanes lane → own_of into.new.view lane ≡ own_of into.old.view lane }
        ensures ended_own { (lane : ℕ) → Contains ended.view.lanes lane → own_of into.new.view lane ≡ own_of ended.view lane }
    {
        join(&self.table.shared, &mut into.place, ended.place);
        glance(&self.table.shared, &mut into.place);
    }

    /// Ends the gate, and gives the world behind it. The seat has each lane or may still give it, so it is the last one. It takes
    /// no memory.
    pub fn close(self, seat: ReplaySeat) -> World
        requires seat { IsSeatOf self seat }
        requires all { HasAllLanes self.terms.lanes seat.view }
        ensures { Closes seat.view result }
    {
        let ReplayGate { terms, table } = self;
        drop(terms);
        let ReplaySeat {
            place,
            is_told_off: _,
        } = seat;
        let mut closed = table.close_with(place);
        let slot = closed.take(0);
        closed.free();
        match slot {
            Some(world) => world,
            None => unreachable!(),
        }
    }
}

/// The budget of a log, which is from 1 to 1,048,576.
fn budget_of(log: &Log) -> u64
    ensures value { result ≡ log.now.budget }
    ensures low { 1 ≤ result }
    ensures high { result ≤ MOST_EVENTS }
{
    let _ = log.intervals();
    log.budget()
}

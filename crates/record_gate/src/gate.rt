use crate::answers::Committing;
use crate::judging::{find, judge};
use crate::plays::{Give, Unite};
use crate::rule::{OneHistory, RecordView, Setup};
use crate::seat::RecordSeat;
use crate::steps;
use atomic_table::Table;
use gate_core::Begun;
use shared_world::World;
use std::alloc::Global;
use std::marker::Model;
use vm_model::{NoMemory, Op};
use world_start::Start;

pub(crate) type GateTable = Table<Option<World>, RecordView, Setup, OneHistory, Global>;

/// A gate before one world, which one seat at a time may hold. Nothing waits at it: a lane that finds the gate held is told so,
/// and can try again.
#[derive(Drop)]
pub struct RecordGate {
    table: GateTable,
}

impl Model for RecordGate {
    ghost use Rattle.record_gate.specs.Seats.{GateState};

    ghost Value = { GateState };

    ghost use Rattle.record_gate.specs.GateView.{view_of, IsSized};

    ghost view = { view_of };

    ghost invariant = { IsSized };
}

impl RecordGate {
    ghost use Rattle.std.specs.Prelude.{◌≡◌, ◌≤◌, ◌<◌, ◌%◌, ℕ, true, false, [], length, Contains, IfOk};
    ghost use Rattle.vm_model.specs.declared.limits.TheConstants.{MOST_EVENTS, MOST_LANES};
    ghost use Rattle.record_gate.specs.Seats.{IsSeatOf, Keeps};
    ghost use Rattle.record_gate.specs.Judging.{FitsReply, FitsTarget};
    ghost use Rattle.gate_core.specs.Histories.{entries_of_lane};
    ghost use Rattle.record_gate.specs.Lanes.{has};
    ghost use Rattle.record_gate.specs.Views.{first_view, looking, choosing, giver, given, both, merged};
    ghost use Rattle.record_gate.specs.Calls.{Tried, Asked, HasAll, KeepsOwn, OwnAfter, TellsTarget};
    ghost use mathlib.Core.List.{IsPrefix};
    ghost use Rattle.record_gate.specs.Steps.{Finds};
    ghost use Rattle.record_gate.specs.Offers.{told_of, untold};
    ghost use Rattle.record_gate.specs.WorldGates.{gives_of};

    /// A gate for so many lanes with a new world behind it, which takes so many events; and the first seat, which has lane 0
    /// and may give all others.
    pub fn new(
        alloc: Global,
        start: Start,
        lanes: u32,
        events: u64,
    ) -> Result<(RecordGate, RecordSeat), NoMemory>
        requires lanes { (1 ≤ lanes) × (lanes ≤ MOST_LANES) }
        requires events { (1 ≤ events) × (events ≤ MOST_EVENTS) }
        ensures gate { IfOk result (λ made. made.0.setup ≡ record { start = start; events = events; lanes = lanes }) }
        ensures seat { IfOk result (λ made. IsSeatOf made.0 made.1 × (made.1.view ≡ first_view made.0.setup) × (made.1.is_told_off ≡ false)) }
        ensures told { IfOk result (λ made. told_of made.1 ≡ untold) }
        ensures gives { IfOk result (λ made. (lane : ℕ) → 1 ≤ lane → lane < lanes → Contains (gives_of made.1) lane) }
    {
        let setup = Setup {
            start: start.copy(alloc)?,
            events,
            lanes,
        };
        let world = World::new(alloc, start, events)?;
        let mut slots = Vec::new(alloc);
        slots.push(Some(world))?;
        match Table::new(alloc, &[0, 0], slots, &setup) {
            Ok((table, seat)) => Ok((
                RecordGate { table },
                RecordSeat {
                    seat,
                    is_told_off: false,
                },
            )),
            Err(_) => Err(NoMemory),
        }
    }

    /// The clock of the next event when it was loaded, which is the number of events until then. Other lanes may have made
    /// more since. It takes no memory.
    pub fn clock(&self, seat: &mut RecordSeat) -> u64
        requires seat { IsSeatOf self.now seat.old }
        ensures seat { IsSeatOf self.now seat.new }
        ensures kept { Keeps seat.old seat.new }
        ensures loaded { seat.new.view ≡ looking seat.old.view result }
        ensures seen { length seat.old.view.seen ≤ result }
    {
        steps::look(&self.table, &mut seat.seat)
    }

    /// Commits an operation of a thread of one of the seat's lanes as the next event, where the gate is free, the run has not
    /// ended, an event is left of the budget, and the operation is enabled. Any other answer leaves the world as it was.
    pub fn try_commit(
        &self,
        alloc: Global,
        seat: &mut RecordSeat,
        thread: u32,
        op: Op,
    ) -> Committing
        requires seat { IsSeatOf self.now seat.old }
        requires lane { has seat.old.view.lanes (thread % seat.old.view.lane_count) ≡ true }
        ensures seat { IsSeatOf self.now seat.new }
        ensures kept { Keeps seat.old seat.new }
        ensures answer { Tried seat.old.view seat.new.view thread op result }
        ensures seen { IsPrefix seat.old.view.seen seat.new.view.seen }
        ensures own { OwnAfter seat.old.view seat.new.view thread op result }
        ensures fits { FitsReply self.now.setup.start op result }
    {
        if !steps::take(&self.table, &mut seat.seat) {
            return Committing::Busy;
        }
        let mut world = steps::fetch(&self.table, &mut seat.seat);
        let answer = judge(alloc, &mut world, thread, op);
        steps::put_back(&self.table, &mut seat.seat, world);
        steps::settle(&self.table, &mut seat.seat, &answer);
        steps::release(&self.table, &mut seat.seat);
        answer
    }

    /// Whether a thread was started, and for which object. Where the gate is held it answers NotYet. It takes no memory.
    pub fn begun(&self, seat: &mut RecordSeat, thread: u32) -> Begun
        requires seat { IsSeatOf self.now seat.old }
        requires lane { has seat.old.view.lanes (thread % seat.old.view.lane_count) ≡ true }
        ensures seat { IsSeatOf self.now seat.new }
        ensures kept { Keeps seat.old seat.new }
        ensures answer { Asked seat.old.view seat.new.view thread result }
        ensures seen { IsPrefix seat.old.view.seen seat.new.view.seen }
        ensures own { KeepsOwn seat.old.view seat.new.view.seen }
        ensures target { TellsTarget seat.new.view thread result }
        ensures fits { FitsTarget self.now.setup.start result }
    {
        if !steps::take(&self.table, &mut seat.seat) {
            return Begun::NotYet;
        }
        let world = steps::fetch(&self.table, &mut seat.seat);
        let answer = find(&world, thread);
        steps::put_back(&self.table, &mut seat.seat, world);
        steps::release(&self.table, &mut seat.seat);
        answer
    }

    /// A new seat with this lane, which this one may still give, and no longer can. It has seen what this one has seen. It takes
    /// no memory.
    pub fn split(&self, seat: &mut RecordSeat, lane: u32) -> RecordSeat
        requires seat { IsSeatOf self.now seat.old }
        requires lane { has seat.old.view.spare lane ≡ true }
        ensures seat { IsSeatOf self.now seat.new × IsSeatOf self.now result }
        ensures left { seat.new.view ≡ giver (choosing seat.old.view lane) }
        ensures made { result.view ≡ given (choosing seat.old.view lane) }
        ensures told_off { (seat.new.is_told_off ≡ seat.old.is_told_off) × (result.is_told_off ≡ false) }
        ensures unused { entries_of_lane result.view.lane_count lane result.view.seen ≡ [] }
    {
        steps::choose(&self.table, &mut seat.seat, lane);
        let new = self.table.shared.split_seat::<Give>(&mut seat.seat);
        RecordSeat {
            seat: new,
            is_told_off: false,
        }
    }

    /// Takes back a seat: its lanes, those that it may give, and all that it has seen are now this one's. It takes no memory.
    pub fn join(&self, into: &mut RecordSeat, ended: RecordSeat)
        requires seats { IsSeatOf self.now into.old × IsSeatOf self.now ended }
        ensures seat { IsSeatOf self.now into.new }
        ensures told_off { into.new.is_told_off ≡ into.old.is_told_off }
        ensures both { into.new.view ≡ merged (both into.old.view ended.view) }
        ensures seen { IsPrefix into.old.view.seen into.new.view.seen × IsPrefix ended.view.seen into.new.view.seen }
        ensures own { KeepsOwn into.old.view into.new.view.seen × KeepsOwn ended.view into.new.view.seen }
    {
        let RecordSeat {
            seat,
            is_told_off: _,
        } = ended;
        self.table.shared.join_seat::<Unite>(&mut into.seat, seat);
        steps::merge(&self.table, &mut into.seat);
    }

    /// The world with all events. The seat has or may give each lane, so it is the only one that is left. It takes no memory.
    pub fn close(self, seat: RecordSeat) -> World
        requires seat { IsSeatOf self seat }
        requires all { HasAll seat.view }
        ensures world { Finds seat.view result }
        ensures seen { IsPrefix seat.view.seen result.history }
        ensures own { KeepsOwn seat.view result.history }
    {
        let RecordGate { table } = self;
        let RecordSeat {
            seat,
            is_told_off: _,
        } = seat;
        let mut closed = table.close_with(seat);
        let world = closed.take(0);
        closed.free();
        match world {
            Some(world) => world,
            None => unreachable!(),
        }
    }
}

//! The steps of a seat, each on the table's one word or its one slot.
ghost use Rattle.std.specs.Prelude.{◌≡◌, true, [], ◌∷◌, ◌++◌, Contains, Some, None};
ghost use mathlib.Core.Option.{none};
ghost use Rattle.vm_model.specs.declared.op.Entry.{Entry};
ghost use Rattle.shared_world.specs.Worlds.{WorldState};
ghost use Rattle.atomic_table.specs.Table.{step};
ghost use Rattle.replay_gate.specs.Lanes.{lane_of};
ghost use Rattle.replay_gate.specs.Places.{IsAt, IsSamePlace, IsIdle, IsOn};
ghost use Rattle.replay_gate.specs.Steps.{Glances, looked, is_turn_of, with_clock, without_turn, giving, given, joined};

use crate::steps::{Asking, Commit, Give, Giving, Glance, Leave, Look, Merge, ReplayRule};
use crate::view::{ReplayView, Terms};
use atomic_table::{Seat, Shared};
use shared_world::World;

pub(crate) type GateTable = Shared<Option<World>, ReplayView, Terms, ReplayRule>;

pub(crate) type Place = Seat<Option<World>, ReplayView>;

/// Loads the clock, which begins the turn where the clock is the thread's.
pub(crate) fn look<T: Asking>(table: &GateTable, place: &mut Place, thread: u32) -> u64
    requires asked { thread ≡ T.thread }
    requires table { IsAt table.now.table_id place.old }
    requires idle { IsIdle place.old }
    requires lane { Contains place.old.me.0.lanes (lane_of place.old.me.0.lane_count T.thread) }
    ensures same { IsSamePlace place.old place.new }
    ensures told { looked T.thread (step 1 0 0 0 none) place.old.me result place.new.me }
{
    table.load::<Look<T>>(place, 0)
}

/// Loads the clock alone.
pub(crate) fn glance(table: &GateTable, place: &mut Place) -> u64
    requires table { IsAt table.now.table_id place.old }
    requires idle { IsIdle place.old }
    ensures same { IsSamePlace place.old place.new }
    ensures told { Glances place.old.me result place.new.me }
{
    table.load::<Glance>(place, 0)
}

/// Takes the world out of the slot.
pub(crate) fn take_world(table: &GateTable, place: &mut Place) -> World
    requires table { IsAt table.now.table_id place.old }
    requires out { (world : WorldState) × (place.old.me.1 ≡ (0, Some world) ∷ []) }
    ensures same { IsSamePlace place.old place.new }
    ensures world { place.old.me.1 ≡ (0, Some result) ∷ [] }
    ensures empty { place.new.me ≡ (place.old.me.0, (0, None) ∷ []) }
{
    match table.exchange(place, 0, None) {
        Some(world) => world,
        None => unreachable!(),
    }
}

/// Puts a world into the slot, which is empty.
fn put_world(table: &GateTable, place: &mut Place, world: World)
    requires table { IsAt table.now.table_id place.old }
    requires empty { place.old.me.1 ≡ (0, None) ∷ [] }
    ensures same { IsSamePlace place.old place.new }
    ensures full { place.new.me ≡ (place.old.me.0, (0, Some world) ∷ []) }
{
    match table.exchange(place, 0, Some(world)) {
        None => {}
        Some(_) => unreachable!(),
    }
}

/// Puts the world back as it was found, and ends the turn with no event.
pub(crate) fn leave(table: &GateTable, place: &mut Place, world: World)
    requires table { IsAt table.now.table_id place.old }
    requires turn { IsOn place.old }
    requires empty { place.old.me.1 ≡ (0, None) ∷ [] }
    requires start { world.declarations ≡ place.old.me.0.start }
    requires budget { world.budget ≡ place.old.me.0.log.budget }
    requires history { world.history ≡ place.old.me.0.seen }
    ensures same { IsSamePlace place.old place.new }
    ensures told { place.new.me ≡ (without_turn (with_clock place.old.me.0 place.old.me.0.clock) place.old.me.0.seen, []) }
{
    let _ = world.history();
    put_world(table, place, world);
    table.load::<Leave>(place, 0);
}

/// Puts the world back with one event more, and ends the turn with it.
pub(crate) fn commit(table: &GateTable, place: &mut Place, world: World)
    requires table { IsAt table.now.table_id place.old }
    requires turn { IsOn place.old }
    requires empty { place.old.me.1 ≡ (0, None) ∷ [] }
    requires start { world.declarations ≡ place.old.me.0.start }
    requires budget { world.budget ≡ place.old.me.0.log.budget }
    requires event { (e : Entry) × (world.history ≡ place.old.me.0.seen ++ e ∷ []) × (is_turn_of place.old.me.0.log place.old.me.0.clock e.thread ≡ true) }
    ensures same { IsSamePlace place.old place.new }
    ensures told { place.new.me ≡ (without_turn place.old.me.0 world.history, []) }
{
    let _ = world.budget();
    let _ = world.history();
    put_world(table, place, world);
    table.fetch_add::<Commit>(place, 0, 1);
}

/// Gives a lane to a new seat.
pub(crate) fn split<L: Giving>(table: &GateTable, place: &mut Place, lane: u32) -> Place
    requires asked { lane ≡ L.lane }
    requires table { IsAt table.now.table_id place.old }
    requires idle { IsIdle place.old }
    requires may { Contains place.old.me.0.spare L.lane }
    ensures same { IsSamePlace place.old place.new }
    ensures left { place.new.me ≡ (giving L.lane place.old.me.0, []) }
    ensures table { result.table_id ≡ place.old.table_id }
    ensures right { result.me ≡ (given L.lane place.old.me.0, []) }
{
    table.split_seat::<Give<L>>(place)
}

/// Takes in all that another seat has.
pub(crate) fn join(table: &GateTable, place: &mut Place, other: Place)
    requires table { IsAt table.now.table_id place.old }
    requires other_table { IsAt table.now.table_id other }
    requires idle { IsIdle place.old }
    requires other { IsIdle other }
    ensures same { IsSamePlace place.old place.new }
    ensures both { place.new.me ≡ (joined place.old.me.0 other.me.0, []) }
{
    table.join_seat::<Merge>(place, other);
}

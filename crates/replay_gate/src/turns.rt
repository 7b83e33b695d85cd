//! One turn at the table.
ghost use Rattle.std.specs.Prelude.{◌≡◌, Contains};
ghost use Rattle.replay_gate.specs.Lanes.{lane_of};
ghost use Rattle.replay_gate.specs.Places.{IsAt, IsSamePlace, IsIdle};
ghost use Rattle.replay_gate.specs.Answers.{Turned, BegunSo, IsWithinLimit, FitsSo};

use crate::places::{GateTable, Place, commit, leave, look, take_world};
use crate::thread_at::is_turn;
use crate::turning::Turning;
use gate_core::Begun;
use schedule_log::Log;
use shared_world::ApplyFault;
use std::alloc::Global;
use std::marker::Brand;
use vm_model::Op;

/// Makes the thread's next event, where the log has the thread at the clock that is found.
pub(crate) fn turn(
    alloc: Global,
    table: &GateTable,
    log: &Log,
    place: &mut Place,
    thread: u32,
    op: Op,
) -> Turning
    requires table { IsAt table.now.table_id place.old }
    requires log { place.old.me.0.log ≡ log.now }
    requires idle { IsIdle place.old }
    requires lane { Contains place.old.me.0.lanes (lane_of place.old.me.0.lane_count thread) }
    ensures same { IsSamePlace place.old place.new }
    ensures idle { IsIdle place.new }
    ensures turned { Turned place.old.me.0 place.new.me.0 thread op result }
    ensures limit { IsWithinLimit result }
    ensures fits { FitsSo place.old.me.0.start op result }
{
    let clock = look::<Brand>(table, place, thread);
    if !is_turn(log, clock, thread) {
        return Turning::NotYet { clock };
    }
    let world = take_world(table, place);
    if world.fault().is_some() {
        leave(table, place, world);
        return Turning::Differs { clock };
    }
    let mut world = world;
    match world.apply(alloc, thread, op) {
        Ok(reply) => {
            commit(table, place, world);
            Turning::Committed { clock, reply }
        }
        Err(ApplyFault::Blocked) => {
            leave(table, place, world);
            Turning::Differs { clock }
        }
        Err(ApplyFault::NoMemory) => {
            leave(table, place, world);
            Turning::NoMemory
        }
    }
}

/// The object that the thread was started for, where the log has the thread at the clock that is found.
pub(crate) fn begun(table: &GateTable, log: &Log, place: &mut Place, thread: u32) -> Begun
    requires table { IsAt table.now.table_id place.old }
    requires log { place.old.me.0.log ≡ log.now }
    requires idle { IsIdle place.old }
    requires lane { Contains place.old.me.0.lanes (lane_of place.old.me.0.lane_count thread) }
    ensures same { IsSamePlace place.old place.new }
    ensures idle { IsIdle place.new }
    ensures told { BegunSo place.old.me.0 place.new.me.0 thread result }
{
    let clock = look::<Brand>(table, place, thread);
    if !is_turn(log, clock, thread) {
        return Begun::NotYet;
    }
    let world = take_world(table, place);
    let target = world.target(thread);
    leave(table, place, world);
    match target {
        Some(target) => Begun::Yes(target),
        None => Begun::Over,
    }
}

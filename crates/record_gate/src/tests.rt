//! Gates of two lanes, which one thread serves in turn, or two threads at once.

ghost use Rattle.std.specs.Prelude.{◌≡◌, ◌≤◌, ◌%◌, true, [], ◌∷◌};
ghost use Rattle.record_gate.specs.Calls.{Tried};
ghost use Rattle.record_gate.specs.Lanes.{has};
ghost use Rattle.record_gate.specs.Seats.{IsSeatOf, Keeps};

use crate::{Committing, RecordGate, RecordSeat};
use gate_core::{Begun, Gate, Offer};
use std::alloc::Global;
use std::test::Fail;
use std::thread::{Threads, join_mut};
use vm_model::{Class, Entry, Name, NoMemory, ObjRef, Op, Plain, Program, Reply, Value};
use world_start::{Start, start_of};

const WORKER: u32 = 32;

const OBJECT: ObjRef = ObjRef {
    id: 0,
    class: WORKER,
};

const MADE: Reply = Reply::Made(Value::Obj {
    id: 0,
    class: WORKER,
});

/// A program with one class, which extends Thread.
fn start(alloc: Global) -> Result<Start, NoMemory> {
    let mut classes = Vec::new(alloc);
    classes.push(Class {
        name: Name::of(alloc, b"Worker")?,
        is_thread: true,
        is_runnable: false,
        fields: Vec::new(alloc),
        run: None,
    })?;
    let plain = Plain::of(Program {
        classes,
        methods: Vec::new(alloc),
        statics: Vec::new(alloc),
        texts: Vec::new(alloc),
        main: 0,
    });
    start_of(alloc, &plain)
}

fn committed(clock: u64, reply: Reply) -> Committing {
    Committing::Committed { clock, reply }
}

/// Two seats at one gate with a budget of one event. The answer is the number of the first step that isn't as wanted.
fn one_event(alloc: Global) -> Result<u32, NoMemory> {
    let (gate, mut first) = RecordGate::new(alloc, start(alloc)?, 2, 1)?;
    let mut second = gate.split(&mut first, 1);
    if gate.try_commit(alloc, &mut second, 1, Op::Join { obj: 0 }) != Committing::Blocked {
        return Ok(1);
    }
    if gate.begun(&mut second, 1) != Begun::NotYet {
        return Ok(2);
    }
    let made = Committing::Committed {
        clock: 0,
        reply: MADE,
    };
    if gate.try_commit(alloc, &mut first, 0, Op::New { class: WORKER }) != made {
        return Ok(3);
    }
    if gate.try_commit(alloc, &mut first, 0, Op::Tick) != Committing::Spent {
        return Ok(4);
    }
    if gate.offer(alloc, &mut first, 0, Op::Tick) != Offer::Leave {
        return Ok(5);
    }
    if gate.clock(&mut second) != 1 {
        return Ok(6);
    }
    gate.join(&mut first, second);
    let world = gate.close(first);
    if world.history().len() != 1 {
        return Ok(7);
    }
    Ok(0)
}

/// What the first of two lanes is to get for these operations of thread 0, before the second lane has done anything.
fn starts(alloc: Global, gate: &RecordGate, first: &mut RecordSeat) -> bool
    requires seat { IsSeatOf gate.now first.old }
    requires lane { first.old.view.lanes ≡ 0 ∷ [] }
    requires lanes { gate.now.setup.lanes ≡ 2 }
    ensures seat { IsSeatOf gate.now first.new }
    ensures lane { first.new.view.lanes ≡ 0 ∷ [] }
    ensures spare { first.new.view.spare ≡ first.old.view.spare }
{
    let made = gate.try_commit(alloc, first, 0, Op::New { class: WORKER });
    let began = gate.try_commit(alloc, first, 0, Op::Start { target: OBJECT });
    made == committed(0, MADE) && began == committed(1, Reply::Began(1))
}

/// The second lane meets the thread that was started, and ends it.
fn ends(alloc: Global, gate: &RecordGate, second: &mut RecordSeat) -> bool
    requires seat { IsSeatOf gate.now second.old }
    requires lane { second.old.view.lanes ≡ 1 ∷ [] }
    requires lanes { gate.now.setup.lanes ≡ 2 }
    ensures seat { IsSeatOf gate.now second.new }
    ensures lane { second.new.view.lanes ≡ 1 ∷ [] }
    ensures spare { second.new.view.spare ≡ second.old.view.spare }
{
    let begun = gate.begun(second, 1);
    let ended = gate.try_commit(alloc, second, 1, Op::ThreadEnd);
    begun == Begun::Yes(OBJECT) && ended == committed(2, Reply::Unit)
}

#[test]
fn a_gate_of_one_event(rt: HostRuntime) -> Result<(), Fail> {
    assert!(rt; one_event(rt.alloc())? == 0);
    Ok(())
}

/// Whether the events are of these threads, in order.
fn are_of(history: &[Entry], threads: &[u32]) -> bool {
    history.len() == threads.len()
        && history
            .iter()
            .zip(threads.iter())
            .all(|(entry, thread)| entry.thread == *thread)
}

/// Two lanes make one history, one after the other. The answer is the number of the first step that isn't as wanted.
fn two_lanes(alloc: Global) -> Result<u32, NoMemory> {
    let (gate, mut first) = RecordGate::new(alloc, start(alloc)?, 2, 9)?;
    let mut second = gate.split(&mut first, 1);
    if gate.offer(alloc, &mut second, 1, Op::Yield) != Offer::Again {
        return Ok(1);
    }
    if !starts(alloc, &gate, &mut first) {
        return Ok(2);
    }
    if gate.offer(alloc, &mut first, 0, Op::Join { obj: 0 }) != Offer::Again {
        return Ok(3);
    }
    if !ends(alloc, &gate, &mut second) {
        return Ok(4);
    }
    if gate.try_commit(alloc, &mut first, 0, Op::ThreadEnd) != committed(3, Reply::Unit) {
        return Ok(5);
    }
    if gate.offer(alloc, &mut second, 1, Op::Tick) != Offer::Leave {
        return Ok(6);
    }
    if gate.begun(&mut second, 3) != Begun::Over {
        return Ok(7);
    }
    gate.join(&mut first, second);
    let world = gate.close(first);
    if !are_of(world.history(), &[0, 0, 1, 0]) {
        return Ok(8);
    }
    Ok(0)
}

#[test]
fn two_lanes_make_one_history(rt: HostRuntime) -> Result<(), Fail> {
    assert!(rt; two_lanes(rt.alloc())? == 0);
    Ok(())
}

/// Two threads try to commit an operation each, one beside the other.
fn commit_beside<R: Threads>(
    rt: &R,
    alloc: Global,
    gate: &RecordGate,
    one: &mut RecordSeat,
    other: &mut RecordSeat,
    first: (u32, Op),
    second: (u32, Op),
) -> (Committing, Committing)
    requires seats { IsSeatOf gate.now one.old × IsSeatOf gate.now other.old }
    requires first { has one.old.view.lanes (first.0 % one.old.view.lane_count) ≡ true }
    requires second { has other.old.view.lanes (second.0 % other.old.view.lane_count) ≡ true }
    ensures seats { IsSeatOf gate.now one.new × IsSeatOf gate.now other.new }
    ensures kept { Keeps one.old one.new × Keeps other.old other.new }
    ensures first { Tried one.old.view one.new.view first.0 first.1 result.0 }
    ensures second { Tried other.old.view other.new.view second.0 second.1 result.1 }
{
    join_mut(
        rt,
        &mut || gate.try_commit(alloc, one, first.0, first.1),
        &mut || gate.try_commit(alloc, other, second.0, second.1),
    )
}

fn events_in(answer: Committing) -> usize
    ensures { result ≤ 1 }
{
    if let Committing::Committed { .. } = answer {
        1
    } else {
        0
    }
}

/// However the two threads meet, the history has an event for each answer that says so.
fn two_threads<R: Threads>(rt: &R, alloc: Global) -> Result<bool, NoMemory> {
    let (gate, mut first) = RecordGate::new(alloc, start(alloc)?, 2, 9)?;
    let mut second = gate.split(&mut first, 1);
    if !starts(alloc, &gate, &mut first) {
        return Ok(false);
    }
    let (one, other) = commit_beside(
        rt,
        alloc,
        &gate,
        &mut first,
        &mut second,
        (0, Op::Tick),
        (1, Op::Tick),
    );
    gate.join(&mut first, second);
    let world = gate.close(first);
    Ok(world.history().len() == 2 + events_in(one) + events_in(other))
}

#[test]
fn two_threads_at_one_gate(rt: HostRuntime) -> Result<(), Fail> {
    assert!(rt; two_threads(&rt, rt.alloc())?);
    Ok(())
}

//! Small logs of two threads, replayed by two lanes, on one thread and on two.
ghost use Rattle.std.specs.Prelude.{◌≡◌, ◌%◌, ◌∷◌, [], Contains};
ghost use Rattle.replay_gate.specs.Gates.{IsSeatOf};

use crate::{ReplayGate, ReplaySeat};
use gate_core::{Begun, Gate, Offer, WorldGate};
use schedule_log::{Log, decode};
use shared_world::World;
use std::alloc::Global;
use std::test::Fail;
use std::thread::{Threads, join_mut};
use vm_model::{Class, Name, NoMemory, ObjRef, Op, Plain, Program, Reply, Value};
use world_start::{Start, start_of};

const WORKER: u32 = 32;

const TARGET: ObjRef = ObjRef {
    id: 0,
    class: WORKER,
};

const MADE: Value = Value::Obj {
    id: 0,
    class: WORKER,
};

/// Thread 0 has the clocks 0, 1, 4 and 6, thread 1 has 2, 3 and 5.
const LOG: [u8; 22] = [
    0x44, 0x4A, 0x56, 0x4C, 0x01, 0x80, 0x80, 0x40, 0x02, 0x03, 0x00, 0x01, 0x02, 0x00, 0x01, 0x00,
    0x02, 0x02, 0x01, 0x01, 0x00, 0xF0,
];

/// Thread 1 has the clock 0, before anything could start it.
const NO_RUN: [u8; 16] = [
    0x44, 0x4A, 0x56, 0x4C, 0x01, 0x80, 0x80, 0x40, 0x02, 0x01, 0x01, 0x00, 0x01, 0x00, 0x00, 0xF0,
];

/// An operation that a thread offers, and the answer that it is to get.
type Try = (u32, Op, Offer);

/// Before the worker's first event.
const STARTS: [Try; 4] = [
    (1, Op::Tick, Offer::Again),
    (
        0,
        Op::New { class: WORKER },
        Offer::Committed {
            clock: 0,
            reply: Reply::Made(MADE),
        },
    ),
    (1, Op::Tick, Offer::Again),
    (
        0,
        Op::Start { target: TARGET },
        Offer::Committed {
            clock: 1,
            reply: Reply::Began(1),
        },
    ),
];

/// From then on. The worker can't wait for its own end.
const GOES_ON: [Try; 11] = [
    (0, Op::Tick, Offer::Again),
    (1, Op::Join { obj: 0 }, Offer::Leave),
    (
        1,
        Op::Tick,
        Offer::Committed {
            clock: 2,
            reply: Reply::Unit,
        },
    ),
    (
        1,
        Op::Yield,
        Offer::Committed {
            clock: 3,
            reply: Reply::Unit,
        },
    ),
    (1, Op::ThreadEnd, Offer::Again),
    (
        0,
        Op::Tick,
        Offer::Committed {
            clock: 4,
            reply: Reply::Unit,
        },
    ),
    (0, Op::ThreadEnd, Offer::Again),
    (
        1,
        Op::ThreadEnd,
        Offer::Committed {
            clock: 5,
            reply: Reply::Unit,
        },
    ),
    (1, Op::Tick, Offer::Again),
    (
        0,
        Op::ThreadEnd,
        Offer::Committed {
            clock: 6,
            reply: Reply::Unit,
        },
    ),
    (0, Op::Tick, Offer::Again),
];

/// The threads of the events of that log.
const THREADS: [u32; 7] = [0, 0, 1, 1, 0, 1, 0];

/// A program with one class, which extends Thread.
fn program(alloc: Global) -> Result<Start, NoMemory> {
    let mut classes = Vec::new(alloc);
    classes.push(Class {
        name: Name::of(alloc, b"Worker")?,
        is_thread: true,
        is_runnable: false,
        fields: Vec::new(alloc),
        run: None,
    })?;
    let plain = Plain::of(Program {
        classes,
        methods: Vec::new(alloc),
        statics: Vec::new(alloc),
        texts: Vec::new(alloc),
        main: 0,
    });
    start_of(alloc, &plain)
}

fn log(alloc: Global, bytes: &[u8]) -> Result<Log, NoMemory> {
    match decode(alloc, bytes) {
        Ok(log) => Ok(log),
        Err(_) => Err(NoMemory),
    }
}

/// Whether the answer to an operation of thread 0 or 1 is as wanted.
fn is_answered<G: Gate>(
    gate: &G,
    alloc: Global,
    first: &mut G::Seat,
    second: &mut G::Seat,
    tried: &Try,
) -> bool
    requires first { G.IsSeatOf gate.now first.old }
    requires second { G.IsSeatOf gate.now second.old }
    requires lane { Contains (G.told first.old).lanes (0 % (G.about gate.now).lanes) }
    requires other_lane { Contains (G.told second.old).lanes (1 % (G.about gate.now).lanes) }
    ensures first { G.IsSeatOf gate.now first.new }
    ensures second { G.IsSeatOf gate.now second.new }
    ensures lanes { (G.told first.new).lanes ≡ (G.told first.old).lanes }
    ensures other_lanes { (G.told second.new).lanes ≡ (G.told second.old).lanes }
{
    let (thread, op, wanted) = *tried;
    if thread == 0 {
        gate.offer(alloc, first, 0, op) == wanted
    } else {
        gate.offer(alloc, second, 1, op) == wanted
    }
}

/// The first of these operations that isn't answered as wanted.
fn first_other<G: Gate>(
    gate: &G,
    alloc: Global,
    first: &mut G::Seat,
    second: &mut G::Seat,
    tries: &[Try],
) -> Option<usize>
    requires first { G.IsSeatOf gate.now first.old }
    requires second { G.IsSeatOf gate.now second.old }
    requires lane { Contains (G.told first.old).lanes (0 % (G.about gate.now).lanes) }
    requires other_lane { Contains (G.told second.old).lanes (1 % (G.about gate.now).lanes) }
    ensures first { G.IsSeatOf gate.now first.new }
    ensures second { G.IsSeatOf gate.now second.new }
    ensures lanes { (G.told first.new).lanes ≡ (G.told first.old).lanes }
    ensures other_lanes { (G.told second.new).lanes ≡ (G.told second.old).lanes }
{
    for at in 0..tries.len() {
        if !is_answered(gate, alloc, first, second, &tries[at]) {
            return Some(at);
        }
    }
    None
}

/// The world behind a gate of two lanes, when each seat has ended.
fn closed<G: WorldGate>(gate: G, first: G::Seat, second: G::Seat) -> World
    requires first { G.IsSeatOf gate first }
    requires second { G.IsSeatOf gate second }
    requires lane { (G.told first).lanes ≡ 0 ∷ [] }
    requires other_lane { (G.told second).lanes ≡ 1 ∷ [] }
    requires two { (G.about gate).lanes ≡ 2 }
{
    let mut both = first;
    gate.join(&mut both, second);
    gate.close(both)
}

/// What a gate of two lanes told on the way, and the world behind it.
#[derive(Drop)]
struct Told {
    other_start: Option<usize>,
    early: Begun,
    begun: Begun,
    clock: u64,
    other: Option<usize>,
    world: World,
}

/// A gate of two lanes with the seat that it was made with, until it is closed.
fn replay_both<G: WorldGate>(gate: G, seat: G::Seat, alloc: Global) -> Told
    requires seat { G.IsSeatOf gate seat }
    requires lanes { (G.told seat).lanes ≡ 0 ∷ [] }
    requires gives { Contains (G.gives seat) 1 }
    requires two { (G.about gate).lanes ≡ 2 }
{
    let mut first = seat;
    let mut second = gate.split(&mut first, 1);
    let early = gate.begun(&mut second, 1);
    let other_start = first_other(&gate, alloc, &mut first, &mut second, &STARTS);
    let begun = gate.begun(&mut second, 1);
    let clock = gate.clock(&mut first);
    let other = first_other(&gate, alloc, &mut first, &mut second, &GOES_ON);
    Told {
        other_start,
        early,
        begun,
        clock,
        other,
        world: closed(gate, first, second),
    }
}

fn two_lanes(alloc: Global) -> Result<Told, NoMemory> {
    let (gate, seat) = ReplayGate::new(alloc, program(alloc)?, log(alloc, &LOG)?, 2)?;
    Ok(replay_both(gate, seat, alloc))
}

/// Whether thread 1 of the log that none starts was begun, and whether its first operation is one that it may do.
fn no_start(alloc: Global) -> Result<(Begun, Offer), NoMemory> {
    let (gate, mut first) = ReplayGate::new(alloc, program(alloc)?, log(alloc, &NO_RUN)?, 2)?;
    let mut second = WorldGate::split(&gate, &mut first, 1);
    let begun = Gate::begun(&gate, &mut second, 1);
    let offer = gate.offer(alloc, &mut second, 1, Op::Tick);
    Ok((begun, offer))
}

/// Whether these are the threads of the world's events.
fn has_threads(world: &World, threads: &[u32]) -> bool {
    let history = world.history();
    if history.len() != threads.len() {
        return false;
    }
    for at in 0..threads.len() {
        if history[at].thread != threads[at] {
            return false;
        }
    }
    true
}

#[test]
fn each_turn_is_by_the_log(rt: HostRuntime) {
    match two_lanes(rt.alloc()) {
        Ok(told) => {
            assert_eq!(rt; told.early, Begun::NotYet);
            assert_eq!(rt; told.other_start, None);
            assert_eq!(rt; told.begun, Begun::Yes(TARGET));
            assert_eq!(rt; told.clock, 2);
            assert_eq!(rt; told.other, None);
            assert!(rt; has_threads(&told.world, &THREADS));
            assert!(rt; told.world.all_ended());
        }
        Err(NoMemory) => assert!(rt; false),
    }
}

#[test]
fn a_thread_that_none_started(rt: HostRuntime) {
    match no_start(rt.alloc()) {
        Ok((begun, offer)) => {
            assert_eq!(rt; begun, Begun::Over);
            assert_eq!(rt; offer, Offer::Leave);
        }
        Err(NoMemory) => assert!(rt; false),
    }
}

/// What thread 0 of the first log does.
const MAKES: [Op; 4] = [
    Op::New { class: WORKER },
    Op::Start { target: TARGET },
    Op::Tick,
    Op::ThreadEnd,
];

/// What thread 1 does.
const WORKS: [Op; 3] = [Op::Tick, Op::Yield, Op::ThreadEnd];

/// How often an operation is offered before its thread gives up.
const MOST_TRIES: u32 = 100_000;

/// Offers an operation until it is committed, and answers its clock. It gives up at last.
fn offer_long(
    gate: &ReplayGate,
    alloc: Global,
    seat: &mut ReplaySeat,
    thread: u32,
    op: Op,
) -> Option<u64>
    requires seat { IsSeatOf gate.now seat.old }
    requires lane { Contains seat.old.view.lanes (thread % gate.now.terms.lanes) }
    ensures seat { IsSeatOf gate.now seat.new }
    ensures lanes { seat.new.view.lanes ≡ seat.old.view.lanes }
{
    for _ in 0..MOST_TRIES {
        if let Offer::Committed { clock, .. } = gate.offer(alloc, seat, thread, op) {
            return Some(clock);
        }
    }
    None
}

/// Offers a thread's operations, up to the first one with which it gives up. The answer is the clocks of the others.
fn carry(
    gate: &ReplayGate,
    alloc: Global,
    seat: &mut ReplaySeat,
    thread: u32,
    ops: &[Op],
) -> Result<Vec<u64>, NoMemory>
    requires seat { IsSeatOf gate.now seat.old }
    requires lane { Contains seat.old.view.lanes (thread % gate.now.terms.lanes) }
    ensures seat { IsSeatOf gate.now seat.new }
    ensures lanes { seat.new.view.lanes ≡ seat.old.view.lanes }
{
    let mut clocks = Vec::new(alloc);
    for at in 0..ops.len() {
        match offer_long(gate, alloc, seat, thread, ops[at]) {
            Some(clock) => clocks.push(clock)?,
            None => return Ok(clocks),
        }
    }
    Ok(clocks)
}

/// Carries both threads of the first log, each on a thread of its own.
fn carry_both<R: Threads>(
    rt: &R,
    alloc: Global,
    gate: &ReplayGate,
    first: &mut ReplaySeat,
    second: &mut ReplaySeat,
) -> (Result<Vec<u64>, NoMemory>, Result<Vec<u64>, NoMemory>)
    requires first { IsSeatOf gate.now first.old }
    requires second { IsSeatOf gate.now second.old }
    requires lane { Contains first.old.view.lanes (0 % gate.now.terms.lanes) }
    requires other_lane { Contains second.old.view.lanes (1 % gate.now.terms.lanes) }
    ensures first { IsSeatOf gate.now first.new }
    ensures second { IsSeatOf gate.now second.new }
    ensures lanes { first.new.view.lanes ≡ first.old.view.lanes }
    ensures other_lanes { second.new.view.lanes ≡ second.old.view.lanes }
{
    join_mut(
        rt,
        &mut || carry(gate, alloc, first, 0, &MAKES),
        &mut || carry(gate, alloc, second, 1, &WORKS),
    )
}

/// Whether these are the places of the thread among these threads, in order.
fn are_places_of(clocks: &[u64], threads: &[u32], thread: u32) -> bool {
    let mut seen = 0;
    for at in 0..threads.len() {
        if threads[at] == thread {
            if seen == clocks.len() || clocks[seen] != at as u64 {
                return false;
            }
            seen += 1;
        }
    }
    seen == clocks.len()
}

/// Whether the events are the first ones of the log, and each was told to the seat of its thread alone, with its clock.
fn is_told_once(world: &World, first: &[u64], second: &[u64]) -> bool {
    let made = world.history().len();
    if made > THREADS.len() {
        return false;
    }
    let threads = &THREADS[..made];
    has_threads(world, threads)
        && are_places_of(first, threads, 0)
        && are_places_of(second, threads, 1)
}

/// However the two threads meet, they make the log's events in its order, and all of them where neither gave up.
fn two_threads<R: Threads>(rt: &R, alloc: Global) -> Result<bool, NoMemory> {
    let (gate, mut first) = ReplayGate::new(alloc, program(alloc)?, log(alloc, &LOG)?, 2)?;
    let mut second = WorldGate::split(&gate, &mut first, 1);
    let (made, worked) = carry_both(rt, alloc, &gate, &mut first, &mut second);
    let world = closed(gate, first, second);
    Ok(is_told_once(&world, &made?, &worked?))
}

#[test]
fn two_threads_at_one_gate(rt: HostRuntime) {
    match two_threads(&rt, rt.alloc()) {
        Ok(told) => assert!(rt; told),
        Err(NoMemory) => assert!(rt; false),
    }
}

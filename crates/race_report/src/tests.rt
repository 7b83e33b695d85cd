//! Reports of made-up histories, and their order.

ghost use Rattle.std.specs.Prelude.{◌<◌, ◌↔◌, IsTrue, All};

use crate::{Place, Race, happens_before, races};
use std::alloc::Global;
use std::test::Fail;
use vm_model::{Entry, Lock, NoMemory, ObjRef, Op, Reply, Value};

const LOCK: Lock = Lock::Class(32);

fn entry(thread: u32, op: Op, reply: Reply) -> Entry {
    Entry { thread, op, reply }
}

/// The first thread starts one more.
fn start(target: u32, began: u32) -> Entry {
    let target = ObjRef {
        id: target,
        class: 32,
    };
    entry(0, Op::Start { target }, Reply::Began(began))
}

fn done(thread: u32, op: Op) -> Entry {
    entry(thread, op, Reply::Unit)
}

fn join(target: u32) -> Entry {
    done(0, Op::Join { obj: target })
}

fn get(thread: u32) -> Entry {
    entry(thread, Op::GetStatic { slot: 0 }, Reply::Got(Value::Int(0)))
}

fn put(thread: u32) -> Entry {
    let value = Value::Int(1);
    done(thread, Op::PutStatic { slot: 0, value })
}

/// Two threads that each count a static up once, which the first thread reads when both ended.
fn unlocked() -> [Entry; 11] {
    [
        start(0, 1),
        start(1, 2),
        get(1),
        put(1),
        done(1, Op::ThreadEnd),
        get(2),
        put(2),
        done(2, Op::ThreadEnd),
        join(0),
        join(1),
        get(0),
    ]
}

/// The same where each of them holds a lock, and where the first thread joins only one.
fn locked() -> [Entry; 14] {
    [
        start(0, 1),
        start(1, 2),
        done(1, Op::Enter { lock: LOCK }),
        get(1),
        put(1),
        done(1, Op::Exit { lock: LOCK }),
        done(1, Op::ThreadEnd),
        done(2, Op::Enter { lock: LOCK }),
        get(2),
        put(2),
        done(2, Op::Exit { lock: LOCK }),
        done(2, Op::ThreadEnd),
        join(0),
        get(0),
    ]
}

fn threads_fit(history: &[Entry]) -> bool
    ensures { IsTrue result ↔ All (λ e. e.thread < 64) history.now }
{
    history.iter().all(|e| e.thread < 64)
}

fn found_in(alloc: Global, history: &[Entry]) -> Result<Vec<Race>, NoMemory> {
    if history.len() > 100 || !threads_fit(history) {
        return Err(NoMemory);
    }
    races(alloc, history)
}

fn is_before(alloc: Global, history: &[Entry], i: usize, j: usize) -> Result<bool, NoMemory> {
    if history.len() > 100 || !threads_fit(history) || i >= history.len() || j >= history.len() {
        return Err(NoMemory);
    }
    happens_before(alloc, history, i, j)
}

fn races_alone(alloc: Global, history: &[Entry], wanted: Race) -> Result<bool, NoMemory> {
    let found = found_in(alloc, history)?;
    Ok(found.len() == 1 && found[0] == wanted)
}

#[test]
fn second_thread_races_without_lock(rt: HostRuntime) -> Result<(), Fail> {
    let wanted = Race {
        place: Place::Static(0),
        first: 3,
        first_thread: 1,
        second: 5,
        second_thread: 2,
    };
    assert!(rt; races_alone(rt.alloc(), &unlocked(), wanted)?);
    Ok(())
}

#[test]
fn thread_that_is_not_joined_races(rt: HostRuntime) -> Result<(), Fail> {
    let wanted = Race {
        place: Place::Static(0),
        first: 9,
        first_thread: 2,
        second: 13,
        second_thread: 0,
    };
    assert!(rt; races_alone(rt.alloc(), &locked(), wanted)?);
    Ok(())
}

#[test]
fn fields_and_items_are_places(rt: HostRuntime) -> Result<(), Fail> {
    let alloc = rt.alloc();
    let obj = ObjRef { id: 5, class: 32 };
    let history = [
        start(0, 1),
        entry(0, Op::GetField { obj, place: 1 }, Reply::Got(Value::Null)),
        done(
            0,
            Op::ArrayStore {
                arr: 6,
                index: 2,
                value: 7,
            },
        ),
        done(
            1,
            Op::ArrayStore {
                arr: 6,
                index: 3,
                value: 7,
            },
        ),
        entry(
            1,
            Op::ArrayLoad { arr: 6, index: 2 },
            Reply::Got(Value::Int(7)),
        ),
        done(
            1,
            Op::PutField {
                obj,
                place: 1,
                value: Value::Null,
            },
        ),
    ];
    let found = found_in(alloc, &history)?;
    assert!(rt; found.len() == 2);
    assert!(rt; found[0].place == Place::Item { arr: 6, index: 2 } && found[0].first == 2);
    assert!(rt; found[1].place == Place::Field { obj: 5, place: 1 } && found[1].first == 1);
    Ok(())
}

#[test]
fn locks_and_joins_give_order(rt: HostRuntime) -> Result<(), Fail> {
    let alloc = rt.alloc();
    assert!(rt; is_before(alloc, &locked(), 4, 8)?);
    assert!(rt; !is_before(alloc, &locked(), 8, 4)?);
    assert!(rt; !is_before(alloc, &unlocked(), 3, 5)?);
    assert!(rt; is_before(alloc, &unlocked(), 6, 10)?);
    assert!(rt; !is_before(alloc, &unlocked(), 6, 6)?);
    Ok(())
}

// Monitors of locks: entered, waited on, notified and left.
use monitor_table::{MonitorTable, Owned, Waited};
use std::alloc::Global;
use vm_model::{Lock, NoMemory};

const LOCK: Lock = Lock::Object(0);

const CLASS: Lock = Lock::Class(33);

#[derive(Clone, Copy, PartialEq, Eq)]
struct Seen {
    owner: Option<u32>,
    count: u32,
    waiters: u32,
}

fn state_of(table: &MonitorTable, lock: Lock) -> Option<Seen> {
    if table.exists(lock) {
        Some(Seen {
            owner: table.owner(lock),
            count: table.count(lock),
            waiters: table.waiters(lock),
        })
    } else {
        None
    }
}

/// The monitors of so many classes and of one object.
fn one_object(alloc: Global, classes: u32) -> Result<MonitorTable, NoMemory> {
    let mut table = MonitorTable::new(alloc, classes)?;
    table.add_object(alloc)?;
    Ok(table)
}

fn enter(table: &mut MonitorTable, lock: Lock, thread: u32) -> bool {
    if !table.is_free_for(lock, thread) || table.count(lock) > 100 {
        return false;
    }
    table.enter(lock, thread);
    true
}

fn wait(table: &mut MonitorTable, lock: Lock, thread: u32) -> Result<Option<Waited>, NoMemory> {
    if !table.exists(lock) || table.waiters(lock) > 100 {
        return Ok(None);
    }
    Ok(Some(table.wait(lock, thread)?))
}

fn resume(table: &mut MonitorTable, lock: Lock, thread: u32, count: u32) -> bool {
    if !table.is_free(lock) {
        return false;
    }
    table.resume(lock, thread, count);
    true
}

fn notify(table: &mut MonitorTable, lock: Lock, thread: u32) -> Option<Owned> {
    if !table.exists(lock) {
        return None;
    }
    Some(table.notify(lock, thread))
}

fn notify_all(table: &mut MonitorTable, lock: Lock, thread: u32) -> Option<Owned> {
    if !table.exists(lock) {
        return None;
    }
    Some(table.notify_all(lock, thread))
}

fn exit(table: &mut MonitorTable, lock: Lock, thread: u32) -> Option<Owned> {
    if !table.exists(lock) {
        return None;
    }
    Some(table.exit(lock, thread))
}

fn waits(table: &MonitorTable, lock: Lock, thread: u32) -> bool {
    table.exists(lock) && table.waits(lock, thread)
}

/// Nobody waits on the lock any more; whether there is such a lock.
fn release(table: &mut MonitorTable, lock: Lock) -> bool {
    if !table.exists(lock) {
        return false;
    }
    table.release_waiters(lock);
    true
}

/// What is done to a table, or asked of it, and what is to come of it.
enum Step {
    Exists(Lock, bool),
    Owns(Lock, u32, bool),
    Waits(Lock, u32, bool),
    Enter(Lock, u32, bool),
    Resume(Lock, u32, u32, bool),
    Release(Lock),
    Wait(Lock, u32, Waited),
    Notify(Lock, u32, Owned),
    NotifyAll(Lock, u32, Owned),
    Exit(Lock, u32, Owned),
    State(Lock, Seen),
}

fn goes(table: &mut MonitorTable, step: &Step) -> Result<bool, NoMemory> {
    match *step {
        Step::Exists(lock, wanted) => Ok(table.exists(lock) == wanted),
        Step::Owns(lock, thread, wanted) => Ok(table.owns(lock, thread) == wanted),
        Step::Waits(lock, thread, wanted) => Ok(waits(table, lock, thread) == wanted),
        Step::Enter(lock, thread, wanted) => Ok(enter(table, lock, thread) == wanted),
        Step::Resume(lock, thread, count, wanted) => {
            Ok(resume(table, lock, thread, count) == wanted)
        }
        Step::Release(lock) => Ok(release(table, lock)),
        Step::Wait(lock, thread, wanted) => Ok(wait(table, lock, thread)? == Some(wanted)),
        Step::Notify(lock, thread, wanted) => Ok(notify(table, lock, thread) == Some(wanted)),
        Step::NotifyAll(lock, thread, wanted) => {
            Ok(notify_all(table, lock, thread) == Some(wanted))
        }
        Step::Exit(lock, thread, wanted) => Ok(exit(table, lock, thread) == Some(wanted)),
        Step::State(lock, wanted) => Ok(state_of(table, lock) == Some(wanted)),
    }
}

/// The first step, of these one after another, that goes otherwise.
fn first_wrong(table: &mut MonitorTable, steps: &[Step]) -> Result<Option<usize>, NoMemory> {
    for (at, step) in steps.iter().enumerate() {
        if !goes(table, step)? {
            return Ok(Some(at));
        }
    }
    Ok(None)
}

const FREE: Seen = Seen {
    owner: None,
    count: 0,
    waiters: 0,
};

const ONE_WAITS: Seen = Seen {
    owner: None,
    count: 0,
    waiters: 1,
};

const THREE_WAIT: Seen = Seen {
    owner: None,
    count: 0,
    waiters: 3,
};

const SEVENTH_OWNS: Seen = Seen {
    owner: Some(7),
    count: 1,
    waiters: 0,
};

// Each step of a wait in turn.
const WAIT_AND_NOTIFY: [Step; 25] = [
    Step::Wait(LOCK, 3, Waited::NotOwner),
    Step::State(LOCK, FREE),
    Step::Enter(LOCK, 3, true),
    Step::Enter(LOCK, 3, true),
    Step::Enter(LOCK, 4, false),
    Step::Wait(LOCK, 3, Waited::Count(2)),
    Step::State(LOCK, ONE_WAITS),
    Step::Enter(LOCK, 4, true),
    Step::Wait(LOCK, 4, Waited::Count(1)),
    Step::Enter(LOCK, 5, true),
    Step::State(
        LOCK,
        Seen {
            owner: Some(5),
            count: 1,
            waiters: 2,
        },
    ),
    Step::Notify(LOCK, 4, Owned::NotOwner),
    Step::Waits(LOCK, 3, true),
    Step::Notify(LOCK, 5, Owned::Done),
    Step::Waits(LOCK, 3, false),
    Step::Waits(LOCK, 4, true),
    Step::Exit(LOCK, 3, Owned::NotOwner),
    Step::Resume(LOCK, 3, 2, false),
    Step::Exit(LOCK, 5, Owned::Done),
    Step::Resume(LOCK, 3, 2, true),
    Step::State(
        LOCK,
        Seen {
            owner: Some(3),
            count: 2,
            waiters: 1,
        },
    ),
    Step::Exit(LOCK, 3, Owned::Done),
    Step::State(
        LOCK,
        Seen {
            owner: Some(3),
            count: 1,
            waiters: 1,
        },
    ),
    Step::Exit(LOCK, 3, Owned::Done),
    Step::State(LOCK, ONE_WAITS),
];

fn wrong_in_wait_and_notify(alloc: Global) -> Result<Option<usize>, NoMemory> {
    let mut table = one_object(alloc, 0)?;
    first_wrong(&mut table, &WAIT_AND_NOTIFY)
}

// Three threads wait on the lock of a class, and another one owns that of the object.
const ALL_WAIT: [Step; 11] = [
    Step::Exists(Lock::Class(31), false),
    Step::Exists(Lock::Class(34), false),
    Step::Exists(Lock::Object(1), false),
    Step::Enter(CLASS, 1, true),
    Step::Wait(CLASS, 1, Waited::Count(1)),
    Step::Enter(CLASS, 2, true),
    Step::Wait(CLASS, 2, Waited::Count(1)),
    Step::Enter(CLASS, 3, true),
    Step::Wait(CLASS, 3, Waited::Count(1)),
    Step::Enter(LOCK, 7, true),
    Step::State(CLASS, THREE_WAIT),
];

// What other locks keep while all waiters of one are notified.
const ALL_NOTIFIED: [Step; 6] = [
    Step::NotifyAll(CLASS, 7, Owned::NotOwner),
    Step::Enter(CLASS, 7, true),
    Step::NotifyAll(CLASS, 7, Owned::Done),
    Step::State(CLASS, SEVENTH_OWNS),
    Step::State(LOCK, SEVENTH_OWNS),
    Step::State(Lock::Class(32), FREE),
];

// What a copy kept that was made before.
const KEPT: [Step; 7] = [
    Step::State(CLASS, THREE_WAIT),
    Step::Waits(CLASS, 2, true),
    Step::Waits(LOCK, 2, false),
    Step::Exists(CLASS, true),
    Step::Release(CLASS),
    Step::State(CLASS, FREE),
    Step::Owns(LOCK, 7, true),
];

/// The first step that goes otherwise, in the table and then in the copy.
fn wrong_in_both(
    table: &mut MonitorTable,
    kept: &mut MonitorTable,
) -> Result<Option<usize>, NoMemory> {
    match first_wrong(table, &ALL_NOTIFIED)? {
        Some(at) => Ok(Some(at)),
        None => first_wrong(kept, &KEPT),
    }
}

fn wrong_in_notify_everyone(alloc: Global) -> Result<Option<usize>, NoMemory> {
    let mut table = one_object(alloc, 2)?;
    if let Some(at) = first_wrong(&mut table, &ALL_WAIT)? {
        return Ok(Some(at));
    }
    let mut kept = table.copy(alloc)?;
    wrong_in_both(&mut table, &mut kept)
}

#[test]
fn waits_are_ended_in_order(rt: HostRuntime) {
    assert!(rt; wrong_in_wait_and_notify(rt.alloc()) == Ok(None));
    assert!(rt; wrong_in_notify_everyone(rt.alloc()) == Ok(None));
}

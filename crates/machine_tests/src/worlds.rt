// Operations tried on a world one after another, with what each is to answer.
ghost use Rattle.std.specs.Prelude.{◌<◌, ◌^◌};

use shared_world::{ApplyFault, LockState, RowState, World};
use std::alloc::Global;
use vm_model::{
    Class, Fault, FaultKind, Field, Kind, Lock, Name, NoMemory, ObjRef, Op, Piece, Plain, Program,
    Reply, StaticSlot, Value,
};
use world_start::{Start, start_of};

pub const WORKER: u32 = 32;

pub const PLACE: u32 = 33;

pub const OBJECT: Lock = Lock::Object(0);

const LATER: Lock = Lock::Object(2);

/// What one try of an operation is to give: its thread, the operation, and the reply, or none where it isn't enabled.
type Try = (u32, Op, Option<Reply>);

const DONE: Option<Reply> = Some(Reply::Unit);

const BLOCKED: Option<Reply> = None;

const NOT_OWNER: Option<Reply> = Some(Reply::Raise(FaultKind::MonitorState));

const NO_OBJECT: Option<Reply> = Some(Reply::Raise(FaultKind::HeapFull));

const NULL: Option<Reply> = Some(Reply::Got(Value::Null));

const A_PLACE: ObjRef = ObjRef {
    id: 0,
    class: PLACE,
};

const A_WORKER: ObjRef = ObjRef {
    id: 1,
    class: WORKER,
};

pub const PLACE_VALUE: Value = Value::Obj {
    id: 0,
    class: PLACE,
};

pub const WORKER_VALUE: Value = Value::Obj {
    id: 1,
    class: WORKER,
};

const OBJECT_VALUE: Value = Value::Obj { id: 2, class: 0 };

/// The object on whose monitor the threads of the later tests meet.
const SEEN_VALUE: Value = Value::Obj { id: 0, class: 0 };

pub const ARRAY_VALUE: Value = Value::Arr { id: 3, len: 3 };

pub const LONGER_ARRAY: Value = Value::Arr { id: 3, len: 4 };

const PUT_INT: Op = Op::PutStatic {
    slot: 0,
    value: Value::Int(9),
};

const PUT_NULL_AS_INT: Op = Op::PutStatic {
    slot: 0,
    value: Value::Null,
};

const PUT_NOWHERE: Op = Op::PutStatic {
    slot: 3,
    value: Value::Null,
};

const PUT_PLACE: Op = Op::PutStatic {
    slot: 1,
    value: PLACE_VALUE,
};

const PUT_TEXT: Op = Op::PutStatic {
    slot: 1,
    value: Value::Text(0),
};

const PUT_ARRAY: Op = Op::PutStatic {
    slot: 2,
    value: ARRAY_VALUE,
};

const PUT_LONGER_ARRAY: Op = Op::PutStatic {
    slot: 2,
    value: LONGER_ARRAY,
};

const PUT_ARRAY_AS_OBJECT: Op = Op::PutStatic {
    slot: 1,
    value: ARRAY_VALUE,
};

const GET_NUMBER: Op = Op::GetField {
    obj: A_PLACE,
    place: 0,
};

pub const GET_NEXT: Op = Op::GetField {
    obj: A_PLACE,
    place: 1,
};

const GET_THIRD: Op = Op::GetField {
    obj: A_PLACE,
    place: 2,
};

const GET_TARGET: Op = Op::GetField {
    obj: A_WORKER,
    place: 0,
};

const GET_AFTER_TARGET: Op = Op::GetField {
    obj: A_WORKER,
    place: 1,
};

const GET_AS_WORKER: Op = Op::GetField {
    obj: ObjRef {
        id: 0,
        class: WORKER,
    },
    place: 0,
};

const GET_OF_LATER: Op = Op::GetField {
    obj: ObjRef {
        id: 9,
        class: PLACE,
    },
    place: 0,
};

const PUT_NEXT: Op = Op::PutField {
    obj: A_PLACE,
    place: 1,
    value: PLACE_VALUE,
};

const PUT_OBJECT_AS_NEXT: Op = Op::PutField {
    obj: A_PLACE,
    place: 1,
    value: OBJECT_VALUE,
};

const PUT_NULL_AS_NUMBER: Op = Op::PutField {
    obj: A_PLACE,
    place: 0,
    value: Value::Null,
};

const PUT_TARGET: Op = Op::PutField {
    obj: A_WORKER,
    place: 0,
    value: WORKER_VALUE,
};

const PUT_PLACE_AS_TARGET: Op = Op::PutField {
    obj: A_WORKER,
    place: 0,
    value: PLACE_VALUE,
};

const LOAD_SECOND: Op = Op::ArrayLoad { arr: 3, index: 1 };

const LOAD_LAST: Op = Op::ArrayLoad { arr: 3, index: 2 };

const LOAD_AFTER_LAST: Op = Op::ArrayLoad { arr: 3, index: 3 };

const LOAD_OF_PLACE: Op = Op::ArrayLoad { arr: 0, index: 0 };

const STORE_SECOND: Op = Op::ArrayStore {
    arr: 3,
    index: 1,
    value: -5,
};

const STORE_OF_LATER: Op = Op::ArrayStore {
    arr: 4,
    index: 1,
    value: -5,
};

const PRINT_INT: Op = Op::Print {
    piece: Piece::Int(-12),
    newline: false,
};

const PRINT_TEXT: Op = Op::Print {
    piece: Piece::Text(0),
    newline: false,
};

const PRINT_TEXT_LINE: Op = Op::Print {
    piece: Piece::Text(0),
    newline: true,
};

const PRINT_LATER_TEXT: Op = Op::Print {
    piece: Piece::Text(1),
    newline: true,
};

const PRINT_NULL: Op = Op::Print {
    piece: Piece::Null,
    newline: false,
};

const PRINT_NOTHING: Op = Op::Print {
    piece: Piece::Nothing,
    newline: false,
};

const PRINT_LINE: Op = Op::Print {
    piece: Piece::Nothing,
    newline: true,
};

const RESUME_ONCE: Op = Op::Resume {
    lock: OBJECT,
    count: 1,
};

const RESUME_TWICE: Op = Op::Resume {
    lock: OBJECT,
    count: 2,
};

pub const START_WORKER: Op = Op::Start { target: A_WORKER };

const START_AS_THREAD: Op = Op::Start {
    target: ObjRef { id: 1, class: 1 },
};

const START_OBJECT: Op = Op::Start {
    target: ObjRef { id: 0, class: 0 },
};

const PUT_SEEN: Op = Op::PutStatic {
    slot: 1,
    value: SEEN_VALUE,
};

const FAULT: Op = Op::Fault {
    kind: FaultKind::Arithmetic,
    method: 4,
    at: 17,
};

const GREATEST_ARRAY: Op = Op::NewArray { len: 4194303 };

const STATICS: [Try; 9] = [
    (
        0,
        Op::GetStatic { slot: 0 },
        Some(Reply::Got(Value::Int(7))),
    ),
    (0, Op::GetStatic { slot: 3 }, BLOCKED),
    (1, Op::GetStatic { slot: 0 }, BLOCKED),
    (0, PUT_INT, DONE),
    (
        0,
        Op::GetStatic { slot: 0 },
        Some(Reply::Got(Value::Int(9))),
    ),
    (0, PUT_NULL_AS_INT, BLOCKED),
    (0, PUT_NOWHERE, BLOCKED),
    (0, PUT_PLACE, BLOCKED),
    (0, PUT_TEXT, BLOCKED),
];

const FIELDS: [Try; 19] = [
    (0, Op::New { class: PLACE }, Some(Reply::Made(PLACE_VALUE))),
    (
        0,
        Op::New { class: WORKER },
        Some(Reply::Made(WORKER_VALUE)),
    ),
    (0, Op::New { class: 0 }, Some(Reply::Made(OBJECT_VALUE))),
    (0, Op::New { class: 34 }, BLOCKED),
    (0, Op::New { class: 23 }, BLOCKED),
    (0, GET_NUMBER, Some(Reply::Got(Value::Int(0)))),
    (0, GET_NEXT, NULL),
    (0, GET_TARGET, NULL),
    (0, GET_THIRD, BLOCKED),
    (0, GET_AFTER_TARGET, BLOCKED),
    (0, GET_AS_WORKER, BLOCKED),
    (0, GET_OF_LATER, BLOCKED),
    (0, PUT_NEXT, DONE),
    (0, GET_NEXT, Some(Reply::Got(PLACE_VALUE))),
    (0, PUT_OBJECT_AS_NEXT, BLOCKED),
    (0, PUT_NULL_AS_NUMBER, BLOCKED),
    (0, PUT_TARGET, DONE),
    (0, PUT_PLACE_AS_TARGET, BLOCKED),
    (0, PUT_PLACE, DONE),
];

const ARRAYS: [Try; 11] = [
    (0, Op::NewArray { len: 3 }, Some(Reply::Made(ARRAY_VALUE))),
    (0, LOAD_LAST, Some(Reply::Got(Value::Int(0)))),
    (0, LOAD_AFTER_LAST, BLOCKED),
    (0, LOAD_OF_PLACE, BLOCKED),
    (0, STORE_SECOND, DONE),
    (0, LOAD_SECOND, Some(Reply::Got(Value::Int(-5)))),
    (0, STORE_OF_LATER, BLOCKED),
    (0, PUT_ARRAY, DONE),
    (0, PUT_LONGER_ARRAY, BLOCKED),
    (0, PUT_ARRAY_AS_OBJECT, DONE),
    (0, Op::NewArray { len: 4194304 }, NO_OBJECT),
];

const PRINTED: [Try; 5] = [
    (0, PRINT_INT, DONE),
    (0, PRINT_TEXT_LINE, DONE),
    (0, PRINT_LATER_TEXT, BLOCKED),
    (0, PRINT_NULL, DONE),
    (0, PRINT_LINE, DONE),
];

const STRANGERS: [Try; 12] = [
    (0, Op::New { class: 0 }, Some(Reply::Made(SEEN_VALUE))),
    (
        0,
        Op::New { class: WORKER },
        Some(Reply::Made(WORKER_VALUE)),
    ),
    (0, Op::Exit { lock: OBJECT }, NOT_OWNER),
    (0, Op::Wait { lock: OBJECT }, NOT_OWNER),
    (0, Op::Notify { lock: OBJECT }, NOT_OWNER),
    (0, Op::NotifyAll { lock: OBJECT }, NOT_OWNER),
    (0, Op::Enter { lock: LATER }, BLOCKED),
    (0, Op::Exit { lock: LATER }, BLOCKED),
    (0, Op::Wait { lock: LATER }, BLOCKED),
    (0, Op::Notify { lock: LATER }, BLOCKED),
    (0, Op::NotifyAll { lock: LATER }, BLOCKED),
    (1, Op::Enter { lock: OBJECT }, BLOCKED),
];

const STARTED: [Try; 9] = [
    (0, Op::Enter { lock: OBJECT }, DONE),
    (0, Op::Enter { lock: OBJECT }, DONE),
    (0, START_OBJECT, BLOCKED),
    (0, START_AS_THREAD, BLOCKED),
    (0, START_WORKER, Some(Reply::Began(1))),
    (0, START_WORKER, Some(Reply::Raise(FaultKind::ThreadState))),
    (0, Op::Join { obj: 1 }, BLOCKED),
    (0, Op::Join { obj: 2 }, BLOCKED),
    (0, Op::Join { obj: 0 }, DONE),
];

const EXITED: [Try; 10] = [
    (1, Op::Enter { lock: OBJECT }, BLOCKED),
    (1, Op::Exit { lock: OBJECT }, NOT_OWNER),
    (0, Op::Exit { lock: OBJECT }, DONE),
    (1, Op::Enter { lock: OBJECT }, BLOCKED),
    (0, Op::Exit { lock: OBJECT }, DONE),
    (1, Op::Enter { lock: OBJECT }, DONE),
    (1, Op::Wait { lock: OBJECT }, Some(Reply::Waits(1))),
    (1, Op::Tick, BLOCKED),
    (1, Op::ThreadEnd, BLOCKED),
    (1, RESUME_ONCE, BLOCKED),
];

const RESUMED: [Try; 12] = [
    (0, Op::Enter { lock: OBJECT }, DONE),
    (0, Op::NotifyAll { lock: OBJECT }, DONE),
    (1, RESUME_ONCE, BLOCKED),
    (0, Op::Exit { lock: OBJECT }, DONE),
    (1, RESUME_TWICE, BLOCKED),
    (1, RESUME_ONCE, DONE),
    (1, Op::Tick, DONE),
    (1, Op::ThreadEnd, DONE),
    (0, Op::Join { obj: 1 }, DONE),
    (1, Op::Yield, BLOCKED),
    (0, Op::Yield, DONE),
    (0, FAULT, DONE),
];

/// A thread waits on a monitor that it entered twice.
const TWICE_WAITS: [Try; 7] = [
    (0, Op::New { class: 0 }, Some(Reply::Made(SEEN_VALUE))),
    (0, PUT_SEEN, DONE),
    (
        0,
        Op::New { class: WORKER },
        Some(Reply::Made(WORKER_VALUE)),
    ),
    (0, START_WORKER, Some(Reply::Began(1))),
    (0, Op::Enter { lock: OBJECT }, DONE),
    (0, Op::Enter { lock: OBJECT }, DONE),
    (0, Op::Wait { lock: OBJECT }, Some(Reply::Waits(2))),
];

const TWICE_NOTIFIES: [Try; 6] = [
    (1, Op::GetStatic { slot: 1 }, Some(Reply::Got(SEEN_VALUE))),
    (1, Op::Enter { lock: OBJECT }, DONE),
    (1, Op::Notify { lock: OBJECT }, DONE),
    (1, Op::Exit { lock: OBJECT }, DONE),
    (1, Op::ThreadEnd, DONE),
    (0, RESUME_TWICE, DONE),
];

const TWICE_ENDS: [Try; 3] = [
    (0, Op::Exit { lock: OBJECT }, DONE),
    (0, Op::Exit { lock: OBJECT }, DONE),
    (0, Op::ThreadEnd, DONE),
];

const HEAP_FILLED: [Try; 3] = [
    (
        0,
        GREATEST_ARRAY,
        Some(Reply::Made(Value::Arr {
            id: 0,
            len: 4194303,
        })),
    ),
    (0, Op::New { class: 0 }, NO_OBJECT),
    (0, Op::NewArray { len: 0 }, NO_OBJECT),
];

const OUTPUT_FILLED: [Try; 3] = [
    (0, PRINT_NOTHING, DONE),
    (0, PRINT_LINE, Some(Reply::Raise(FaultKind::OutputFull))),
    (0, PRINT_INT, Some(Reply::Raise(FaultKind::OutputFull))),
];

fn slot(alloc: Global, kind: Kind, start: Value) -> Result<StaticSlot, NoMemory> {
    Ok(StaticSlot {
        class: PLACE,
        name: Name::of(alloc, b"s")?,
        kind,
        start,
    })
}

/// An int and a reference to its own class.
fn place_fields(alloc: Global) -> Result<Vec<Field>, NoMemory> {
    let number = Field {
        name: Name::of(alloc, b"n")?,
        kind: Kind::Int,
    };
    let next = Field {
        name: Name::of(alloc, b"next")?,
        kind: Kind::Ref(PLACE),
    };
    let mut fields = Vec::new(alloc);
    fields.push(number)?;
    fields.push(next)?;
    Ok(fields)
}

fn class(
    alloc: Global,
    name: &[u8],
    is_thread: bool,
    fields: Vec<Field>,
) -> Result<Class, NoMemory> {
    Ok(Class {
        name: Name::of(alloc, name)?,
        is_thread,
        is_runnable: false,
        fields,
        run: None,
    })
}

/// Classes 32, a thread without fields, and 33, an object with an int and a reference to its own class.
fn two_classes(alloc: Global) -> Result<Vec<Class>, NoMemory> {
    let worker = class(alloc, b"Worker", true, Vec::new(alloc))?;
    let place = class(alloc, b"Place", false, place_fields(alloc)?)?;
    let mut classes = Vec::new(alloc);
    classes.push(worker)?;
    classes.push(place)?;
    Ok(classes)
}

/// An int, an Object and an array.
fn three_statics(alloc: Global) -> Result<Vec<StaticSlot>, NoMemory> {
    let mut statics = Vec::new(alloc);
    statics.push(slot(alloc, Kind::Int, Value::Int(7))?)?;
    statics.push(slot(alloc, Kind::Ref(0), Value::Null)?)?;
    statics.push(slot(alloc, Kind::Arr, Value::Null)?)?;
    Ok(statics)
}

fn one_text(alloc: Global, text: &[u8]) -> Result<Vec<Name>, NoMemory> {
    let mut texts = Vec::new(alloc);
    texts.push(Name::of(alloc, text)?)?;
    Ok(texts)
}

/// The start of a program with these two classes, three statics and this text.
pub fn program(alloc: Global, text: &[u8]) -> Result<Start, NoMemory> {
    let classes = two_classes(alloc)?;
    let statics = three_statics(alloc)?;
    let texts = one_text(alloc, text)?;
    let plain = Plain::of(Program {
        classes,
        methods: Vec::new(alloc),
        statics,
        texts,
        main: 0,
    });
    start_of(alloc, &plain)
}

fn first_world(alloc: Global) -> Result<World, NoMemory> {
    World::new(alloc, program(alloc, b"ab")?, 1048576)
}

/// Tries one operation; whether the world gave what was wanted.
fn tried(world: &mut World, alloc: Global, wanted: Try) -> Result<bool, NoMemory> {
    if world.clock() >= world.budget() || world.fault().is_some() {
        return Ok(false);
    }
    let (thread, op, reply) = wanted;
    let clock = world.clock();
    let enabled = world.enabled(thread, &op);
    let got = match world.apply(alloc, thread, op) {
        Ok(reply) => Some(reply),
        Err(ApplyFault::Blocked) => None,
        Err(ApplyFault::NoMemory) => return Err(NoMemory),
    };
    let fits = match got {
        Some(reply) => world.start().fits(&op, &reply) && world.clock() == clock + 1,
        None => world.clock() == clock,
    };
    Ok(got == reply && enabled == got.is_some() && fits)
}

/// Whether the world gives what is wanted at each of these tries, one after another.
fn plays(world: &mut World, alloc: Global, tries: &[Try]) -> Result<bool, NoMemory> {
    for wanted in tries {
        if !tried(world, alloc, *wanted)? {
            return Ok(false);
        }
    }
    Ok(true)
}

/// The first of these tables of tries, one after another, in which the world gives otherwise.
fn first_wrong(
    world: &mut World,
    alloc: Global,
    tables: &[&[Try]],
) -> Result<Option<usize>, NoMemory> {
    for (at, tries) in tables.iter().enumerate() {
        if !plays(world, alloc, tries)? {
            return Ok(Some(at));
        }
    }
    Ok(None)
}

fn row(world: &World, thread: u32) -> Option<RowState> {
    if thread < world.rows() {
        Some(world.row(thread))
    } else {
        None
    }
}

fn lock_state(world: &World, lock: Lock) -> Option<LockState> {
    if world.has_lock(lock) {
        Some(world.lock_state(lock))
    } else {
        None
    }
}

fn held(owner: Option<u32>, count: u32, waiters: u32) -> Option<LockState> {
    Some(LockState {
        owner,
        count,
        waiters,
    })
}

const VALUES: [&[Try]; 4] = [&STATICS, &FIELDS, &ARRAYS, &PRINTED];

fn shows_values(world: &World) -> bool {
    let is_printed = world.output() == b"-12ab\nnull\n".as_slice();
    let are_counted = world.objects() == 4 && world.words() == 3 + 2 + 1 + 4;
    let is_put = world.has_static(2) && world.static_value(2) == ARRAY_VALUE;
    is_printed && are_counted && is_put
}

/// Statics, fields, items and printing: the table that goes otherwise, or 4 where what the world shows then is wrong.
fn wrong_in_values(alloc: Global) -> Result<Option<usize>, NoMemory> {
    let mut world = first_world(alloc)?;
    let found = first_wrong(&mut world, alloc, &VALUES)?;
    if found.is_none() && !shows_values(&world) {
        return Ok(Some(4));
    }
    Ok(found)
}

const THREADS: [&[Try]; 4] = [&STRANGERS, &STARTED, &EXITED, &RESUMED];

const FAULT_OF_FIRST: Fault = Fault {
    kind: FaultKind::Arithmetic,
    thread: 0,
    method: 4,
    at: 17,
};

/// The ended thread still owns what it didn't exit.
fn shows_threads(world: &World) -> bool {
    let are_two = world.rows() == 2 && world.is_live(0) && !world.is_live(1) && !world.is_live(2);
    let are_targets = world.target(1) == Some(A_WORKER) && world.target(0).is_none();
    let is_over = world.fault() == Some(FAULT_OF_FIRST) && !world.all_ended();
    are_two && are_targets && is_over && lock_state(world, OBJECT) == held(Some(1), 1, 0)
}

/// Locks, threads and the fault: the table that goes otherwise, or 4 where what the world shows then is wrong.
fn wrong_in_threads(alloc: Global) -> Result<Option<usize>, NoMemory> {
    let mut world = first_world(alloc)?;
    let found = first_wrong(&mut world, alloc, &THREADS)?;
    if found.is_none() && !shows_threads(&world) {
        return Ok(Some(4));
    }
    Ok(found)
}

fn shows_wait(world: &World) -> bool {
    world.clock() == 7 && lock_state(world, OBJECT) == held(None, 0, 1)
}

fn shows_return(world: &World) -> bool {
    let is_held = lock_state(world, OBJECT) == held(Some(0), 2, 0);
    let are_rows = row(world, 0) == Some(RowState::Live) && row(world, 1) == Some(RowState::Ended);
    world.clock() == 13 && is_held && are_rows && world.objects() == 2 && world.words() == 3
}

/// Whether the run goes on after the wait as wanted.
fn twice_goes_on(world: &mut World, alloc: Global) -> Result<bool, NoMemory> {
    let waited = shows_wait(world);
    let notified = plays(world, alloc, &TWICE_NOTIFIES)? && shows_return(world);
    let ended = plays(world, alloc, &TWICE_ENDS)? && world.clock() == 16 && world.all_ended();
    Ok(waited && notified && ended)
}

/// The end of the run, and once more from a copy.
fn both_go_on(world: &mut World, copied: &mut World, alloc: Global) -> Result<bool, NoMemory> {
    let goes_on = twice_goes_on(world, alloc)?;
    let goes_on_again = twice_goes_on(copied, alloc)?;
    Ok(goes_on && goes_on_again && world.history() == copied.history())
}

/// A thread waits on a monitor that it entered twice.
fn waits_twice(world: &mut World, alloc: Global) -> Result<bool, NoMemory> {
    Ok(plays(world, alloc, &TWICE_WAITS)? && row(world, 0) == Some(RowState::Waiting))
}

/// Whether its run goes on as wanted from there, and from a copy.
fn twice(alloc: Global) -> Result<bool, NoMemory> {
    let mut world = first_world(alloc)?;
    let waits = waits_twice(&mut world, alloc)?;
    let mut copied = world.copy(alloc)?;
    Ok(waits && both_go_on(&mut world, &mut copied, alloc)?)
}

/// The greatest array fills the heap.
fn heap_is_filled(alloc: Global) -> Result<bool, NoMemory> {
    let mut world = first_world(alloc)?;
    let filled = plays(&mut world, alloc, &HEAP_FILLED)?;
    Ok(filled && world.words() == 4194304 && world.clock() == 3)
}

/// The start of a program with a text of 1 MiB.
fn long_text(alloc: Global) -> Result<Start, NoMemory> {
    let mut text = Vec::new(alloc);
    text.resize(1048576, b'a')?;
    program(alloc, text.as_slice())
}

/// Whether so many texts are printed.
fn prints(world: &mut World, alloc: Global, count: u32) -> Result<bool, NoMemory> {
    for _i in 0..count {
        if !tried(world, alloc, (0, PRINT_TEXT, DONE))? {
            return Ok(false);
        }
    }
    Ok(true)
}

/// Sixteen texts of 1 MiB fill the output.
fn output_is_filled(alloc: Global) -> Result<bool, NoMemory> {
    let mut world = World::new(alloc, long_text(alloc)?, 20)?;
    let printed = prints(&mut world, alloc, 16)?;
    let filled = plays(&mut world, alloc, &OUTPUT_FILLED)?;
    Ok(printed && filled && world.output().len() == 16777216)
}

fn made(id: u32) -> Try {
    (
        0,
        Op::New { class: 1 },
        Some(Reply::Made(Value::Obj { id, class: 1 })),
    )
}

fn started(id: u32, reply: Reply) -> Try {
    let target = ObjRef { id, class: 1 };
    (0, Op::Start { target }, Some(reply))
}

/// Whether as many threads as these are made and started.
fn starts(world: &mut World, alloc: Global, count: u32) -> Result<bool, NoMemory>
    requires { count < 2 ^ 31 }
{
    for id in 0..count {
        let is_made = tried(world, alloc, made(id))?;
        if !is_made || !tried(world, alloc, started(id, Reply::Began(id + 1)))? {
            return Ok(false);
        }
    }
    Ok(true)
}

/// The first thread and 63 others are all that can be started.
fn threads_are_full(alloc: Global) -> Result<bool, NoMemory> {
    let mut world = first_world(alloc)?;
    let full = started(63, Reply::Raise(FaultKind::ThreadsFull));
    let are_started = starts(&mut world, alloc, 63)?;
    let is_full = tried(&mut world, alloc, made(63))? && tried(&mut world, alloc, full)?;
    Ok(are_started && is_full && world.rows() == 64)
}

#[test]
fn operations(rt: HostRuntime) {
    assert_eq!(rt; wrong_in_values(rt.alloc()), Ok(None));
    assert_eq!(rt; wrong_in_threads(rt.alloc()), Ok(None));
    assert_eq!(rt; twice(rt.alloc()), Ok(true));
}

#[test]
fn limits(rt: HostRuntime) {
    assert_eq!(rt; heap_is_filled(rt.alloc()), Ok(true));
    assert_eq!(rt; output_is_filled(rt.alloc()), Ok(true));
    assert_eq!(rt; threads_are_full(rt.alloc()), Ok(true));
}

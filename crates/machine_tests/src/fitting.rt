// Which class is one of threads, and which reply fits which operation.
use crate::worlds::{
    ARRAY_VALUE, GET_NEXT, LONGER_ARRAY, OBJECT, PLACE, PLACE_VALUE, START_WORKER, WORKER,
    WORKER_VALUE, program,
};
use std::alloc::Global;
use vm_model::{FaultKind, NoMemory, Op, Reply, Value};
use world_start::Start;

const FIT: [(Op, Reply); 10] = [
    (Op::GetStatic { slot: 0 }, Reply::Got(Value::Int(1))),
    (Op::GetStatic { slot: 1 }, Reply::Got(Value::Null)),
    (
        Op::GetStatic { slot: 1 },
        Reply::Got(Value::Obj { id: 8, class: 12 }),
    ),
    (GET_NEXT, Reply::Got(PLACE_VALUE)),
    (Op::New { class: PLACE }, Reply::Made(PLACE_VALUE)),
    (Op::New { class: 5 }, Reply::Raise(FaultKind::HeapFull)),
    (Op::NewArray { len: 3 }, Reply::Made(ARRAY_VALUE)),
    (Op::Wait { lock: OBJECT }, Reply::Waits(3)),
    (START_WORKER, Reply::Began(3)),
    (START_WORKER, Reply::Raise(FaultKind::ThreadsFull)),
];

const UNFIT: [(Op, Reply); 9] = [
    (Op::GetStatic { slot: 0 }, Reply::Got(Value::Null)),
    (Op::GetStatic { slot: 0 }, Reply::Unit),
    (Op::GetStatic { slot: 1 }, Reply::Got(Value::Stream)),
    (GET_NEXT, Reply::Got(WORKER_VALUE)),
    (Op::New { class: 5 }, Reply::Made(PLACE_VALUE)),
    (Op::New { class: 5 }, Reply::Raise(FaultKind::OutputFull)),
    (Op::NewArray { len: 3 }, Reply::Made(LONGER_ARRAY)),
    (Op::Wait { lock: OBJECT }, Reply::Unit),
    (Op::Yield, Reply::Raise(FaultKind::ThreadsFull)),
];

const IS_THREAD: [(u32, bool); 6] = [
    (0, false),
    (1, true),
    (2, false),
    (WORKER, true),
    (PLACE, false),
    (34, false),
];

fn wrong_in_is_thread(start: &Start) -> Option<usize> {
    for (at, (class, wanted)) in IS_THREAD.iter().enumerate() {
        if start.is_thread(*class) != *wanted {
            return Some(at);
        }
    }
    None
}

/// The first reply that fits or not, other than wanted.
fn wrong_in_fits(start: &Start, wanted: bool, cases: &[(Op, Reply)]) -> Option<usize> {
    for (at, (op, reply)) in cases.iter().enumerate() {
        if start.fits(op, reply) != wanted {
            return Some(at);
        }
    }
    None
}

fn copied_start(alloc: Global) -> Result<Start, NoMemory> {
    program(alloc, b"")?.copy(alloc)
}

/// Whether each class and each reply is as wanted.
fn is_known(alloc: Global) -> Result<bool, NoMemory> {
    let start = copied_start(alloc)?;
    let are_threads = wrong_in_is_thread(&start).is_none();
    let are_fit = wrong_in_fits(&start, true, &FIT).is_none();
    Ok(are_threads && are_fit && wrong_in_fits(&start, false, &UNFIT).is_none())
}

#[test]
fn fitting(rt: HostRuntime) {
    assert_eq!(rt; is_known(rt.alloc()), Ok(true));
}

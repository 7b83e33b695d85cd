// Threads by themselves, run on objects, arrays and prints against the expected operations. The expected values are those of
// JVMS SE 8 §6.5.
use crate::locals::{
    Alone, Calling, GET, LEAST, PUT_TWO, main_alone, plays, wrong_alone, wrong_calling,
};
use std::alloc::Global;
use std::test::Fail;
use vm_model::{FaultKind, Instr, Kind, Lock, NoMemory, ObjRef, Op, Piece, Reply, Value};

// An array of 3 items, of which one is read, and then the one after the last.
const ARRAY: [Instr; 9] = [
    Instr::Push(3),
    Instr::NewArray,
    Instr::Dup,
    Instr::Push(2),
    Instr::Iaload,
    Instr::Pop,
    Instr::Dup,
    Instr::ArrayLength,
    Instr::Iaload,
];

const AFTER_LAST: Op = Op::Fault {
    kind: FaultKind::ArrayIndex,
    method: 0,
    at: 8,
};

const ARRAY_REPLIES: [(Reply, Option<Op>); 3] = [
    (
        Reply::Made(Value::Arr { id: 4, len: 3 }),
        Some(Op::ArrayLoad { arr: 4, index: 2 }),
    ),
    (Reply::Got(Value::Int(9)), Some(AFTER_LAST)),
    (Reply::Unit, Some(AFTER_LAST)),
];

const WAIT: [Instr; 5] = [
    Instr::New(32),
    Instr::Dup,
    Instr::Wait,
    Instr::NotifyAll,
    Instr::Return,
];

const MONITOR: Lock = Lock::Object(0);

const WAIT_REPLIES: [(Reply, Option<Op>); 4] = [
    (
        Reply::Made(Value::Obj { id: 0, class: 32 }),
        Some(Op::Wait { lock: MONITOR }),
    ),
    (
        Reply::Waits(2),
        Some(Op::Resume {
            lock: MONITOR,
            count: 2,
        }),
    ),
    (Reply::Unit, Some(Op::NotifyAll { lock: MONITOR })),
    (
        Reply::Raise(FaultKind::MonitorState),
        Some(Op::Fault {
            kind: FaultKind::MonitorState,
            method: 0,
            at: 3,
        }),
    ),
];

const OBJECT: ObjRef = ObjRef { id: 7, class: 32 };

const MADE: Reply = Reply::Made(Value::Obj { id: 7, class: 32 });

const OWN_MONITOR: Lock = Lock::Object(7);

const PUT_OBJECT: Op = Op::PutStatic {
    slot: 0,
    value: Value::Obj { id: 7, class: 32 },
};

const UNOWNED: Op = Op::Fault {
    kind: FaultKind::MonitorState,
    method: 0,
    at: 2,
};

const STARTED_TWICE: Op = Op::Fault {
    kind: FaultKind::ThreadState,
    method: 0,
    at: 3,
};

const THROWN_OBJECT: Op = Op::Fault {
    kind: FaultKind::Thrown(32),
    method: 0,
    at: 4,
};

// After `New(32)` and `Dup`, four instructions each, and what the thread asks for and is answered, once the object is there.
const OBJECTS: [([Instr; 4], [(Reply, Option<Op>); 3]); 11] = [
    (
        [
            Instr::Push(5),
            Instr::PutField {
                class: 32,
                place: 1,
            },
            Instr::GetField {
                class: 32,
                place: 2,
            },
            Instr::PutStatic(0),
        ],
        [
            (
                MADE,
                Some(Op::PutField {
                    obj: OBJECT,
                    place: 1,
                    value: Value::Int(5),
                }),
            ),
            (
                Reply::Unit,
                Some(Op::GetField {
                    obj: OBJECT,
                    place: 2,
                }),
            ),
            (Reply::Got(Value::Int(2)), Some(PUT_TWO)),
        ],
    ),
    (
        [
            Instr::MonitorEnter,
            Instr::MonitorExit,
            Instr::Return,
            Instr::Nop,
        ],
        [
            (MADE, Some(Op::Enter { lock: OWN_MONITOR })),
            (Reply::Unit, Some(Op::Exit { lock: OWN_MONITOR })),
            (Reply::Unit, Some(Op::ThreadEnd)),
        ],
    ),
    (
        [Instr::MonitorExit, Instr::Pop, Instr::Return, Instr::Nop],
        [
            (MADE, Some(Op::Exit { lock: OWN_MONITOR })),
            (Reply::Raise(FaultKind::MonitorState), Some(UNOWNED)),
            (Reply::Unit, Some(UNOWNED)),
        ],
    ),
    (
        [Instr::Notify, Instr::NotifyAll, Instr::Return, Instr::Nop],
        [
            (MADE, Some(Op::Notify { lock: OWN_MONITOR })),
            (Reply::Unit, Some(Op::NotifyAll { lock: OWN_MONITOR })),
            (Reply::Unit, Some(Op::ThreadEnd)),
        ],
    ),
    (
        [Instr::Start, Instr::Join, Instr::Return, Instr::Nop],
        [
            (MADE, Some(Op::Start { target: OBJECT })),
            (Reply::Began(1), Some(Op::Join { obj: 7 })),
            (Reply::Unit, Some(Op::ThreadEnd)),
        ],
    ),
    (
        [Instr::Start, Instr::Start, Instr::Return, Instr::Nop],
        [
            (MADE, Some(Op::Start { target: OBJECT })),
            (Reply::Began(1), Some(Op::Start { target: OBJECT })),
            (Reply::Raise(FaultKind::ThreadState), Some(STARTED_TWICE)),
        ],
    ),
    (
        [
            Instr::PushText(0),
            Instr::Init {
                class: 1,
                text: true,
            },
            Instr::PutStatic(0),
            Instr::Return,
        ],
        [
            (MADE, Some(PUT_OBJECT)),
            (Reply::Unit, Some(Op::ThreadEnd)),
            (Reply::Unit, None),
        ],
    ),
    (
        [
            Instr::Init {
                class: 0,
                text: false,
            },
            Instr::PutStatic(0),
            Instr::Return,
            Instr::Nop,
        ],
        [
            (MADE, Some(PUT_OBJECT)),
            (Reply::Unit, Some(Op::ThreadEnd)),
            (Reply::Unit, None),
        ],
    ),
    (
        [
            Instr::PushNull,
            Instr::InitRunnable,
            Instr::PutStatic(0),
            Instr::Return,
        ],
        [
            (
                MADE,
                Some(Op::PutField {
                    obj: OBJECT,
                    place: 0,
                    value: Value::Null,
                }),
            ),
            (Reply::Unit, Some(PUT_OBJECT)),
            (Reply::Unit, Some(Op::ThreadEnd)),
        ],
    ),
    (
        [
            Instr::IfAcmpeq(4),
            Instr::Yield,
            Instr::GetStatic(0),
            Instr::Return,
        ],
        [
            (MADE, Some(GET)),
            (Reply::Got(Value::Null), Some(Op::ThreadEnd)),
            (Reply::Unit, None),
        ],
    ),
    (
        [
            Instr::Ifnonnull(4),
            Instr::Yield,
            Instr::Athrow,
            Instr::Return,
        ],
        [
            (MADE, Some(THROWN_OBJECT)),
            (Reply::Unit, Some(THROWN_OBJECT)),
            (Reply::Unit, Some(THROWN_OBJECT)),
        ],
    ),
];

/// Whether a thread goes on as wanted with a new object twice on its stack.
fn works(alloc: Global, case: &([Instr; 4], [(Reply, Option<Op>); 3])) -> Result<bool, NoMemory> {
    let ([a, b, c, d], script) = *case;
    let plain = main_alone(alloc, &[Instr::New(32), Instr::Dup, a, b, c, d])?;
    plays(alloc, &plain, Op::New { class: 32 }, &script)
}

/// The first row that goes otherwise.
fn wrong_in_objects(alloc: Global) -> Result<Option<usize>, NoMemory> {
    for (at, case) in OBJECTS.iter().enumerate() {
        if !works(alloc, case)? {
            return Ok(Some(at));
        }
    }
    Ok(None)
}

#[test]
fn objects(rt: HostRuntime) -> Result<(), Fail> {
    assert_eq!(rt; wrong_in_objects(rt.alloc())?, None);
    Ok(())
}

// A call on an object, with 2 as the argument.
const CALL_VIRTUAL: [Instr; 5] = [
    Instr::New(32),
    Instr::Push(2),
    Instr::InvokeVirtual(1),
    Instr::PutStatic(0),
    Instr::Return,
];

const CALL_SPECIAL: [Instr; 5] = [
    Instr::New(32),
    Instr::Push(2),
    Instr::InvokeSpecial(1),
    Instr::PutStatic(0),
    Instr::Return,
];

const PUT_AND_GIVE: [Instr; 4] = [
    Instr::Aload(0),
    Instr::PutStatic(0),
    Instr::Iload(1),
    Instr::Ireturn,
];

const CALLED: [(Reply, Option<Op>); 5] = [
    (MADE, Some(Op::Enter { lock: OWN_MONITOR })),
    (Reply::Unit, Some(PUT_OBJECT)),
    (Reply::Unit, Some(Op::Exit { lock: OWN_MONITOR })),
    (Reply::Unit, Some(PUT_TWO)),
    (Reply::Unit, Some(Op::ThreadEnd)),
];

const CALLS_ON_OBJECTS: [Calling; 2] = [
    Calling {
        is_main_synchronized: false,
        main: &CALL_VIRTUAL,
        params: &[Kind::Int],
        is_static: false,
        is_synchronized: true,
        code: &PUT_AND_GIVE,
        first: Op::New { class: 32 },
        script: &CALLED,
    },
    Calling {
        is_main_synchronized: false,
        main: &CALL_SPECIAL,
        params: &[Kind::Int],
        is_static: false,
        is_synchronized: true,
        code: &PUT_AND_GIVE,
        first: Op::New { class: 32 },
        script: &CALLED,
    },
];

#[test]
fn calls_on_objects(rt: HostRuntime) -> Result<(), Fail> {
    assert_eq!(rt; wrong_calling(rt.alloc(), &CALLS_ON_OBJECTS)?, None);
    Ok(())
}

// An array of 3 items, of which the last is written, and then the one after it.
const WRITES: [Instr; 9] = [
    Instr::Push(3),
    Instr::NewArray,
    Instr::Dup,
    Instr::Push(2),
    Instr::Push(LEAST),
    Instr::Iastore,
    Instr::Push(3),
    Instr::Push(9),
    Instr::Iastore,
];

const WRITE_REPLIES: [(Reply, Option<Op>); 2] = [
    (
        Reply::Made(Value::Arr { id: 4, len: 3 }),
        Some(Op::ArrayStore {
            arr: 4,
            index: 2,
            value: LEAST,
        }),
    ),
    (Reply::Unit, Some(AFTER_LAST)),
];

const PRINTS: [Instr; 12] = [
    Instr::Out,
    Instr::Println,
    Instr::Out,
    Instr::Push(LEAST),
    Instr::PrintInt { newline: false },
    Instr::Out,
    Instr::PushNull,
    Instr::PrintText { newline: true },
    Instr::Out,
    Instr::PushText(3),
    Instr::PrintText { newline: false },
    Instr::Return,
];

const PRINT_NOTHING: Op = Op::Print {
    piece: Piece::Nothing,
    newline: true,
};

const PRINT_REPLIES: [(Reply, Option<Op>); 4] = [
    (
        Reply::Unit,
        Some(Op::Print {
            piece: Piece::Int(LEAST),
            newline: false,
        }),
    ),
    (
        Reply::Unit,
        Some(Op::Print {
            piece: Piece::Null,
            newline: true,
        }),
    ),
    (
        Reply::Unit,
        Some(Op::Print {
            piece: Piece::Text(3),
            newline: false,
        }),
    ),
    (Reply::Unit, Some(Op::ThreadEnd)),
];

const REPLIES: [Alone; 4] = [
    Alone {
        main: &ARRAY,
        first: Op::NewArray { len: 3 },
        script: &ARRAY_REPLIES,
    },
    Alone {
        main: &WRITES,
        first: Op::NewArray { len: 3 },
        script: &WRITE_REPLIES,
    },
    Alone {
        main: &PRINTS,
        first: PRINT_NOTHING,
        script: &PRINT_REPLIES,
    },
    Alone {
        main: &WAIT,
        first: Op::New { class: 32 },
        script: &WAIT_REPLIES,
    },
];

#[test]
fn replies(rt: HostRuntime) -> Result<(), Fail> {
    assert_eq!(rt; wrong_alone(rt.alloc(), &REPLIES)?, None);
    Ok(())
}

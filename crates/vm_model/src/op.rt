use crate::ends::FaultKind;
use crate::value::{Lock, ObjRef, Value};

/// What is printed: a number in decimal, a text constant, `null`, or nothing.
#[derive(Clone, Copy, Debug, PartialEq, Eq)]
pub enum Piece {
    Int(i32),
    Text(u32),
    Null,
    Nothing,
}

/// A critical operation: what a thread asks of the world that it shares with the others, or what is counted with these.
/// Each one that is done is one event. A slot is the number of a static, a place that of a field in its object or of an
/// item in its array, from 0.
#[derive(Clone, Copy, Debug, PartialEq, Eq)]
pub enum Op {
    GetStatic {
        slot: u32,
    },
    PutStatic {
        slot: u32,
        value: Value,
    },
    GetField {
        obj: ObjRef,
        place: u32,
    },
    PutField {
        obj: ObjRef,
        place: u32,
        value: Value,
    },
    ArrayLoad {
        arr: u32,
        index: u32,
    },
    ArrayStore {
        arr: u32,
        index: u32,
        value: i32,
    },
    New {
        class: u32,
    },
    NewArray {
        len: u32,
    },
    Enter {
        lock: Lock,
    },
    Exit {
        lock: Lock,
    },
    Wait {
        lock: Lock,
    },
    /// Takes the lock again after a wait, as often as the thread had entered it.
    Resume {
        lock: Lock,
        count: u32,
    },
    Notify {
        lock: Lock,
    },
    NotifyAll {
        lock: Lock,
    },
    Start {
        target: ObjRef,
    },
    /// Waits for the end of the thread of this object.
    Join {
        obj: u32,
    },
    Print {
        piece: Piece,
        newline: bool,
    },
    Yield,
    /// 4,096 instructions of the thread alone were run since its last event, and the next one is such an instruction too.
    Tick,
    ThreadEnd,
    /// Marks the fault that ends the run: its kind, the number of the method, and the number of the instruction in it.
    Fault {
        kind: FaultKind,
        method: u32,
        at: u32,
    },
}

/// What the shared world answers to an operation.
#[derive(Clone, Copy, Debug, PartialEq, Eq)]
pub enum Reply {
    Unit,
    /// The value that was read.
    Got(Value),
    /// The new object or array.
    Made(Value),
    /// The number of the thread that was started.
    Began(u32),
    /// The thread waits from now on; it had entered the lock so often.
    Waits(u32),
    /// Nothing was done, and the thread's next operation is this fault.
    Raise(FaultKind),
}

/// One event of a history: the thread, the operation that it did, and the reply that it got.
#[derive(Clone, Copy, Debug, PartialEq, Eq)]
pub struct Entry {
    pub thread: u32,
    pub op: Op,
    pub reply: Reply,
}

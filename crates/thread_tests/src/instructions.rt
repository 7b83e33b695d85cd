// Single instructions, run against the expected values, which are those of JVMS SE 8 §6.5.

use crate::locals::{LEAST, asks, put};
use std::alloc::Global;
use std::test::Fail;
use vm_model::{FaultKind, Instr, NoMemory, Op, Value};

/// Whether an instruction makes this of two numbers, the second one on top.
fn makes(alloc: Global, case: &(i32, i32, Instr, i32)) -> Result<bool, NoMemory> {
    let (x, y, instr, wanted) = *case;
    let code = [Instr::Push(x), Instr::Push(y), instr, Instr::PutStatic(0)];
    let values = put(alloc, &code)?;
    Ok(values.first().copied() == Some(Value::Int(wanted)))
}

/// Whether a jump is taken as wanted after these two instructions.
fn goes(
    alloc: Global,
    first: Instr,
    second: Instr,
    jump: Instr,
    wanted: bool,
) -> Result<bool, NoMemory> {
    let code = [
        first,
        second,
        jump,
        Instr::PushNull,
        Instr::PutStatic(0),
        Instr::Push(1),
        Instr::PutStatic(0),
    ];
    let values = put(alloc, &code)?;
    let taken = values.first().copied() == Some(Value::Int(1));
    Ok(taken == wanted)
}

/// Whether a jump on two numbers, the second one on top, is taken as wanted.
fn jumps(alloc: Global, case: &(i32, i32, Instr, bool)) -> Result<bool, NoMemory> {
    let (x, y, jump, wanted) = *case;
    goes(alloc, Instr::Push(x), Instr::Push(y), jump, wanted)
}

/// Whether a jump on references is taken as wanted.
fn compares(alloc: Global, case: &(Instr, Instr, Instr, bool)) -> Result<bool, NoMemory> {
    let (first, second, jump, wanted) = *case;
    goes(alloc, first, second, jump, wanted)
}

/// Whether these values are these numbers.
fn are_numbers(values: &[Value], wanted: &[i32]) -> bool {
    for (at, number) in wanted.iter().enumerate() {
        if values.get(at).copied() != Some(Value::Int(*number)) {
            return false;
        }
    }
    values.len() == wanted.len()
}

/// Whether an instruction orders 1, 2 and 3, of which 3 is on top, as wanted, from the top.
fn orders(alloc: Global, instr: Instr, wanted: &[i32]) -> Result<bool, NoMemory> {
    let code = [
        Instr::Push(1),
        Instr::Push(2),
        Instr::Push(3),
        instr,
        Instr::PutStatic(0),
        Instr::PutStatic(0),
        Instr::PutStatic(0),
        Instr::PutStatic(0),
        Instr::PutStatic(0),
        Instr::PutStatic(0),
    ];
    let values = put(alloc, &code)?;
    Ok(are_numbers(&values, wanted))
}

/// Whether these instructions of main end in this fault at this place.
fn fails(alloc: Global, case: &([Instr; 4], FaultKind, u32)) -> Result<bool, NoMemory> {
    let ([a, b, c, d], kind, at) = *case;
    let fault = Op::Fault {
        kind,
        method: 0,
        at,
    };
    asks(alloc, &[a, b, c, d], Some(fault))
}

const GREATEST: i32 = 2147483647;

const NUMBERS: [(i32, i32, Instr, i32); 21] = [
    (GREATEST, 1, Instr::Iadd, LEAST),
    (LEAST, -1, Instr::Iadd, GREATEST),
    (LEAST, 1, Instr::Isub, GREATEST),
    (2, 5, Instr::Isub, -3),
    (65536, 65536, Instr::Imul, 0),
    (LEAST, -1, Instr::Imul, LEAST),
    (0, LEAST, Instr::Ineg, LEAST),
    (0, 7, Instr::Ineg, -7),
    (7, -2, Instr::Idiv, -3),
    (LEAST, -1, Instr::Idiv, LEAST),
    (-7, 2, Instr::Irem, -1),
    (LEAST, -1, Instr::Irem, 0),
    (1, 33, Instr::Ishl, 2),
    (1, 31, Instr::Ishl, LEAST),
    (-8, 33, Instr::Ishr, -4),
    (-1, 28, Instr::Iushr, 15),
    (-1, 33, Instr::Iushr, GREATEST),
    (-1, -32, Instr::Iushr, -1),
    (12, 10, Instr::Iand, 8),
    (12, 10, Instr::Ior, 14),
    (12, -1, Instr::Ixor, -13),
];

/// The first row that goes otherwise.
fn wrong_in_numbers(alloc: Global) -> Result<Option<usize>, NoMemory> {
    for (at, case) in NUMBERS.iter().enumerate() {
        if !makes(alloc, case)? {
            return Ok(Some(at));
        }
    }
    Ok(None)
}

#[test]
fn numbers(rt: HostRuntime) -> Result<(), Fail> {
    assert_eq!(rt; wrong_in_numbers(rt.alloc())?, None);
    Ok(())
}

const ORDERS: [(Instr, &[i32]); 8] = [
    (Instr::Nop, &[3, 2, 1]),
    (Instr::Pop, &[2, 1]),
    (Instr::Pop2, &[1]),
    (Instr::Dup, &[3, 3, 2, 1]),
    (Instr::DupX1, &[3, 2, 3, 1]),
    (Instr::DupX2, &[3, 2, 1, 3]),
    (Instr::Dup2, &[3, 2, 3, 2, 1]),
    (Instr::Swap, &[2, 3, 1]),
];

/// The first row that goes otherwise.
fn wrong_in_stack_orders(alloc: Global) -> Result<Option<usize>, NoMemory> {
    for (at, (instr, wanted)) in ORDERS.iter().enumerate() {
        if !orders(alloc, *instr, wanted)? {
            return Ok(Some(at));
        }
    }
    Ok(None)
}

#[test]
fn stack_orders(rt: HostRuntime) -> Result<(), Fail> {
    assert_eq!(rt; wrong_in_stack_orders(rt.alloc())?, None);
    Ok(())
}

const JUMPS: [(i32, i32, Instr, bool); 30] = [
    (LEAST, GREATEST, Instr::IfIcmpeq(5), false),
    (LEAST, GREATEST, Instr::IfIcmpne(5), true),
    (LEAST, GREATEST, Instr::IfIcmplt(5), true),
    (LEAST, GREATEST, Instr::IfIcmpge(5), false),
    (LEAST, GREATEST, Instr::IfIcmpgt(5), false),
    (LEAST, GREATEST, Instr::IfIcmple(5), true),
    (GREATEST, LEAST, Instr::IfIcmplt(5), false),
    (GREATEST, LEAST, Instr::IfIcmpge(5), true),
    (GREATEST, LEAST, Instr::IfIcmpgt(5), true),
    (GREATEST, LEAST, Instr::IfIcmple(5), false),
    (5, 5, Instr::IfIcmpeq(5), true),
    (5, 5, Instr::IfIcmpne(5), false),
    (5, 5, Instr::IfIcmplt(5), false),
    (5, 5, Instr::IfIcmpge(5), true),
    (5, 5, Instr::IfIcmpgt(5), false),
    (5, 5, Instr::IfIcmple(5), true),
    (9, 0, Instr::Ifeq(5), true),
    (9, 1, Instr::Ifeq(5), false),
    (9, 0, Instr::Ifne(5), false),
    (9, -1, Instr::Ifne(5), true),
    (9, -1, Instr::Iflt(5), true),
    (9, 0, Instr::Iflt(5), false),
    (9, 0, Instr::Ifge(5), true),
    (9, -1, Instr::Ifge(5), false),
    (9, 0, Instr::Ifgt(5), false),
    (9, 1, Instr::Ifgt(5), true),
    (9, 0, Instr::Ifle(5), true),
    (9, 1, Instr::Ifle(5), false),
    (9, 7, Instr::Goto(5), true),
    (9, 7, Instr::Nop, false),
];

/// The first row that goes otherwise.
fn wrong_in_jumps_on_numbers(alloc: Global) -> Result<Option<usize>, NoMemory> {
    for (at, case) in JUMPS.iter().enumerate() {
        if !jumps(alloc, case)? {
            return Ok(Some(at));
        }
    }
    Ok(None)
}

#[test]
fn jumps_on_numbers(rt: HostRuntime) -> Result<(), Fail> {
    assert_eq!(rt; wrong_in_jumps_on_numbers(rt.alloc())?, None);
    Ok(())
}

const REFERENCES: [(Instr, Instr, Instr, bool); 12] = [
    (Instr::PushNull, Instr::PushNull, Instr::IfAcmpeq(5), true),
    (Instr::PushNull, Instr::PushNull, Instr::IfAcmpne(5), false),
    (
        Instr::PushNull,
        Instr::PushText(1),
        Instr::IfAcmpeq(5),
        false,
    ),
    (
        Instr::PushNull,
        Instr::PushText(1),
        Instr::IfAcmpne(5),
        true,
    ),
    (
        Instr::PushText(1),
        Instr::PushText(1),
        Instr::IfAcmpeq(5),
        true,
    ),
    (
        Instr::PushText(1),
        Instr::PushText(2),
        Instr::IfAcmpeq(5),
        false,
    ),
    (
        Instr::PushText(1),
        Instr::PushText(2),
        Instr::IfAcmpne(5),
        true,
    ),
    (Instr::Out, Instr::Out, Instr::IfAcmpeq(5), true),
    (Instr::Nop, Instr::PushNull, Instr::Ifnull(5), true),
    (Instr::Nop, Instr::Out, Instr::Ifnull(5), false),
    (Instr::Nop, Instr::PushNull, Instr::Ifnonnull(5), false),
    (Instr::Nop, Instr::PushText(0), Instr::Ifnonnull(5), true),
];

/// The first row that goes otherwise.
fn wrong_in_jumps_on_references(alloc: Global) -> Result<Option<usize>, NoMemory> {
    for (at, case) in REFERENCES.iter().enumerate() {
        if !compares(alloc, case)? {
            return Ok(Some(at));
        }
    }
    Ok(None)
}

#[test]
fn jumps_on_references(rt: HostRuntime) -> Result<(), Fail> {
    assert_eq!(rt; wrong_in_jumps_on_references(rt.alloc())?, None);
    Ok(())
}

const FAULTS: [([Instr; 4], FaultKind, u32); 25] = [
    (
        [Instr::Push(5), Instr::Push(0), Instr::Idiv, Instr::Nop],
        FaultKind::Arithmetic,
        2,
    ),
    (
        [Instr::Push(5), Instr::Push(0), Instr::Irem, Instr::Nop],
        FaultKind::Arithmetic,
        2,
    ),
    (
        [Instr::Push(-1), Instr::NewArray, Instr::Nop, Instr::Nop],
        FaultKind::NegativeSize,
        1,
    ),
    (
        [Instr::PushNull, Instr::ArrayLength, Instr::Nop, Instr::Nop],
        FaultKind::NullPointer,
        1,
    ),
    (
        [Instr::PushNull, Instr::Push(-1), Instr::Iaload, Instr::Nop],
        FaultKind::NullPointer,
        2,
    ),
    (
        [
            Instr::PushNull,
            Instr::Push(-1),
            Instr::Push(0),
            Instr::Iastore,
        ],
        FaultKind::NullPointer,
        3,
    ),
    (
        [
            Instr::PushNull,
            Instr::GetField {
                class: 32,
                place: 0,
            },
            Instr::Nop,
            Instr::Nop,
        ],
        FaultKind::NullPointer,
        1,
    ),
    (
        [
            Instr::PushNull,
            Instr::Push(5),
            Instr::PutField {
                class: 32,
                place: 0,
            },
            Instr::Nop,
        ],
        FaultKind::NullPointer,
        2,
    ),
    (
        [Instr::PushNull, Instr::MonitorEnter, Instr::Nop, Instr::Nop],
        FaultKind::NullPointer,
        1,
    ),
    (
        [Instr::PushNull, Instr::MonitorExit, Instr::Nop, Instr::Nop],
        FaultKind::NullPointer,
        1,
    ),
    (
        [Instr::PushNull, Instr::Wait, Instr::Nop, Instr::Nop],
        FaultKind::NullPointer,
        1,
    ),
    (
        [Instr::PushNull, Instr::Notify, Instr::Nop, Instr::Nop],
        FaultKind::NullPointer,
        1,
    ),
    (
        [Instr::PushNull, Instr::NotifyAll, Instr::Nop, Instr::Nop],
        FaultKind::NullPointer,
        1,
    ),
    (
        [Instr::PushNull, Instr::Start, Instr::Nop, Instr::Nop],
        FaultKind::NullPointer,
        1,
    ),
    (
        [Instr::PushNull, Instr::Join, Instr::Nop, Instr::Nop],
        FaultKind::NullPointer,
        1,
    ),
    (
        [Instr::PushNull, Instr::Athrow, Instr::Nop, Instr::Nop],
        FaultKind::NullPointer,
        1,
    ),
    (
        [
            Instr::PushNull,
            Instr::InvokeVirtual(1),
            Instr::Nop,
            Instr::Nop,
        ],
        FaultKind::NullPointer,
        1,
    ),
    (
        [
            Instr::PushNull,
            Instr::InvokeSpecial(1),
            Instr::Nop,
            Instr::Nop,
        ],
        FaultKind::NullPointer,
        1,
    ),
    (
        [Instr::PushNull, Instr::RunOf(1), Instr::Nop, Instr::Nop],
        FaultKind::NullPointer,
        1,
    ),
    (
        [
            Instr::PushNull,
            Instr::Init {
                class: 1,
                text: false,
            },
            Instr::Nop,
            Instr::Nop,
        ],
        FaultKind::NullPointer,
        1,
    ),
    (
        [Instr::PushNull, Instr::Println, Instr::Nop, Instr::Nop],
        FaultKind::NullPointer,
        1,
    ),
    (
        [
            Instr::PushNull,
            Instr::PushText(0),
            Instr::Init {
                class: 1,
                text: true,
            },
            Instr::Nop,
        ],
        FaultKind::NullPointer,
        2,
    ),
    (
        [
            Instr::PushNull,
            Instr::PushNull,
            Instr::InitRunnable,
            Instr::Nop,
        ],
        FaultKind::NullPointer,
        2,
    ),
    (
        [
            Instr::PushNull,
            Instr::Push(1),
            Instr::PrintInt { newline: true },
            Instr::Nop,
        ],
        FaultKind::NullPointer,
        2,
    ),
    (
        [
            Instr::PushNull,
            Instr::PushText(0),
            Instr::PrintText { newline: true },
            Instr::Nop,
        ],
        FaultKind::NullPointer,
        2,
    ),
];

/// The first row that goes otherwise.
fn wrong_in_faults(alloc: Global) -> Result<Option<usize>, NoMemory> {
    for (at, case) in FAULTS.iter().enumerate() {
        if !fails(alloc, case)? {
            return Ok(Some(at));
        }
    }
    Ok(None)
}

#[test]
fn faults(rt: HostRuntime) -> Result<(), Fail> {
    assert_eq!(rt; wrong_in_faults(rt.alloc())?, None);
    Ok(())
}

// Without operands. Local 1 holds null, and the last local is 255.
const LACKING: [Instr; 66] = [
    Instr::Pop,
    Instr::Pop2,
    Instr::Dup,
    Instr::DupX1,
    Instr::DupX2,
    Instr::Dup2,
    Instr::Swap,
    Instr::Iadd,
    Instr::Isub,
    Instr::Imul,
    Instr::Ineg,
    Instr::Idiv,
    Instr::Irem,
    Instr::Ishl,
    Instr::Ishr,
    Instr::Iushr,
    Instr::Iand,
    Instr::Ior,
    Instr::Ixor,
    Instr::Ifeq(0),
    Instr::Ifne(0),
    Instr::Iflt(0),
    Instr::Ifge(0),
    Instr::Ifgt(0),
    Instr::Ifle(0),
    Instr::IfIcmpeq(0),
    Instr::IfIcmpne(0),
    Instr::IfIcmplt(0),
    Instr::IfIcmpge(0),
    Instr::IfIcmpgt(0),
    Instr::IfIcmple(0),
    Instr::IfAcmpeq(0),
    Instr::IfAcmpne(0),
    Instr::Ifnull(0),
    Instr::Ifnonnull(0),
    Instr::ArrayLength,
    Instr::PutStatic(0),
    Instr::Iaload,
    Instr::Iastore,
    Instr::NewArray,
    Instr::MonitorEnter,
    Instr::MonitorExit,
    Instr::Athrow,
    Instr::InvokeVirtual(1),
    Instr::InvokeSpecial(1),
    Instr::RunOf(1),
    Instr::Wait,
    Instr::Notify,
    Instr::NotifyAll,
    Instr::Start,
    Instr::Join,
    Instr::InitRunnable,
    Instr::Println,
    Instr::Ireturn,
    Instr::Areturn,
    Instr::Istore(1),
    Instr::Astore(1),
    Instr::Iload(1),
    Instr::Aload(256),
    Instr::Iinc { local: 1, by: 1 },
    Instr::GetField {
        class: 32,
        place: 0,
    },
    Instr::PutField {
        class: 32,
        place: 0,
    },
    Instr::Init {
        class: 1,
        text: false,
    },
    Instr::Init {
        class: 1,
        text: true,
    },
    Instr::PrintInt { newline: true },
    Instr::PrintText { newline: true },
];

/// The first row that goes otherwise.
fn wrong_in_lacking_operands(alloc: Global) -> Result<Option<usize>, NoMemory> {
    for (at, instr) in LACKING.iter().enumerate() {
        if !asks(alloc, &[*instr], None)? {
            return Ok(Some(at));
        }
    }
    Ok(None)
}

#[test]
fn lacking_operands(rt: HostRuntime) -> Result<(), Fail> {
    assert_eq!(rt; wrong_in_lacking_operands(rt.alloc())?, None);
    Ok(())
}

const LOCALS: [Instr; 13] = [
    Instr::Push(6),
    Instr::Istore(1),
    Instr::Iinc { local: 1, by: -2 },
    Instr::Iload(1),
    Instr::PutStatic(0),
    Instr::PushText(3),
    Instr::Astore(2),
    Instr::Aload(2),
    Instr::PutStatic(0),
    Instr::Aload(0),
    Instr::PutStatic(0),
    Instr::Out,
    Instr::PutStatic(0),
];

const LOCAL_VALUES: [Value; 4] = [Value::Int(4), Value::Text(3), Value::Null, Value::Stream];

fn are_locals_put(alloc: Global) -> Result<bool, NoMemory> {
    let values = put(alloc, &LOCALS)?;
    Ok(values.as_slice() == LOCAL_VALUES.as_slice())
}

#[test]
fn locals(rt: HostRuntime) -> Result<(), Fail> {
    assert!(rt; are_locals_put(rt.alloc())?);
    Ok(())
}

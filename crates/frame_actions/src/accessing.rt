// What is kept in statics, objects, arrays and monitors. The tests for null, for bounds and for a negative length come first.
ghost use Rattle.std.specs.Prelude.{◌≡◌, ◌<◌, ◌≤◌, ◌^◌, true};
ghost use Rattle.machine_model.specs.Effect.{effect};
ghost use Rattle.machine_model.specs.Operands.{as_index, as_length, Asks};
ghost use Rattle.frame_actions.specs.Acts.{plain, acted_of, after};
ghost use Rattle.frame_actions.specs.Families.{is_of_array, is_of_field, is_of_monitor, is_of_static};

use crate::acted::Acted;
use crate::frame::Frame;
use vm_model::{FaultKind, Instr, Lock, ObjRef, Op, Program, Value};

/// Reads or writes a static, or makes an object (JVMS SE 8 §6.5 `getstatic`, `putstatic`, `new`).
pub fn of_static(frame: &mut Frame, program: &Program, instr: Instr) -> Acted
    requires family { is_of_static instr ≡ true }
    requires place { frame.old.place < 2 ^ 31 }
    ensures acted { result ≡ acted_of (effect program.now instr (plain frame.old)) }
    ensures room { frame.old.stack.room ≤ frame.new.stack.room }
    ensures method { frame.new.method ≡ frame.old.method }
    ensures frame { plain frame.new ≡ after (effect program.now instr (plain frame.old)) (plain frame.old) }
{
    match instr {
        Instr::GetStatic(slot) => Acted::Asks(Op::GetStatic { slot }, 0),
        Instr::PutStatic(slot) => match frame.stack.peek(0) {
            Some(value) => Acted::Asks(Op::PutStatic { slot, value }, 1),
            None => Acted::Undefined,
        },
        Instr::New(class) => Acted::Asks(Op::New { class }, 0),
        _ => unreachable!(),
    }
}

/// Reads or writes a field (JVMS SE 8 §6.5 `getfield`, `putfield`).
pub fn of_field(frame: &mut Frame, program: &Program, instr: Instr) -> Acted
    requires family { is_of_field instr ≡ true }
    requires place { frame.old.place < 2 ^ 31 }
    ensures acted { result ≡ acted_of (effect program.now instr (plain frame.old)) }
    ensures room { frame.old.stack.room ≤ frame.new.stack.room }
    ensures method { frame.new.method ≡ frame.old.method }
    ensures frame { plain frame.new ≡ after (effect program.now instr (plain frame.old)) (plain frame.old) }
{
    match instr {
        Instr::GetField { place, .. } => match frame.stack.peek(0) {
            Some(Value::Obj { id, class }) => {
                let obj = ObjRef { id, class };
                Acted::Asks(Op::GetField { obj, place }, 1)
            }
            Some(Value::Null) => Acted::Fails(FaultKind::NullPointer),
            _ => Acted::Undefined,
        },
        Instr::PutField { place, .. } => match frame.stack.pair() {
            (Some(Value::Obj { id, class }), Some(value)) => {
                let obj = ObjRef { id, class };
                Acted::Asks(Op::PutField { obj, place, value }, 2)
            }
            (Some(Value::Null), Some(_)) => Acted::Fails(FaultKind::NullPointer),
            _ => Acted::Undefined,
        },
        _ => unreachable!(),
    }
}

/// Reads or writes an item of an array, or makes an array (JVMS SE 8 §6.5 `iaload`, `iastore`, `newarray`).
pub fn of_array(frame: &mut Frame, program: &Program, instr: Instr) -> Acted
    requires family { is_of_array instr ≡ true }
    requires place { frame.old.place < 2 ^ 31 }
    ensures acted { result ≡ acted_of (effect program.now instr (plain frame.old)) }
    ensures room { frame.old.stack.room ≤ frame.new.stack.room }
    ensures method { frame.new.method ≡ frame.old.method }
    ensures frame { plain frame.new ≡ after (effect program.now instr (plain frame.old)) (plain frame.old) }
{
    match instr {
        Instr::Iaload => match (frame.stack.peek(1), frame.stack.peek_int(0)) {
            (Some(Value::Arr { id, len }), Some(i)) => load(id, len, i),
            (Some(Value::Null), Some(_)) => Acted::Fails(FaultKind::NullPointer),
            _ => Acted::Undefined,
        },
        Instr::Iastore => match (
            frame.stack.peek(2),
            frame.stack.peek_int(1),
            frame.stack.peek_int(0),
        ) {
            (Some(Value::Arr { id, len }), Some(i), Some(x)) => store(id, len, i, x),
            (Some(Value::Null), Some(_), Some(_)) => Acted::Fails(FaultKind::NullPointer),
            _ => Acted::Undefined,
        },
        Instr::NewArray => match frame.stack.peek_int(0) {
            Some(n) => new_array(n),
            None => Acted::Undefined,
        },
        _ => unreachable!(),
    }
}

/// Works on the monitor of an object or an array (JVMS SE 8 §2.11.10, and `wait`, `notify` and `notifyAll` of `Object`).
pub fn of_monitor(frame: &mut Frame, program: &Program, instr: Instr) -> Acted
    requires family { is_of_monitor instr ≡ true }
    requires place { frame.old.place < 2 ^ 31 }
    ensures acted { result ≡ acted_of (effect program.now instr (plain frame.old)) }
    ensures room { frame.old.stack.room ≤ frame.new.stack.room }
    ensures method { frame.new.method ≡ frame.old.method }
    ensures frame { plain frame.new ≡ after (effect program.now instr (plain frame.old)) (plain frame.old) }
{
    let lock = match frame.stack.peek(0) {
        Some(Value::Obj { id, .. } | Value::Arr { id, .. }) => Lock::Object(id),
        Some(Value::Null) => return Acted::Fails(FaultKind::NullPointer),
        _ => return Acted::Undefined,
    };
    match instr {
        Instr::MonitorEnter => Acted::Asks(Op::Enter { lock }, 1),
        Instr::MonitorExit => Acted::Asks(Op::Exit { lock }, 1),
        Instr::Wait => Acted::Asks(Op::Wait { lock }, 1),
        Instr::Notify => Acted::Asks(Op::Notify { lock }, 1),
        Instr::NotifyAll => Acted::Asks(Op::NotifyAll { lock }, 1),
        _ => unreachable!(),
    }
}

/// `iaload` of an array of that length.
fn load(arr: u32, len: u32, i: i32) -> Acted
    ensures { result ≡ acted_of (as_index i len (λ n. Asks (Op.ArrayLoad arr n) 2)) }
{
    if i < 0 {
        return Acted::Fails(FaultKind::ArrayIndex);
    }
    let index = i as u32;
    if index < len {
        Acted::Asks(Op::ArrayLoad { arr, index }, 2)
    } else {
        Acted::Fails(FaultKind::ArrayIndex)
    }
}

/// `iastore` into an array of that length.
fn store(arr: u32, len: u32, i: i32, value: i32) -> Acted
    ensures { result ≡ acted_of (as_index i len (λ n. Asks (Op.ArrayStore arr n value) 3)) }
{
    if i < 0 {
        return Acted::Fails(FaultKind::ArrayIndex);
    }
    let index = i as u32;
    if index < len {
        Acted::Asks(Op::ArrayStore { arr, index, value }, 3)
    } else {
        Acted::Fails(FaultKind::ArrayIndex)
    }
}

/// `newarray` of that length.
fn new_array(n: i32) -> Acted
    ensures { result ≡ acted_of (as_length n (λ len. Asks (Op.NewArray len) 1)) }
{
    if n < 0 {
        return Acted::Fails(FaultKind::NegativeSize);
    }
    let len = n as u32;
    Acted::Asks(Op::NewArray { len }, 1)
}

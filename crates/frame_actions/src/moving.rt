// Constants, locals, and the order of operands.
ghost use Rattle.std.specs.Prelude.{◌≡◌, ◌+◌, ◌<◌, ◌≤◌, ◌^◌, length, true};
ghost use Rattle.machine_model.specs.Effect.{effect};
ghost use Rattle.frame_actions.specs.Acts.{plain, acted_of, after};
ghost use Rattle.frame_actions.specs.Families.{is_constant, is_of_local, is_order};

use crate::acted::{Acted, goes_if};
use crate::frame::Frame;
use vm_model::{Instr, Program, Value};

/// Pushes a constant (JVMS SE 8 §2.11.2).
pub fn constant(frame: &mut Frame, program: &Program, instr: Instr) -> Acted
    requires family { is_constant instr ≡ true }
    requires place { frame.old.place < 2 ^ 31 }
    requires room { length frame.old.stack.values + 2 ≤ frame.old.stack.room }
    ensures acted { result ≡ acted_of (effect program.now instr (plain frame.old)) }
    ensures room { frame.old.stack.room ≤ frame.new.stack.room }
    ensures method { frame.new.method ≡ frame.old.method }
    ensures frame { plain frame.new ≡ after (effect program.now instr (plain frame.old)) (plain frame.old) }
{
    let value = match instr {
        Instr::Push(n) => Value::Int(n),
        Instr::PushText(text) => Value::Text(text),
        Instr::PushNull => Value::Null,
        Instr::Out => Value::Stream,
        _ => unreachable!(),
    };
    frame.put(0, value);
    Acted::Goes
}

/// Reads or writes a local (JVMS SE 8 §2.11.2).
pub fn of_local(frame: &mut Frame, program: &Program, instr: Instr) -> Acted
    requires family { is_of_local instr ≡ true }
    requires place { frame.old.place < 2 ^ 31 }
    requires room { length frame.old.stack.values + 2 ≤ frame.old.stack.room }
    ensures acted { result ≡ acted_of (effect program.now instr (plain frame.old)) }
    ensures room { frame.old.stack.room ≤ frame.new.stack.room }
    ensures method { frame.new.method ≡ frame.old.method }
    ensures frame { plain frame.new ≡ after (effect program.now instr (plain frame.old)) (plain frame.old) }
{
    match instr {
        Instr::Iload(i) => match frame.int_local(i) {
            Some(n) => {
                frame.put_int(0, n);
                Acted::Goes
            }
            None => Acted::Undefined,
        },
        Instr::Istore(i) => match frame.stack.peek_int(0) {
            Some(n) => goes_if(frame.store_int(1, i, n)),
            None => Acted::Undefined,
        },
        Instr::Aload(i) => match frame.local(i) {
            Some(v) => {
                frame.put(0, v);
                Acted::Goes
            }
            None => Acted::Undefined,
        },
        Instr::Astore(i) => match frame.stack.peek(0) {
            Some(v) => goes_if(frame.store(1, i, v)),
            None => Acted::Undefined,
        },
        Instr::Iinc { local, by } => match frame.int_local(local) {
            Some(n) => goes_if(frame.store_int(0, local, n.wrapping_add(by))),
            None => Acted::Undefined,
        },
        _ => unreachable!(),
    }
}

/// Orders, copies or drops operands, or does nothing (JVMS SE 8 §2.11.6).
pub fn order(frame: &mut Frame, program: &Program, instr: Instr) -> Acted
    requires family { is_order instr ≡ true }
    requires place { frame.old.place < 2 ^ 31 }
    requires room { length frame.old.stack.values + 2 ≤ frame.old.stack.room }
    ensures acted { result ≡ acted_of (effect program.now instr (plain frame.old)) }
    ensures room { frame.old.stack.room ≤ frame.new.stack.room }
    ensures method { frame.new.method ≡ frame.old.method }
    ensures frame { plain frame.new ≡ after (effect program.now instr (plain frame.old)) (plain frame.old) }
{
    match instr {
        Instr::Nop => {
            frame.take(0);
            Acted::Goes
        }
        Instr::Pop => match frame.stack.peek(0) {
            Some(_) => {
                frame.take(1);
                Acted::Goes
            }
            None => Acted::Undefined,
        },
        Instr::Pop2 => match frame.stack.pair() {
            (Some(_), Some(_)) => {
                frame.take(2);
                Acted::Goes
            }
            _ => Acted::Undefined,
        },
        Instr::Dup => match frame.stack.peek(0) {
            Some(v) => {
                frame.put(0, v);
                Acted::Goes
            }
            None => Acted::Undefined,
        },
        Instr::DupX1 => match frame.stack.pair() {
            (Some(v), Some(w)) => {
                frame.stack.remove(2);
                frame.stack.push(w);
                frame.stack.push(v);
                frame.put(0, w);
                Acted::Goes
            }
            _ => Acted::Undefined,
        },
        Instr::DupX2 => match (
            frame.stack.peek(2),
            frame.stack.peek(1),
            frame.stack.peek(0),
        ) {
            (Some(u), Some(v), Some(w)) => {
                frame.stack.remove(3);
                frame.stack.push(w);
                frame.stack.push(u);
                frame.stack.push(v);
                frame.put(0, w);
                Acted::Goes
            }
            _ => Acted::Undefined,
        },
        Instr::Dup2 => match frame.stack.pair() {
            (Some(v), Some(w)) => {
                frame.stack.push(v);
                frame.put(0, w);
                Acted::Goes
            }
            _ => Acted::Undefined,
        },
        Instr::Swap => match frame.stack.pair() {
            (Some(v), Some(w)) => {
                frame.stack.remove(2);
                frame.stack.push(w);
                frame.put(0, v);
                Acted::Goes
            }
            _ => Acted::Undefined,
        },
        _ => unreachable!(),
    }
}

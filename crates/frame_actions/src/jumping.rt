// Jumps.
ghost use Rattle.std.specs.Prelude.{◌≡◌, ◌+◌, ◌<◌, ◌≤◌, ◌^◌, length, true};
ghost use Rattle.machine_model.specs.Effect.{effect, same_reference as same_references};
ghost use Rattle.frame_actions.specs.Acts.{plain, acted_of, after};
ghost use Rattle.frame_actions.specs.Families.{is_jump_of_one, is_jump_of_two, is_jump_of_references};
ghost use Rattle.machine_model.specs.Kinds.{is_null as is_null_value};

use crate::acted::Acted;
use crate::frame::Frame;
use vm_model::{Instr, Program, Value};

/// Jumps where a number stands so to zero (JVMS SE 8 §6.5 `if<cond>`).
pub fn jump_of_one(frame: &mut Frame, program: &Program, instr: Instr) -> Acted
    requires family { is_jump_of_one instr ≡ true }
    requires place { frame.old.place < 2 ^ 31 }
    requires room { length frame.old.stack.values + 2 ≤ frame.old.stack.room }
    ensures acted { result ≡ acted_of (effect program.now instr (plain frame.old)) }
    ensures room { frame.old.stack.room ≤ frame.new.stack.room }
    ensures method { frame.new.method ≡ frame.old.method }
    ensures frame { plain frame.new ≡ after (effect program.now instr (plain frame.old)) (plain frame.old) }
{
    let Some(y) = frame.stack.peek_int(0) else {
        return Acted::Undefined;
    };
    match instr {
        Instr::Ifeq(to) => frame.branch(1, y == 0, to),
        Instr::Ifne(to) => frame.branch(1, y != 0, to),
        Instr::Iflt(to) => frame.branch(1, y < 0, to),
        Instr::Ifge(to) => frame.branch(1, y >= 0, to),
        Instr::Ifgt(to) => frame.branch(1, y > 0, to),
        Instr::Ifle(to) => frame.branch(1, y <= 0, to),
        _ => unreachable!(),
    }
    Acted::Goes
}

/// Jumps where two numbers stand so to each other (JVMS SE 8 §6.5 `if_icmp<cond>`).
pub fn jump_of_two(frame: &mut Frame, program: &Program, instr: Instr) -> Acted
    requires family { is_jump_of_two instr ≡ true }
    requires place { frame.old.place < 2 ^ 31 }
    requires room { length frame.old.stack.values + 2 ≤ frame.old.stack.room }
    ensures acted { result ≡ acted_of (effect program.now instr (plain frame.old)) }
    ensures room { frame.old.stack.room ≤ frame.new.stack.room }
    ensures method { frame.new.method ≡ frame.old.method }
    ensures frame { plain frame.new ≡ after (effect program.now instr (plain frame.old)) (plain frame.old) }
{
    let (Some(x), Some(y)) = frame.stack.ints() else {
        return Acted::Undefined;
    };
    match instr {
        Instr::IfIcmpeq(to) => frame.branch(2, x == y, to),
        Instr::IfIcmpne(to) => frame.branch(2, x != y, to),
        Instr::IfIcmplt(to) => frame.branch(2, x < y, to),
        Instr::IfIcmpge(to) => frame.branch(2, x >= y, to),
        Instr::IfIcmpgt(to) => frame.branch(2, x > y, to),
        Instr::IfIcmple(to) => frame.branch(2, x <= y, to),
        _ => unreachable!(),
    }
    Acted::Goes
}

/// Jumps where references are null or one, or always (JVMS SE 8 §6.5 `if_acmp<cond>`, `ifnull`, `ifnonnull`, `goto`).
pub fn jump_of_references(frame: &mut Frame, program: &Program, instr: Instr) -> Acted
    requires family { is_jump_of_references instr ≡ true }
    requires place { frame.old.place < 2 ^ 31 }
    requires room { length frame.old.stack.values + 2 ≤ frame.old.stack.room }
    ensures acted { result ≡ acted_of (effect program.now instr (plain frame.old)) }
    ensures room { frame.old.stack.room ≤ frame.new.stack.room }
    ensures method { frame.new.method ≡ frame.old.method }
    ensures frame { plain frame.new ≡ after (effect program.now instr (plain frame.old)) (plain frame.old) }
{
    match instr {
        Instr::IfAcmpeq(to) => match frame.stack.pair() {
            (Some(v), Some(w)) => {
                frame.branch(2, same_reference(v, w), to);
                Acted::Goes
            }
            _ => Acted::Undefined,
        },
        Instr::IfAcmpne(to) => match frame.stack.pair() {
            (Some(v), Some(w)) => {
                frame.branch(2, !same_reference(v, w), to);
                Acted::Goes
            }
            _ => Acted::Undefined,
        },
        Instr::Ifnull(to) => match frame.stack.peek(0) {
            Some(w) => {
                frame.branch(1, is_null(w), to);
                Acted::Goes
            }
            None => Acted::Undefined,
        },
        Instr::Ifnonnull(to) => match frame.stack.peek(0) {
            Some(w) => {
                frame.branch(1, !is_null(w), to);
                Acted::Goes
            }
            None => Acted::Undefined,
        },
        Instr::Goto(to) => {
            frame.branch(0, true, to);
            Acted::Goes
        }
        _ => unreachable!(),
    }
}

/// Whether the value is null.
fn is_null(v: Value) -> bool
    ensures { result ≡ is_null_value v }
{
    matches!(v, Value::Null)
}

/// Whether two references are one: two nulls, two streams, or the same object, array or text constant.
fn same_reference(v: Value, w: Value) -> bool
    ensures { result ≡ same_references v w }
{
    match (v, w) {
        (Value::Null, Value::Null) => true,
        (Value::Obj { id, .. }, Value::Obj { id: other, .. }) => id == other,
        (Value::Arr { id, .. }, Value::Arr { id: other, .. }) => id == other,
        (Value::Text(text), Value::Text(other)) => text == other,
        (Value::Stream, Value::Stream) => true,
        _ => false,
    }
}

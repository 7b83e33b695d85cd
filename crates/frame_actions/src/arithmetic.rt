// Numbers made of numbers.
ghost use Rattle.std.specs.Prelude.{◌≡◌, ◌+◌, ◌<◌, ◌≤◌, ◌^◌, length, true};
ghost use Rattle.machine_model.specs.Effect.{effect, shift_right_unsigned};
ghost use Rattle.frame_actions.specs.Acts.{plain, acted_of, after};
ghost use Rattle.frame_actions.specs.Families.{is_of_two_numbers, is_of_one};

use crate::acted::Acted;
use crate::frame::Frame;
use vm_model::{FaultKind, Instr, Program, Value};

/// Makes a number of two numbers (JVMS SE 8 §2.11.3). Sums, differences and products keep their low 32 bits; of the number
/// of bits to shift by, the low 5 bits count.
pub fn of_two_numbers(frame: &mut Frame, program: &Program, instr: Instr) -> Acted
    requires family { is_of_two_numbers instr ≡ true }
    requires place { frame.old.place < 2 ^ 31 }
    requires room { length frame.old.stack.values + 2 ≤ frame.old.stack.room }
    ensures acted { result ≡ acted_of (effect program.now instr (plain frame.old)) }
    ensures room { frame.old.stack.room ≤ frame.new.stack.room }
    ensures method { frame.new.method ≡ frame.old.method }
    ensures frame { plain frame.new ≡ after (effect program.now instr (plain frame.old)) (plain frame.old) }
{
    let (Some(x), Some(y)) = frame.stack.ints() else {
        return Acted::Undefined;
    };
    let made = match instr {
        Instr::Iadd => x.wrapping_add(y),
        Instr::Isub => x.wrapping_sub(y),
        Instr::Imul => x.wrapping_mul(y),
        Instr::Idiv => {
            if y == 0 {
                return Acted::Fails(FaultKind::Arithmetic);
            }
            x.wrapping_div(y)
        }
        Instr::Irem => {
            if y == 0 {
                return Acted::Fails(FaultKind::Arithmetic);
            }
            x.wrapping_rem(y)
        }
        Instr::Ishl => x.wrapping_shl(y.cast_unsigned()),
        Instr::Ishr => x.wrapping_shr(y.cast_unsigned()),
        Instr::Iushr => shift_unsigned(x, y),
        Instr::Iand => x & y,
        Instr::Ior => x | y,
        Instr::Ixor => x ^ y,
        _ => unreachable!(),
    };
    frame.put_int(2, made);
    Acted::Goes
}

/// Makes a number of one, or of an array (JVMS SE 8 §6.5 `ineg`, `arraylength`).
pub fn of_one(frame: &mut Frame, program: &Program, instr: Instr) -> Acted
    requires family { is_of_one instr ≡ true }
    requires place { frame.old.place < 2 ^ 31 }
    requires room { length frame.old.stack.values + 2 ≤ frame.old.stack.room }
    ensures acted { result ≡ acted_of (effect program.now instr (plain frame.old)) }
    ensures room { frame.old.stack.room ≤ frame.new.stack.room }
    ensures method { frame.new.method ≡ frame.old.method }
    ensures frame { plain frame.new ≡ after (effect program.now instr (plain frame.old)) (plain frame.old) }
{
    match instr {
        Instr::Ineg => match frame.stack.peek_int(0) {
            Some(y) => {
                frame.put_int(1, y.wrapping_neg());
                Acted::Goes
            }
            None => Acted::Undefined,
        },
        Instr::ArrayLength => match frame.stack.peek(0) {
            Some(Value::Arr { len, .. }) => {
                frame.put_int(1, len.cast_signed());
                Acted::Goes
            }
            Some(Value::Null) => Acted::Fails(FaultKind::NullPointer),
            _ => Acted::Undefined,
        },
        _ => unreachable!(),
    }
}

/// `iushr`: the bits moved to the right, with zeros after them.
fn shift_unsigned(x: i32, by: i32) -> i32
    ensures { result ≡ shift_right_unsigned x by }
{
    x.cast_unsigned()
        .wrapping_shr(by.cast_unsigned())
        .cast_signed()
}

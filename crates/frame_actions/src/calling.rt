// Calls, returns, and what the class library does.
ghost use Rattle.std.specs.Prelude.{◌≡◌, ◌<◌, ◌≤◌, ◌^◌, length, true};
ghost use Rattle.vm_model.specs.declared.limits.TheConstants.{MOST_TEXT_BYTES};
ghost use Rattle.vm_model.specs.Program.{method_at};
ghost use Rattle.machine_model.specs.Effect.{effect, calls_on, calls_static, run_method as model_run_method, lock_if as model_lock_if};
ghost use Rattle.machine_model.specs.Operands.{as_stream, Asks};
ghost use Rattle.frame_actions.specs.Acts.{plain, acted_of, after};
ghost use Rattle.frame_actions.specs.Families.{is_call, is_constructor, is_of_thread, is_print, is_return};

use crate::acted::Acted;
use crate::frame::Frame;
use vm_model::{FaultKind, Instr, Lock, ObjRef, Op, Piece, Program, Value};

/// Calls a method, on the object below its arguments where it isn't static (JVMS SE 8 §2.11.8).
pub fn call(frame: &mut Frame, program: &Program, instr: Instr) -> Acted
    requires family { is_call instr ≡ true }
    requires place { frame.old.place < 2 ^ 31 }
    requires few { length program.now.methods ≤ MOST_TEXT_BYTES }
    ensures acted { result ≡ acted_of (effect program.now instr (plain frame.old)) }
    ensures room { frame.old.stack.room ≤ frame.new.stack.room }
    ensures method { frame.new.method ≡ frame.old.method }
    ensures frame { plain frame.new ≡ after (effect program.now instr (plain frame.old)) (plain frame.old) }
{
    match instr {
        Instr::InvokeStatic(m) => call_static(frame, program, m),
        Instr::InvokeVirtual(m) | Instr::InvokeSpecial(m) => call_on(frame, program, m),
        Instr::RunOf(_) => match frame.stack.peek(0) {
            Some(Value::Obj { class, .. }) => {
                call_on(frame, program, run_method(program, class))
            }
            Some(Value::Null) => Acted::Fails(FaultKind::NullPointer),
            _ => Acted::Undefined,
        },
        _ => unreachable!(),
    }
}

/// Gives back to the caller, or throws (JVMS SE 8 §6.5 `return`, `athrow`).
pub fn give(frame: &mut Frame, program: &Program, instr: Instr) -> Acted
    requires family { is_return instr ≡ true }
    requires place { frame.old.place < 2 ^ 31 }
    ensures acted { result ≡ acted_of (effect program.now instr (plain frame.old)) }
    ensures room { frame.old.stack.room ≤ frame.new.stack.room }
    ensures method { frame.new.method ≡ frame.old.method }
    ensures frame { plain frame.new ≡ after (effect program.now instr (plain frame.old)) (plain frame.old) }
{
    match instr {
        Instr::Return => Acted::Gives(None),
        Instr::Ireturn => match frame.stack.peek_int(0) {
            Some(n) => Acted::Gives(Some(Value::Int(n))),
            None => Acted::Undefined,
        },
        Instr::Areturn => match frame.stack.peek(0) {
            Some(v) => Acted::Gives(Some(v)),
            None => Acted::Undefined,
        },
        Instr::Athrow => match frame.stack.peek(0) {
            Some(Value::Obj { class, .. }) => Acted::Fails(FaultKind::Thrown(class)),
            Some(Value::Null) => Acted::Fails(FaultKind::NullPointer),
            _ => Acted::Undefined,
        },
        _ => unreachable!(),
    }
}

/// Starts, joins or yields: methods of `Thread`.
pub fn of_thread(frame: &mut Frame, program: &Program, instr: Instr) -> Acted
    requires family { is_of_thread instr ≡ true }
    requires place { frame.old.place < 2 ^ 31 }
    ensures acted { result ≡ acted_of (effect program.now instr (plain frame.old)) }
    ensures room { frame.old.stack.room ≤ frame.new.stack.room }
    ensures method { frame.new.method ≡ frame.old.method }
    ensures frame { plain frame.new ≡ after (effect program.now instr (plain frame.old)) (plain frame.old) }
{
    match instr {
        Instr::Start => match frame.stack.peek(0) {
            Some(Value::Obj { id, class }) => {
                let target = ObjRef { id, class };
                Acted::Asks(Op::Start { target }, 1)
            }
            Some(Value::Null) => Acted::Fails(FaultKind::NullPointer),
            _ => Acted::Undefined,
        },
        Instr::Join => match frame.stack.peek(0) {
            Some(Value::Obj { id, .. }) => Acted::Asks(Op::Join { obj: id }, 1),
            Some(Value::Null) => Acted::Fails(FaultKind::NullPointer),
            _ => Acted::Undefined,
        },
        Instr::Yield => Acted::Asks(Op::Yield, 0),
        _ => unreachable!(),
    }
}

/// A constructor of the class library. That of `Thread` with a `Runnable` keeps it in the object's first field.
pub fn construct(frame: &mut Frame, program: &Program, instr: Instr) -> Acted
    requires family { is_constructor instr ≡ true }
    requires place { frame.old.place < 2 ^ 31 }
    ensures acted { result ≡ acted_of (effect program.now instr (plain frame.old)) }
    ensures room { frame.old.stack.room ≤ frame.new.stack.room }
    ensures method { frame.new.method ≡ frame.old.method }
    ensures frame { plain frame.new ≡ after (effect program.now instr (plain frame.old)) (plain frame.old) }
{
    match instr {
        Instr::Init { text: true, .. } => match frame.stack.pair() {
            (Some(Value::Obj { .. }), Some(_)) | (Some(Value::Arr { .. }), Some(_)) => {
                frame.take(2);
                Acted::Goes
            }
            (Some(Value::Null), Some(_)) => Acted::Fails(FaultKind::NullPointer),
            _ => Acted::Undefined,
        },
        Instr::Init { text: false, .. } => match frame.stack.peek(0) {
            Some(Value::Obj { .. }) | Some(Value::Arr { .. }) => {
                frame.take(1);
                Acted::Goes
            }
            Some(Value::Null) => Acted::Fails(FaultKind::NullPointer),
            _ => Acted::Undefined,
        },
        Instr::InitRunnable => match frame.stack.pair() {
            (Some(Value::Obj { id, class }), Some(value)) => {
                let obj = ObjRef { id, class };
                Acted::Asks(
                    Op::PutField {
                        obj,
                        place: 0,
                        value,
                    },
                    2,
                )
            }
            (Some(Value::Null), Some(_)) => Acted::Fails(FaultKind::NullPointer),
            _ => Acted::Undefined,
        },
        _ => unreachable!(),
    }
}

/// Prints a number, a text or nothing: methods of `PrintStream`.
pub fn print(frame: &mut Frame, program: &Program, instr: Instr) -> Acted
    requires family { is_print instr ≡ true }
    requires place { frame.old.place < 2 ^ 31 }
    ensures acted { result ≡ acted_of (effect program.now instr (plain frame.old)) }
    ensures room { frame.old.stack.room ≤ frame.new.stack.room }
    ensures method { frame.new.method ≡ frame.old.method }
    ensures frame { plain frame.new ≡ after (effect program.now instr (plain frame.old)) (plain frame.old) }
{
    match instr {
        Instr::Println => match frame.stack.peek(0) {
            Some(v) => print_on(v, Piece::Nothing, true, 1),
            None => Acted::Undefined,
        },
        Instr::PrintInt { newline } => match (frame.stack.peek(1), frame.stack.peek_int(0)) {
            (Some(v), Some(n)) => print_on(v, Piece::Int(n), newline, 2),
            _ => Acted::Undefined,
        },
        Instr::PrintText { newline } => match frame.stack.pair() {
            (Some(v), Some(Value::Text(text))) => print_on(v, Piece::Text(text), newline, 2),
            (Some(v), Some(Value::Null)) => print_on(v, Piece::Null, newline, 2),
            _ => Acted::Undefined,
        },
        _ => unreachable!(),
    }
}

/// A print of this piece on that stream, which takes so many operands.
fn print_on(stream: Value, piece: Piece, newline: bool, taken: usize) -> Acted
    ensures { result ≡ acted_of (as_stream stream (Asks (Op.Print piece newline) taken)) }
{
    match stream {
        Value::Stream => Acted::Asks(Op::Print { piece, newline }, taken),
        Value::Null => Acted::Fails(FaultKind::NullPointer),
        _ => Acted::Undefined,
    }
}

/// The lock that a synchronized method enters.
pub fn lock_if(is_synchronized: bool, lock: Lock) -> Option<Lock>
    ensures { result ≡ model_lock_if is_synchronized lock }
{
    if is_synchronized { Some(lock) } else { None }
}

/// A call of a static method.
fn call_static(frame: &Frame, program: &Program, method: u32) -> Acted
    ensures { result ≡ acted_of (calls_static method (method_at program.now method) frame.now.stack.values) }
{
    match program.method(method) {
        Some(m) => {
            if m.params.len() <= frame.stack.len() {
                Acted::Calls(method, lock_if(m.is_synchronized, Lock::Class(m.class)))
            } else {
                Acted::Undefined
            }
        }
        None => Acted::Undefined,
    }
}

/// A call of a method on the object below its arguments.
fn call_on(frame: &Frame, program: &Program, method: u32) -> Acted
    ensures { result ≡ acted_of (calls_on method (method_at program.now method) frame.now.stack.values) }
{
    match program.method(method) {
        Some(m) => match frame.stack.peek(m.params.len()) {
            Some(Value::Obj { id, .. }) => {
                Acted::Calls(method, lock_if(m.is_synchronized, Lock::Object(id)))
            }
            Some(Value::Null) => Acted::Fails(FaultKind::NullPointer),
            _ => Acted::Undefined,
        },
        None => Acted::Undefined,
    }
}

/// The number of the `run()V` that an object of this class runs: its own, or that of `Thread`.
pub fn run_method(program: &Program, class: u32) -> u32
    requires { length program.now.methods ≤ MOST_TEXT_BYTES }
    ensures { result ≡ model_run_method program.now class }
{
    let last = program.methods.len().saturating_sub(1) as u32;
    match program.class(class) {
        Some(c) => c.run.unwrap_or(last),
        None => last,
    }
}

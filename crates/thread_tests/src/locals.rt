// Threads by themselves, run against the expected operations. The expected values are those of JVMS SE 8 §6.5.
ghost use Rattle.std.specs.Prelude.{◌≤◌, length, IfOk, OnOk};
ghost use Rattle.std.specs.List.{AllByRecursion};
ghost use Rattle.local_machine.specs.LocalView.{IsReady};
ghost use Rattle.vm_model.specs.Program.{PlainMethod};

use local_machine::Local;
use std::alloc::Global;
use std::test::Fail;
use vm_model::{
    Class, FaultKind, Instr, Kind, Lock, Method, Name, NoMemory, ObjRef, Op, Plain, Program, Reply,
    Value,
};

/// A static method of class 33 with as many int parameters, and this code.
fn method(
    alloc: Global,
    params: &[Kind],
    is_synchronized: bool,
    code: &[Instr],
) -> Result<Method, NoMemory>
    requires { length code.now ≤ 64 }
    ensures { IfOk result (λ m. length m.code ≤ 64) }
{
    Ok(Method {
        class: 33,
        name: Name::of(alloc, b"m")?,
        params: Vec::from_slice(alloc, params)?,
        gives: Some(Kind::Int),
        is_static: true,
        is_synchronized,
        max_stack: None,
        max_locals: None,
        code: Vec::from_slice(alloc, code)?,
    })
}

/// A main and one more method.
fn methods_of(alloc: Global, main: Method, callee: Method) -> Result<Vec<Method>, NoMemory>
    requires main { length main.code ≤ 64 }
    requires callee { length callee.code ≤ 64 }
    ensures { IfOk result (λ v. (length v.items ≤ 64) × AllByRecursion (λ (m : PlainMethod). length m.code ≤ 64) v.items) }
{
    let mut methods = Vec::new(alloc);
    methods.push(main)?;
    methods.push(callee)?;
    Ok(methods)
}

/// The one class of the program, a class of threads whose run is the main.
fn one_class(alloc: Global) -> Result<Vec<Class>, NoMemory> {
    let class = Class {
        name: Name::of(alloc, b"C")?,
        is_thread: true,
        is_runnable: false,
        fields: Vec::new(alloc),
        run: Some(0),
    };
    let mut classes = Vec::new(alloc);
    classes.push(class)?;
    Ok(classes)
}

/// A program of a main of this code and one more method, which is the last.
fn program(
    alloc: Global,
    is_synchronized: bool,
    main: &[Instr],
    callee: Method,
) -> Result<Plain, NoMemory>
    requires main { length main.now ≤ 64 }
    requires callee { length callee.code ≤ 64 }
{
    let main = method(alloc, &[Kind::Args], is_synchronized, main)?;
    let methods = methods_of(alloc, main, callee)?;
    let classes = one_class(alloc)?;
    Ok(Plain::of(Program {
        classes,
        methods,
        statics: Vec::new(alloc),
        texts: Vec::new(alloc),
        main: 0,
    }))
}

/// A program of a main of this code alone, but for an empty method.
pub fn main_alone(alloc: Global, main: &[Instr]) -> Result<Plain, NoMemory>
    requires { length main.now ≤ 64 }
{
    let callee = method(alloc, &[], false, &[Instr::Return])?;
    program(alloc, false, main, callee)
}

/// The main thread at its first operation.
fn begun(alloc: Global, plain: &Plain) -> Result<Local, NoMemory>
    ensures { IfOk result (λ l. IsReady plain.now l) }
{
    let mut local = Local::first(alloc, plain)?;
    local.advance(alloc, plain)?;
    Ok(local)
}

/// The next operation after this reply.
fn next(
    alloc: Global,
    plain: &Plain,
    local: &mut Local,
    reply: Reply,
) -> Result<Option<Op>, NoMemory>
    requires { IsReady plain.now local.old }
    ensures { OnOk result (IsReady plain.now local.new) }
{
    local.absorb(plain, reply);
    local.advance(alloc, plain)?;
    Ok(local.operation())
}

/// Whether the thread asks for these operations after these replies, one after another.
fn follows(
    alloc: Global,
    plain: &Plain,
    local: &mut Local,
    script: &[(Reply, Option<Op>)],
) -> Result<bool, NoMemory>
    requires { IsReady plain.now local.old }
{
    for (reply, wanted) in script {
        if next(alloc, plain, local, *reply)? != *wanted {
            return Ok(false);
        }
    }
    Ok(true)
}

/// What the thread puts into statics one after another, until it asks for something else or for nothing.
fn puts(alloc: Global, plain: &Plain, local: &mut Local) -> Result<Vec<Value>, NoMemory>
    requires { IsReady plain.now local.old }
{
    let mut values = Vec::new(alloc);
    for _i in 0..16 {
        let Some(Op::PutStatic { value, .. }) = local.operation() else {
            return Ok(values);
        };
        values.push(value)?;
        next(alloc, plain, local, Reply::Unit)?;
    }
    Ok(values)
}

/// What the main thread of this code puts into statics.
pub fn put(alloc: Global, main: &[Instr]) -> Result<Vec<Value>, NoMemory>
    requires { length main.now ≤ 64 }
{
    let plain = main_alone(alloc, main)?;
    let mut local = begun(alloc, &plain)?;
    puts(alloc, &plain, &mut local)
}

/// Whether the main thread of this code asks for this operation first.
pub fn asks(alloc: Global, main: &[Instr], wanted: Option<Op>) -> Result<bool, NoMemory>
    requires { length main.now ≤ 64 }
{
    let plain = main_alone(alloc, main)?;
    let local = begun(alloc, &plain)?;
    Ok(local.operation() == wanted)
}

pub const LEAST: i32 = -2147483648;

/// Whether the main thread of this program asks for this first, and then goes on by this script.
pub fn plays(
    alloc: Global,
    plain: &Plain,
    first: Op,
    script: &[(Reply, Option<Op>)],
) -> Result<bool, NoMemory> {
    let mut local = begun(alloc, plain)?;
    if local.operation() != Some(first) {
        return Ok(false);
    }
    follows(alloc, plain, &mut local, script)
}

/// A main by itself, and what its thread asks for first and then after each reply.
pub struct Alone {
    pub main: &'static [Instr],
    pub first: Op,
    pub script: &'static [(Reply, Option<Op>)],
}

fn plays_alone(alloc: Global, row: &Alone) -> Result<bool, NoMemory> {
    if row.main.len() > 64 {
        return Ok(false);
    }
    let plain = main_alone(alloc, row.main)?;
    plays(alloc, &plain, row.first, row.script)
}

/// The first row that goes otherwise.
pub fn wrong_alone(alloc: Global, rows: &[Alone]) -> Result<Option<usize>, NoMemory> {
    for (at, row) in rows.iter().enumerate() {
        if !plays_alone(alloc, row)? {
            return Ok(Some(at));
        }
    }
    Ok(None)
}

/// A main, the method that it calls, and what the thread asks for first and then after each reply.
pub struct Calling {
    pub is_main_synchronized: bool,
    pub main: &'static [Instr],
    pub params: &'static [Kind],
    pub is_static: bool,
    pub is_synchronized: bool,
    pub code: &'static [Instr],
    pub first: Op,
    pub script: &'static [(Reply, Option<Op>)],
}

/// The program of a row; nothing where its code is too long for one.
fn program_of(alloc: Global, row: &Calling) -> Result<Option<Plain>, NoMemory> {
    if row.main.len() > 64 || row.code.len() > 64 {
        return Ok(None);
    }
    let mut callee = method(alloc, row.params, row.is_synchronized, row.code)?;
    callee.is_static = row.is_static;
    let plain = program(alloc, row.is_main_synchronized, row.main, callee)?;
    Ok(Some(plain))
}

fn plays_calling(alloc: Global, row: &Calling) -> Result<bool, NoMemory> {
    match program_of(alloc, row)? {
        Some(plain) => plays(alloc, &plain, row.first, row.script),
        None => Ok(false),
    }
}

/// The first row that goes otherwise.
pub fn wrong_calling(alloc: Global, rows: &[Calling]) -> Result<Option<usize>, NoMemory> {
    for (at, row) in rows.iter().enumerate() {
        if !plays_calling(alloc, row)? {
            return Ok(Some(at));
        }
    }
    Ok(None)
}

const SUBTRACT: [Instr; 4] = [
    Instr::Iload(0),
    Instr::Iload(1),
    Instr::Isub,
    Instr::Ireturn,
];

const CALL_SUBTRACT: [Instr; 5] = [
    Instr::Push(7),
    Instr::Push(5),
    Instr::InvokeStatic(1),
    Instr::PutStatic(0),
    Instr::Return,
];

pub const PUT_TWO: Op = Op::PutStatic {
    slot: 0,
    value: Value::Int(2),
};

const PUT_NULL: Op = Op::PutStatic {
    slot: 0,
    value: Value::Null,
};

const END: [(Reply, Option<Op>); 2] = [(Reply::Unit, Some(Op::ThreadEnd)), (Reply::Unit, None)];

const OVERFLOW: Op = Op::Fault {
    kind: FaultKind::StackOverflow,
    method: 1,
    at: 0,
};

const GIVE_BACK: [Instr; 4] = [
    Instr::PushText(3),
    Instr::InvokeStatic(1),
    Instr::PutStatic(0),
    Instr::Return,
];

const PUT_TEXT: Op = Op::PutStatic {
    slot: 0,
    value: Value::Text(3),
};

const CALLS: [Calling; 3] = [
    Calling {
        is_main_synchronized: false,
        main: &CALL_SUBTRACT,
        params: &[Kind::Int, Kind::Int],
        is_static: true,
        is_synchronized: false,
        code: &SUBTRACT,
        first: PUT_TWO,
        script: &END,
    },
    Calling {
        is_main_synchronized: false,
        main: &[Instr::InvokeStatic(1)],
        params: &[],
        is_static: true,
        is_synchronized: false,
        code: &[Instr::Aload(2), Instr::PutStatic(0)],
        first: PUT_NULL,
        script: &[],
    },
    Calling {
        is_main_synchronized: false,
        main: &GIVE_BACK,
        params: &[Kind::Null],
        is_static: true,
        is_synchronized: false,
        code: &[Instr::Aload(0), Instr::Areturn],
        first: PUT_TEXT,
        script: &END,
    },
];

#[test]
fn calls(rt: HostRuntime) -> Result<(), Fail> {
    assert_eq!(rt; wrong_calling(rt.alloc(), &CALLS)?, None);
    Ok(())
}

/// Whether a method that calls itself without end stops at the greatest number of calls.
fn is_deep(alloc: Global) -> Result<bool, NoMemory> {
    let callee = method(alloc, &[], false, &[Instr::InvokeStatic(1)])?;
    let plain = program(alloc, false, &[Instr::InvokeStatic(1)], callee)?;
    let local = begun(alloc, &plain)?;
    let is_fault = local.operation() == Some(OVERFLOW);
    Ok(is_fault && local.steps() == 255 && local.is_ready() && !local.is_ended())
}

#[test]
fn deep_calls(rt: HostRuntime) -> Result<(), Fail> {
    assert!(rt; is_deep(rt.alloc())?);
    Ok(())
}

// Before the loop there are 4 instructions, and in it 3 times 1,364.
const EXACT: [Instr; 8] = [
    Instr::Nop,
    Instr::Nop,
    Instr::Push(1364),
    Instr::Istore(0),
    Instr::Iinc { local: 0, by: -1 },
    Instr::Iload(0),
    Instr::Ifne(4),
    Instr::GetStatic(0),
];

const ONE_MORE: [Instr; 9] = [
    Instr::Nop,
    Instr::Nop,
    Instr::Push(1364),
    Instr::Istore(0),
    Instr::Iinc { local: 0, by: -1 },
    Instr::Iload(0),
    Instr::Ifne(4),
    Instr::Nop,
    Instr::GetStatic(0),
];

pub const GET: Op = Op::GetStatic { slot: 0 };

const TICKS: [Alone; 3] = [
    Alone {
        main: &[Instr::Goto(0)],
        first: Op::Tick,
        script: &[(Reply::Unit, Some(Op::Tick))],
    },
    Alone {
        main: &EXACT,
        first: GET,
        script: &[],
    },
    Alone {
        main: &ONE_MORE,
        first: Op::Tick,
        script: &[(Reply::Unit, Some(GET))],
    },
];

#[test]
fn ticks(rt: HostRuntime) -> Result<(), Fail> {
    assert_eq!(rt; wrong_alone(rt.alloc(), &TICKS)?, None);
    Ok(())
}

const LOCK: Lock = Lock::Class(33);

const CALL_IDENTITY: [Instr; 4] = [
    Instr::Push(2),
    Instr::InvokeStatic(1),
    Instr::PutStatic(0),
    Instr::Return,
];

const SYNCHRONIZED: [(Reply, Option<Op>); 6] = [
    (Reply::Unit, Some(Op::Enter { lock: LOCK })),
    (Reply::Unit, Some(Op::Exit { lock: LOCK })),
    (Reply::Unit, Some(PUT_TWO)),
    (Reply::Unit, Some(Op::Exit { lock: LOCK })),
    (Reply::Unit, Some(Op::ThreadEnd)),
    (Reply::Unit, None),
];

const IDENTITY: [Instr; 2] = [Instr::Iload(0), Instr::Ireturn];

// Both methods are synchronized, and then the called one alone.
const BOTH_SYNCHRONIZED: Calling = Calling {
    is_main_synchronized: true,
    main: &CALL_IDENTITY,
    params: &[Kind::Int],
    is_static: true,
    is_synchronized: true,
    code: &IDENTITY,
    first: Op::Enter { lock: LOCK },
    script: &SYNCHRONIZED,
};

const CALLEE_SYNCHRONIZED: Calling = Calling {
    is_main_synchronized: false,
    main: &CALL_IDENTITY,
    params: &[Kind::Int],
    is_static: true,
    is_synchronized: true,
    code: &IDENTITY,
    first: Op::Enter { lock: LOCK },
    script: &[],
};

/// Whether the thread enters the called method after its own.
fn enters_both(alloc: Global) -> Result<bool, NoMemory> {
    let Some(plain) = program_of(alloc, &BOTH_SYNCHRONIZED)? else {
        return Ok(false);
    };
    let mut local = begun(alloc, &plain)?;
    follows(alloc, &plain, &mut local, &SYNCHRONIZED[..1])
}

#[test]
fn synchronized_methods(rt: HostRuntime) -> Result<(), Fail> {
    let alloc = rt.alloc();
    assert!(rt; plays_calling(alloc, &BOTH_SYNCHRONIZED)?);
    assert!(rt; enters_both(alloc)?);
    Ok(())
}

/// Whether a copy goes on by itself, as this thread would.
fn copy_goes_on(alloc: Global, plain: &Plain, local: &Local) -> Result<bool, NoMemory>
    requires { IsReady plain.now local.now }
{
    let mut copy = local.copy(alloc)?;
    follows(alloc, plain, &mut copy, &SYNCHRONIZED[1..3])
}

/// Whether the copy goes on, and the thread stays where it was.
fn stays_behind(alloc: Global) -> Result<bool, NoMemory> {
    let Some(plain) = program_of(alloc, &CALLEE_SYNCHRONIZED)? else {
        return Ok(false);
    };
    let local = begun(alloc, &plain)?;
    let goes_on = copy_goes_on(alloc, &plain, &local)?;
    Ok(goes_on && local.operation() == Some(Op::Enter { lock: LOCK }))
}

#[test]
fn copies(rt: HostRuntime) -> Result<(), Fail> {
    assert!(rt; stays_behind(rt.alloc())?);
    Ok(())
}

const PUT_OWN: Op = Op::PutStatic {
    slot: 0,
    value: Value::Obj { id: 3, class: 32 },
};

const THROWN: Op = Op::Fault {
    kind: FaultKind::Thrown(1),
    method: 1,
    at: 1,
};

// Class 32 has its own run, which is method 0. Class 1 has none, and takes the last method.
const THROWS: Calling = Calling {
    is_main_synchronized: false,
    main: &[Instr::Aload(0), Instr::PutStatic(0)],
    params: &[],
    is_static: true,
    is_synchronized: false,
    code: &[Instr::Aload(0), Instr::Athrow],
    first: PUT_OWN,
    script: &[],
};

fn begins_own_run(alloc: Global, plain: &Plain) -> Result<bool, NoMemory> {
    let mut own = Local::of_thread(alloc, plain, ObjRef { id: 3, class: 32 })?;
    let is_begun = own.is_ready();
    own.advance(alloc, plain)?;
    Ok(!is_begun && own.operation() == Some(PUT_OWN))
}

fn begins_last_method(alloc: Global, plain: &Plain) -> Result<bool, NoMemory> {
    let mut other = Local::of_thread(alloc, plain, ObjRef { id: 3, class: 1 })?;
    other.advance(alloc, plain)?;
    Ok(other.operation().is_some() && other.pending() == THROWN)
}

fn are_threads_started(alloc: Global) -> Result<bool, NoMemory> {
    let Some(plain) = program_of(alloc, &THROWS)? else {
        return Ok(false);
    };
    Ok(begins_own_run(alloc, &plain)? && begins_last_method(alloc, &plain)?)
}

#[test]
fn started_threads(rt: HostRuntime) -> Result<(), Fail> {
    assert!(rt; are_threads_started(rt.alloc())?);
    Ok(())
}

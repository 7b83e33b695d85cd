// A program of two threads that each add 1 to a static with no lock, and are joined; then an `Error` is thrown where the static
// isn't 2. With a switch before event 5 an addition is lost.
ghost use Rattle.std.specs.Prelude.{◌≡◌, ◌≤◌, None, IsTrue, IfOk, length};
ghost use Rattle.vm_model.specs.declared.limits.TheConstants.{MOST_EVENTS};
ghost use Rattle.machine_model.specs.Machine.{end_of, start_machine};

use event_machine::Machine;
use schedule_model::Schedule;
use std::alloc::Global;
use vm_model::{
    Class, Fault, FaultKind, Instr, Kind, Method, Name, NoMemory, Plain, Program, StaticSlot, Value,
};

/// The class W, of threads, with one static `n`.
const W: u32 = 32;

/// Two threads run, and where `n` isn't 2 after them an `Error` is thrown.
const MAIN: [Instr; 24] = [
    Instr::New(W),
    Instr::Dup,
    Instr::InvokeSpecial(1),
    Instr::Astore(1),
    Instr::New(W),
    Instr::Dup,
    Instr::InvokeSpecial(1),
    Instr::Astore(2),
    Instr::Aload(1),
    Instr::Start,
    Instr::Aload(2),
    Instr::Start,
    Instr::Aload(1),
    Instr::Join,
    Instr::Aload(2),
    Instr::Join,
    Instr::GetStatic(0),
    Instr::Push(2),
    Instr::IfIcmpeq(23),
    Instr::New(8),
    Instr::Dup,
    Instr::Init {
        class: 8,
        text: false,
    },
    Instr::Athrow,
    Instr::Return,
];

/// The constructor of W.
const INIT: [Instr; 3] = [
    Instr::Aload(0),
    Instr::Init {
        class: 1,
        text: false,
    },
    Instr::Return,
];

/// The `run()V` of W: `n` grows by one, in two events.
const RUN: [Instr; 5] = [
    Instr::GetStatic(0),
    Instr::Push(1),
    Instr::Iadd,
    Instr::PutStatic(0),
    Instr::Return,
];

/// The fault of a run that lost an addition.
pub const LOST: Fault = Fault {
    kind: FaultKind::Thrown(8),
    thread: 0,
    method: 0,
    at: 22,
};

fn method_of(
    alloc: Global,
    name: &[u8],
    params: &[Kind],
    is_static: bool,
    code: &[Instr],
) -> Result<Method, NoMemory>
    requires { length code.now ≤ 64 }
    ensures { IfOk result (λ m. length m.code ≤ 64) }
{
    Ok(Method {
        class: W,
        name: Name::of(alloc, name)?,
        params: Vec::from_slice(alloc, params)?,
        gives: None,
        is_static,
        is_synchronized: false,
        max_stack: None,
        max_locals: None,
        code: Vec::from_slice(alloc, code)?,
    })
}

fn static_of(alloc: Global) -> Result<StaticSlot, NoMemory> {
    Ok(StaticSlot {
        class: W,
        name: Name::of(alloc, b"n")?,
        kind: Kind::Int,
        start: Value::Int(0),
    })
}

/// The class W with a `main` of this code.
pub fn program(alloc: Global, code: &[Instr]) -> Result<Plain, NoMemory>
    requires { length code.now ≤ 64 }
{
    let mut methods = Vec::new(alloc);
    methods.push(method_of(alloc, b"main", &[Kind::Args], true, code)?)?;
    methods.push(method_of(alloc, b"<init>", &[], false, &INIT)?)?;
    methods.push(method_of(alloc, b"run", &[], false, &RUN)?)?;
    let mut classes = Vec::new(alloc);
    classes.push(Class {
        name: Name::of(alloc, b"W")?,
        is_thread: true,
        is_runnable: false,
        fields: Vec::new(alloc),
        run: Some(2),
    })?;
    let mut statics = Vec::new(alloc);
    statics.push(static_of(alloc)?)?;
    Ok(Plain::of(Program {
        classes,
        methods,
        statics,
        texts: Vec::new(alloc),
        main: 0,
    }))
}

/// The program of the two threads.
pub fn two_writers(alloc: Global) -> Result<Plain, NoMemory> {
    program(alloc, &MAIN)
}

/// The schedule of these times.
pub fn schedule(alloc: Global, times: &[u32]) -> Result<Schedule, NoMemory>
    ensures { IfOk result (λ s. s ≡ times.now) }
{
    Ok(Schedule {
        times: Vec::from_slice(alloc, times)?,
    })
}

/// The program makes an event under this budget.
pub fn begins(alloc: Global, plain: &Plain, events: u64) -> Result<bool, NoMemory>
    requires some { 1 ≤ events }
    requires limit { events ≤ MOST_EVENTS }
    ensures { IfOk result (λ b. IsTrue b → end_of plain.now (start_machine plain.now) events ≡ None) }
{
    let machine = Machine::new(alloc, plain, events)?;
    Ok(machine.end().is_none())
}

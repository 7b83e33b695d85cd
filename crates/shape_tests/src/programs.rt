// Programs of one class, verified. The expected answers are those of JVMS SE 8 §4.10.2.2.
ghost use Rattle.std.specs.Prelude.{◌≤◌, length, IfOk};
ghost use Rattle.std.specs.List.{AllByRecursion};
ghost use Rattle.vm_model.specs.Plain.{IsWithinBounds};
ghost use Rattle.vm_model.specs.Program.{PlainMethod};

use shape_verifier::{Room, ShapeFault, ShapeKind, verify};
use std::alloc::Global;
use std::test::Fail;
use vm_model::{Class, Instr, Kind, Method, Name, NoMemory, Program};

/// A static method with these parameters and this code.
fn method(alloc: Global, params: &[Kind], code: &[Instr]) -> Result<Method, NoMemory>
    requires { length code.now ≤ 64 }
    ensures { IfOk result (λ m. length m.code ≤ 64) }
{
    Ok(Method {
        class: 32,
        name: Name::of(alloc, b"m")?,
        params: Vec::from_slice(alloc, params)?,
        gives: None,
        is_static: true,
        is_synchronized: false,
        max_stack: Some(4),
        max_locals: Some(3),
        code: Vec::from_slice(alloc, code)?,
    })
}

/// A main that returns, and one more method.
fn methods_with(alloc: Global, other: Method) -> Result<Vec<Method>, NoMemory>
    requires { length other.code ≤ 64 }
    ensures { IfOk result (λ v. (length v.items ≤ 64) × AllByRecursion (λ (m : PlainMethod). length m.code ≤ 64) v.items) }
{
    let main = method(alloc, &[Kind::Args], &[Instr::Return])?;
    let mut methods = Vec::new(alloc);
    methods.push(main)?;
    methods.push(other)?;
    Ok(methods)
}

/// The one class of the program, a class of threads.
fn one_class(alloc: Global) -> Result<Vec<Class>, NoMemory> {
    let class = Class {
        name: Name::of(alloc, b"C")?,
        is_thread: true,
        is_runnable: false,
        fields: Vec::new(alloc),
        run: None,
    };
    let mut classes = Vec::new(alloc);
    classes.push(class)?;
    Ok(classes)
}

/// A program of a main that returns, and of one more method.
fn program(alloc: Global, other: Method) -> Result<Program, NoMemory>
    requires { length other.code ≤ 64 }
    ensures { IfOk result (λ p. IsWithinBounds p) }
{
    let methods = methods_with(alloc, other)?;
    let classes = one_class(alloc)?;
    Ok(Program {
        classes,
        methods,
        statics: Vec::new(alloc),
        texts: Vec::new(alloc),
        main: 0,
    })
}

/// What the verification of a method with an int, a reference to the program's class and this code answers.
fn answer(alloc: Global, code: &[Instr]) -> Result<Option<ShapeFault>, NoMemory> {
    if code.len() > 64 {
        return Err(NoMemory);
    }
    let other = method(alloc, &[Kind::Int, Kind::Ref(32)], code)?;
    match verify(alloc, program(alloc, other)?) {
        Ok(_) => Ok(None),
        Err(fault) => Ok(Some(fault)),
    }
}

// a loop whose local is an object of the class first, and then an array: after the merge it is an Object
const LOOP: [Instr; 11] = [
    Instr::Aload(1),
    Instr::Astore(2),
    Instr::Iload(0),
    Instr::Ifeq(10),
    Instr::Aload(2),
    Instr::MonitorEnter,
    Instr::Push(5),
    Instr::NewArray,
    Instr::Astore(2),
    Instr::Goto(2),
    Instr::Return,
];

// an object and an array that meet on the stack, used as the array that one of them was
const MEETING: [Instr; 9] = [
    Instr::Iload(0),
    Instr::Ifeq(5),
    Instr::Push(1),
    Instr::NewArray,
    Instr::Goto(6),
    Instr::Aload(1),
    Instr::ArrayLength,
    Instr::Pop,
    Instr::Return,
];

// an int and a reference meet on the stack
const INT_AND_REFERENCE: [Instr; 7] = [
    Instr::Iload(0),
    Instr::Ifeq(4),
    Instr::Push(1),
    Instr::Goto(5),
    Instr::PushNull,
    Instr::Pop,
    Instr::Return,
];

// The code of the method that isn't main, and the kind and place of its fault; nothing where it is verified.
const JUDGED: [(&[Instr], Option<(ShapeKind, u32)>); 9] = [
    (&LOOP, None),
    (&MEETING, Some((ShapeKind::Kind, 6))),
    (&[Instr::Pop, Instr::Return], Some((ShapeKind::Depth, 0))),
    (&[Instr::Push(1)], Some((ShapeKind::FallsOff, 0))),
    (&[], Some((ShapeKind::FallsOff, 0))),
    (
        &[Instr::Iload(2), Instr::Return],
        Some((ShapeKind::Unset, 0)),
    ),
    (
        &[Instr::Aload(0), Instr::Return],
        Some((ShapeKind::Kind, 0)),
    ),
    // each turn of the loop would make the stack deeper
    (
        &[Instr::Push(1), Instr::Goto(0)],
        Some((ShapeKind::Depth, 0)),
    ),
    (&INT_AND_REFERENCE, Some((ShapeKind::Kind, 5))),
];

/// Whether this is what the verification answers.
fn is_answer(
    alloc: Global,
    code: &[Instr],
    wanted: Option<(ShapeKind, u32)>,
) -> Result<bool, NoMemory> {
    let found = answer(alloc, code)?;
    match wanted {
        Some((kind, at)) => {
            let fault = ShapeFault::At {
                kind,
                method: 1,
                at,
            };
            Ok(found == Some(fault))
        }
        None => Ok(found == None),
    }
}

/// The first row that is judged otherwise.
fn wrong_in_judged(alloc: Global) -> Result<Option<usize>, NoMemory> {
    for (at, (code, wanted)) in JUDGED.iter().enumerate() {
        if !is_answer(alloc, code, *wanted)? {
            return Ok(Some(at));
        }
    }
    Ok(None)
}

#[test]
fn judged(rt: HostRuntime) -> Result<(), Fail> {
    assert_eq!(rt; wrong_in_judged(rt.alloc())?, None);
    Ok(())
}

/// What a frame of the method that isn't main needs at most, if the program is verified.
fn room_of(alloc: Global, other: Method) -> Result<Option<Room>, NoMemory>
    requires { length other.code ≤ 64 }
{
    let Ok(shaped) = verify(alloc, program(alloc, other)?) else {
        return Ok(None);
    };
    match shaped.program().method(1) {
        Some(_) => Ok(Some(shaped.room(1))),
        None => Ok(None),
    }
}

/// A frame's room where the method has these limits.
fn room_with(
    alloc: Global,
    max_stack: Option<u32>,
    max_locals: Option<u32>,
) -> Result<Option<Room>, NoMemory> {
    let mut other = method(alloc, &[Kind::Int], &[Instr::Return])?;
    other.max_stack = max_stack;
    other.max_locals = max_locals;
    room_of(alloc, other)
}

#[test]
fn rooms(rt: HostRuntime) -> Result<(), Fail> {
    let alloc = rt.alloc();
    let bounded = Room {
        stack: 4,
        locals: 3,
    };
    assert_eq!(rt; room_with(alloc, Some(4), Some(3))?, Some(bounded));
    let unbounded = Room {
        stack: 1024,
        locals: 256,
    };
    assert_eq!(rt; room_with(alloc, None, None)?, Some(unbounded));
    Ok(())
}

// Programs of one method.
ghost use Rattle.std.specs.Prelude.{◌≤◌, length, IfOk};
ghost use Rattle.std.specs.List.{AllByRecursion};
ghost use Rattle.vm_model.specs.Program.{PlainMethod};

use std::alloc::Global;
use vm_model::{Class, Instr, Kind, Method, Name, NoMemory, Plain, Program};

/// Prints 7 and a line feed.
pub const SEVEN: [Instr; 4] = [
    Instr::Out,
    Instr::Push(7),
    Instr::PrintInt { newline: true },
    Instr::Return,
];

/// The method `main` of this code.
fn main_of(alloc: Global, code: &[Instr]) -> Result<Method, NoMemory>
    requires { length code.now ≤ 64 }
    ensures { IfOk result (λ m. length m.code ≤ 64) }
{
    Ok(Method {
        class: 32,
        name: Name::of(alloc, b"main")?,
        params: Vec::from_slice(alloc, &[Kind::Args])?,
        gives: None,
        is_static: true,
        is_synchronized: false,
        max_stack: None,
        max_locals: None,
        code: Vec::from_slice(alloc, code)?,
    })
}

/// This method alone.
fn one_method(alloc: Global, main: Method) -> Result<Vec<Method>, NoMemory>
    requires { length main.code ≤ 64 }
    ensures { IfOk result (λ v. (length v.items ≤ 64) × AllByRecursion (λ (m : PlainMethod). length m.code ≤ 64) v.items) }
{
    let mut methods = Vec::new(alloc);
    methods.push(main)?;
    Ok(methods)
}

fn one_class(alloc: Global) -> Result<Vec<Class>, NoMemory> {
    let class = Class {
        name: Name::of(alloc, b"C")?,
        is_thread: false,
        is_runnable: false,
        fields: Vec::new(alloc),
        run: None,
    };
    let mut classes = Vec::new(alloc);
    classes.push(class)?;
    Ok(classes)
}

/// A program of this code.
pub fn program(alloc: Global, code: &[Instr]) -> Result<Plain, NoMemory>
    requires { length code.now ≤ 64 }
{
    let methods = one_method(alloc, main_of(alloc, code)?)?;
    let classes = one_class(alloc)?;
    Ok(Plain::of(Program {
        classes,
        methods,
        statics: Vec::new(alloc),
        texts: Vec::new(alloc),
        main: 0,
    }))
}

//! Verification of a whole program.

ghost use Rattle.std.specs.Prelude.{◌≡◌, IfOk, IfErr, Some, length, true, is_some};
ghost use Rattle.vm_model.specs.Plain.{IsWithinBounds};
ghost use Rattle.vm_model.specs.Program.{method_at};
ghost use Rattle.machine_model.specs.Shapes.{IsVerified};
ghost use Rattle.shape_verifier.specs.Verdicts.{IsLimitOf, IsRoomFor, Refuses, VerifiedSo, fault_at};

use crate::fault::{Refusal, ShapeFault};
use crate::flow::stack_limit;
use crate::passing::{locals_of, pass};
use std::alloc::Global;
use std::marker::Model;
use vm_model::{Failure, Plain, Program};

/// A program each of whose methods has a closed table of shapes. No step of it meets a missing operand, an operand of another
/// kind, an unset local or a jump out of the code (JVMS SE 8 §4.10).
#[derive(Debug, Drop)]
pub struct Shaped {
    plain: Plain,
}

impl Model for Shaped {
    ghost use Rattle.vm_model.specs.Program.{PlainProgram};
    ghost use Rattle.machine_model.specs.Shapes.{IsVerified};

    ghost Value = { PlainProgram };

    ghost view = { λ s. s.plain };

    ghost invariant = { λ s. IsVerified s.plain };
}

/// How many operands and how many locals a frame of a method needs at most, in words.
#[derive(Clone, Copy, Debug, PartialEq, Eq)]
pub struct Room {
    pub stack: u32,
    pub locals: u32,
}

impl Shaped {
    /// The program itself. It takes no memory.
    pub fn program(&self) -> &Program
        ensures value { result.now ≡ self.now }
        ensures within_bounds { IsWithinBounds self.now }
        ensures verified { IsVerified self.now }
    {
        self.plain.program()
    }

    /// The program, as the machine takes it. It takes no memory.
    pub fn plain(&self) -> &Plain
        ensures value { result.now ≡ self.now }
        ensures verified { IsVerified self.now }
    {
        &self.plain
    }

    /// What a frame of this method needs at most: no shape is deeper or has more locals. It takes no memory.
    pub fn room(&self, method: u32) -> Room
        requires { is_some (method_at self.now method) ≡ true }
        ensures limits { IsLimitOf (method_at self.now method) result }
        ensures room { IsRoomFor self.now method result }
    {
        match self.plain.program().method(method) {
            Some(found) => Room {
                stack: stack_limit(found),
                locals: locals_of(found),
            },
            None => unreachable!(),
        }
    }
}

/// What the end of a pass over the method of this number says of the program.
fn fault_of(error: Failure<Refusal>, number: u32) -> ShapeFault
    ensures { result ≡ fault_at error number }
{
    match error {
        Failure::Memory => ShapeFault::NoMemory,
        Failure::Fault(refusal) => ShapeFault::At {
            kind: refusal.kind,
            method: number,
            at: refusal.at,
        },
    }
}

/// The method of this number, if it is there.
fn verify_method(alloc: Global, program: &Program, number: u32) -> Result<(), ShapeFault>
    requires within_bounds { IsWithinBounds program.now }
    ensures { VerifiedSo result program.now number }
{
    match program.method(number) {
        Some(method) => match pass(alloc, program, number, method) {
            Ok(()) => Ok(()),
            Err(error) => Err(fault_of(error, number)),
        },
        None => Ok(()),
    }
}

fn count_of(program: &Program) -> u32
    requires within_bounds { IsWithinBounds program.now }
    ensures { result ≡ length program.now.methods }
{
    program.methods.len() as u32
}

/// Each method in the order of its number.
fn verify_methods(alloc: Global, program: &Program) -> Result<(), ShapeFault>
    requires within_bounds { IsWithinBounds program.now }
    ensures tables { IfOk result (λ _. IsVerified program.now) }
    ensures refused { IfErr result (Refuses program.now) }
{
    for number in 0..count_of(program) {
        verify_method(alloc, program, number)?;
    }
    Ok(())
}

/// Verifies a linked program. The methods are taken in order of number; of a method the least instruction whose shape is new
/// is looked at, until none is new.
pub fn verify(alloc: Global, program: Program) -> Result<Shaped, ShapeFault>
    requires within_bounds { IsWithinBounds program }
    ensures same { IfOk result (λ s. s ≡ program) }
    ensures verified { IfOk result IsVerified }
    ensures refused { IfErr result (Refuses program) }
{
    let plain = Plain::of(program);
    match verify_methods(alloc, plain.program()) {
        Ok(()) => Ok(Shaped { plain }),
        Err(fault) => Err(fault),
    }
}

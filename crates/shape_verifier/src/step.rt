//! The forms of what instructions do to a shape. A shape that an instruction refuses is unknown after it.

ghost use Rattle.std.specs.Prelude.{◌≡◌, ◌∷◌, ◌++◌, [], IfOk, Some, None, not, reverse, slice_get};
ghost use Rattle.vm_model.specs.declared.value.Kind.TheVariants as kind;
ghost use Rattle.vm_model.specs.Program.{method_at};
ghost use Rattle.machine_model.specs.Declarations.{declarations_of};
ghost use Rattle.machine_model.specs.Kinds.{field_kinds, static_kind};
ghost use Rattle.machine_model.specs.Shapes.{Next, Jump, Branch, Leaves, on_int, on_ints, on_kind, on_such, on_set, on_place, on_assignable, on_all, on_declared, where_true, with_stack, with_local, is_int, is_reference, is_array};
ghost use Rattle.shape_verifier.specs.Answers.{flow_of, kinds_taken};

use built_in_classes::{PRINT_STREAM, THROWABLE};
use shape_lattice::{Shape, is_assignable};
use vm_model::{Kind, NoMemory, Program};

/// Where control goes on from an instruction, if it isn't refused.
#[derive(Clone, Copy, Debug, PartialEq, Eq)]
pub enum Step {
    Next,
    Jump(u32),
    /// To the next instruction or to that one.
    Branch(u32),
    /// Out of the method.
    Leaves,
    /// An operand is missing or of another kind, or a local isn't set.
    Refused,
}

// ---- constants and locals

/// An operand of this kind more.
pub fn push(shape: &mut Shape, kind: Kind) -> Result<Step, NoMemory>
    ensures { IfOk result (λ step. flow_of step shape.new ≡ Next (with_stack shape.old (kind ∷ shape.old.stack))) }
{
    shape.push(kind)?;
    Ok(Step::Next)
}

/// The int of a local is pushed.
pub fn load_int(shape: &mut Shape, local: u32) -> Result<Step, NoMemory>
    ensures { IfOk result (λ step. flow_of step shape.new ≡ on_set (slice_get shape.old.locals local) (λ k. where_true (is_int k) (Next (with_stack shape.old (kind.Int ∷ shape.old.stack))))) }
{
    match shape.local(local) {
        Some(Kind::Int) => {
            shape.push(Kind::Int)?;
            Ok(Step::Next)
        }
        _ => Ok(Step::Refused),
    }
}

/// The reference of a local is pushed.
pub fn load_reference(shape: &mut Shape, local: u32) -> Result<Step, NoMemory>
    ensures { IfOk result (λ step. flow_of step shape.new ≡ on_set (slice_get shape.old.locals local) (λ k. where_true (not (is_int k)) (Next (with_stack shape.old (k ∷ shape.old.stack))))) }
{
    match shape.local(local) {
        Some(Kind::Int) => Ok(Step::Refused),
        Some(kind) => {
            shape.push(kind)?;
            Ok(Step::Next)
        }
        None => Ok(Step::Refused),
    }
}

/// Puts a value of this kind into a local, if it is there.
fn store(shape: &mut Shape, local: u32, kind: Kind) -> Step
    ensures { flow_of result shape.new ≡ on_place (slice_get shape.old.locals local) (Next (with_local shape.old shape.old.stack local kind)) }
{
    let local = local as usize;
    if local < shape.locals.len() {
        shape.locals[local] = Some(kind);
        Step::Next
    } else {
        Step::Refused
    }
}

/// An int goes to a local.
pub fn store_int(shape: &mut Shape, local: u32) -> Step
    ensures { flow_of result shape.new ≡ on_int shape.old.stack (λ rest. on_place (slice_get shape.old.locals local) (Next (with_local shape.old rest local kind.Int))) }
{
    match shape.pop() {
        Some(Kind::Int) => store(shape, local, Kind::Int),
        _ => Step::Refused,
    }
}

/// A reference goes to a local.
pub fn store_reference(shape: &mut Shape, local: u32) -> Step
    ensures { flow_of result shape.new ≡ on_kind shape.old.stack (λ k rest. where_true (not (is_int k)) (on_place (slice_get shape.old.locals local) (Next (with_local shape.old rest local k)))) }
{
    match shape.pop() {
        Some(Kind::Int) => Step::Refused,
        Some(kind) => store(shape, local, kind),
        None => Step::Refused,
    }
}

/// The int of a local grows.
pub fn increment(shape: &mut Shape, local: u32) -> Step
    ensures { flow_of result shape.new ≡ on_set (slice_get shape.old.locals local) (λ k. where_true (is_int k) (Next shape.old)) }
{
    match shape.local(local) {
        Some(Kind::Int) => Step::Next,
        _ => Step::Refused,
    }
}

// ---- the order of operands

/// One operand less.
pub fn pop(shape: &mut Shape) -> Step
    ensures { flow_of result shape.new ≡ on_kind shape.old.stack (λ k rest. Next (with_stack shape.old rest)) }
{
    match shape.pop() {
        Some(_) => Step::Next,
        None => Step::Refused,
    }
}

/// Two operands less.
pub fn pop_two(shape: &mut Shape) -> Step
    ensures { flow_of result shape.new ≡ on_kind shape.old.stack (λ l rest. on_kind rest (λ k rest'. Next (with_stack shape.old rest'))) }
{
    match shape.pop() {
        Some(_) => pop(shape),
        None => Step::Refused,
    }
}

/// `dup`.
pub fn dup(shape: &mut Shape) -> Result<Step, NoMemory>
    ensures { IfOk result (λ step. flow_of step shape.new ≡ on_kind shape.old.stack (λ k rest. Next (with_stack shape.old (k ∷ k ∷ rest)))) }
{
    let Some(top) = shape.pop() else {
        return Ok(Step::Refused);
    };
    shape.push(top)?;
    shape.push(top)?;
    Ok(Step::Next)
}

/// `dup_x1`.
pub fn dup_below_one(shape: &mut Shape) -> Result<Step, NoMemory>
    ensures { IfOk result (λ step. flow_of step shape.new ≡ on_kind shape.old.stack (λ l rest. on_kind rest (λ k rest'. Next (with_stack shape.old (l ∷ k ∷ l ∷ rest'))))) }
{
    let (Some(top), Some(below)) = (shape.pop(), shape.pop()) else {
        return Ok(Step::Refused);
    };
    shape.push(top)?;
    shape.push(below)?;
    shape.push(top)?;
    Ok(Step::Next)
}

/// `dup_x2`.
pub fn dup_below_two(shape: &mut Shape) -> Result<Step, NoMemory>
    ensures { IfOk result (λ step. flow_of step shape.new ≡ on_kind shape.old.stack (λ l rest. on_kind rest (λ k rest'. on_kind rest' (λ j rest''. Next (with_stack shape.old (l ∷ k ∷ j ∷ l ∷ rest'')))))) }
{
    let (Some(top), Some(below), Some(third)) = (shape.pop(), shape.pop(), shape.pop()) else {
        return Ok(Step::Refused);
    };
    shape.push(top)?;
    shape.push(third)?;
    shape.push(below)?;
    shape.push(top)?;
    Ok(Step::Next)
}

/// `dup2`.
pub fn dup_two(shape: &mut Shape) -> Result<Step, NoMemory>
    ensures { IfOk result (λ step. flow_of step shape.new ≡ on_kind shape.old.stack (λ l rest. on_kind rest (λ k rest'. Next (with_stack shape.old (l ∷ k ∷ l ∷ k ∷ rest'))))) }
{
    let (Some(top), Some(below)) = (shape.pop(), shape.pop()) else {
        return Ok(Step::Refused);
    };
    shape.push(below)?;
    shape.push(top)?;
    shape.push(below)?;
    shape.push(top)?;
    Ok(Step::Next)
}

/// Two operands change places.
pub fn swap(shape: &mut Shape) -> Result<Step, NoMemory>
    ensures { IfOk result (λ step. flow_of step shape.new ≡ on_kind shape.old.stack (λ l rest. on_kind rest (λ k rest'. Next (with_stack shape.old (k ∷ l ∷ rest'))))) }
{
    let (Some(top), Some(below)) = (shape.pop(), shape.pop()) else {
        return Ok(Step::Refused);
    };
    shape.push(top)?;
    shape.push(below)?;
    Ok(Step::Next)
}

// ---- ints and arrays

/// An int becomes a value of this kind.
pub fn int_to(shape: &mut Shape, kind: Kind) -> Result<Step, NoMemory>
    ensures { IfOk result (λ step. flow_of step shape.new ≡ on_int shape.old.stack (λ rest. Next (with_stack shape.old (kind ∷ rest)))) }
{
    match shape.pop() {
        Some(Kind::Int) => {
            shape.push(kind)?;
            Ok(Step::Next)
        }
        _ => Ok(Step::Refused),
    }
}

/// Two ints become one.
pub fn join_ints(shape: &mut Shape) -> Result<Step, NoMemory>
    ensures { IfOk result (λ step. flow_of step shape.new ≡ on_ints shape.old.stack (λ rest. Next (with_stack shape.old (kind.Int ∷ rest)))) }
{
    match shape.pop() {
        Some(Kind::Int) => int_to(shape, Kind::Int),
        _ => Ok(Step::Refused),
    }
}

/// An array becomes an int: its length, or an item.
pub fn array_to_int(shape: &mut Shape) -> Result<Step, NoMemory>
    ensures { IfOk result (λ step. flow_of step shape.new ≡ on_such is_array shape.old.stack (λ rest. Next (with_stack shape.old (kind.Int ∷ rest)))) }
{
    match shape.pop() {
        Some(Kind::Null) | Some(Kind::Arr) => {
            shape.push(Kind::Int)?;
            Ok(Step::Next)
        }
        _ => Ok(Step::Refused),
    }
}

/// An array and an index become an item.
pub fn load_item(shape: &mut Shape) -> Result<Step, NoMemory>
    ensures { IfOk result (λ step. flow_of step shape.new ≡ on_int shape.old.stack (λ rest. on_such is_array rest (λ rest'. Next (with_stack shape.old (kind.Int ∷ rest'))))) }
{
    match shape.pop() {
        Some(Kind::Int) => array_to_int(shape),
        _ => Ok(Step::Refused),
    }
}

fn take_array(shape: &mut Shape) -> Step
    ensures { flow_of result shape.new ≡ on_such is_array shape.old.stack (λ rest. Next (with_stack shape.old rest)) }
{
    match shape.pop() {
        Some(Kind::Null) | Some(Kind::Arr) => Step::Next,
        _ => Step::Refused,
    }
}

fn take_array_and_index(shape: &mut Shape) -> Step
    ensures { flow_of result shape.new ≡ on_int shape.old.stack (λ rest. on_such is_array rest (λ rest'. Next (with_stack shape.old rest'))) }
{
    match shape.pop() {
        Some(Kind::Int) => take_array(shape),
        _ => Step::Refused,
    }
}

/// An array, an index and an item are taken.
pub fn store_item(shape: &mut Shape) -> Step
    ensures { flow_of result shape.new ≡ on_ints shape.old.stack (λ rest. on_such is_array rest (λ rest'. Next (with_stack shape.old rest'))) }
{
    match shape.pop() {
        Some(Kind::Int) => take_array_and_index(shape),
        _ => Step::Refused,
    }
}

// ---- jumps

/// On an int.
pub fn branch_on_int(shape: &mut Shape, to: u32) -> Step
    ensures { flow_of result shape.new ≡ on_int shape.old.stack (λ rest. Branch to (with_stack shape.old rest)) }
{
    match shape.pop() {
        Some(Kind::Int) => Step::Branch(to),
        _ => Step::Refused,
    }
}

/// On two ints.
pub fn branch_on_ints(shape: &mut Shape, to: u32) -> Step
    ensures { flow_of result shape.new ≡ on_ints shape.old.stack (λ rest. Branch to (with_stack shape.old rest)) }
{
    match shape.pop() {
        Some(Kind::Int) => branch_on_int(shape, to),
        _ => Step::Refused,
    }
}

/// On a reference.
pub fn branch_on_reference(shape: &mut Shape, to: u32) -> Step
    ensures { flow_of result shape.new ≡ on_such is_reference shape.old.stack (λ rest. Branch to (with_stack shape.old rest)) }
{
    match shape.pop() {
        Some(Kind::Null) | Some(Kind::Ref(_)) | Some(Kind::Arr) => Step::Branch(to),
        _ => Step::Refused,
    }
}

/// On two references.
pub fn branch_on_references(shape: &mut Shape, to: u32) -> Step
    ensures { flow_of result shape.new ≡ on_such is_reference shape.old.stack (λ rest. on_such is_reference rest (λ rest'. Branch to (with_stack shape.old rest'))) }
{
    match shape.pop() {
        Some(Kind::Null) | Some(Kind::Ref(_)) | Some(Kind::Arr) => branch_on_reference(shape, to),
        _ => Step::Refused,
    }
}

// ---- operands of wanted kinds

/// Takes an operand that may stand for this kind.
pub fn take(shape: &mut Shape, program: &Program, wanted: Kind) -> Step
    ensures { flow_of result shape.new ≡ on_assignable program.now wanted shape.old.stack (λ rest. Next (with_stack shape.old rest)) }
{
    match shape.pop() {
        Some(kind) => {
            if is_assignable(program, kind, wanted) {
                Step::Next
            } else {
                Step::Refused
            }
        }
        None => Step::Refused,
    }
}

/// Takes an operand for each of these kinds, the last of which is on top.
pub fn take_two(shape: &mut Shape, program: &Program, below: Kind, top: Kind) -> Step
    ensures { flow_of result shape.new ≡ on_all program.now (top ∷ below ∷ []) shape.old.stack (λ rest. Next (with_stack shape.old rest)) }
{
    match take(shape, program, top) {
        Step::Next => take(shape, program, below),
        _ => Step::Refused,
    }
}

/// An operand that may stand for the first kind becomes one of the second.
pub fn take_and_push(
    shape: &mut Shape,
    program: &Program,
    wanted: Kind,
    kind: Kind,
) -> Result<Step, NoMemory>
    ensures { IfOk result (λ step. flow_of step shape.new ≡ on_assignable program.now wanted shape.old.stack (λ rest. Next (with_stack shape.old (kind ∷ rest)))) }
{
    match shape.pop() {
        Some(found) => {
            if is_assignable(program, found, wanted) {
                push(shape, kind)
            } else {
                Ok(Step::Refused)
            }
        }
        None => Ok(Step::Refused),
    }
}

/// Takes what is thrown.
pub fn throw(shape: &mut Shape, program: &Program) -> Step
    ensures { flow_of result shape.new ≡ on_assignable program.now (kind.Ref 5) shape.old.stack (λ rest. Leaves) }
{
    match shape.pop() {
        Some(kind) => {
            if is_assignable(program, kind, Kind::Ref(THROWABLE)) {
                Step::Leaves
            } else {
                Step::Refused
            }
        }
        None => Step::Refused,
    }
}

/// Takes an int and the stream.
pub fn print_int(shape: &mut Shape, program: &Program) -> Step
    ensures { flow_of result shape.new ≡ on_int shape.old.stack (λ rest. on_assignable program.now (kind.Ref 4) rest (λ rest'. Next (with_stack shape.old rest'))) }
{
    match shape.pop() {
        Some(Kind::Int) => take(shape, program, Kind::Ref(PRINT_STREAM)),
        _ => Step::Refused,
    }
}

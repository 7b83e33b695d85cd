//! Instructions whose operands are of kinds that the program declares: those of statics and fields, calls and returns.

ghost use Rattle.std.specs.Prelude.{◌≡◌, ◌∷◌, ◌++◌, [], if◌then◌else◌, IfOk, Some, None, true, false, not, reverse, slice_get};
ghost use Rattle.vm_model.specs.declared.value.Kind.TheVariants as kind;
ghost use Rattle.vm_model.specs.Program.{method_at};
ghost use Rattle.machine_model.specs.Declarations.{declarations_of};
ghost use Rattle.machine_model.specs.Kinds.{declared_kinds, field_kinds, is_thread_class, static_kind};
ghost use Rattle.machine_model.specs.Declarations.{class_at};
ghost use Rattle.machine_model.specs.Shapes.{Next, Jump, Branch, Leaves, on_int, on_kind, on_assignable, on_all, on_declared, where_true, with_stack, with_kind, is_int, flow_call, flow_return, is_called_so, receiver_of};
ghost use Rattle.shape_verifier.specs.Answers.{flow_of, kinds_taken, on_taken};

use crate::step::{Step, push, take, take_and_push, take_two};
use built_in_classes::{RUNNABLE, THREAD};
use shape_lattice::{Shape, is_assignable};
use vm_model::{Kind, Method, NoMemory, Program};

// ---- statics and fields

fn static_kind_of(program: &Program, slot: u32) -> Option<Kind>
    ensures { result ≡ static_kind (declarations_of program.now) slot }
{
    match program.static_slot(slot) {
        Some(found) => Some(found.kind),
        None => None,
    }
}

/// What a static holds is pushed.
pub fn get_static(shape: &mut Shape, program: &Program, slot: u32) -> Result<Step, NoMemory>
    ensures { IfOk result (λ step. flow_of step shape.new ≡ on_declared (static_kind (declarations_of program.now) slot) (λ k. Next (with_stack shape.old (k ∷ shape.old.stack)))) }
{
    match static_kind_of(program, slot) {
        Some(kind) => push(shape, kind),
        None => Ok(Step::Refused),
    }
}

/// An operand goes to a static.
pub fn put_static(shape: &mut Shape, program: &Program, slot: u32) -> Step
    ensures { flow_of result shape.new ≡ on_declared (static_kind (declarations_of program.now) slot) (λ k. on_assignable program.now k shape.old.stack (λ rest. Next (with_stack shape.old rest))) }
{
    match static_kind_of(program, slot) {
        Some(kind) => take(shape, program, kind),
        None => Step::Refused,
    }
}

/// Thread itself, and the classes that extend it.
fn is_thread(program: &Program, class: u32) -> bool
    ensures { result ≡ is_thread_class (declarations_of program.now) class }
{
    if class == THREAD {
        return true;
    }
    match program.class(class) {
        Some(found) => found.is_thread,
        None => false,
    }
}

fn written_field(program: &Program, class: u32, place: usize) -> Option<Kind>
    ensures { result ≡ slice_get (declared_kinds (class_at (declarations_of program.now) class)) place }
{
    match program.class(class) {
        Some(found) => match found.fields.get(place) {
            Some(field) => Some(field.kind),
            None => None,
        },
        None => None,
    }
}

/// The kind that a field of an object of this class is declared to hold. Place 0 of a thread is its Runnable target.
fn field_kind(program: &Program, class: u32, place: u32) -> Option<Kind>
    ensures { result ≡ slice_get (field_kinds (declarations_of program.now) class) place }
{
    if !is_thread(program, class) {
        return written_field(program, class, place as usize);
    }
    if place == 0 {
        return Some(Kind::Ref(RUNNABLE));
    }
    written_field(program, class, place as usize - 1)
}

/// An object becomes what its field holds.
pub fn get_field(
    shape: &mut Shape,
    program: &Program,
    class: u32,
    place: u32,
) -> Result<Step, NoMemory>
    ensures { IfOk result (λ step. flow_of step shape.new ≡ on_declared (slice_get (field_kinds (declarations_of program.now) class) place) (λ k. on_assignable program.now (kind.Ref class) shape.old.stack (λ rest. Next (with_stack shape.old (k ∷ rest))))) }
{
    match field_kind(program, class, place) {
        Some(kind) => take_and_push(shape, program, Kind::Ref(class), kind),
        None => Ok(Step::Refused),
    }
}

/// An object and what its field is to hold are taken.
pub fn put_field(shape: &mut Shape, program: &Program, class: u32, place: u32) -> Step
    ensures { flow_of result shape.new ≡ on_declared (slice_get (field_kinds (declarations_of program.now) class) place) (λ k. on_all program.now (k ∷ kind.Ref class ∷ []) shape.old.stack (λ rest. Next (with_stack shape.old rest))) }
{
    match field_kind(program, class, place) {
        Some(kind) => take_two(shape, program, Kind::Ref(class), kind),
        None => Step::Refused,
    }
}

// ---- calls

/// Takes an operand for each of these kinds, the last of which is on top; false where there is none that may stand for its
/// kind, and then the shape is unknown.
#[tactic(auto, using(crate::proofs::Calling::last_wanted))]
fn take_all(shape: &mut Shape, program: &Program, wanted: &[Kind]) -> bool
    ensures taken { kinds_taken program.now (reverse wanted.now) shape.old.stack ≡ (if result then Some shape.new.stack else None) }
    ensures locals { shape.new.locals ≡ shape.old.locals }
{
    let mut left = wanted.len();
    while left > 0 {
        left -= 1;
        let kind = wanted[left];
        match shape.pop() {
            Some(found) => {
                if !is_assignable(program, found, kind) {
                    return false;
                }
            }
            None => return false,
        }
    }
    true
}

/// What a call gives is pushed.
fn give(shape: &mut Shape, gives: Option<Kind>) -> Result<Step, NoMemory>
    ensures { IfOk result (λ step. flow_of step shape.new ≡ Next (with_stack shape.old (with_kind gives shape.old.stack))) }
{
    match gives {
        Some(kind) => push(shape, kind),
        None => Ok(Step::Next),
    }
}

/// A receiver is taken, and what the call gives is pushed.
fn give_for(
    shape: &mut Shape,
    program: &Program,
    class: u32,
    gives: Option<Kind>,
) -> Result<Step, NoMemory>
    ensures { IfOk result (λ step. flow_of step shape.new ≡ on_all program.now (kind.Ref class ∷ []) shape.old.stack (λ rest. Next (with_stack shape.old (with_kind gives rest)))) }
{
    match take(shape, program, Kind::Ref(class)) {
        Step::Next => give(shape, gives),
        _ => Ok(Step::Refused),
    }
}

/// A call of this method without a receiver.
fn call_alone(shape: &mut Shape, program: &Program, method: &Method) -> Result<Step, NoMemory>
    ensures { IfOk result (λ step. flow_of step shape.new ≡ on_taken (kinds_taken program.now (reverse method.now.params) shape.old.stack) (λ rest. Next (with_stack shape.old (with_kind method.now.gives rest)))) }
{
    if take_all(shape, program, method.params.as_slice()) {
        give(shape, method.gives)
    } else {
        Ok(Step::Refused)
    }
}

/// A call of this method on a receiver, which stands below the arguments.
fn call_with(shape: &mut Shape, program: &Program, method: &Method) -> Result<Step, NoMemory>
    ensures { IfOk result (λ step. flow_of step shape.new ≡ on_taken (kinds_taken program.now (reverse method.now.params) shape.old.stack) (λ rest. on_all program.now (kind.Ref method.now.class ∷ []) rest (λ rest'. Next (with_stack shape.old (with_kind method.now.gives rest'))))) }
{
    if take_all(shape, program, method.params.as_slice()) {
        give_for(shape, program, method.class, method.gives)
    } else {
        Ok(Step::Refused)
    }
}

/// A call without a receiver.
#[tactic(auto, using(crate::proofs::Calling::flow_alone))]
pub fn call_static(shape: &mut Shape, program: &Program, callee: u32) -> Result<Step, NoMemory>
    ensures { IfOk result (λ step. flow_of step shape.new ≡ where_true (is_called_so true (method_at program.now callee)) (flow_call program.now [] (method_at program.now callee) shape.old)) }
{
    match program.method(callee) {
        Some(method) => {
            if method.is_static {
                call_alone(shape, program, method)
            } else {
                Ok(Step::Refused)
            }
        }
        None => Ok(Step::Refused),
    }
}

/// A call on a receiver.
#[tactic(auto, using(crate::proofs::Calling::flow_with))]
pub fn call_on(shape: &mut Shape, program: &Program, callee: u32) -> Result<Step, NoMemory>
    ensures { IfOk result (λ step. flow_of step shape.new ≡ where_true (is_called_so false (method_at program.now callee)) (flow_call program.now (receiver_of (method_at program.now callee)) (method_at program.now callee) shape.old)) }
{
    match program.method(callee) {
        Some(method) => {
            if method.is_static {
                Ok(Step::Refused)
            } else {
                call_with(shape, program, method)
            }
        }
        None => Ok(Step::Refused),
    }
}

// ---- returns

fn returned(program: &Program, wanted: Option<Kind>, given: Kind) -> bool
    ensures { flow_return program.now wanted (Some given) ≡ where_true result Leaves }
{
    match wanted {
        Some(kind) => is_assignable(program, given, kind),
        None => false,
    }
}

/// A return of nothing.
pub fn return_nothing(shape: &mut Shape, program: &Program, wanted: Option<Kind>) -> Step
    ensures { flow_of result shape.new ≡ flow_return program.now wanted None }
{
    match wanted {
        Some(_) => Step::Refused,
        None => Step::Leaves,
    }
}

/// A return of an int.
pub fn return_int(shape: &mut Shape, program: &Program, wanted: Option<Kind>) -> Step
    ensures { flow_of result shape.new ≡ on_int shape.old.stack (λ rest. flow_return program.now wanted (Some kind.Int)) }
{
    match shape.pop() {
        Some(Kind::Int) => {
            if returned(program, wanted, Kind::Int) {
                Step::Leaves
            } else {
                Step::Refused
            }
        }
        _ => Step::Refused,
    }
}

/// A return of a reference.
pub fn return_reference(shape: &mut Shape, program: &Program, wanted: Option<Kind>) -> Step
    ensures { flow_of result shape.new ≡ on_kind shape.old.stack (λ k rest. where_true (not (is_int k)) (flow_return program.now wanted (Some k))) }
{
    match shape.pop() {
        Some(Kind::Int) => Step::Refused,
        Some(kind) => {
            if returned(program, wanted, kind) {
                Step::Leaves
            } else {
                Step::Refused
            }
        }
        None => Step::Refused,
    }
}

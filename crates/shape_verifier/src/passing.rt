//! The pass over a method: the least instruction whose shape is new is looked at, until none is new or a fault stops it
//! (JVMS SE 8 §4.10.2.2).

ghost use Rattle.std.specs.Prelude.{◌≡◌, ◌+◌, ◌-◌, ◌<◌, ◌≤◌, ◌^◌, ◌++◌, [], ◌∷◌, true, false, length, map, replicate, IfOk, IfErr, Ok, Err, Some, None, slice_get};
ghost use Rattle.vm_model.specs.declared.limits.TheConstants.{MOST_TEXT_BYTES};
ghost use Rattle.vm_model.specs.Program.{method_at, locals_of as model_locals_of};
ghost use Rattle.machine_model.specs.Shapes.{first_shape as model_first_shape, parameters as model_parameters};
ghost use Rattle.shape_lattice.specs.Merging.{merged_shape, takes as takes_shape};
ghost use Rattle.shape_verifier.specs.Answers.{flow_to};
ghost use Rattle.shape_verifier.specs.Passing.{EndsWith, PassState, begun as model_begun, merged_at, spread as model_spread};
ghost use Rattle.shape_verifier.specs.Turning.{AreWithin, ArrivedSo, CopiedSo, HaveLocals, HaveLocalsOf, MetSo, NoneNewBelow, PassedSo, RaisedSo, RefusedSo, SettledSo, SpreadSo, TakenSo, gone_on, refused_first, receiver_local};
ghost use Rattle.vm_model.specs.declared.memory.Failure.TheVariants as failure;

use crate::fault::Refusal;
use crate::flow::{Onward, judge};
use shape_lattice::{Shape, ShapeKind, merge, takes};
use std::alloc::{AllocError, Global};
use vm_model::{Failure, Kind, MOST_LOCALS, Method, Program};

impl From<Refusal> for Failure<Refusal> {
    ghost from_gives = { λ r e. e ≡ failure.Fault r };

    fn from(refusal: Refusal) -> Failure<Refusal> {
        Failure::Fault(refusal)
    }
}

/// A shape that the pass has reached. It is new where the instruction has not been looked at with it.
#[derive(Debug, Drop)]
pub struct Reached {
    pub shape: Shape,
    pub is_new: bool,
}

// ---- the shape with which a method begins

/// How many locals a frame of the method has.
pub fn locals_of(method: &Method) -> u32
    ensures { result ≡ model_locals_of method.now }
{
    method.max_locals.unwrap_or(MOST_LOCALS)
}

fn receiver(alloc: Global, method: &Method, count: usize) -> Result<Vec<Option<Kind>>, AllocError>
    ensures { IfOk result (λ v. v.items ≡ receiver_local method.now) }
{
    let mut locals = Vec::with_capacity(alloc, count)?;
    if !method.is_static {
        locals.push(Some(Kind::Ref(method.class)))?;
    }
    Ok(locals)
}

fn parameters(alloc: Global, method: &Method, count: usize) -> Result<Vec<Option<Kind>>, AllocError>
    ensures { IfOk result (λ v. v.items ≡ map Some (model_parameters method.now)) }
{
    let mut locals = receiver(alloc, method, count)?;
    for kind in &method.params {
        locals.push(Some(*kind))?;
    }
    Ok(locals)
}

fn first_shape(alloc: Global, locals: Vec<Option<Kind>>, count: usize) -> Result<Shape, AllocError>
    requires { length locals.items ≤ count }
    ensures { IfOk result (λ s. s ≡ record { stack = []; locals = locals.items ++ replicate (count - length locals.items) None }) }
{
    let mut locals = locals;
    locals.resize(count, None)?;
    Ok(Shape {
        stack: Vec::new(alloc),
        locals,
    })
}

fn alone(alloc: Global, first: Shape, count: usize) -> Result<Vec<Option<Reached>>, AllocError>
    requires { 0 < count }
    ensures { IfOk result (λ v. v.items ≡ Some (record { shape = first; is_new = true }) ∷ replicate (count - 1) None) }
{
    let mut state = Vec::with_capacity(alloc, count)?;
    state.push(Some(Reached {
        shape: first,
        is_new: true,
    }))?;
    for _place in 1..count {
        state.push(None)?;
    }
    Ok(state)
}

/// What the pass knows at first: the shape of the parameters at the first instruction.
fn begin(alloc: Global, method: &Method) -> Result<Vec<Option<Reached>>, Failure<Refusal>>
    ensures begun { IfOk result (λ v. (v.items ≡ model_begun method.now) × (refused_first method.now ≡ None)) }
    ensures refused { IfErr result (λ e. RefusedSo e (refused_first method.now)) }
{
    let count = locals_of(method) as usize;
    let locals = parameters(alloc, method, count)?;
    if count < locals.len() {
        return Err(Failure::Fault(Refusal {
            kind: ShapeKind::Limit,
            at: 0,
        }));
    }
    if method.code.is_empty() {
        return Err(Failure::Fault(Refusal {
            kind: ShapeKind::FallsOff,
            at: 0,
        }));
    }
    let first = first_shape(alloc, locals, count)?;
    Ok(alone(alloc, first, method.code.len())?)
}

// ---- a turn

fn copy(alloc: Global, shape: &Shape) -> Result<Shape, AllocError>
    ensures { IfOk result (λ s. s ≡ shape.now) }
{
    Ok(Shape {
        stack: Vec::from_slice(alloc, &shape.stack)?,
        locals: Vec::from_slice(alloc, &shape.locals)?,
    })
}

/// The least instruction with a new shape and a copy of the shape, which then isn't new any more. Before `from` none is new.
fn take_new(
    alloc: Global,
    state: &mut [Option<Reached>],
    from: u32,
) -> Result<Option<(u32, Shape)>, AllocError>
    requires none { NoneNewBelow from state.old }
    requires few { length state.old < 2 ^ 31 }
    ensures { IfOk result (λ here. TakenSo here state.old state.new) }
{
    for place in from..state.len() as u32 {
        if let Some(here) = &mut state[place as usize] {
            if here.is_new {
                let shape = copy(alloc, &here.shape)?;
                here.is_new = false;
                return Ok(Some((place, shape)));
            }
        }
    }
    Ok(None)
}

/// What became of the shape of an instruction when another one came to it.
#[derive(Clone, Copy, Debug, PartialEq, Eq)]
enum Met {
    Same,
    Raised,
    /// The instruction wasn't reached before, and still isn't.
    Unreached,
}

/// Merges a shape into one that was reached. Answers whether this is new by it.
fn raise(program: &Program, here: &mut Reached, shape: &Shape) -> Result<bool, ShapeKind>
    requires { length shape.now.locals ≡ length here.old.shape.locals }
    ensures { RaisedSo result here.old here.new (takes_shape program.now shape.now here.old.shape) (merged_shape program.now shape.now here.old.shape) }
{
    if takes(program, shape, &here.shape) {
        return Ok(false);
    }
    merge(program, shape, &mut here.shape)?;
    here.is_new = true;
    Ok(true)
}

/// Merges a shape into that of an instruction, if this was reached.
fn meet(
    program: &Program,
    state: &mut [Option<Reached>],
    place: u32,
    shape: &Shape,
) -> Result<Met, Refusal>
    requires { HaveLocals (length shape.now.locals) state.old }
    ensures { MetSo result state.old state.new (slice_get state.old place) (merged_at program.now state.old place shape.now) }
{
    if place as usize >= state.len() {
        return Ok(Met::Same);
    }
    let Some(here) = &mut state[place as usize] else {
        return Ok(Met::Unreached);
    };
    match raise(program, here, shape) {
        Ok(false) => Ok(Met::Same),
        Ok(true) => Ok(Met::Raised),
        Err(kind) => Err(Refusal { kind, at: place }),
    }
}

/// Merges a shape into that of an instruction, or gives it to this one if it wasn't reached. Answers whether the instruction's
/// shape is new by it.
fn arrive(
    program: &Program,
    state: &mut [Option<Reached>],
    place: u32,
    shape: Shape,
) -> Result<bool, Refusal>
    requires { HaveLocals (length shape.locals) state.old }
    ensures { ArrivedSo result state.old state.new (merged_at program.now state.old place shape) }
{
    match meet(program, state, place, &shape)? {
        Met::Same => Ok(false),
        Met::Raised => Ok(true),
        Met::Unreached => {
            state[place as usize] = Some(Reached {
                shape,
                is_new: true,
            });
            Ok(true)
        }
    }
}

/// The same of a shape that is needed again: it is copied only where the instruction wasn't reached.
fn arrive_copy(
    alloc: Global,
    program: &Program,
    state: &mut [Option<Reached>],
    place: u32,
    shape: &Shape,
) -> Result<bool, Failure<Refusal>>
    requires { HaveLocals (length shape.now.locals) state.old }
    ensures { CopiedSo result state.old state.new (merged_at program.now state.old place shape.now) }
{
    match meet(program, state, place, shape)? {
        Met::Same => Ok(false),
        Met::Raised => Ok(true),
        Met::Unreached => {
            state[place as usize] = Some(Reached {
                shape: copy(alloc, shape)?,
                is_new: true,
            });
            Ok(true)
        }
    }
}

/// A jump's shape arrives. Answers an instruction before which none is new, if that is so before `next`.
fn jump(
    program: &Program,
    state: &mut [Option<Reached>],
    next: u32,
    to: u32,
    shape: Shape,
) -> Result<u32, Failure<Refusal>>
    requires locals { HaveLocals (length shape.locals) state.old }
    requires none { NoneNewBelow next state.old }
    ensures { SpreadSo result state.new (merged_at program.now state.old to shape) }
{
    if arrive(program, state, to, shape)? && to < next {
        Ok(to)
    } else {
        Ok(next)
    }
}

/// Merges what an instruction makes into its followers. Answers an instruction before which none is new, if that is so up to
/// the instruction itself.
fn spread(
    alloc: Global,
    program: &Program,
    state: &mut [Option<Reached>],
    place: u32,
    onward: Onward,
    shape: Shape,
) -> Result<u32, Failure<Refusal>>
    requires place { place < 2 ^ 31 }
    requires locals { HaveLocalsOf (flow_to onward shape) state.old }
    requires none { NoneNewBelow (place + 1) state.old }
    ensures { SpreadSo result state.new (model_spread program.now state.old place (flow_to onward shape)) }
{
    let next = place + 1;
    match onward {
        Onward::Next => jump(program, state, next, next, shape),
        Onward::Jump(to) => jump(program, state, next, to, shape),
        Onward::Branch(to) => {
            arrive_copy(alloc, program, state, next, &shape)?;
            jump(program, state, next, to, shape)
        }
        Onward::Leaves => Ok(next),
    }
}

/// Judges an instruction with its shape, and merges what it makes into its followers. Answers an instruction before which none
/// is new, if that is so up to the instruction itself.
fn turn(
    alloc: Global,
    program: &Program,
    number: u32,
    method: &Method,
    state: &mut [Option<Reached>],
    place: u32,
    shape: Shape,
) -> Result<u32, Failure<Refusal>>
    requires is_method { method_at program.now number ≡ Some method.now }
    requires place { place < 2 ^ 31 }
    requires within { AreWithin method.now state.old }
    requires locals { length shape.locals ≡ model_locals_of method.now }
    requires none { NoneNewBelow (place + 1) state.old }
    ensures { SpreadSo result state.new (gone_on program.now number method.now state.old place shape) }
{
    let Some(instr) = program.instr_at(number, place) else {
        return Err(Failure::Fault(Refusal {
            kind: ShapeKind::FallsOff,
            at: place,
        }));
    };
    let mut shape = shape;
    match judge(program, number, method, place, instr, &mut shape) {
        Ok(onward) => spread(alloc, program, state, place, onward, shape),
        Err(Failure::Memory) => Err(Failure::Memory),
        Err(Failure::Fault(kind)) => Err(Failure::Fault(Refusal { kind, at: place })),
    }
}

/// Makes turns until no shape is new.
fn settle(
    alloc: Global,
    program: &Program,
    number: u32,
    method: &Method,
    state: &mut [Option<Reached>],
) -> Result<(), Failure<Refusal>>
    requires is_method { method_at program.now number ≡ Some method.now }
    requires few { length state.old < 2 ^ 31 }
    requires within { AreWithin method.now state.old }
    ensures { SettledSo result program.now number method.now state.old state.new }
{
    let mut from = 0;
    'turns: while let Some((place, shape)) = take_new(alloc, state, from)? {
        from = turn(alloc, program, number, method, state, place, shape)?;
    }
    Ok(())
}

/// The pass over a method of this number. It takes memory for the shapes of the instructions, and for a copy of the one that is
/// looked at.
pub fn pass(
    alloc: Global,
    program: &Program,
    number: u32,
    method: &Method,
) -> Result<(), Failure<Refusal>>
    requires is_method { method_at program.now number ≡ Some method.now }
    requires few { length method.now.code ≤ MOST_TEXT_BYTES }
    ensures { PassedSo result program.now number method.now }
{
    let mut state = begin(alloc, method)?;
    settle(alloc, program, number, method, &mut state)
}

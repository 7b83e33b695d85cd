//! What is wrong at an instruction that meets a shape, and where control goes on if nothing is.

ghost use Rattle.std.specs.Prelude.{◌≡◌, ◌+◌, ◌<◌, ◌≤◌, ◌^◌, ◌∷◌, length, IfOk, Some};
ghost use Rattle.vm_model.specs.Program.{method_at};
ghost use Rattle.machine_model.specs.Shapes.{Jump, flow as model_flow};
ghost use Rattle.shape_verifier.specs.Judging.{judged as model_judged, bounded as model_bounded, operands_of as model_operands_of, arguments_of as arguments_of_method, going as model_going, is_unset as is_unset_by, refused_operand as refused_operand_of, refusal as model_refusal, stack_limit as stack_limit_of};
ghost use Rattle.shape_verifier.specs.Answers.{BoundedSo, JudgedSo, flow_of, flow_to};

use crate::declared::{
    call_on, call_static, get_field, get_static, put_field, put_static, return_int, return_nothing,
    return_reference,
};
use crate::step::{
    Step, array_to_int, branch_on_int, branch_on_ints, branch_on_reference, branch_on_references,
    dup, dup_below_one, dup_below_two, dup_two, increment, int_to, join_ints, load_int, load_item,
    load_reference, pop, pop_two, print_int, push, store_int, store_item, store_reference, swap,
    take, take_two, throw,
};
use built_in_classes::{OBJECT, PRINT_STREAM, RUNNABLE, STRING, THREAD};
use shape_lattice::{Shape, ShapeKind};
use std::alloc::Global;
use vm_model::{Failure, Instr, Kind, MOST_OPERANDS, Method, NoMemory, Program};

/// Where control goes on from an instruction.
#[derive(Clone, Copy, Debug, PartialEq, Eq)]
pub enum Onward {
    Next,
    Jump(u32),
    /// To the next instruction or to that one.
    Branch(u32),
    /// Out of the method.
    Leaves,
}

/// What an instruction of a method of this number does to a shape: one line for each (JVMS SE 8 §4.10.1.9).
fn flow(
    shape: &mut Shape,
    program: &Program,
    number: u32,
    method: &Method,
    instr: Instr,
) -> Result<Step, NoMemory>
    requires is_method { method_at program.now number ≡ Some method.now }
    ensures { IfOk result (λ step. flow_of step shape.new ≡ model_flow program.now number instr shape.old) }
{
    match instr {
        Instr::Nop => Ok(Step::Next),
        Instr::Push(_) => push(shape, Kind::Int),
        Instr::PushText(_) => push(shape, Kind::Ref(STRING)),
        Instr::PushNull => push(shape, Kind::Null),
        Instr::Iload(local) => load_int(shape, local),
        Instr::Istore(local) => Ok(store_int(shape, local)),
        Instr::Aload(local) => load_reference(shape, local),
        Instr::Astore(local) => Ok(store_reference(shape, local)),
        Instr::Iinc { local, .. } => Ok(increment(shape, local)),
        Instr::Pop => Ok(pop(shape)),
        Instr::Pop2 => Ok(pop_two(shape)),
        Instr::Dup => dup(shape),
        Instr::DupX1 => dup_below_one(shape),
        Instr::DupX2 => dup_below_two(shape),
        Instr::Dup2 => dup_two(shape),
        Instr::Swap => swap(shape),
        Instr::Iadd => join_ints(shape),
        Instr::Isub => join_ints(shape),
        Instr::Imul => join_ints(shape),
        Instr::Ineg => int_to(shape, Kind::Int),
        Instr::Idiv => join_ints(shape),
        Instr::Irem => join_ints(shape),
        Instr::Ishl => join_ints(shape),
        Instr::Ishr => join_ints(shape),
        Instr::Iushr => join_ints(shape),
        Instr::Iand => join_ints(shape),
        Instr::Ior => join_ints(shape),
        Instr::Ixor => join_ints(shape),
        Instr::Ifeq(to) => Ok(branch_on_int(shape, to)),
        Instr::Ifne(to) => Ok(branch_on_int(shape, to)),
        Instr::Iflt(to) => Ok(branch_on_int(shape, to)),
        Instr::Ifge(to) => Ok(branch_on_int(shape, to)),
        Instr::Ifgt(to) => Ok(branch_on_int(shape, to)),
        Instr::Ifle(to) => Ok(branch_on_int(shape, to)),
        Instr::IfIcmpeq(to) => Ok(branch_on_ints(shape, to)),
        Instr::IfIcmpne(to) => Ok(branch_on_ints(shape, to)),
        Instr::IfIcmplt(to) => Ok(branch_on_ints(shape, to)),
        Instr::IfIcmpge(to) => Ok(branch_on_ints(shape, to)),
        Instr::IfIcmpgt(to) => Ok(branch_on_ints(shape, to)),
        Instr::IfIcmple(to) => Ok(branch_on_ints(shape, to)),
        Instr::IfAcmpeq(to) => Ok(branch_on_references(shape, to)),
        Instr::IfAcmpne(to) => Ok(branch_on_references(shape, to)),
        Instr::Ifnull(to) => Ok(branch_on_reference(shape, to)),
        Instr::Ifnonnull(to) => Ok(branch_on_reference(shape, to)),
        Instr::Goto(to) => Ok(Step::Jump(to)),
        Instr::ArrayLength => array_to_int(shape),
        Instr::Out => push(shape, Kind::Ref(PRINT_STREAM)),
        Instr::GetStatic(slot) => get_static(shape, program, slot),
        Instr::PutStatic(slot) => Ok(put_static(shape, program, slot)),
        Instr::GetField { class, place } => get_field(shape, program, class, place),
        Instr::PutField { class, place } => Ok(put_field(shape, program, class, place)),
        Instr::Iaload => load_item(shape),
        Instr::Iastore => Ok(store_item(shape)),
        Instr::New(class) => push(shape, Kind::Ref(class)),
        Instr::NewArray => int_to(shape, Kind::Arr),
        Instr::MonitorEnter => Ok(take(shape, program, Kind::Ref(OBJECT))),
        Instr::MonitorExit => Ok(take(shape, program, Kind::Ref(OBJECT))),
        Instr::Athrow => Ok(throw(shape, program)),
        Instr::InvokeStatic(callee) => call_static(shape, program, callee),
        Instr::InvokeVirtual(callee) => call_on(shape, program, callee),
        Instr::InvokeSpecial(callee) => call_on(shape, program, callee),
        Instr::RunOf(class) => Ok(take(shape, program, Kind::Ref(class))),
        Instr::Wait => Ok(take(shape, program, Kind::Ref(OBJECT))),
        Instr::Notify => Ok(take(shape, program, Kind::Ref(OBJECT))),
        Instr::NotifyAll => Ok(take(shape, program, Kind::Ref(OBJECT))),
        Instr::Start => Ok(take(shape, program, Kind::Ref(THREAD))),
        Instr::Join => Ok(take(shape, program, Kind::Ref(THREAD))),
        Instr::Yield => Ok(Step::Next),
        Instr::Init { class, text: true } => {
            Ok(take_two(shape, program, Kind::Ref(class), Kind::Ref(STRING)))
        }
        Instr::Init { class, text: false } => Ok(take(shape, program, Kind::Ref(class))),
        Instr::InitRunnable => Ok(take_two(shape, program, Kind::Ref(THREAD), Kind::Ref(RUNNABLE))),
        Instr::Println => Ok(take(shape, program, Kind::Ref(PRINT_STREAM))),
        Instr::PrintInt { .. } => Ok(print_int(shape, program)),
        Instr::PrintText { .. } => Ok(take_two(
            shape,
            program,
            Kind::Ref(PRINT_STREAM),
            Kind::Ref(STRING),
        )),
        Instr::Return => Ok(return_nothing(shape, program, method.gives)),
        Instr::Ireturn => Ok(return_int(shape, program, method.gives)),
        Instr::Areturn => Ok(return_reference(shape, program, method.gives)),
    }
}

fn arguments_of(program: &Program, callee: u32) -> usize
    ensures { result ≡ arguments_of_method (method_at program.now callee) }
{
    match program.method(callee) {
        Some(method) => {
            if method.is_static {
                method.params.len()
            } else {
                method.params.len() + 1
            }
        }
        None => 0,
    }
}

/// How many operands an instruction takes (JVMS SE 8 §6.5).
fn operands_of(program: &Program, instr: Instr) -> usize
    ensures { result ≡ model_operands_of program.now instr }
{
    match instr {
        Instr::Nop => 0,
        Instr::Push(_) => 0,
        Instr::PushText(_) => 0,
        Instr::PushNull => 0,
        Instr::Iload(_) => 0,
        Instr::Istore(_) => 1,
        Instr::Aload(_) => 0,
        Instr::Astore(_) => 1,
        Instr::Iinc { .. } => 0,
        Instr::Pop => 1,
        Instr::Pop2 => 2,
        Instr::Dup => 1,
        Instr::DupX1 => 2,
        Instr::DupX2 => 3,
        Instr::Dup2 => 2,
        Instr::Swap => 2,
        Instr::Iadd => 2,
        Instr::Isub => 2,
        Instr::Imul => 2,
        Instr::Ineg => 1,
        Instr::Idiv => 2,
        Instr::Irem => 2,
        Instr::Ishl => 2,
        Instr::Ishr => 2,
        Instr::Iushr => 2,
        Instr::Iand => 2,
        Instr::Ior => 2,
        Instr::Ixor => 2,
        Instr::Ifeq(_) => 1,
        Instr::Ifne(_) => 1,
        Instr::Iflt(_) => 1,
        Instr::Ifge(_) => 1,
        Instr::Ifgt(_) => 1,
        Instr::Ifle(_) => 1,
        Instr::IfIcmpeq(_) => 2,
        Instr::IfIcmpne(_) => 2,
        Instr::IfIcmplt(_) => 2,
        Instr::IfIcmpge(_) => 2,
        Instr::IfIcmpgt(_) => 2,
        Instr::IfIcmple(_) => 2,
        Instr::IfAcmpeq(_) => 2,
        Instr::IfAcmpne(_) => 2,
        Instr::Ifnull(_) => 1,
        Instr::Ifnonnull(_) => 1,
        Instr::Goto(_) => 0,
        Instr::ArrayLength => 1,
        Instr::Out => 0,
        Instr::GetStatic(_) => 0,
        Instr::PutStatic(_) => 1,
        Instr::GetField { .. } => 1,
        Instr::PutField { .. } => 2,
        Instr::Iaload => 2,
        Instr::Iastore => 3,
        Instr::New(_) => 0,
        Instr::NewArray => 1,
        Instr::MonitorEnter => 1,
        Instr::MonitorExit => 1,
        Instr::Athrow => 1,
        Instr::InvokeStatic(callee) => arguments_of(program, callee),
        Instr::InvokeVirtual(callee) => arguments_of(program, callee),
        Instr::InvokeSpecial(callee) => arguments_of(program, callee),
        Instr::RunOf(_) => 1,
        Instr::Wait => 1,
        Instr::Notify => 1,
        Instr::NotifyAll => 1,
        Instr::Start => 1,
        Instr::Join => 1,
        Instr::Yield => 0,
        Instr::Init { text: true, .. } => 2,
        Instr::Init { text: false, .. } => 1,
        Instr::InitRunnable => 2,
        Instr::Println => 1,
        Instr::PrintInt { .. } => 2,
        Instr::PrintText { .. } => 2,
        Instr::Return => 0,
        Instr::Ireturn => 1,
        Instr::Areturn => 1,
    }
}

/// Whether the instruction reads a local that isn't set, or that the method doesn't have.
fn is_unset(shape: &Shape, instr: Instr) -> bool
    ensures { result ≡ is_unset_by instr shape.now.locals }
{
    match instr {
        Instr::Iload(local) => shape.is_missing(local),
        Instr::Aload(local) => shape.is_missing(local),
        Instr::Iinc { local, .. } => shape.is_missing(local),
        _ => false,
    }
}

/// Why operands that are there don't do, if they don't.
fn refused_operand(shape: &Shape, instr: Instr) -> ShapeKind
    ensures { result ≡ refused_operand_of instr shape.now.stack }
{
    match instr {
        Instr::Istore(_) => match shape.top() {
            Some(Kind::Int) => ShapeKind::Limit,
            _ => ShapeKind::Kind,
        },
        Instr::Astore(_) => match shape.top() {
            Some(Kind::Int) => ShapeKind::Kind,
            Some(_) => ShapeKind::Limit,
            None => ShapeKind::Kind,
        },
        _ => ShapeKind::Kind,
    }
}

/// Why an instruction is refused, if it is.
fn refusal(shape: &Shape, program: &Program, instr: Instr) -> ShapeKind
    ensures { result ≡ model_refusal program.now instr shape.now }
{
    if shape.depth() < operands_of(program, instr) {
        ShapeKind::Depth
    } else if is_unset(shape, instr) {
        ShapeKind::Unset
    } else {
        refused_operand(shape, instr)
    }
}

/// How many operands a frame of the method may have.
pub fn stack_limit(method: &Method) -> u32
    ensures { result ≡ stack_limit_of method.now }
{
    method.max_stack.unwrap_or(MOST_OPERANDS)
}

/// A stack that is too deep is Limit, and a follower that is no instruction of the method FallsOff.
fn going(
    shape: &Shape,
    method: &Method,
    falls_off: bool,
    onward: Onward,
) -> Result<Onward, ShapeKind>
    ensures { BoundedSo result shape.now (model_going method.now shape.now falls_off (flow_to onward shape.now)) }
{
    if (stack_limit(method) as usize) < shape.depth() {
        Err(ShapeKind::Limit)
    } else if falls_off {
        Err(ShapeKind::FallsOff)
    } else {
        Ok(onward)
    }
}

/// Where control goes on, within the limits and the code of the method.
fn bounded(
    shape: &Shape,
    method: &Method,
    place: u32,
    why: ShapeKind,
    step: Step,
) -> Result<Onward, ShapeKind>
    requires place { place < 2 ^ 31 }
    ensures { BoundedSo result shape.now (model_bounded method.now place why (flow_of step shape.now)) }
{
    let len = method.code.len();
    let next_is_past = len <= place as usize + 1;
    match step {
        Step::Next => going(shape, method, next_is_past, Onward::Next),
        Step::Jump(to) => going(shape, method, len <= to as usize, Onward::Jump(to)),
        Step::Branch(to) => going(
            shape,
            method,
            next_is_past || len <= to as usize,
            Onward::Branch(to),
        ),
        Step::Leaves => Ok(Onward::Leaves),
        Step::Refused => Err(why),
    }
}

/// What the instruction at a place of this method, of this number, does to a shape: the shape becomes the one after it. After
/// an error the shape is unknown.
pub fn judge(
    program: &Program,
    number: u32,
    method: &Method,
    place: u32,
    instr: Instr,
    shape: &mut Shape,
) -> Result<Onward, Failure<ShapeKind>>
    requires is_method { method_at program.now number ≡ Some method.now }
    requires place { place < 2 ^ 31 }
    ensures { JudgedSo result shape.new (model_judged program.now number method.now place instr shape.old) }
{
    let why = refusal(shape, program, instr);
    let step = flow(shape, program, number, method, instr)?;
    match bounded(shape, method, place, why, step) {
        Ok(onward) => Ok(onward),
        Err(kind) => Err(Failure::Fault(kind)),
    }
}

// Steps of the thread alone.
ghost use Rattle.std.specs.Prelude.{◌≡◌, ◌≢◌, ◌+◌, ◌<◌, ◌≤◌, ◌^◌, length, IfOk, OnOk, OnErr, slice_get};
ghost use Rattle.vm_model.specs.declared.limits.TheConstants.{MOST_TEXT_BYTES};
ghost use Rattle.vm_model.specs.Program.{IsSmall, method_at};
ghost use Rattle.machine_model.specs.Frames.{Running, Plain};
ghost use Rattle.machine_model.specs.Effect.{action};
ghost use Rattle.machine_model.specs.LocalStep.{call_frames};
ghost use Rattle.frame_actions.specs.Acts.{plain, HasRoom, acted_of, after};
ghost use Rattle.local_machine.specs.Fields.{AreAtCalls, Stands, StandsUnless, callers, frames_of};
ghost use Rattle.local_machine.specs.Steps.{IsFollowed, IsOnTheWay, IsSettled, IsTried, IsWalked, LeadsOn, code_in, followed};

use crate::calls::{arity_at, enter, first_frame, give_back, reserve_caller};
use frame_actions::{Acted, Frame, act};
use std::alloc::Global;
use vm_model::{Instr, Lock, MOST_FRAMES, MOST_LOCAL_STEPS, NoMemory, Program};

/// The code of this method; none where there is no such method.
fn code_of(program: &Program, method: u32) -> &[Instr]
    ensures { result.now ≡ code_in (method_at program.now method) }
{
    match program.method(method) {
        Some(m) => m.code.as_slice(),
        None => &[],
    }
}

/// The instruction at this place of the code, if there is one.
fn instr_in(code: &[Instr], place: u32) -> Option<Instr>
    ensures { result ≡ slice_get code.now place }
{
    code.get(place as usize).copied()
}

/// What the instruction at the frame's place does, in the code of its method. A step of the thread alone changes the frame;
/// nothing else does.
fn act_at_place(frame: &mut Frame, program: &Program, code: &[Instr]) -> Acted
    requires small { IsSmall program.now }
    requires few { length program.now.methods ≤ MOST_TEXT_BYTES }
    requires room { HasRoom frame.old }
    requires code { code.now ≡ code_in (method_at program.now frame.old.method) }
    ensures acted { result ≡ acted_of (action program.now (plain frame.old)) }
    ensures frame { plain frame.new ≡ after (action program.now (plain frame.old)) (plain frame.old) }
    ensures stands { Stands result frame.new }
    ensures method { frame.new.method ≡ frame.old.method }
{
    match instr_in(code, frame.place) {
        Some(instr) => act(frame, program, instr),
        None => Acted::Undefined,
    }
}

/// Calls this method from the top frame.
fn call(
    alloc: Global,
    program: &Program,
    method: u32,
    lock: Option<Lock>,
    top: &mut Frame,
    below: &mut Vec<Frame>,
    spares: &mut Vec<Frame>,
) -> Result<(), NoMemory>
    requires place { top.old.place < 2 ^ 31 }
    requires below { AreAtCalls (callers below.old.items) }
    ensures ok { OnOk result (frames_of top.new below.new.items ≡ call_frames program.now method lock (plain top.old) (callers below.old.items)) }
    ensures err { OnErr result (frames_of top.new below.new.items ≡ frames_of top.old below.old.items) }
    ensures below { AreAtCalls (callers below.new.items) }
{
    let taken = arity_at(program, method);
    let Ok(()) = below.reserve(1) else {
        return Err(NoMemory);
    };
    let callee = first_frame(
        alloc,
        program,
        method,
        top.stack.arguments(taken),
        lock,
        spares,
    )?;
    enter(callee, taken, top, below);
    Ok(())
}

/// What is left of a step of the thread alone once its instruction did this to the top frame: a call or a return. False where
/// there is no step; nothing is changed then.
fn follow(
    alloc: Global,
    program: &Program,
    acted: Acted,
    top: &mut Frame,
    below: &mut Vec<Frame>,
    spares: &mut Vec<Frame>,
) -> Result<bool, NoMemory>
    requires stands { Stands acted top.old }
    requires below { AreAtCalls (callers below.old.items) }
    ensures ok { IfOk result (λ made. IsFollowed (followed program.now acted (plain top.old) (callers below.old.items)) (frames_of top.old below.old.items) made (frames_of top.new below.new.items)) }
    ensures stands { IfOk result (λ made. StandsUnless made acted top.new) }
    ensures err { OnErr result ((acted ≢ Acted.Goes) × (frames_of top.new below.new.items ≡ frames_of top.old below.old.items)) }
    ensures below { AreAtCalls (callers below.new.items) }
{
    match acted {
        Acted::Goes => Ok(true),
        Acted::Calls(method, lock) => {
            if lock.is_some() {
                return Ok(false);
            }
            if below.len() >= MOST_FRAMES - 1 {
                return Ok(false);
            }
            call(alloc, program, method, lock, top, below, spares)?;
            Ok(true)
        }
        Acted::Gives(given) => {
            if top.lock.is_some() {
                return Ok(false);
            }
            reserve_caller(below)?;
            Ok(give_back(given, top, below, spares))
        }
        _ => Ok(false),
    }
}

/// Makes steps of this frame alone until its instruction makes none, or until `MOST_LOCAL_STEPS` were made since the last
/// reply. It answers what the instruction does then, which is not done yet, or `Goes` where so many steps were made.
fn walk(frame: &mut Frame, program: &Program, steps: &mut u32) -> Result<Acted, NoMemory>
    requires small { IsSmall program.now }
    requires few { length program.now.methods ≤ MOST_TEXT_BYTES }
    requires steps { steps.old ≤ MOST_LOCAL_STEPS }
    ensures ok { IfOk result (λ acted. IsWalked program.now (plain frame.new) steps.new acted) }
    ensures stands { IfOk result (λ acted. Stands acted frame.new) }
    ensures way { LeadsOn program.now (plain frame.old) steps.old (plain frame.new) steps.new }
    ensures tried { IfOk result (λ acted. IsTried program.now (plain frame.old) steps.old (plain frame.new) acted) }
    ensures more { steps.old ≤ steps.new }
    ensures steps { steps.new ≤ MOST_LOCAL_STEPS }
{
    let code = code_of(program, frame.method);
    while *steps < MOST_LOCAL_STEPS {
        frame.reserve()?;
        let acted = act_at_place(frame, program, code);
        if !matches!(acted, Acted::Goes) {
            return Ok(acted);
        }
        *steps += 1;
    }
    Ok(Acted::Goes)
}

/// What the instruction of the top frame does, which is not changed: the instruction is tried on a copy of it.
pub fn look(alloc: Global, program: &Program, top: &mut Frame) -> Result<Acted, NoMemory>
    requires small { IsSmall program.now }
    requires few { length program.now.methods ≤ MOST_TEXT_BYTES }
    ensures acted { IfOk result (λ acted. acted ≡ acted_of (action program.now (plain top.old))) }
    ensures frame { plain top.new ≡ plain top.old }
    ensures stands { IfOk result (λ acted. Stands acted top.new) }
{
    top.reserve()?;
    let mut copy = top.copy(alloc)?;
    let mut steps = MOST_LOCAL_STEPS - 1;
    walk(&mut copy, program, &mut steps)
}

/// Makes steps of the thread alone until there is none, or until `MOST_LOCAL_STEPS` were made since the last reply. It answers what the
/// instruction of the top frame does then, which is not done yet.
pub fn settle(
    alloc: Global,
    program: &Program,
    top: &mut Frame,
    below: &mut Vec<Frame>,
    spares: &mut Vec<Frame>,
    steps: &mut u32,
) -> Result<Acted, NoMemory>
    requires small { IsSmall program.now }
    requires few { length program.now.methods ≤ MOST_TEXT_BYTES }
    requires steps { steps.old ≤ MOST_LOCAL_STEPS }
    requires below { AreAtCalls (callers below.old.items) }
    ensures ok { IfOk result (λ acted. IsSettled program.now (Running (frames_of top.old below.old.items) Plain) steps.old (plain top.new) (callers below.new.items) steps.new acted) }
    ensures stands { IfOk result (λ acted. Stands acted top.new) }
    ensures err { OnErr result (IsOnTheWay program.now (Running (frames_of top.old below.old.items) Plain) steps.old (Running (frames_of top.new below.new.items) Plain) steps.new) }
    ensures steps { steps.new ≤ MOST_LOCAL_STEPS }
    ensures below { AreAtCalls (callers below.new.items) }
{
    loop {
        let acted = walk(top, program, steps)?;
        if *steps == MOST_LOCAL_STEPS {
            return look(alloc, program, top);
        }
        if !follow(alloc, program, acted, top, below, spares)? {
            return Ok(acted);
        }
        *steps += 1;
    }
}

// Calls and returns.
ghost use Rattle.std.specs.Prelude.{◌≡◌, ◌+◌, ◌-◌, ◌<◌, ◌≤◌, ◌^◌, ◌∷◌, ◌++◌, [], length, drop, replicate, IfOk, OnOk, OnErr, vec_len, vec_capacity, reverse};
ghost use Rattle.vm_model.specs.declared.limits.TheConstants.{MOST_LOCALS};
ghost use Rattle.vm_model.specs.declared.value.Value.TheVariants as Value;
ghost use Rattle.vm_model.specs.Program.{method_at};
ghost use Rattle.machine_model.specs.Operands.{jump};
ghost use Rattle.machine_model.specs.LocalStep.{arity_at as model_arity_at, locals_at as model_locals_at, first_frame as model_first_frame, call_frames};
ghost use Rattle.frame_actions.specs.Acts.{plain};
ghost use Rattle.local_machine.specs.Fields.{AreAtCalls, CallerHasRoom, callers, frames_of};
ghost use Rattle.local_machine.specs.Returns.{GaveBack};

use frame_actions::{Frame, Stack};
use std::alloc::Global;
use std::mem;
use vm_model::{Lock, MOST_LOCALS, NoMemory, Program, Value};

/// How many frames that are done a thread keeps, for the room that they have.
const MOST_SPARE_FRAMES: usize = 8;

/// As many nulls as a frame has locals at most, so that a frame's are copied.
static NULLS: [Value; MOST_LOCALS as usize] = [Value::Null; MOST_LOCALS as usize];

/// How many operands a call of this method takes; none where there is no such method.
pub fn arity_at(program: &Program, method: u32) -> usize
    ensures { result ≡ model_arity_at (method_at program.now method) }
{
    match program.method(method) {
        Some(m) => {
            if m.is_static {
                m.params.len()
            } else {
                m.params.len() + 1
            }
        }
        None => 0,
    }
}

/// How many locals a frame of this method has; none where there is no such method.
fn locals_at(program: &Program, method: u32) -> u32
    ensures { result ≡ model_locals_at (method_at program.now method) }
{
    match program.method(method) {
        Some(m) => m.max_locals.unwrap_or(MOST_LOCALS),
        None => 0,
    }
}

/// Room for locals and for operands: that of a frame that is done, where one is kept.
fn emptied(alloc: Global, spares: &mut Vec<Frame>) -> (Vec<Value>, Stack)
    ensures locals { result.0.items ≡ [] }
    ensures operands { result.1.values ≡ [] }
{
    let Some(mut spare) = spares.pop() else {
        return (Vec::new(alloc), Stack::new(alloc));
    };
    spare.locals.clear();
    spare.stack.clear();
    (spare.locals, spare.stack)
}

/// So many nulls.
fn nulls(count: usize) -> &'static [Value]
    requires { count ≤ MOST_LOCALS }
    ensures { result.now ≡ replicate count Value.Null }
{
    &NULLS[..count]
}

/// Puts nulls after the locals until there are so many, where there are fewer.
fn add_nulls(locals: &mut Vec<Value>, len: usize) -> Result<(), NoMemory>
    ensures { OnOk result (locals.new.items ≡ locals.old.items ++ replicate (len - length locals.old.items) Value.Null) }
{
    let missing = len.saturating_sub(locals.len());
    let made = if missing <= MOST_LOCALS as usize {
        locals.extend_from_slice(nulls(missing))
    } else {
        locals.resize(len, Value::Null)
    };
    match made {
        Ok(()) => Ok(()),
        Err(_) => Err(NoMemory),
    }
}

/// The first frame of a call: the receiver and the arguments, and null in the other locals. It has the room of a frame that
/// is done, where one is kept.
pub fn first_frame(
    alloc: Global,
    program: &Program,
    method: u32,
    arguments: &[Value],
    lock: Option<Lock>,
    spares: &mut Vec<Frame>,
) -> Result<Frame, NoMemory>
    ensures { IfOk result (λ f. plain f ≡ model_first_frame program.now method arguments.now lock) }
{
    let (mut locals, stack) = emptied(alloc, spares);
    let Ok(()) = locals.extend_from_slice(arguments) else {
        return Err(NoMemory);
    };
    add_nulls(&mut locals, locals_at(program, method) as usize)?;
    Ok(Frame {
        method,
        place: 0,
        locals,
        stack,
        lock,
    })
}

/// No frame yet, and room for those that are kept.
pub fn no_spares(alloc: Global) -> Result<Vec<Frame>, NoMemory>
    ensures { IfOk result (λ spares. spares.items ≡ []) }
{
    match Vec::with_capacity(alloc, MOST_SPARE_FRAMES) {
        Ok(spares) => Ok(spares),
        Err(_) => Err(NoMemory),
    }
}

/// Keeps the room of a frame that is done for the next call, where there is a place for it. It takes no memory.
fn keep(frame: Frame, spares: &mut Vec<Frame>) {
    if spares.len() < spares.capacity() {
        spares.push_reserved(frame);
    }
}

/// Puts the frame of a call on top, whose caller gives so many operands. It takes no memory.
pub fn enter(callee: Frame, taken: usize, top: &mut Frame, below: &mut Vec<Frame>)
    requires room { vec_len below.old < vec_capacity below.old }
    requires place { top.old.place < 2 ^ 31 }
    requires below { AreAtCalls (callers below.old.items) }
    ensures frames { frames_of top.new below.new.items ≡ plain callee ∷ jump (plain top.old) top.old.place (drop taken top.old.stack.values) ∷ callers below.old.items }
    ensures below { AreAtCalls (callers below.new.items) }
{
    top.stack.remove(taken);
    let caller = mem::replace(top, callee);
    below.push_reserved(caller);
}

/// Makes room on the caller's stack, if there is a caller.
pub fn reserve_caller(below: &mut Vec<Frame>) -> Result<(), NoMemory>
    ensures frames { callers below.new.items ≡ callers below.old.items }
    ensures room { OnOk result (CallerHasRoom (reverse below.new.items)) }
{
    let Some(mut caller) = below.pop() else {
        return Ok(());
    };
    let made = caller.stack.reserve();
    below.push_reserved(caller);
    made
}

/// Gives back to the caller, whose instruction is done with it; false, and no change, where there is no caller. The room of
/// the frame that is done is kept for the next call. It takes no memory.
pub fn give_back(
    given: Option<Value>,
    top: &mut Frame,
    below: &mut Vec<Frame>,
    spares: &mut Vec<Frame>,
) -> bool
    requires room { CallerHasRoom (reverse below.old.items) }
    requires below { AreAtCalls (callers below.old.items) }
    ensures gave { GaveBack given top.old below.old.items result top.new below.new.items }
    ensures below { AreAtCalls (callers below.new.items) }
{
    let Some(mut caller) = below.pop() else {
        return false;
    };
    match given {
        Some(value) => caller.stack.push(value),
        None => {}
    }
    caller.place += 1;
    keep(mem::replace(top, caller), spares);
    true
}

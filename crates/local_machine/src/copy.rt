// Copies.
ghost use Rattle.std.specs.Prelude.{◌≡◌, ◌<◌, IfOk, vec_len, vec_capacity, reverse};
ghost use Rattle.local_machine.specs.Fields.{CallerHasRoom, callers, completion_of};

use crate::completion::Completion;
use frame_actions::Frame;
use std::alloc::Global;
use vm_model::NoMemory;

/// The same frames again, each with room for an instruction, and room for one more.
pub fn copy_frames(alloc: Global, frames: &[Frame]) -> Result<Vec<Frame>, NoMemory>
    ensures frames { IfOk result (λ copies. callers copies.items ≡ callers frames.now) }
    ensures room { IfOk result (λ copies. CallerHasRoom (reverse copies.items)) }
    ensures more { IfOk result (λ copies. vec_len copies < vec_capacity copies) }
{
    let mut copies = Vec::new(alloc);
    for frame in frames {
        let copy = frame.copy(alloc)?;
        let Ok(()) = copies.push(copy) else {
            return Err(NoMemory);
        };
    }
    let Ok(()) = copies.reserve(1) else {
        return Err(NoMemory);
    };
    Ok(copies)
}

/// The same again.
pub fn copy_completion(alloc: Global, completion: &Completion) -> Result<Completion, NoMemory>
    ensures { IfOk result (λ copy. completion_of copy ≡ completion_of completion.now) }
{
    match completion {
        Completion::Nothing => Ok(Completion::Nothing),
        Completion::Begins => Ok(Completion::Begins),
        Completion::Takes(taken) => Ok(Completion::Takes(*taken)),
        Completion::Calls(taken, callee) => {
            let Ok(callee) = Box::new(alloc, callee.copy(alloc)?) else {
                return Err(NoMemory);
            };
            Ok(Completion::Calls(*taken, callee))
        }
        Completion::Gives(given) => Ok(Completion::Gives(*given)),
    }
}

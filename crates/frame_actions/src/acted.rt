// What an instruction does.
ghost use Rattle.std.specs.Prelude.{◌≡◌};
ghost use Rattle.frame_actions.specs.Acts.{goes_if};

use vm_model::{FaultKind, Lock, Op, Value};

/// What an instruction does to the frame that stands at it.
#[derive(Clone, Copy, Debug, PartialEq, Eq)]
pub enum Acted {
    /// It is done: the frame stands at its next instruction.
    Goes,
    /// It calls the method of this number, which enters the lock first if it is synchronized.
    Calls(u32, Option<Lock>),
    /// The frame gives back this value, or none.
    Gives(Option<Value>),
    /// It asks for this operation, and takes so many operands once the reply is there.
    Asks(Op, usize),
    Fails(FaultKind),
    /// An operand is missing or of another kind, which verified code never meets.
    Undefined,
}

/// What an instruction does that is done, or that missed an operand.
pub fn goes_if(done: bool) -> Acted
    ensures { result ≡ goes_if done }
{
    if done { Acted::Goes } else { Acted::Undefined }
}

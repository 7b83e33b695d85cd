// What is left to do once the reply to an operation is there.
use frame_actions::Frame;
use vm_model::{Op, Value};

/// What is left to do once the reply to an operation is there.
#[derive(Drop)]
pub enum Completion {
    Nothing,
    /// The lock of the first method is entered, and its first instruction comes next.
    Begins,
    /// So many operands go, the value of the reply comes, and the next instruction is reached.
    Takes(usize),
    /// So many operands go, and this frame is put on top.
    Calls(usize, Box<Frame>),
    /// The frame gives back this value or none.
    Gives(Option<Value>),
}

/// The operation that a thread asks for, if it asks for one, and what is left to do once the reply is there.
#[derive(Drop)]
pub struct Ready {
    pub op: Option<Op>,
    pub completion: Completion,
}

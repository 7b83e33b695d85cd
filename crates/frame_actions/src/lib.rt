//! The frames of a thread, and what each instruction does to the frame that stands at it.
#![tactic(auto)]

mod accessing;
mod acted;
mod acting;
mod arithmetic;
mod calling;
mod frame;
mod jumping;
mod moving;
mod stack;

pub use acted::Acted;
pub use acting::act;
pub use calling::{lock_if, run_method};
pub use frame::Frame;
pub use stack::Stack;

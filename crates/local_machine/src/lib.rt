//! One thread by itself: it runs the instructions that touch nothing shared, stops at the next operation, and goes on after
//! the reply.
#![tactic(auto)]

mod calls;
mod completion;
mod copy;
mod local;
mod phase;
mod reach;
mod reply;
mod step;

pub use local::Local;

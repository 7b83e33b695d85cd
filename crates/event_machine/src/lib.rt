//! The machine on one thread: one event after another, each a turn of a thread.
#![tactic(auto)]

mod machine;
mod threads;

pub use machine::{Machine, Next, TurnFault};
pub use threads::{first_thread, started_thread};

//! What makes the difference between a run of a program that passes and one that fails.
#![tactic(auto)]

mod program;
mod refusal;

pub use program::{end_of_run, isolate_program};
pub use refusal::IsolationRefusal;

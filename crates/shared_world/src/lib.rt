//! The world that the threads share: statics, objects and arrays, monitors, threads, output and fault. Each operation on it
//! is one event of its history.
#![tactic(auto)]

mod enabled;
mod heap;
mod rows;
mod state;
mod world;

pub use machine_model::RowState;
pub use world::{ApplyFault, LockState, World};

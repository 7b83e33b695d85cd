//! Tests of schedules: what a run shows against a fault, and rounds of several tests.
#![tactic(auto)]

mod judging;
mod memo;
mod resuming;
mod serial;
mod side;
mod starter;
mod wide;

pub use judging::outcome;
pub use serial::SerialRounds;
pub use wide::WideRounds;

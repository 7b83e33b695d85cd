//! The gate that records: lanes commit their operations on one world, one after another, and each knows a beginning of the one
//! history that they make. No lane waits for another one in here.
#![tactic(auto)]

mod answers;
mod gate;
mod judging;
mod offers;
mod plays;
mod rule;
mod seat;
mod steps;
#[cfg(test)]
mod tests;
mod world_gate;

pub use answers::Committing;
pub use gate::RecordGate;
pub use rule::{RecordView, Setup};
pub use seat::RecordSeat;

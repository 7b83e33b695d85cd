//! The gate of a replay: lanes on several processors make the events of a log again, in its order. The clock and the world
//! stand in one table, and each lane works with a seat of its own.
#![tactic(auto)]

mod gate;
pub mod laws;
mod offers;
mod places;
mod steps;
mod thread_at;
mod turning;
mod turns;
mod view;
mod world_gate;

pub use gate::{ReplayGate, ReplaySeat};
pub use gate_core::Begun;
pub use turning::Turning;
pub use view::{ReplayView, Terms};

#[cfg(test)]
mod tests;

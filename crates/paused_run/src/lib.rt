//! Runs of schedules that pause, and go on under other schedules.
#![tactic(auto)]

pub mod laws;
mod paused;
mod waiting;

pub use paused::Paused;

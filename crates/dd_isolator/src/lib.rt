//! Isolation of a failure between a passing and a failing schedule, by delta debugging on the shifts of single switch times.
#![tactic(auto)]

mod batches;
mod fault;
pub mod laws;
mod round;
mod search;
mod shifts;
mod state;

pub use batches::{MOST_IN_BATCH, NumberedTests, batch};
pub use fault::IsolateFault;
pub use search::isolate;

//! Schedules of thread switches, what their runs show against a fault, and tests of them in rounds.
#![tactic(auto)]

mod isolated;
pub mod laws;
mod outcome;
mod rounds;
mod schedule;

pub use isolated::Isolated;
pub use outcome::Outcome;
pub use rounds::{Found, Rounds};
pub use schedule::Schedule;

//! Schedules of thread switches: their files, the runs that they lead to, and where they come from.
#![tactic(auto)]

mod derive;
mod fault;
pub mod laws;
mod reading;
mod run;
mod search;
mod writing;

pub use derive::{DeriveFault, schedule_of};
pub use fault::{ScheduleFault, ScheduleKind};
pub use reading::read_schedule;
pub use run::{Ran, run_schedule};
pub use search::{Sought, seek};
pub use writing::write_schedule;

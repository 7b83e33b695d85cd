//! The monitors of the machine: which thread owns a lock and how often it entered it, and which threads wait.
#![tactic(auto)]

mod monitor;
mod table;

pub use table::{MonitorTable, Owned, Waited};

//! Runs of a program by lanes, each on a thread of its own, over a gate before one world.
#![tactic(auto)]

mod fresh;
mod gather;
mod machine;
mod record;
mod replay;
mod run;
mod seats;
mod table;

pub use machine::machine_by_lanes;
pub use record::record_lanes;
pub use replay::replay_lanes;

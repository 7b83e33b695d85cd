//! Recording and replay of a program on one thread of the tool's own.
#![tactic(auto)]

mod record;
mod replay;
mod switches;

pub use record::{DriverFault, Recording, record_on, record_schedule, record_still};
pub use replay::{ReplayFault, replay_on, replay_still, replay_until};
pub use switches::{in_order, places_at};

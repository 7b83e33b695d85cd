//! What lanes and gates know of each other. Lanes carry a program's threads on several processors; a gate puts their
//! operations in one order; each lane has a seat at the gate.
#![tactic(auto)]

mod gate;
mod meeting;
mod world_gate;

pub use gate::{Begun, Gate, Offer};
pub use meeting::{Meeting, NoMeeting};
pub use world_gate::WorldGate;

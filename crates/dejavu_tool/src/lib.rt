//! The tool: what each command does, over a folder and a sink.
#![tactic(auto)]

mod checking;
mod derivation;
mod drilling;
mod isolating;
pub mod laws;
mod racing;
mod recording;
mod reducing;
mod replaying;
mod running;
mod seeking;
mod showing;
mod tiling;
mod top;

pub use tool_stages::{ProgramFault, Status, accept, linked_program};
pub use top::{dejavu, still_command};

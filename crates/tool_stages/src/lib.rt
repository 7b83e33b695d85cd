//! The stages that commands share: files are loaded, a program is accepted, a text is stored, and how a command halts.
#![tactic(auto)]

mod halt;
pub mod laws;
pub mod lines;
mod loading;
mod programs;
mod status;
mod storing;

pub use halt::Halt;
pub use loading::{load_log, load_program, load_schedule, program_of};
pub use programs::{ProgramFault, accept, linked_program};
pub use status::Status;
pub use storing::store_file;

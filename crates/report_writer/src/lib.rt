//! The texts that the tool prints.
#![tactic(auto)]

mod isolation;
mod names;
mod races;
mod reduced;
mod report;
mod state;
mod tiles;

pub use isolation::isolated_text;
pub use names::{put, put_method, put_number};
pub use races::races_text;
pub use reduced::reduced_text;
pub use report::{end_text, put_counted, run_text};
pub use state::state_text;
pub use tiles::tiles_text;

#[cfg(test)]
mod tests;

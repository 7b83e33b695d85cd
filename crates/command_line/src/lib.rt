//! The words of the command line: which command they ask for, and with which values. One clap command for each first word
//! reads them.
#![tactic(auto)]

mod apps;
mod command;
mod values;

pub use command::{Command, command_in};

#[cfg(test)]
mod tests;

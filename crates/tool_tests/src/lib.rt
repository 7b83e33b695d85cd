//! Tests of the tool as a whole: commands over folders and sinks in memory, lanes beside each other, and machines of accepted
//! programs. The rows of commands and the programs that they are tried on are public, since `hunt_tests` has such rows too.
#![tactic(auto)]

pub mod commands;
#[cfg(test)]
mod lanes;
#[cfg(test)]
mod machines;

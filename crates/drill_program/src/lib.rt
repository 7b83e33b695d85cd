//! The drill: a program with a known number of events, for trying the tool itself.
#![tactic(auto)]

mod text;

pub use text::drill_text;

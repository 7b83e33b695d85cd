//! From classes as text to a linked program: each name gets its number, or the first fault is named.
#![tactic(auto)]

mod bodies;
mod declarations;
mod fault;
mod instructions;
mod least;
mod linking;
mod program;

pub use fault::LinkFault;
pub use linking::link;

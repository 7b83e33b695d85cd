//! The classes of a program text, as text still: names aren't numbers yet. Or the first line that breaks the grammar.
#![tactic(auto)]

mod assembly;
mod fault;
mod grammar;
mod labels;
mod read;

pub use fault::ReadFault;
pub use read::read_classes;

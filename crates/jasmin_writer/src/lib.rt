//! The canonical text of classes, as bytes: text that reads as the same classes again.
#![tactic(auto)]

mod writing;

pub use writing::write_classes;

//! What the world knows of the program whose threads share it: classes, statics and text constants. From them it follows
//! what is declared where, which value may be kept there, and which reply may be one to an operation.
#![tactic(auto)]

mod copying;
mod kinds;
mod replies;
mod start;

pub use start::{Start, start_of};

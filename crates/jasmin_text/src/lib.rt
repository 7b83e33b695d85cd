//! The tokens of a program text: words, numbers, strings and ends of lines, each with where it stands, or the first fault of
//! the text.
#![tactic(auto)]

mod fault;
mod numbers;
mod piece;
mod place;
mod strings;
mod text;
mod token;
mod words;

pub use fault::{TextFault, TextKind};
pub use text::tokens;
pub use token::{Token, TokenKind};

//! The lines of a program text, each read alone: its words, and what they say. Or the least of the line's faults.
#![tactic(auto)]

mod class_text;
mod directives;
mod fault;
mod form;
mod instructions;
mod lexeme;
mod mnemonic;
mod names;
mod tables;
mod words;

pub use class_text::{CatchText, ClassText, FieldText, LineText, MethodText, NameAt, Operand};
pub use fault::ReadKind;
pub use form::{Form, form_of};
pub use lexeme::{Lexeme, Line, lines_of};
pub use names::{is_class_name, last_slash};
pub use tables::row_of;
pub use words::{is, is_word};

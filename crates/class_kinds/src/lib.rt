//! Classes of a program, their supers, and which kind may stand for which (JVMS SE 8 §4.10.1.2).
#![tactic(auto)]

mod kinds;

pub use kinds::{is_among_supers, is_assignable, is_runnable, is_thread, super_of, user_class};

//! Laws of verified programs: what they never do (JVMS SE 8 §4.10). Each function does nothing: its contract is the law.
#![tactic(auto)]

mod laws;

pub use laws::{
    first_states_fit, local_steps_fit, operands_are_found, replies_fit, runs_fit,
    verified_program_begins, worlds_fit,
};

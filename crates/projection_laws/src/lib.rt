//! Laws of histories. Each function does nothing: its contract is the law.
#![tactic(auto)]

mod laws;

pub use laws::{
    legal_projections_are_a_run, run_is_legal_with_projections, targets_stand_in_the_history,
};

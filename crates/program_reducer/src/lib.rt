//! A failing schedule of a program with no switch that its failure doesn't need.
#![tactic(auto)]

mod program;
mod refusal;

pub use program::reduce_program;
pub use refusal::ReductionRefusal;

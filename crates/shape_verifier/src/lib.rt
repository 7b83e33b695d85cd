//! Verification: a closed table of shapes for each method of a program, or the first instruction at which there is none
//! (JVMS SE 8 §4.10, in the project's own profile).
#![tactic(auto)]

mod declared;
mod fault;
mod flow;
mod laws;
mod passing;
mod step;
mod verifying;

pub use fault::ShapeFault;
pub use laws::{
    flow_is_monotone, pass_ends, pass_ends_one_way, pass_stays_below, pass_that_ends_gives_table,
    pass_that_stops_shows_none, short_stack_is_depth, tables_verify,
};
pub use shape_lattice::ShapeKind;
pub use verifying::{Room, Shaped, verify};

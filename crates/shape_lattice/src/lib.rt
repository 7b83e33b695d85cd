//! Shapes of a frame, which may be taken for which, and how two meet (JVMS SE 8 §4.10.1.2 and §4.10.2.2, in the project's
//! own profile).
#![tactic(auto)]

mod fault;
mod kinds;
mod laws;
mod merging;
mod shape;

pub use fault::ShapeKind;
pub use kinds::is_assignable;
pub use laws::{merging_is_least, taking_is_an_order, taking_is_merging_that_changes_nothing};
pub use merging::{merge, takes};
pub use shape::Shape;

//! The order of happens-before in a history of events (Lamport 1978; JLS SE 8 §17.4.5), by vector clocks (Mattern 1989; Fidge
//! 1988), and the data races that it leaves.
#![tactic(auto)]

mod accesses;
mod clocks;
mod detection;
mod laws;
mod order;
mod owner;
mod place;
mod race;
mod vector_clock;

pub use detection::races;
pub use laws::{
    before_is_a_strict_order, clocks_tell_order, history_has_one_report,
    legal_history_names_what_is_there, one_thread_is_in_order,
};
pub use order::happens_before;
pub use place::Place;
pub use race::Race;

#[cfg(test)]
mod tests;

//! Lanes run the threads of a program beside each other, over a gate that puts their operations in one order.
#![tactic(auto)]

mod lane;
mod pace;
mod part;
mod round;
mod slot;
mod work;

pub use lane::Lane;
pub use pace::{LaneEnd, MOST_IDLE};
pub use work::lane_work;

//! Which thread made each event of a run, as intervals of clocks, and the file that keeps them.
//!
//! A run's events are numbered by a clock from 0. A logical schedule interval (Choi and Srinivasan 1998) is a stretch of
//! neighbouring clocks of one thread. A log has the maximal intervals of a run, in order of `first`: they tile its
//! clocks, and two in a row are of two threads.
#![tactic(auto)]

mod fault;
mod folding;
mod interval;
pub mod laws;
mod log;
mod placing;
mod reading;
mod writing;

pub use fault::{LogFault, LogKind};
pub use folding::Folding;
pub use interval::Interval;
pub use log::Log;
pub use reading::decode;
pub use writing::encode;

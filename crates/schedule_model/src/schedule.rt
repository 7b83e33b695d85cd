//! Schedules.

use std::marker::Model;

/// A list of switch times: before the event with the clock `time` the current thread moves on by one place round the ring of
/// live threads, as often as `time` stands in the list. The order of the times doesn't matter, and a time that no event of
/// the run has does nothing (Choi and Zeller 2002).
#[derive(Debug, Drop)]
pub struct Schedule {
    /// Clocks, from 0 to 1,048,576; at most 16,384 of them.
    pub times: Vec<u32>,
}

impl Model for Schedule {
    ghost use Rattle.std.specs.Prelude.{List, ℕ};

    ghost Value = { List ℕ };

    ghost view = { λ s. s.times.items };
}

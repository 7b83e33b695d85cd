//! What an isolation answers.

use crate::schedule::Schedule;

/// What an isolation found: a schedule that passes and one that fails alike, of the same number of times. A place that one
/// of them doesn't need is filled with a time that no event of the run has.
#[derive(Debug, Drop)]
pub struct Isolated {
    /// It passes.
    pub pass: Schedule,
    /// It fails alike.
    pub fail: Schedule,
    /// By how many unit shifts they differ: each moves one switch by one clock.
    pub units: u64,
    /// How many tests counted.
    pub asked: u64,
    /// How many of those were unresolved.
    pub unresolved: u64,
}

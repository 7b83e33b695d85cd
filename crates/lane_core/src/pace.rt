/// After so many rounds over its threads in which nothing moved, neither in the lane nor elsewhere, a lane leaves.
pub const MOST_IDLE: u32 = 65_536;

/// Why a lane stopped.
#[derive(Clone, Copy, Debug, PartialEq, Eq)]
pub enum LaneEnd {
    /// Its threads have ended, or its seat was told that nothing is left to do, or nothing moved for long. The lane is where
    /// its seat says.
    Left,
    /// Memory was missing. A thread may stand elsewhere than its seat says, so the run can't go on.
    NoMemory,
}

/// How far one thread of a lane, or all, went on.
#[derive(Clone, Copy, Debug, PartialEq, Eq)]
pub enum Pace {
    /// It asks for nothing any more.
    Ended,
    /// It made no event, but it may later.
    Still,
    /// It made an event.
    Moved,
}

//! Why the bytes of a file spell no schedule.

ghost use Rattle.std.specs.Prelude.{◌≡◌};

/// What is wrong with a line of a file that should be a schedule. Lines are judged in order, each in the order of these
/// kinds, and the first fault is answered.
#[derive(Clone, Copy, Debug, PartialEq, Eq)]
pub enum ScheduleKind {
    /// The line isn't a number of 1 to 7 decimal digits without a leading zero.
    BadNumber,
    /// 16,384 lines stand before it.
    TooManySwitches,
    /// Its number is above the number of events.
    PastBudget,
    /// No line feed ends it.
    Trailing,
}

impl ScheduleKind {
    ghost use Rattle.switch_schedule.specs.Texts.{kind_number};

    /// The number from 1 to 4 by which the kind is printed.
    pub fn number(&self) -> u8
        ensures { result ≡ kind_number self.now }
    {
        match self {
            ScheduleKind::BadNumber => 1,
            ScheduleKind::TooManySwitches => 2,
            ScheduleKind::PastBudget => 3,
            ScheduleKind::Trailing => 4,
        }
    }
}

/// Why no schedule was read.
#[derive(Clone, Copy, Debug, PartialEq, Eq)]
pub enum ScheduleFault {
    /// The first line that is wrong, by its first byte, counted from 0. Of a line, `Trailing` is judged first, then
    /// `TooManySwitches`, `BadNumber`, `PastBudget`.
    At { kind: ScheduleKind, offset: u64 },
    /// Memory was not found; the bytes may spell a schedule.
    NoMemory,
}

//! Why the bytes of a file spell no log.

ghost use Rattle.std.specs.Prelude.{◌≡◌};

/// What is wrong with a file that should be a log. Kinds are judged while the bytes are read from left to right.
#[derive(Clone, Copy, Debug, PartialEq, Eq)]
pub enum LogKind {
    /// A byte of the first four isn't that of `DJVL`: at that byte.
    Magic,
    /// The fifth byte isn't 1, the version: at that byte.
    Version,
    /// A byte that should be read is missing: at the file's length.
    Short,
    /// A number isn't in its shortest LEB128 spelling: at the number's first byte.
    LongSpelling,
    /// An interval shares a clock with one before it in the file: at the interval's first number.
    Overlap,
    /// A clock below the greatest `last` is in no interval: after the last thread, where the end mark should be.
    Gap,
    /// An interval begins right after one of the same thread: at its first number.
    NotMaximal,
    /// A number has more than five bytes or is out of its range, or an interval reaches the budget: at the first byte of
    /// the number, in the last case of the interval's second number.
    Limit,
    /// The log has ended, and bytes follow: at the first of them.
    Trailing,
    /// The end mark is none of the four, or says that the budget was spent where fewer events were made: at the end mark.
    BadEnd,
}

impl LogKind {
    ghost use Rattle.schedule_log.specs.Faults.{kind_number};

    /// The number from 1 to 10 by which the kind is printed.
    pub fn number(&self) -> u8
        ensures { result ≡ kind_number self.now }
    {
        match self {
            LogKind::Magic => 1,
            LogKind::Version => 2,
            LogKind::Short => 3,
            LogKind::LongSpelling => 4,
            LogKind::Overlap => 5,
            LogKind::Gap => 6,
            LogKind::NotMaximal => 7,
            LogKind::Limit => 8,
            LogKind::Trailing => 9,
            LogKind::BadEnd => 10,
        }
    }
}

/// Why no log was read.
#[derive(Clone, Copy, Debug, PartialEq, Eq)]
pub enum LogFault {
    /// The first fault of the bytes from left to right, and the byte at which it stands, counted from 0. A byte that is
    /// missing stands at the file's length.
    At { kind: LogKind, offset: u64 },
    /// Memory was not found; the bytes may spell a log.
    NoMemory,
}

/// A fault, and how many bytes are left from its place on.
#[derive(Clone, Copy, Debug, PartialEq, Eq)]
pub struct Refusal {
    pub kind: LogKind,
    pub left: usize,
}

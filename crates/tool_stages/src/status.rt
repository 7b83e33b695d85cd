//! The statuses of the tool.

ghost use Rattle.std.specs.Prelude.{◌≡◌};
ghost use Rattle.tool_stages.specs.Statuses.{number_of};

/// How a command ended. `main` ends with its number.
#[derive(Clone, Copy, Debug, PartialEq, Eq)]
pub enum Status {
    /// The command did all that it says.
    Ok,
    /// The words are of no command.
    Usage,
    /// A file isn't there.
    Absent,
    /// The program isn't accepted.
    ProgramRefused,
    /// The bytes spell no log.
    LogRefused,
    /// The bytes spell no schedule for so many events, or a log's schedule would need more than 16,384 times.
    ScheduleRefused,
    /// The log doesn't run, or it ends otherwise than it says.
    Diverged,
    /// The run of the schedule that should pass doesn't.
    NotPassing,
    /// The run of the schedule that should fail ends in no fault.
    NotFailing,
    /// More tests are needed than allowed.
    TestsSpent,
    /// No try ended in a fault.
    NotFound,
    /// The folder failed to load a file.
    ReadFault,
    /// The folder failed to store a file, or the sink to take what is printed.
    WriteFault,
    /// Memory was not found. Nothing is printed.
    OutOfMemory,
}

impl Status {
    /// The exit status. It takes no memory.
    pub fn number(&self) -> u8
        ensures { result ≡ number_of self.now }
    {
        match self {
            Status::Ok => 0,
            Status::Usage => 2,
            Status::Absent => 3,
            Status::ProgramRefused => 4,
            Status::LogRefused => 5,
            Status::ScheduleRefused => 6,
            Status::Diverged => 7,
            Status::NotPassing => 8,
            Status::NotFailing => 9,
            Status::TestsSpent => 10,
            Status::NotFound => 11,
            Status::ReadFault => 12,
            Status::WriteFault => 13,
            Status::OutOfMemory => 14,
        }
    }
}

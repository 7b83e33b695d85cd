// Where a thread stands.
use vm_model::{FaultKind, Lock};

/// Where a thread stands between two replies.
#[derive(Clone, Copy, Debug, PartialEq, Eq)]
pub enum Phase {
    /// At the instruction of its top frame.
    Plain,
    /// Its first method is synchronized, and the lock isn't entered yet.
    Entering,
    /// Its last frame gave up its lock.
    Left,
    /// It waits on the lock, which it had entered so often.
    Waiting { lock: Lock, count: u32 },
    /// The last reply raised this fault.
    Raised(FaultKind),
    Ended,
}

//! What the gate answers.

use vm_model::Reply;

/// The answer to an operation. Only the first one changed the world.
#[derive(Clone, Copy, Debug, PartialEq, Eq)]
pub enum Turning {
    /// The operation is the event of this clock, below 1,048,576, and got this reply.
    Committed { clock: u64, reply: Reply },
    /// The clock that was found lies in no interval of the thread. It can be offered again.
    NotYet { clock: u64 },
    /// The clock lies in an interval of the thread, and the world has a fault, or the operation isn't enabled: the run isn't the
    /// one that the log is of.
    Differs { clock: u64 },
    /// It is the thread's turn, but memory for the event was missing. It can be offered again.
    NoMemory,
}

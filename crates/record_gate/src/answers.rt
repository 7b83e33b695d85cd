use vm_model::{End, Reply};

/// What came of an operation at the gate. Where it is no event, nothing was done.
#[derive(Clone, Copy, Debug, PartialEq, Eq)]
pub enum Committing {
    /// It is the event of this clock, from 0 and below the budget, and got this reply.
    Committed { clock: u64, reply: Reply },
    /// Another seat held the gate.
    Busy,
    /// It isn't enabled now.
    Blocked,
    /// The run has ended: a fault is marked, or all threads that were started have ended.
    Over(End),
    /// All events of the budget were made.
    Spent,
    /// The world had no memory for it.
    NoMemory,
}

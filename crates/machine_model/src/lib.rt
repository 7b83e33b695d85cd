//! The definitions of the machine: local steps, the shared world, turns, runs and ends. They stand in `specs/`; here are
//! the few plain types that they share with the code, and laws of the monitors.
#![tactic(auto)]

pub mod laws;

use vm_model::{Lock, ObjRef};

/// Where a thread that was started stands. All but `Ended` count as live.
#[derive(Clone, Copy, Debug, PartialEq, Eq)]
pub enum RowState {
    Live,
    /// It waits on a lock, and wasn't notified yet.
    Waiting,
    /// It was notified, and hasn't taken the lock again yet.
    Notified,
    Ended,
}

/// What a thread that waits or was notified needs to go on: the lock, and how often the thread had entered it.
#[derive(Clone, Copy, Debug, PartialEq, Eq)]
pub struct Kept {
    pub lock: Lock,
    pub count: u32,
}

/// A thread that was started: where it stands, and the object that was started. The first thread has none.
#[derive(Clone, Copy, Debug, PartialEq, Eq)]
pub struct Row {
    pub state: RowState,
    pub target: Option<ObjRef>,
    pub kept: Option<Kept>,
}

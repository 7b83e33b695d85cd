//! What a run shows against a fault.

/// What the run of a schedule shows against a given fault (Zeller and Hildebrandt 2002).
#[derive(Clone, Copy, Debug, PartialEq, Eq)]
pub enum Outcome {
    /// All threads that were started have ended.
    Pass,
    /// It ended in the very fault: of the same kind, thread, method and instruction.
    Fail,
    /// It ended in any other way.
    Unresolved,
}

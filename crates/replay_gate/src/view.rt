//! What is known at the gate, for the proofs alone.

use schedule_log::Log;
use std::collections::LinkedList;
use vm_model::Entry;
use world_start::Start;

/// What a gate was made with: the start of the program, the log that is replayed, and the number of lanes, from 1 to 16.
#[derive(Drop)]
pub struct Terms {
    pub start: Start,
    pub log: Log,
    pub lanes: u32,
}

/// What a seat knows, as contracts speak of it. No value of it is made.
pub struct ReplayView {
    pub start: Start,
    pub log: Log,
    /// Of how many lanes the gate is.
    pub lane_count: u32,
    /// The lanes that the seat has.
    pub lanes: LinkedList<u32>,
    /// The lanes that it may still give.
    pub spare: LinkedList<u32>,
    /// A beginning of the history.
    pub seen: LinkedList<Entry>,
    /// What a seat that was joined into this one had seen, or this one before it: a beginning of `seen`.
    pub heard: LinkedList<Entry>,
    /// The lanes of the seat that had seen it.
    pub heard_lanes: LinkedList<u32>,
    /// The clock that was loaded last.
    pub clock: u64,
    /// How often the clock was loaded.
    pub loads: u64,
    /// It is in the midst of a call that has found its thread's clock, and has the world.
    pub has_turn: bool,
    /// Another seat took in all that this one had.
    pub spent: bool,
}

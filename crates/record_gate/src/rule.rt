use atomic_table::TableRule;
use shared_world::World;
use std::collections::LinkedList;
use vm_model::Entry;
use world_start::Start;

/// What a gate is told once, when it is made: the program's start, the budget of events, and the number of lanes.
#[derive(Drop)]
pub struct Setup {
    pub start: Start,
    pub events: u64,
    pub lanes: u32,
}

/// What a seat knows of its gate. It is for contracts alone, and no value of it is made.
pub struct RecordView {
    /// What the gate was told.
    pub start: Start,
    pub events: u64,
    pub lane_count: u32,
    /// The lanes that the seat has, and those that it may still give.
    pub lanes: LinkedList<u32>,
    pub spare: LinkedList<u32>,
    /// The lane that it gives next.
    pub giving: u32,
    /// A beginning of the history.
    pub seen: LinkedList<Entry>,
    /// While a seat is taken in: the lanes that it had, and what it had seen.
    pub heard_lanes: LinkedList<u32>,
    pub heard: LinkedList<Entry>,
    /// Whether it has the gate. Then it has seen the whole history.
    pub holds: bool,
    /// How often it found the gate taken, and how often free.
    pub missed: u64,
    pub got: u64,
    /// The clock that it loaded last, and how often it loaded one.
    pub clock: u64,
    pub looks: u64,
}

/// All seats know beginnings of one legal history, which is that of the world behind the gate, and no two of them have one lane.
pub struct OneHistory;

impl TableRule<Option<World>, RecordView, Setup> for OneHistory {
    ghost use Rattle.record_gate.specs.Rule.{IsKept};
    ghost use Rattle.record_gate.specs.Views.{first_view};

    ghost holds = { IsKept };

    ghost first = { first_view };
}

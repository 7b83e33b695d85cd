use crate::rule::RecordView;
use atomic_table::Seat;
use shared_world::World;
use std::marker::Model;

/// A lane's token at a gate that it shares with other lanes. It knows a beginning of the one history that they make, with all
/// entries of its own lanes.
#[derive(Drop)]
pub struct RecordSeat {
    pub(crate) seat: Seat<Option<World>, RecordView>,
    /// Whether it was told that its lanes have nothing left to do.
    pub(crate) is_told_off: bool,
}

impl Model for RecordSeat {
    ghost use Rattle.record_gate.specs.Seats.{SeatState};

    ghost Value = { SeatState };

    ghost use Rattle.record_gate.specs.SeatView.{view_of, IsIdle};

    ghost view = { view_of };

    ghost invariant = { IsIdle };
}

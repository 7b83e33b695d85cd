use crate::place::Place;

/// Two accesses of one place that no order keeps apart, one of them a write. `first` and `second` are clocks: numbers of
/// events in the history, from 0, of which the first is the lower one. The threads are those of the two events.
#[derive(Clone, Copy, Debug, PartialEq, Eq)]
pub struct Race {
    pub place: Place,
    pub first: u64,
    pub first_thread: u32,
    pub second: u64,
    pub second_thread: u32,
}

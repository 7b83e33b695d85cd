/// A logical schedule interval (Choi and Srinivasan 1998): the clocks from `first` to `last`, both of them, were events
/// of one thread. Clocks count the events of a run from 0. In a log `first` is at most `last`, and the thread is below 64.
#[derive(Clone, Copy, Debug, PartialEq, Eq)]
pub struct Interval {
    pub thread: u32,
    pub first: u64,
    pub last: u64,
}

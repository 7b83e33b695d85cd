/// What is called around the offers of a lane. A test can hold a lane up here, so that another one comes first; it can't
/// change anything else of the run.
pub trait Meeting: Sync {
    /// Before an offer of this lane, with the clock of the next event as far as the lane knows.
    fn before_offer(&self, lane: u32, clock: u64);

    /// After an operation of this lane became the event of this clock.
    fn after_commit(&self, lane: u32, clock: u64);
}

/// Does nothing: what a lane meets outside of tests.
#[derive(Clone, Copy, Debug)]
pub struct NoMeeting;

impl Meeting for NoMeeting {
    fn before_offer(&self, _lane: u32, _clock: u64) {}

    fn after_commit(&self, _lane: u32, _clock: u64) {}
}

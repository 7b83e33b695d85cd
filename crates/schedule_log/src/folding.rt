ghost use Rattle.std.specs.Prelude.{◌≡◌, ◌+◌, ◌<◌, ◌≤◌, [], ◌∷◌, ◌++◌, All, IsOk, OnOk};

use crate::interval::Interval;
use std::alloc::Global;
use std::marker::Model;
use vm_model::NoMemory;

/// The intervals of one thread while its run goes on: each of its clocks is noted, and either makes the last interval
/// one longer or begins one.
///
/// Room for an interval is taken apart from noting a clock, so that noting can't fail.
#[derive(Debug, Drop)]
pub struct Folding {
    thread: u32,
    intervals: Vec<Interval>,
}

impl Model for Folding {
    ghost use Rattle.schedule_log.specs.Foldings.{PlainFolding};

    ghost Value = { PlainFolding };

    ghost use Rattle.schedule_log.specs.FoldingView.{view_of, IsKept};

    ghost view = { view_of };

    ghost invariant = { IsKept };
}

impl Folding {
    ghost use Rattle.schedule_log.specs.Intervals.{clocks};
    ghost use Rattle.schedule_log.specs.Foldings.{IsMaximal};

    /// A folding of a thread of which no clock was noted. It takes no memory, so it has no room yet.
    pub fn new(alloc: Global, thread: u32) -> Folding
        ensures { result ≡ record { thread = thread; intervals = []; room = 0 } }
    {
        Folding {
            thread,
            intervals: Vec::new(alloc),
        }
    }

    /// Makes room for one more interval, where there is none. Where memory is missing the folding stays as it was.
    pub fn reserve(&mut self) -> Result<(), NoMemory>
        ensures room { OnOk result (1 ≤ self.new.room) }
        ensures spare { 1 ≤ self.old.room → IsOk result }
        ensures kept { self.old.room ≤ self.new.room }
        ensures thread { self.new.thread ≡ self.old.thread }
        ensures intervals { self.new.intervals ≡ self.old.intervals }
    {
        if self.intervals.len() < self.intervals.capacity() {
            return Ok(());
        }
        self.intervals.reserve(1)?;
        Ok(())
    }

    /// Adds a clock of the thread, which is greater than all that were noted. Each clock asks for room once, and the
    /// room stays where the clock follows directly on the last one.
    pub fn note(&mut self, clock: u64)
        requires rising { All (λ noted. noted < clock) (clocks self.old.intervals) }
        requires room { 1 ≤ self.old.room }
        ensures clocks { clocks self.new.intervals ≡ clocks self.old.intervals ++ clock ∷ [] }
        ensures maximal { IsMaximal self.new }
        ensures thread { self.new.thread ≡ self.old.thread }
        ensures room { self.old.room ≤ self.new.room + 1 }
    {
        let count = self.intervals.len();
        if count > 0 && self.intervals[count - 1].last + 1 == clock {
            self.intervals[count - 1].last = clock;
            return;
        }
        self.intervals.push_reserved(Interval {
            thread: self.thread,
            first: clock,
            last: clock,
        });
    }

    /// The number of the thread.
    pub fn thread(&self) -> u32
        ensures { result ≡ self.now.thread }
    {
        self.thread
    }

    /// The maximal runs of neighbouring clocks among those noted, in rising order.
    pub fn intervals(&self) -> &[Interval]
        ensures items { result.now ≡ self.now.intervals }
        ensures maximal { IsMaximal self.now }
    {
        &self.intervals
    }
}

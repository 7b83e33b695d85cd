ghost use Rattle.std.specs.Prelude.{◌≡◌, ℕ, ◌+◌, ◌<◌, ◌≤◌, ◌↔◌, ◌⊎◌, ◌≢◌, length};
ghost use Rattle.race_report.specs.Clocks.{time, nothing};

use std::marker::Model;
use vm_model::MOST_THREADS;

/// A vector clock (Mattern 1989; Fidge 1988): for each thread one more than the position of its last event that is
/// known, or 0 where none is.
#[derive(Clone, Copy, Debug)]
pub struct VectorClock {
    times: [u32; MOST_THREADS as usize],
}

impl Model for VectorClock {
    ghost use Rattle.std.specs.Prelude.{◌≡◌, length};
    ghost use Rattle.vm_model.specs.declared.limits.TheConstants.{MOST_THREADS};
    ghost use Rattle.race_report.specs.Clocks.{Times};

    ghost Value = { Times };

    ghost view = { λ c. record { times = c.times } };

    ghost inverse = { λ v. record { times = v.times } };

    ghost invariant = { λ c. length c.times ≡ MOST_THREADS };
}

/// The greater one, which knows what either knows.
fn later(a: u32, b: u32) -> u32
    ensures either { (n : ℕ) → (n < result) ↔ ((n < a) ⊎ (n < b)) }
{
    if a < b { b } else { a }
}

impl VectorClock {
    /// The clock that knows nothing.
    pub fn new() -> VectorClock
        ensures empty { result ≡ nothing }
    {
        VectorClock {
            times: [0; MOST_THREADS as usize],
        }
    }

    /// One more than the position of the thread's last event that is known, or 0.
    pub fn time(&self, thread: u32) -> u32
        requires thread { thread < MOST_THREADS }
        ensures time { result ≡ time self.now thread }
    {
        self.times[thread as usize]
    }

    /// Knows a thread's events up to another one.
    pub fn set(&mut self, thread: u32, to: u32)
        requires thread { thread < MOST_THREADS }
        ensures at { time self.new thread ≡ to }
        ensures others { (t : ℕ) → t ≢ thread → time self.new t ≡ time self.old t }
    {
        self.times[thread as usize] = to;
    }

    /// Knows what either knows.
    pub fn join(&mut self, other: &VectorClock)
        ensures joined { (t n : ℕ) → (n < time self.new t) ↔ ((n < time self.old t) ⊎ (n < time other.now t)) }
    {
        for t in 0..MOST_THREADS as usize {
            self.times[t] = later(self.times[t], other.times[t]);
        }
    }
}

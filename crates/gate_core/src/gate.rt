ghost use Rattle.std.specs.Prelude.{◌≡◌, ◌≤◌, ◌<◌, ◌%◌, Contains};
ghost use Rattle.gate_core.specs.Gates.{is_leave, is_over};

use std::alloc::Global;
use vm_model::{ObjRef, Op, Reply};

/// The answer to an operation that a lane offers.
#[derive(Clone, Copy, Debug, PartialEq, Eq)]
pub enum Offer {
    /// It is the event of this clock, below 1,048,576, and got this reply.
    Committed { clock: u64, reply: Reply },
    /// Not now. Nothing was done; it can be offered again.
    Again,
    /// Nothing was done, and the lane has nothing left to do: the run is over, or it goes on without lanes.
    Leave,
    /// Nothing was done.
    NoMemory,
}

impl Offer {
    /// Whether the lane has nothing left to do.
    pub fn is_leave(self) -> bool
        ensures { result ≡ is_leave self }
    {
        match self {
            Offer::Leave => true,
            Offer::Committed { .. } => false,
            Offer::Again => false,
            Offer::NoMemory => false,
        }
    }
}

/// Whether a thread was started.
#[derive(Clone, Copy, Debug, PartialEq, Eq)]
pub enum Begun {
    /// For this object, whose method `run` it runs.
    Yes(ObjRef),
    /// Not yet, as far as the gate tells now.
    NotYet,
    /// It was not, and the lane has nothing left to do.
    Over,
}

impl Begun {
    /// Whether the lane has nothing left to do.
    pub fn is_over(self) -> bool
        ensures { result ≡ is_over self }
    {
        match self {
            Begun::Over => true,
            Begun::Yes(_) => false,
            Begun::NotYet => false,
        }
    }
}

/// What puts the operations of several lanes in one order. A thread belongs to the lane of its number modulo the number of
/// lanes. Each lane works with a seat of its own at the gate; what the gate tells of a seat is what the lane may rely on,
/// whatever other lanes do at the same time.
pub trait Gate: Sync {
    ghost use Rattle.gate_core.specs.Seats.{GateView, SeatView, SeesMore};
    ghost use Rattle.gate_core.specs.Gates.{BegunSeen, BegunTellsOff, BegunTried, EntriesAfter, OfferTellsOff, OfferTried, SameEntries, StandsBelow};

    type Seat: Send + Drop;

    /// What the gate was made with.
    ghost about: { Self → GateView };

    /// What the gate tells of a seat.
    ghost told: { Self.Seat → SeatView };

    /// The seat was made by the gate.
    ghost IsSeatOf: { Self → Self.Seat → Type 0 };

    /// Offers the operation of a thread, 0 to 63, of one of the seat's lanes.
    fn offer(&self, alloc: Global, seat: &mut Self::Seat, thread: u32, op: Op) -> Offer
        requires seat { IsSeatOf self.now seat.old }
        requires lane { Contains (told seat.old).lanes (thread % (about self.now).lanes) }
        ensures seat { IsSeatOf self.now seat.new }
        ensures lanes { (told seat.new).lanes ≡ (told seat.old).lanes }
        ensures entries { EntriesAfter (thread % (about self.now).lanes) thread op (told seat.old) result (told seat.new) }
        ensures sees { SeesMore (told seat.old) (told seat.new) }
        ensures tries { (told seat.old).tries ≤ (told seat.new).tries }
        ensures tried { OfferTried (told seat.old) result (told seat.new) }
        ensures told_off { OfferTellsOff (told seat.old) result (told seat.new) };

    /// Asks whether a thread of one of the seat's lanes was started. It takes no memory.
    fn begun(&self, seat: &mut Self::Seat, thread: u32) -> Begun
        requires seat { IsSeatOf self.now seat.old }
        requires lane { Contains (told seat.old).lanes (thread % (about self.now).lanes) }
        ensures seat { IsSeatOf self.now seat.new }
        ensures lanes { (told seat.new).lanes ≡ (told seat.old).lanes }
        ensures entries { SameEntries (told seat.old) (told seat.new) }
        ensures sees { SeesMore (told seat.old) (told seat.new) }
        ensures target { BegunSeen thread result (told seat.new) }
        ensures tries { (told seat.old).tries ≤ (told seat.new).tries }
        ensures tried { BegunTried (told seat.old) result (told seat.new) }
        ensures told_off { BegunTellsOff (told seat.old) result (told seat.new) };

    /// The clock of the next event, as far as the gate tells now. Another lane may make that event before this one reads the
    /// answer. It takes no memory.
    fn clock(&self, seat: &mut Self::Seat) -> u64
        requires seat { IsSeatOf self.now seat.old }
        ensures seat { IsSeatOf self.now seat.new }
        ensures lanes { (told seat.new).lanes ≡ (told seat.old).lanes }
        ensures entries { SameEntries (told seat.old) (told seat.new) }
        ensures above { StandsBelow result (told seat.new) }
        ensures sees { SeesMore (told seat.old) (told seat.new) }
        ensures tries { (told seat.old).tries ≤ (told seat.new).tries }
        ensures told_off { (told seat.new).is_told_off ≡ (told seat.old).is_told_off };
}

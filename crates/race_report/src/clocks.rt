ghost use Rattle.std.specs.Prelude.{◌≡◌, ℕ, ◌+◌, ◌^◌, ◌<◌, ◌≤◌, ◌↔◌, ◌⊎◌, ◌≢◌, length, OnOk, IfOk, All, Contains, Some, slice_get, slice_index_or};
ghost use Rattle.vm_model.specs.declared.limits.TheConstants.{MOST_EVENTS, MOST_THREADS};
ghost use Rattle.vm_model.specs.declared.op.Op.TheVariants as operation;
ghost use Rattle.race_report.specs.declared.owner.ClockOwner.TheVariants as clock_owner;
ghost use Rattle.race_report.specs.declared.owner.ClockOwner.{ClockOwner as ClockOwnerOf};
ghost use Rattle.race_report.specs.declared.owner.ThreadStart.{ThreadStart as Start};
ghost use Rattle.race_report.specs.Clocks.{time};
ghost use Rattle.race_report.specs.Knowledge.{AreGiven, IsTaken, IsClockOf, started as started_by, given as given_by, taken as taken_by};
ghost use Rattle.race_report.specs.OwnersClocks.{clock_of as clock_by, IsTargetOf, AreKept};

use crate::owner::{ClockOwner, ThreadStart, given, started, taken};
use crate::vector_clock::VectorClock;
use std::alloc::Global;
use std::collections::HashMap;
use vm_model::{Entry, NoMemory, Op, Reply};

/// The clock of an owner, and where it has none the clock that knows nothing.
fn clock_of(clocks: &HashMap<ClockOwner, VectorClock>, owner: ClockOwner) -> VectorClock
    ensures clock { result ≡ clock_by clocks.now owner }
{
    match clocks.get(&owner) {
        Some(clock) => *clock,
        None => VectorClock::new(),
    }
}

/// An owner's clock knows from now on what another clock knows.
fn give(
    clocks: &mut HashMap<ClockOwner, VectorClock>,
    owner: ClockOwner,
    clock: &VectorClock,
) -> Result<(), NoMemory>
    ensures given { OnOk result (AreGiven (clock_by clocks.old) clock.now (λ c. c ≡ owner) (clock_by clocks.new)) }
{
    let mut own = clock_of(clocks, owner);
    own.join(clock);
    clocks.insert(owner, own)?;
    Ok(())
}

/// Gives a clock to the owner that an operation and its reply name, if they name one.
fn give_named(
    clocks: &mut HashMap<ClockOwner, VectorClock>,
    op: Op,
    reply: Reply,
    clock: &VectorClock,
) -> Result<(), NoMemory>
    ensures given { OnOk result (AreGiven (clock_by clocks.old) clock.now (λ c. given_by op reply ≡ Some c) (clock_by clocks.new)) }
{
    match given(op, reply) {
        Some(owner) => give(clocks, owner, clock),
        None => Ok(()),
    }
}

/// Gives a clock to the target of a start, where it is a start of the thread.
fn give_target(
    clocks: &mut HashMap<ClockOwner, VectorClock>,
    start: ThreadStart,
    thread: u32,
    clock: &VectorClock,
) -> Result<(), NoMemory>
    ensures given { OnOk result (AreGiven (clock_by clocks.old) clock.now (λ c. (start.thread ≡ thread) × (c ≡ clock_owner.Target start.object)) (clock_by clocks.new)) }
{
    if start.thread == thread {
        give(clocks, ClockOwner::Target(start.object), clock)
    } else {
        Ok(())
    }
}

/// Gives the clock of a thread's end to the targets with which the thread was started.
fn give_targets(
    clocks: &mut HashMap<ClockOwner, VectorClock>,
    starts: &[ThreadStart],
    thread: u32,
    clock: &VectorClock,
) -> Result<(), NoMemory>
    ensures given { OnOk result (AreGiven (clock_by clocks.old) clock.now (IsTargetOf starts.now (length starts.now) thread) (clock_by clocks.new)) }
{
    for start in starts {
        give_target(clocks, *start, thread, clock)?;
    }
    Ok(())
}

/// The same where an operation ends its thread.
fn give_at_end(
    clocks: &mut HashMap<ClockOwner, VectorClock>,
    starts: &[ThreadStart],
    op: Op,
    thread: u32,
    clock: &VectorClock,
) -> Result<(), NoMemory>
    ensures given { OnOk result (AreGiven (clock_by clocks.old) clock.now (λ c. (op ≡ operation.ThreadEnd) × IsTargetOf starts.now (length starts.now) thread c) (clock_by clocks.new)) }
{
    match op {
        Op::ThreadEnd => give_targets(clocks, starts, thread, clock),
        _ => Ok(()),
    }
}

/// A clock that also knows what the owner that an operation names knows.
fn join_named(clocks: &HashMap<ClockOwner, VectorClock>, op: Op, clock: VectorClock) -> VectorClock
    ensures joined { (t n : ℕ) → (n < time result t) ↔ ((n < time clock t) ⊎ ((c : ClockOwnerOf) × (taken_by op ≡ Some c) × (n < time (clock_by clocks.now c) t))) }
{
    match taken(op) {
        Some(owner) => {
            let mut joined = clock;
            joined.join(&clock_of(clocks, owner));
            joined
        }
        None => clock,
    }
}

/// The clock of an entry: its own position, and what it takes.
fn clock_at(clocks: &HashMap<ClockOwner, VectorClock>, entry: Entry, position: u32) -> VectorClock
    requires thread { entry.thread < MOST_THREADS }
    requires position { position + 1 < 2 ^ 32 }
    requires within { (c : ClockOwnerOf) (t : ℕ) → time (clock_by clocks.now c) t ≤ position }
    ensures clock { IsTaken (clock_by clocks.now) entry position result }
{
    let own = clock_of(clocks, ClockOwner::Thread(entry.thread));
    let mut clock = join_named(clocks, entry.op, own);
    clock.set(entry.thread, position + 1);
    clock
}

/// Keeps the start of a thread, if an operation and its reply are one.
fn keep_start(starts: &mut Vec<ThreadStart>, op: Op, reply: Reply) -> Result<(), NoMemory>
    ensures kept { OnOk result ((s : Start) → Contains starts.new.items s ↔ (Contains starts.old.items s ⊎ (started_by op reply ≡ Some s))) }
{
    if let Some(start) = started(op, reply) {
        starts.push(start)?;
    }
    Ok(())
}

/// The clock of the next entry of a history. The clocks of all owners go on by this entry.
pub fn advance(
    clocks: &mut HashMap<ClockOwner, VectorClock>,
    starts: &mut Vec<ThreadStart>,
    history: &[Entry],
    position: usize,
) -> Result<VectorClock, NoMemory>
    requires within { position < length history.now }
    requires few { length history.now ≤ MOST_EVENTS }
    requires threads { All (λ e. e.thread < MOST_THREADS) history.now }
    requires kept { AreKept history.now position clocks.old starts.old.items }
    ensures clock { IfOk result (λ clock. IsClockOf history.now position clock) }
    ensures kept { OnOk result (AreKept history.now (position + 1) clocks.new starts.new.items) }
{
    let entry = history[position];
    let clock = clock_at(clocks, entry, position as u32);
    give(clocks, ClockOwner::Thread(entry.thread), &clock)?;
    give_named(clocks, entry.op, entry.reply, &clock)?;
    give_at_end(clocks, starts, entry.op, entry.thread, &clock)?;
    keep_start(starts, entry.op, entry.reply)?;
    Ok(clock)
}

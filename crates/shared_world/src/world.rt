ghost use Rattle.std.specs.Prelude.{◌≡◌, ◌↔◌, ℕ, ◌≤◌, ◌<◌, length, slice_get, is_some, false, true, Ok, Err, None, Some, IsTrue, IsSome, OnOk, OnErr, IfOk};
ghost use Rattle.std.specs.List.{list_all};
ghost use Rattle.std.specs.Option.{option_map};
ghost use Rattle.vm_model.specs.declared.limits.TheConstants.{MOST_EVENTS, MOST_THREADS};

use crate::rows;
use crate::state::State;
use machine_model::RowState;
use std::alloc::Global;
use std::marker::Model;
use vm_model::{Entry, Fault, Lock, NoMemory, ObjRef, Op, Reply, Value};
use world_start::Start;

/// Why an operation was not done. Nothing was changed.
#[derive(Clone, Copy, Debug, PartialEq, Eq)]
pub enum ApplyFault {
    /// The operation isn't enabled.
    Blocked,
    NoMemory,
}

/// What is seen of a lock: the thread that owns it, how often that thread entered it, and how many threads wait on it.
#[derive(Clone, Copy, Debug, PartialEq, Eq)]
pub struct LockState {
    pub owner: Option<u32>,
    pub count: u32,
    pub waiters: u32,
}

/// The shared state of a run, and all events that led to it. The number of an event, its clock, is its place in the
/// history, from 0. What the program starts with and the budget never change.
#[derive(Debug, Drop)]
pub struct World {
    start: Start,
    budget: u64,
    shared: State,
    history: Vec<Entry>,
}

impl Model for World {
    ghost use Rattle.shared_world.specs.Worlds.{WorldState};

    ghost Value = { WorldState };

    ghost use Rattle.shared_world.specs.WorldView.{view_of, IsSound};

    ghost view = { view_of };

    ghost invariant = { IsSound };
}

impl World {
    ghost use Rattle.machine_model.specs.Shared.{words_of, is_live, monitor_at};
    ghost use Rattle.machine_model.specs.Operations.{is_enabled, apply, fits_reply, target_of, IsLegalHistory};
    ghost use Rattle.machine_model.specs.Machine.{has_ended};
    ghost use Rattle.monitor_table.specs.Locks.{monitor_of};
    ghost use Rattle.shared_world.specs.Worlds.{first_world, after, takes_memory};
    ghost use Rattle.shared_world.specs.Fitting.{FirstValuesFit, ValuesFit};
    ghost use Rattle.shared_world.specs.Reading.{state_of, lock_state_of};

    /// The world at the start of a program, with room for so many events, from 1 to `MOST_EVENTS`.
    pub fn new(alloc: Global, start: Start, events: u64) -> Result<World, NoMemory>
        requires some { 1 ≤ events }
        requires limit { events ≤ MOST_EVENTS }
        ensures { IfOk result (λ world. world ≡ first_world start events) }
    {
        let history = Vec::with_capacity(alloc, events as usize)?;
        let shared = State::new(alloc, &start)?;
        Ok(World {
            start,
            budget: events,
            shared,
            history,
        })
    }

    /// Whether the thread may do this now. It is false where the thread isn't live, where the operation names what doesn't
    /// exist, and where a value doesn't fit the place that it is for.
    pub fn enabled(&self, thread: u32, op: &Op) -> bool
        ensures { result ≡ is_enabled self.now.declarations self.now.shared thread op.now }
    {
        self.shared.is_enabled(&self.start, thread, *op)
    }

    /// Does an operation of the thread, which is the next event, and gives its reply. A reply `Raise` is an event too. Only
    /// New, NewArray, Print, Wait and Start take memory. After a refusal nothing is changed.
    pub fn apply(&mut self, alloc: Global, thread: u32, op: Op) -> Result<Reply, ApplyFault>
        requires room { length self.old.history < self.old.budget }
        requires running { self.old.shared.fault ≡ None }
        ensures reply { IfOk result (λ reply. reply ≡ (apply self.old.declarations self.old.shared thread op).reply) }
        ensures world { OnOk result (self.new ≡ after self.old thread op) }
        ensures refused { OnErr result (self.new ≡ self.old) }
        ensures blocked { (result ≡ Err ApplyFault.Blocked) ↔ (is_enabled self.old.declarations self.old.shared thread op ≡ false) }
        ensures memory { result ≡ Err ApplyFault.NoMemory → IsTrue (takes_memory op) }
        ensures legal { IsLegalHistory self.new.declarations self.new.history self.new.shared }
        ensures fits { IfOk result (λ reply. FirstValuesFit self.old.declarations → fits_reply self.old.declarations op reply ≡ true) }
    {
        if !self.shared.is_enabled(&self.start, thread, op) {
            return Err(ApplyFault::Blocked);
        }
        match self.make(alloc, thread, op) {
            Ok(reply) => Ok(reply),
            Err(_) => Err(ApplyFault::NoMemory),
        }
    }

    /// Does an operation of the thread that is known to be enabled, as `apply` does. After a refusal nothing is changed.
    pub fn make(&mut self, alloc: Global, thread: u32, op: Op) -> Result<Reply, NoMemory>
        requires room { length self.old.history < self.old.budget }
        requires running { self.old.shared.fault ≡ None }
        requires enabled { is_enabled self.old.declarations self.old.shared thread op ≡ true }
        ensures reply { IfOk result (λ reply. reply ≡ (apply self.old.declarations self.old.shared thread op).reply) }
        ensures world { OnOk result (self.new ≡ after self.old thread op) }
        ensures refused { OnErr result (self.new ≡ self.old) }
        ensures memory { OnErr result (IsTrue (takes_memory op)) }
        ensures legal { IsLegalHistory self.new.declarations self.new.history self.new.shared }
        ensures fits { IfOk result (λ reply. FirstValuesFit self.old.declarations → fits_reply self.old.declarations op reply ≡ true) }
    {
        match self.shared.apply(alloc, &self.start, thread, op) {
            Ok(reply) => {
                self.history.push_reserved(Entry { thread, op, reply });
                Ok(reply)
            }
            Err(_) => Err(NoMemory),
        }
    }

    /// An equal world, with room for its whole budget.
    pub fn copy(&self, alloc: Global) -> Result<World, NoMemory>
        ensures { IfOk result (λ world. world ≡ self.now) }
    {
        let mut history = Vec::with_capacity(alloc, self.budget as usize)?;
        history.extend_from_slice(self.history.as_slice())?;
        Ok(World {
            start: self.start.copy(alloc)?,
            budget: self.budget,
            shared: self.shared.copy(alloc)?,
            history,
        })
    }

    /// What the world knows of its program.
    pub fn start(&self) -> &Start
        ensures { result.now ≡ self.now.declarations }
    {
        &self.start
    }

    /// How many events may be made.
    pub fn budget(&self) -> u64
        ensures value { result ≡ self.now.budget }
        ensures limit { result ≤ MOST_EVENTS }
    {
        self.budget
    }

    /// All events, in order of clock. Each operation was enabled when it was done, and got its reply. Where the first values
    /// of the statics fit them, each static, field and item still holds a value of the kind that is declared for it.
    pub fn history(&self) -> &[Entry]
        ensures value { result.now ≡ self.now.history }
        ensures legal { IsLegalHistory self.now.declarations self.now.history self.now.shared }
        ensures fit { FirstValuesFit self.now.declarations → ValuesFit self.now.declarations self.now.shared }
        ensures within { length self.now.history ≤ self.now.budget }
    {
        self.history.as_slice()
    }

    /// The clock of the next event: how many were made.
    pub fn clock(&self) -> u64
        ensures value { result ≡ length self.now.history }
        ensures within { result ≤ self.now.budget }
    {
        self.history.len() as u64
    }

    /// All bytes that were printed.
    pub fn output(&self) -> &[u8]
        ensures { result.now ≡ self.now.shared.output }
    {
        self.shared.output()
    }

    /// The fault that ended the run, if one did.
    pub fn fault(&self) -> Option<Fault>
        ensures { result ≡ self.now.shared.fault }
    {
        self.shared.fault()
    }

    /// How many threads were started, the first one too: from 1 to 64. Their numbers are those below.
    pub fn rows(&self) -> u32
        ensures value { result ≡ length self.now.shared.rows }
        ensures some { 1 ≤ result }
        ensures few { result ≤ MOST_THREADS }
    {
        self.shared.rows().len() as u32
    }

    /// Where a thread that was started stands.
    pub fn row(&self, thread: u32) -> RowState
        requires { thread < length self.now.shared.rows }
        ensures { option_map state_of (slice_get self.now.shared.rows thread) ≡ Some result }
    {
        self.shared.rows()[thread as usize].state
    }

    /// Whether the thread was started and hasn't ended.
    pub fn is_live(&self, thread: u32) -> bool
        ensures { result ≡ is_live self.now.shared thread }
    {
        rows::is_live(self.shared.rows(), thread)
    }

    /// The object that a thread was started for. The first thread has none, nor has a number that isn't a thread's.
    pub fn target(&self, thread: u32) -> Option<ObjRef>
        ensures { result ≡ target_of (slice_get self.now.shared.rows thread) }
    {
        rows::target(self.shared.rows(), thread)
    }

    /// Whether all threads that were started have ended.
    pub fn all_ended(&self) -> bool
        ensures { result ≡ list_all has_ended self.now.shared.rows }
    {
        rows::all_ended(self.shared.rows())
    }

    /// Whether there is a static of this number.
    pub fn has_static(&self, slot: u32) -> bool
        ensures { IsTrue result ↔ (slot < length self.now.shared.statics) }
    {
        (slot as usize) < self.shared.statics().len()
    }

    /// What a static holds.
    pub fn static_value(&self, slot: u32) -> Value
        requires { slot < length self.now.shared.statics }
        ensures { slice_get self.now.shared.statics slot ≡ Some result }
    {
        self.shared.statics()[slot as usize]
    }

    /// Whether there is such a lock: one of an object, an array or a user class.
    pub fn has_lock(&self, lock: Lock) -> bool
        ensures { result ≡ is_some (monitor_at self.now.shared.monitors lock) }
    {
        self.shared.monitors().exists(lock)
    }

    /// What is seen of a lock.
    pub fn lock_state(&self, lock: Lock) -> LockState
        requires { IsSome (monitor_at self.now.shared.monitors lock) }
        ensures { result ≡ lock_state_of (monitor_of self.now.shared.monitors lock) }
    {
        let monitors = self.shared.monitors();
        LockState {
            owner: monitors.owner(lock),
            count: monitors.count(lock),
            waiters: monitors.waiters(lock),
        }
    }

    /// How many objects and arrays were made. Their ids are the numbers below.
    pub fn objects(&self) -> u32
        ensures { result ≡ length self.now.shared.heap }
    {
        self.shared.objects()
    }

    /// How many words the objects and arrays take: one each, and one for each field or item.
    pub fn words(&self) -> u32
        ensures { result ≡ words_of self.now.shared.heap }
    {
        self.shared.words()
    }
}

ghost use Rattle.std.specs.Prelude.{map, ◌≡◌, ◌^◌, ◌+◌, ◌++◌, ◌∷◌, [], None, Some, ◌<◌, ◌≤◌, ℕ, find, true, false, IfOk, IfErr, OnOk, OnErr, IfNone, IfSome, IsTrue, length, not, ◌-◌, ◌==◌};
ghost use Rattle.std.specs.List.{list_any, range_with_len};
ghost use Rattle.std.specs.Option.{option_or};
ghost use Rattle.vm_model.specs.declared.op.Entry.{Entry};
ghost use Rattle.vm_model.specs.declared.limits.TheConstants.{MOST_EVENTS, MOST_THREADS};
ghost use Rattle.vm_model.specs.Program.{PlainProgram};
ghost use Rattle.machine_model.specs.Shared.{is_live};
ghost use Rattle.machine_model.specs.Machine.{end_of, first_end, has_ended, is_enabled, start_machine, turn};
ghost use Rattle.machine_model.specs.Ring.{Cuts, moved_on, next_in_ring, pick, ring_after};
ghost use Rattle.machine_model.specs.Declarations.{declarations_of};
ghost use Rattle.projection_laws.specs.Projections.{AreProjections};
ghost use Rattle.event_machine.specs.MachineView.{AllReady, state_of, machine_from, may_do, pending_at, IsHistory, IsWhole};
ghost use Rattle.event_machine.specs.Turns.{AddsAtMostOne, IsNext};

use crate::threads::{copy_all, first_thread, go_on, operation_at, start};
use local_machine::Local;
use shared_world::World;
use std::alloc::Global;
use std::marker::Model;
use vm_model::{End, Entry, Fault, NoMemory, Op, Plain, Reply};
use world_start::start_of;

/// A machine that runs the threads of a program, one event at a time.
#[derive(Drop)]
pub struct Machine {
    world: World,
    locals: Vec<Local>,
    is_broken: bool,
}

impl Model for Machine {
    ghost use Rattle.event_machine.specs.MachineView.{MachineView};

    ghost Value = { MachineView };

    ghost view = { λ m. record { world = m.world; locals = m.locals.items; is_broken = m.is_broken } };
}

/// Why a turn was not made. Only after `NoMemory` something has changed: no further turn can be made then.
#[derive(Clone, Copy, Debug, PartialEq, Eq)]
pub enum TurnFault {
    /// The thread wasn't started, or it has ended.
    NotLive,
    /// The thread's operation isn't enabled.
    NotEnabled,
    /// The machine has an end.
    Over,
    NoMemory,
}

/// What comes next of a run.
#[derive(Clone, Copy, Debug, PartialEq, Eq)]
pub enum Next {
    /// The run has ended so.
    Ends(End),
    /// This thread makes the next event.
    Turns(u32),
}

/// Makes the next event, of a thread that asks for this operation, and gives the reply.
fn event_of(
    world: &mut World,
    locals: &mut Vec<Local>,
    alloc: Global,
    plain: &Plain,
    thread: u32,
    op: Op,
) -> Result<Reply, NoMemory>
    requires whole { IsWhole plain.now world.old locals.old.items }
    requires asks { pending_at locals.old.items thread ≡ Some op }
    requires enabled { IsTrue (may_do world.old thread (Some op)) }
    requires open { world.old.shared.fault ≡ None }
    requires left { length world.old.history < world.old.budget }
    ensures turned { OnOk result (turn plain.now (machine_from world.old locals.old.items) thread ≡ Some (machine_from world.new locals.new.items)) }
    ensures whole { OnOk result (IsWhole plain.now world.new locals.new.items) }
    ensures entry { IfOk result (λ reply. world.new.history ≡ world.old.history ++ record { thread = thread; op = op; reply = reply } ∷ []) }
    ensures history { IsHistory plain.now world.new.history }
    ensures budget { world.new.budget ≡ world.old.budget }
    ensures memory { OnErr result (AddsAtMostOne world.old.history thread world.new.history) }
{
    let Ok(reply) = world.make(alloc, thread, op) else {
        return Err(NoMemory);
    };
    go_on(locals, alloc, plain, thread as usize, reply)?;
    start(locals, alloc, plain, op, reply)?;
    Ok(reply)
}

/// The threads' own entries are those of one run. There is nothing to look at.
fn assembled(world: &World, locals: &[Local], plain: &Plain) -> bool
    requires declarations { world.now.declarations ≡ declarations_of plain.now }
    requires ready { AllReady plain.now locals.now }
    requires projections { AreProjections plain.now world.now.history world.now.shared (map state_of locals.now) }
    ensures whole { IsWhole plain.now world.now locals.now }
    ensures history { IsHistory plain.now world.now.history }
    ensures is { result ≡ true }
{
    world.history().len() as u64 == world.clock()
}

/// The end that comes first.
fn first_of(fault: Option<Fault>, done: bool, stuck: bool, spent: bool) -> Option<End>
    ensures first { result ≡ first_end fault done stuck spent }
    ensures open { IfNone result ((fault ≡ None) × (spent ≡ false)) }
{
    match fault {
        Some(fault) => Some(End::Fault(fault)),
        None => {
            if done {
                Some(End::Done)
            } else if stuck {
                Some(End::Stuck)
            } else if spent {
                Some(End::Spent)
            } else {
                None
            }
        }
    }
}

impl Machine {
    ghost use Rattle.event_machine.specs.MachineView.{IsMachineOf, machine_of, may_turn, shown_end, shown_pick};
    ghost use Rattle.event_machine.specs.Turns.{BreaksOff, Refuses, Turned};

    /// The machine at the start of a program, for so many events, from 1 to `MOST_EVENTS`.
    pub fn new(alloc: Global, plain: &Plain, events: u64) -> Result<Machine, NoMemory>
        requires some { 1 ≤ events }
        requires limit { events ≤ MOST_EVENTS }
        ensures start { IfOk result (λ m. machine_of m ≡ start_machine plain.now) }
        ensures own { IfOk result (IsMachineOf plain.now) }
        ensures budget { IfOk result (λ m. m.world.budget ≡ events) }
        ensures whole { IfOk result (λ m. m.is_broken ≡ false) }
    {
        let local = first_thread(alloc, plain)?;
        let world = World::new(alloc, start_of(alloc, plain)?, events)?;
        let mut locals = Vec::new(alloc);
        locals.push(local)?;
        Ok(Machine {
            world,
            locals,
            is_broken: false,
        })
    }

    /// The machine of a world and of threads that ran by themselves: each stands where its own entries in the world's history
    /// lead it. It takes no memory.
    pub fn assemble(plain: &Plain, world: World, locals: Vec<Local>) -> Machine
        requires declarations { world.declarations ≡ declarations_of plain.now }
        requires ready { AllReady plain.now locals.items }
        requires projections { AreProjections plain.now world.history world.shared (map state_of locals.items) }
        ensures parts { result ≡ record { world = world; locals = locals.items; is_broken = false } }
        ensures own { IsMachineOf plain.now result }
    {
        let legal = assembled(&world, &locals, plain);
        Machine {
            world,
            locals,
            is_broken: !legal,
        }
    }

    /// An equal machine.
    pub fn copy(&self, alloc: Global) -> Result<Machine, NoMemory>
        ensures { IfOk result (λ m. m ≡ self.now) }
    {
        Ok(Machine {
            world: self.world.copy(alloc)?,
            locals: copy_all(alloc, &self.locals)?,
            is_broken: self.is_broken,
        })
    }

    /// The world that the threads share. It takes no memory.
    pub fn world(&self) -> &World
        ensures { result.now ≡ self.now.world }
    {
        &self.world
    }

    /// Whether memory ran out in the middle of a turn. It takes no memory.
    pub fn is_broken(&self) -> bool
        ensures { result ≡ self.now.is_broken }
    {
        self.is_broken
    }

    /// Whether the thread was started and hasn't ended. It takes no memory.
    pub fn is_live(&self, thread: u32) -> bool
        ensures { result ≡ is_live self.now.world.shared thread }
    {
        self.world.is_live(thread)
    }

    /// The operation that a thread asks for.
    fn operation(&self, thread: u32) -> Option<Op>
        ensures { result ≡ pending_at self.now.locals thread }
    {
        operation_at(&self.locals, thread)
    }

    /// The operation that the thread asks for, where it is enabled.
    fn enabled_operation(&self, thread: u32) -> Option<Op>
        ensures asks { IfSome result (λ op. pending_at self.now.locals thread ≡ Some op) }
        ensures enabled { IfSome result (λ op. may_do self.now.world thread (Some op) ≡ true) }
        ensures none { IfNone result (may_turn self.now thread ≡ false) }
    {
        let op = self.operation(thread)?;
        if self.world().enabled(thread, &op) {
            Some(op)
        } else {
            None
        }
    }

    /// Whether the operation that the thread asks for is enabled.
    fn may_turn(&self, thread: u32) -> bool
        ensures { result ≡ may_turn self.now thread }
    {
        match self.enabled_operation(thread) {
            Some(_) => true,
            None => false,
        }
    }

    /// Whether the thread can make the next event, as far as its operation goes. It takes no memory.
    pub fn is_enabled(&self, thread: u32) -> bool
        requires { self.now.is_broken ≡ false }
        ensures shown { result ≡ may_turn self.now thread }
        ensures meaning { (p : PlainProgram) → IsMachineOf p self.now → result ≡ is_enabled p (machine_of self.now) thread }
    {
        self.may_turn(thread)
    }

    /// The first thread that can go on among `count` from this one on.
    fn first_enabled(&self, from: u32, count: u32) -> Option<u32>
        requires { from + count < 2 ^ 32 }
        ensures { result ≡ find (may_turn self.now) (range_with_len from count) }
    {
        if count == 0 {
            None
        } else if self.may_turn(from) {
            Some(from)
        } else {
            self.first_enabled(from + 1, count - 1)
        }
    }

    /// The first live thread among `count` from this one on.
    fn first_live(&self, from: u32, count: u32) -> Option<u32>
        requires { from + count < 2 ^ 32 }
        ensures { result ≡ find (is_live self.now.world.shared) (range_with_len from count) }
    {
        if count == 0 {
            None
        } else if self.is_live(from) {
            Some(from)
        } else {
            self.first_live(from + 1, count - 1)
        }
    }

    /// How many threads were started.
    fn thread_count(&self) -> u32
        ensures value { result ≡ length self.now.world.shared.rows }
        ensures few { result ≤ MOST_THREADS }
    {
        self.world().rows()
    }

    /// Whether no thread can go on.
    fn is_stuck(&self) -> bool
        ensures { result ≡ not (list_any (may_turn self.now) (range_with_len 0 (length self.now.world.shared.rows))) }
    {
        match self.first_enabled(0, self.thread_count()) {
            Some(_) => false,
            None => true,
        }
    }

    /// Whether all events of the budget were made.
    fn is_spent(&self) -> bool
        ensures value { result ≡ (length self.now.world.history == self.now.world.budget) }
        ensures left { result ≡ false → length self.now.world.history < self.now.world.budget }
    {
        self.world().clock() == self.world().budget()
    }

    /// How the machine ended, by what it shows.
    fn end_now(&self) -> Option<End>
        ensures shown { result ≡ shown_end self.now }
        ensures open { IfNone result (self.now.world.shared.fault ≡ None) }
        ensures left { IfNone result (length self.now.world.history < self.now.world.budget) }
    {
        first_of(
            self.world().fault(),
            self.world().all_ended(),
            self.is_stuck(),
            self.is_spent(),
        )
    }

    /// How the machine ended, if it did. It takes no memory.
    pub fn end(&self) -> Option<End>
        requires { self.now.is_broken ≡ false }
        ensures shown { result ≡ shown_end self.now }
        ensures meaning { (p : PlainProgram) → IsMachineOf p self.now → result ≡ end_of p (machine_of self.now) self.now.world.budget }
    {
        self.end_now()
    }

    /// How the machine ended, where this thread is enabled: then it isn't stuck, and not all threads have ended.
    fn end_beside_enabled(&self, thread: u32) -> Option<End>
        requires { may_turn self.now thread ≡ true }
        ensures shown { result ≡ shown_end self.now }
        ensures open { IfNone result (self.now.world.shared.fault ≡ None) }
        ensures left { IfNone result (length self.now.world.history < self.now.world.budget) }
    {
        first_of(self.world().fault(), false, false, self.is_spent())
    }

    /// How the machine ended, where no thread is enabled.
    fn end_without_enabled(&self) -> End
        requires { list_any (may_turn self.now) (range_with_len 0 (length self.now.world.shared.rows)) ≡ false }
        ensures { shown_end self.now ≡ Some result }
    {
        match self.world().fault() {
            Some(fault) => End::Fault(fault),
            None => {
                if self.world().all_ended() {
                    End::Done
                } else {
                    End::Stuck
                }
            }
        }
    }

    /// The number from which on the threads stand above this one.
    fn above(&self, thread: u32) -> u32
        ensures { Cuts thread (length self.now.world.shared.rows) result }
    {
        let count = self.thread_count();
        if thread < count { thread + 1 } else { count }
    }

    /// The first live thread from `low` on, else the first below it.
    fn first_live_round(&self, low: u32) -> Option<u32>
        requires { low ≤ length self.now.world.shared.rows }
        ensures { result ≡ option_or (find (is_live self.now.world.shared) (range_with_len low (length self.now.world.shared.rows - low))) (find (is_live self.now.world.shared) (range_with_len 0 low)) }
    {
        match self.first_live(low, self.thread_count() - low) {
            Some(thread) => Some(thread),
            None => self.first_live(0, low),
        }
    }

    /// The first thread from `low` on that can go on, else the first below it.
    fn first_enabled_round(&self, low: u32) -> Option<u32>
        requires { low ≤ length self.now.world.shared.rows }
        ensures { result ≡ option_or (find (may_turn self.now) (range_with_len low (length self.now.world.shared.rows - low))) (find (may_turn self.now) (range_with_len 0 low)) }
    {
        match self.first_enabled(low, self.thread_count() - low) {
            Some(thread) => Some(thread),
            None => self.first_enabled(0, low),
        }
    }

    /// The next live thread round the ring.
    fn next_in_ring(&self, thread: u32) -> u32
        ensures { result ≡ next_in_ring (machine_of self.now) thread }
    {
        self.first_live_round(self.above(thread)).unwrap_or(thread)
    }

    /// The thread so many places further round the ring.
    fn moved_on(&self, thread: u32, places: u32) -> u32
        ensures { result ≡ moved_on (machine_of self.now) thread places }
    {
        let mut at = thread;
        for _ in 0..places {
            at = self.next_in_ring(at);
        }
        at
    }

    /// This thread, where it can go on, else the next one round the ring that can.
    fn pick_at(&self, at: u32) -> Option<u32>
        ensures { result ≡ find (may_turn self.now) (at ∷ ring_after (machine_of self.now) at) }
    {
        if self.may_turn(at) {
            Some(at)
        } else {
            self.first_enabled_round(self.above(at))
        }
    }

    /// The thread that makes the next event, so many places on from a thread: the one there if it is enabled, else the next
    /// one round the ring of live threads that is. None where no thread is enabled. It takes no memory.
    pub fn pick(&self, from: u32, places: u32) -> Option<u32>
        requires { self.now.is_broken ≡ false }
        ensures shown { result ≡ shown_pick self.now from places }
        ensures meaning { (p : PlainProgram) → IsMachineOf p self.now → result ≡ pick p (machine_of self.now) from places }
    {
        self.pick_at(self.moved_on(from, places))
    }

    /// What comes next, so many places on from a thread: the end, if the machine has one, else the thread that `pick` gives. It
    /// takes no memory.
    pub fn next(&self, from: u32, places: u32) -> Next
        requires { self.now.is_broken ≡ false }
        ensures shown { IsNext (shown_end self.now) (shown_pick self.now from places) result }
        ensures meaning { (p : PlainProgram) → IsMachineOf p self.now → IsNext (end_of p (machine_of self.now) self.now.world.budget) (pick p (machine_of self.now) from places) result }
    {
        let Some(thread) = self.pick(from, places) else {
            return Next::Ends(self.end_without_enabled());
        };
        match self.end_beside_enabled(thread) {
            Some(end) => Next::Ends(end),
            None => Next::Turns(thread),
        }
    }

    /// Why a thread that isn't enabled makes no event.
    fn refusal(&self, thread: u32) -> TurnFault
        requires whole { self.now.is_broken ≡ false }
        requires blocked { may_turn self.now thread ≡ false }
        ensures { (p : PlainProgram) → IsMachineOf p self.now → Refuses p self.now thread result self.now }
    {
        if self.end_now().is_some() {
            return TurnFault::Over;
        }
        if !self.is_live(thread) {
            return TurnFault::NotLive;
        }
        TurnFault::NotEnabled
    }

    /// Makes the next event, of this thread, and gives it. `Over`, `NotLive` and `NotEnabled` are told in this order, and
    /// leave the machine as it was. After `NoMemory` the history is still that of a run, and no further turn can be made.
    pub fn turn(&mut self, alloc: Global, plain: &Plain, thread: u32) -> Result<Entry, TurnFault>
        requires { IsMachineOf plain.now self.old }
        ensures ok { IfOk result (λ e. Turned plain.now self.old thread e self.new) }
        ensures open { OnOk result (end_of plain.now (machine_of self.old) self.old.world.budget ≡ None) }
        ensures err { IfErr result (λ fault. Refuses plain.now self.old thread fault self.new) }
        ensures own { IsMachineOf plain.now self.new }
        ensures whole { OnOk result ((self.old.is_broken ≡ false) × (self.new.is_broken ≡ false)) }
    {
        if self.is_broken() {
            return Err(TurnFault::NoMemory);
        }
        let Some(op) = self.enabled_operation(thread) else {
            return Err(self.refusal(thread));
        };
        if self.end_beside_enabled(thread).is_some() {
            return Err(TurnFault::Over);
        }
        match self.event(alloc, plain, thread, op) {
            Ok(reply) => Ok(Entry { thread, op, reply }),
            Err(_) => Err(TurnFault::NoMemory),
        }
    }

    /// Makes the next event, of a thread that is enabled in a machine without an end. `next` answers such a thread. After
    /// `NoMemory` the history is still that of a run, and no further event can be made.
    pub fn make(&mut self, alloc: Global, plain: &Plain, thread: u32) -> Result<(), NoMemory>
        requires own { IsMachineOf plain.now self.old }
        requires whole { self.old.is_broken ≡ false }
        requires open { end_of plain.now (machine_of self.old) self.old.world.budget ≡ None }
        requires enabled { is_enabled plain.now (machine_of self.old) thread ≡ true }
        ensures ok { OnOk result ((e : Entry) × Turned plain.now self.old thread e self.new) }
        ensures own { IsMachineOf plain.now self.new }
        ensures whole { OnOk result (self.new.is_broken ≡ false) }
        ensures memory { OnErr result (BreaksOff self.old thread self.new) }
    {
        let _within = self.world().clock();
        let Some(op) = self.operation(thread) else {
            unreachable!()
        };
        self.event(alloc, plain, thread, op)?;
        Ok(())
    }

    /// Makes the next event, of a thread that asks for this operation, which is enabled, and gives the reply.
    fn event(
        &mut self,
        alloc: Global,
        plain: &Plain,
        thread: u32,
        op: Op,
    ) -> Result<Reply, NoMemory>
        requires whole { IsWhole plain.now self.old.world self.old.locals }
        requires asks { pending_at self.old.locals thread ≡ Some op }
        requires enabled { IsTrue (may_do self.old.world thread (Some op)) }
        requires open { self.old.world.shared.fault ≡ None }
        requires left { length self.old.world.history < self.old.world.budget }
        ensures ok { IfOk result (λ reply. Turned plain.now self.old thread (record { thread = thread; op = op; reply = reply }) self.new) }
        ensures own { IsMachineOf plain.now self.new }
        ensures whole { OnOk result (self.new.is_broken ≡ false) }
        ensures memory { OnErr result (BreaksOff self.old thread self.new) }
    {
        self.is_broken = true;
        let reply = event_of(&mut self.world, &mut self.locals, alloc, plain, thread, op)?;
        self.is_broken = false;
        Ok(reply)
    }
}

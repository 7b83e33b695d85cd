//! A run of a schedule that can pause.

ghost use Rattle.std.specs.Prelude.{◌≡◌, ◌≤◌, ◌<◌, ◌+◌, ◌↔◌, ℕ, IsTrue, IsSome, Some, None, true, false, length, min, max, MatchOption, IfOk, OnOk, OnErr};
ghost use Rattle.vm_model.specs.declared.limits.TheConstants.{MOST_EVENTS, MOST_SWITCHES};
ghost use Rattle.vm_model.specs.Program.{PlainProgram};
ghost use Rattle.machine_model.specs.Machine.{end_of, is_enabled, run, turn};
ghost use Rattle.machine_model.specs.Ring.{schedule_threads};
ghost use Rattle.event_machine.specs.MachineView.{machine_of, IsMachineOf};
ghost use Rattle.schedule_model.specs.Outcomes.{end_under};
ghost use Rattle.schedule_model.specs.Schedules.{Agree};
ghost use Rattle.thread_driver.specs.Waiting.{Rises};
ghost use Rattle.paused_run.specs.Partings.{AreAlike, PartAt};
ghost use Rattle.paused_run.specs.Pauses.{clock_of, IsPausedOf};

use crate::waiting::{parting, passed_before};
use event_machine::Machine;
use std::alloc::Global;
use std::marker::Model;
use thread_driver::places_at;
use vm_model::{End, NoMemory, Plain};

/// A run of a schedule that stands still after some of its events: the machine there, the current thread, and the schedule's
/// times in rising order. A copy can go on under another schedule that agrees with its own below the events made, as if that
/// one had been run from the start.
#[derive(Drop)]
pub struct Paused {
    machine: Machine,
    thread: u32,
    times: Vec<u32>,
    passed: usize,
}

impl Model for Paused {
    ghost use Rattle.paused_run.specs.Pauses.{PausedRun};
    ghost use Rattle.paused_run.specs.PausedView.{view_of, IsKept};

    ghost Value = { PausedRun };

    ghost view = { view_of };

    ghost invariant = { IsKept };
}

/// Makes the next event, of a thread that can go on.
fn turn_of(machine: &mut Machine, alloc: Global, plain: &Plain, thread: u32) -> Result<(), NoMemory>
    requires own { IsMachineOf plain.now machine.old }
    requires whole { machine.old.is_broken ≡ false }
    requires open { end_of plain.now (machine_of machine.old) machine.old.world.budget ≡ None }
    requires enabled { is_enabled plain.now (machine_of machine.old) thread ≡ true }
    ensures own { IsMachineOf plain.now machine.new }
    ensures whole { OnOk result (machine.new.is_broken ≡ false) }
    ensures broken { OnErr result (machine.new.is_broken ≡ true) }
    ensures turned { OnOk result (turn plain.now (machine_of machine.old) thread ≡ Some (machine_of machine.new)) }
    ensures budget { OnOk result (machine.new.world.budget ≡ machine.old.world.budget) }
{
    machine.make(alloc, plain, thread)?;
    Ok(())
}

impl Paused {
    /// The run of a schedule before its first event, of at most so many events, from 1 to 1,048,576.
    pub fn start(
        alloc: Global,
        plain: &Plain,
        times: Vec<u32>,
        events: u64,
    ) -> Result<Paused, NoMemory>
        requires few { length times.items ≤ MOST_SWITCHES }
        requires rising { Rises 0 times.items }
        requires some { 1 ≤ events }
        requires limit { events ≤ MOST_EVENTS }
        ensures own { IfOk result (IsPausedOf plain.now) }
        ensures clock { IfOk result (λ r. clock_of r ≡ 0) }
        ensures times { IfOk result (λ r. r.times ≡ times.items) }
        ensures budget { IfOk result (λ r. r.machine.world.budget ≡ events) }
        ensures whole { IfOk result (λ r. r.machine.is_broken ≡ false) }
    {
        Ok(Paused {
            machine: Machine::new(alloc, plain, events)?,
            thread: 0,
            times,
            passed: 0,
        })
    }

    /// How many events were made. It takes no memory.
    pub fn clock(&self) -> u64
        ensures { result ≡ clock_of self.now }
    {
        self.machine.world().clock()
    }

    /// Whether memory ran out in the middle of an event. It can't go on then. It takes no memory.
    pub fn is_broken(&self) -> bool
        ensures { result ≡ self.now.machine.is_broken }
    {
        self.machine.is_broken()
    }

    /// How the run ended, if it did. It takes no memory.
    pub fn end(&self) -> Option<End>
        requires { self.now.machine.is_broken ≡ false }
        ensures { (p : PlainProgram) → IsPausedOf p self.now → result ≡ end_of p (machine_of self.now.machine) self.now.machine.world.budget }
    {
        self.machine.end()
    }

    /// The first time that doesn't occur as often in the run's own schedule as among these times, which are in rising order. It
    /// takes no memory.
    pub fn parting(&self, times: &[u32]) -> Option<u32>
        requires rising { Rises 0 times.now }
        ensures { MatchOption result (AreAlike self.now.times times.now) (λ time. PartAt time self.now.times times.now) }
    {
        parting(&self.times, times)
    }

    /// Whether the run's own schedule agrees with these times, which are in rising order, below the number of events made. It takes
    /// no memory.
    pub fn agrees(&self, times: &[u32]) -> bool
        requires rising { Rises 0 times.now }
        ensures { IsTrue result ↔ Agree (clock_of self.now) self.now.times times.now }
    {
        match self.parting(times) {
            Some(time) => self.clock() <= u64::from(time),
            None => true,
        }
    }

    /// The run of another schedule after as many events, where both agree below their number. Its times are in rising order.
    pub fn copy_for(&self, alloc: Global, times: Vec<u32>) -> Result<Paused, NoMemory>
        requires whole { self.now.machine.is_broken ≡ false }
        requires few { length times.items ≤ MOST_SWITCHES }
        requires rising { Rises 0 times.items }
        requires agree { Agree (clock_of self.now) self.now.times times.items }
        ensures copied { IfOk result (λ r. r ≡ record { machine = self.now.machine; thread = self.now.thread; times = times.items }) }
        ensures own { (p : PlainProgram) → IsPausedOf p self.now → IfOk result (IsPausedOf p) }
    {
        let passed = passed_before(&times, self.clock());
        Ok(Paused {
            machine: self.machine.copy(alloc)?,
            thread: self.thread,
            times,
            passed,
        })
    }

    /// The same run after as many events.
    pub fn copy(&self, alloc: Global) -> Result<Paused, NoMemory>
        ensures { IfOk result (λ r. r ≡ self.now) }
    {
        Ok(Paused {
            machine: self.machine.copy(alloc)?,
            thread: self.thread,
            times: Vec::from_slice(alloc, &self.times)?,
            passed: self.passed,
        })
    }

    /// Makes the next event.
    fn event(&mut self, alloc: Global, plain: &Plain) -> Result<(), NoMemory>
        requires own { IsPausedOf plain.now self.old }
        requires whole { self.old.machine.is_broken ≡ false }
        requires open { end_of plain.now (machine_of self.old.machine) self.old.machine.world.budget ≡ None }
        ensures own { IsPausedOf plain.now self.new }
        ensures whole { OnOk result (self.new.machine.is_broken ≡ false) }
        ensures broken { OnErr result (self.new.machine.is_broken ≡ true) }
        ensures clock { OnOk result (clock_of self.new ≡ clock_of self.old + 1) }
        ensures times { self.new.times ≡ self.old.times }
        ensures budget { OnOk result (self.new.machine.world.budget ≡ self.old.machine.world.budget) }
    {
        let places = places_at(&self.times[self.passed..], self.machine.world().clock());
        let Some(next) = self.machine.pick(self.thread, places) else {
            unreachable!()
        };
        turn_of(&mut self.machine, alloc, plain, next)?;
        self.passed += places as usize;
        self.thread = next;
        Ok(())
    }

    /// Goes on until so many events were made or the run has ended, and pauses there. It stays where as many were made. After
    /// `NoMemory` it is broken.
    pub fn run_to(&mut self, alloc: Global, plain: &Plain, clock: u64) -> Result<(), NoMemory>
        requires own { IsPausedOf plain.now self.old }
        requires whole { self.old.machine.is_broken ≡ false }
        ensures own { IsPausedOf plain.now self.new }
        ensures whole { OnOk result (self.new.machine.is_broken ≡ false) }
        ensures broken { OnErr result (self.new.machine.is_broken ≡ true) }
        ensures times { self.new.times ≡ self.old.times }
        ensures budget { OnOk result (self.new.machine.world.budget ≡ self.old.machine.world.budget) }
        ensures clock { OnOk result (clock_of self.new ≡ max (clock_of self.old) (min clock (length (schedule_threads plain.now self.old.times self.old.machine.world.budget)))) }
        ensures ended { OnOk result (clock_of self.new < clock → IsSome (end_of plain.now (machine_of self.new.machine) self.old.machine.world.budget)) }
    {
        while self.clock() < clock {
            if self.end().is_some() {
                return Ok(());
            }
            self.event(alloc, plain)?;
        }
        Ok(())
    }

    /// Goes on to the end of the run, and gives it: the end that the run of its schedule from the start has. After `NoMemory` it
    /// is broken.
    pub fn finish(&mut self, alloc: Global, plain: &Plain) -> Result<End, NoMemory>
        requires own { IsPausedOf plain.now self.old }
        requires whole { self.old.machine.is_broken ≡ false }
        ensures end { IfOk result (λ e. end_under plain.now self.old.machine.world.budget (run plain.now (schedule_threads plain.now self.old.times self.old.machine.world.budget)) ≡ Some e) }
        ensures own { IsPausedOf plain.now self.new }
        ensures whole { OnOk result (self.new.machine.is_broken ≡ false) }
        ensures broken { OnErr result (self.new.machine.is_broken ≡ true) }
        ensures times { self.new.times ≡ self.old.times }
        ensures budget { OnOk result (self.new.machine.world.budget ≡ self.old.machine.world.budget) }
        ensures clock { OnOk result (clock_of self.new ≡ length (schedule_threads plain.now self.old.times self.old.machine.world.budget)) }
    {
        loop {
            if let Some(end) = self.end() {
                return Ok(end);
            }
            self.event(alloc, plain)?;
        }
    }
}

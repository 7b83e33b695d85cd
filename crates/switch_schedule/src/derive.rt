//! The schedule whose run is a log's.

ghost use Rattle.std.specs.Prelude.{◌≡◌, ◌≤◌, ◌<◌, ◌+◌, ◌++◌, ◌↔◌, ℕ, true, false, Some, IsTrue, length, replicate, slice_index, take, IfOk, IfErr, OnOk};
ghost use Rattle.vm_model.specs.declared.limits.TheConstants.{MOST_EVENTS};
ghost use Rattle.machine_model.specs.Machine.{is_enabled, run};
ghost use Rattle.machine_model.specs.Ring.{pick};
ghost use Rattle.schedule_log.specs.Logs.{events, expansion, IsLawful};
ghost use Rattle.event_machine.specs.MachineView.{machine_of, IsMachineOf};
ghost use Rattle.switch_schedule.specs.Derivations.{EndsAsTold, HasDerived, IsDerived, IsLeastPlaces, thread_before};
ghost use Rattle.switch_schedule.specs.Refusals.{RefusesDerivation, refusal};

use event_machine::{Machine, TurnFault};
use schedule_log::Log;
use schedule_model::Schedule;
use std::alloc::Global;
use vm_model::{MOST_SWITCHES, NoMemory, Plain};

/// As many places lead from each live thread to each other one, where at most 64 were started.
const MOST_PLACES: u32 = 128;

/// Why no schedule was derived.
#[derive(Clone, Copy, Debug, PartialEq, Eq)]
pub enum DeriveFault {
    /// The turn of this thread at this clock can't be made; or, without a thread, all turns were made, the clock is their
    /// number, and the run doesn't end as the log says.
    Diverged { clock: u64, thread: Option<u32> },
    /// The log's run was made whole, and the 16,385th time would be this clock.
    TooManySwitches { clock: u64 },
    NoMemory,
}

/// Whether so many places lead from one thread to the other.
fn leads(plain: &Plain, machine: &Machine, before: u32, thread: u32, places: u32) -> bool
    requires own { IsMachineOf plain.now machine.now }
    requires whole { machine.now.is_broken ≡ false }
    ensures { IsTrue result ↔ (pick plain.now (machine_of machine.now) before places ≡ Some thread) }
{
    match machine.pick(before, places) {
        Some(there) => there == thread,
        None => false,
    }
}

/// The least number of places that leads from one thread to another, which can go on.
fn places_to(plain: &Plain, machine: &Machine, before: u32, thread: u32) -> u32
    requires own { IsMachineOf plain.now machine.now }
    requires whole { machine.now.is_broken ≡ false }
    requires enabled { is_enabled plain.now (machine_of machine.now) thread ≡ true }
    ensures least { IsLeastPlaces plain.now (machine_of machine.now) before thread result }
    ensures few { result ≤ 128 }
{
    let _few = machine.world().rows();
    for places in 0..MOST_PLACES + 1 {
        if leads(plain, machine, before, thread, places) {
            return places;
        }
    }
    unreachable!()
}

/// The thread of the event before this one.
fn before_event(threads: &[u32], clock: usize) -> u32
    requires { clock ≤ length threads.now }
    ensures { result ≡ thread_before threads.now clock }
{
    if clock == 0 { 0 } else { threads[clock - 1] }
}

/// Adds a clock so many times.
fn put_places(times: &mut Vec<u32>, clock: u32, places: u32) -> Result<(), NoMemory>
    requires few { length times.old.items + places ≤ MOST_SWITCHES }
    ensures { OnOk result (times.new.items ≡ times.old.items ++ replicate places clock) }
{
    let count = times.len() + places as usize;
    times.resize(count, clock)?;
    Ok(())
}

/// Adds the places that lead to the thread of the next event. Once a time doesn't find room, only its clock is kept.
fn derive_event(
    plain: &Plain,
    machine: &Machine,
    threads: &[u32],
    clock: usize,
    times: &mut Vec<u32>,
    passed: Option<u64>,
) -> Result<Option<u64>, NoMemory>
    requires own { IsMachineOf plain.now machine.now }
    requires whole { machine.now.is_broken ≡ false }
    requires runs { run plain.now (take clock threads.now) ≡ Some (machine_of machine.now) }
    requires within { clock < length threads.now }
    requires limit { length threads.now ≤ MOST_EVENTS }
    requires enabled { is_enabled plain.now (machine_of machine.now) (slice_index threads.now clock) ≡ true }
    requires so_far { HasDerived plain.now threads.now clock times.old.items passed }
    ensures so_far { IfOk result (λ now. HasDerived plain.now threads.now (clock + 1) times.new.items now) }
{
    let _few = machine.world().rows();
    if passed.is_some() {
        return Ok(passed);
    }
    let places = places_to(plain, machine, before_event(threads, clock), threads[clock]);
    if times.len() + places as usize > MOST_SWITCHES {
        return Ok(Some(clock as u64));
    }
    put_places(times, clock as u32, places)?;
    Ok(None)
}

fn at_end(log: &Log) -> DeriveFault
    ensures { result ≡ DeriveFault.Diverged (events log.now) None }
{
    DeriveFault::Diverged {
        clock: log.events(),
        thread: None,
    }
}

/// What was derived of a log that was followed to its end.
fn derived(
    plain: &Plain,
    machine: &Machine,
    log: &Log,
    times: Vec<u32>,
    passed: Option<u64>,
) -> Result<Schedule, DeriveFault>
    requires own { IsMachineOf plain.now machine.now }
    requires whole { machine.now.is_broken ≡ false }
    requires budget { machine.now.world.budget ≡ log.now.budget }
    requires lawful { IsLawful log.now }
    requires runs { run plain.now (expansion log.now) ≡ Some (machine_of machine.now) }
    requires so_far { HasDerived plain.now (expansion log.now) (events log.now) times.items passed }
    ensures derived { IfOk result (λ s. IsDerived plain.now log.now s) }
    ensures few { IfOk result (λ s. length s ≤ MOST_SWITCHES) }
    ensures told { IfOk result (λ s. EndsAsTold plain.now log.now) }
    ensures refused { IfErr result (RefusesDerivation plain.now log.now) }
{
    let Some(end) = machine.end() else {
        return Err(at_end(log));
    };
    if end.kind() != log.end() {
        return Err(at_end(log));
    }
    match passed {
        Some(clock) => Err(DeriveFault::TooManySwitches { clock }),
        None => Ok(Schedule { times }),
    }
}

/// Why no schedule is derived, where a turn of the log isn't made.
fn refusal(fault: TurnFault, clock: u64, thread: u32) -> DeriveFault
    ensures { result ≡ refusal fault clock thread }
{
    match fault {
        TurnFault::Over | TurnFault::NotLive | TurnFault::NotEnabled => DeriveFault::Diverged {
            clock,
            thread: Some(thread),
        },
        TurnFault::NoMemory => DeriveFault::NoMemory,
    }
}

/// The schedule whose run, under the log's budget, is the log's: its times rise, and before each event they have the least
/// number of places that leads to the log's thread. The whole log is followed before `TooManySwitches` is answered.
pub fn schedule_of(alloc: Global, plain: &Plain, log: &Log) -> Result<Schedule, DeriveFault>
    ensures derived { IfOk result (λ s. IsDerived plain.now log.now s) }
    ensures few { IfOk result (λ s. length s ≤ MOST_SWITCHES) }
    ensures told { IfOk result (λ s. EndsAsTold plain.now log.now) }
    ensures refused { IfErr result (RefusesDerivation plain.now log.now) }
{
    let Ok(threads) = log.expand(alloc) else {
        return Err(DeriveFault::NoMemory);
    };
    let Ok(mut machine) = Machine::new(alloc, plain, log.budget()) else {
        return Err(DeriveFault::NoMemory);
    };
    let mut times = Vec::new(alloc);
    let mut passed = None;
    for clock in 0..threads.len() {
        let thread = threads[clock];
        if !machine.is_enabled(thread) {
            return Err(refusal(TurnFault::NotEnabled, clock as u64, thread));
        }
        let Ok(now) = derive_event(plain, &machine, &threads, clock, &mut times, passed) else {
            return Err(DeriveFault::NoMemory);
        };
        passed = now;
        match machine.turn(alloc, plain, thread) {
            Ok(_) => {}
            Err(fault) => return Err(refusal(fault, clock as u64, thread)),
        }
    }
    derived(plain, &machine, log, times, passed)
}

ghost use Rattle.std.specs.Prelude.{◌≡◌, ◌≤◌, ◌<◌, ◌^◌, ℕ, [], ◌++◌, ◌∷◌, length, IfOk, OnOk, IfErr, Some, None, true, false, ◌+◌};
ghost use Rattle.vm_model.specs.declared.limits.TheConstants.{MOST_EVENTS, MOST_SWITCHES};
ghost use Rattle.vm_model.specs.Program.{PlainProgram};
ghost use Rattle.vm_model.specs.Ends.{kind_of_end};
ghost use Rattle.machine_model.specs.Machine.{end_of, is_enabled, start_machine, threads_of, turn};
ghost use Rattle.machine_model.specs.Ring.{pick, schedule_threads, scheduled_from};
ghost use Rattle.machine_model.specs.Shapes.{IsVerified};
ghost use Rattle.schedule_log.specs.Logs.{expansion, IsLawful};
ghost use Rattle.schedule_log.specs.Parts.{AreParts, IsLoggable, log_of_parts};
ghost use Rattle.event_machine.specs.MachineView.{machine_of, IsMachineOf};
ghost use Rattle.event_machine.specs.Turns.{Turned};
ghost use Rattle.thread_driver.specs.Recordings.{threads_on, IsRecording};

use crate::switches::{in_order, places_at};
use event_machine::{Machine, Next};
use schedule_log::{Folding, Log};
use std::alloc::Global;
use vm_model::{End, MOST_THREADS, NoMemory, Plain};

/// What is kept of a run: its log, the bytes that it printed, and how it ended.
#[derive(Drop)]
pub struct Recording {
    pub log: Log,
    pub output: Vec<u8>,
    pub end: End,
}

/// Why nothing was recorded.
#[derive(Clone, Copy, Debug, PartialEq, Eq)]
pub enum DriverFault {
    NoMemory,
}

/// A folding for each thread that a run can have.
fn foldings(alloc: Global) -> Result<Vec<Folding>, NoMemory>
    ensures { IfOk result (λ parts. (length parts.items ≡ MOST_THREADS) × AreParts [] parts.items) }
{
    let mut parts = Vec::new(alloc);
    for thread in 0..MOST_THREADS {
        parts.push(Folding::new(alloc, thread))?;
    }
    Ok(parts)
}

/// Makes the next event, of a thread that can go on, and notes its clock.
fn record_event(
    alloc: Global,
    plain: &Plain,
    machine: &mut Machine,
    parts: &mut Vec<Folding>,
    thread: u32,
) -> Result<(), NoMemory>
    requires own { IsMachineOf plain.now machine.old }
    requires whole { machine.old.is_broken ≡ false }
    requires open { end_of plain.now (machine_of machine.old) machine.old.world.budget ≡ None }
    requires enabled { is_enabled plain.now (machine_of machine.old) thread ≡ true }
    requires few { length parts.old.items ≡ MOST_THREADS }
    requires parts { AreParts (threads_of machine.old.world.history) parts.old.items }
    ensures own { OnOk result (IsMachineOf plain.now machine.new) }
    ensures whole { OnOk result (machine.new.is_broken ≡ false) }
    ensures turned { OnOk result (turn plain.now (machine_of machine.old) thread ≡ Some (machine_of machine.new)) }
    ensures budget { OnOk result (machine.new.world.budget ≡ machine.old.world.budget) }
    ensures history { OnOk result (length machine.new.world.history ≡ length machine.old.world.history + 1) }
    ensures few { OnOk result (length parts.new.items ≡ MOST_THREADS) }
    ensures parts { OnOk result (AreParts (threads_of machine.new.world.history) parts.new.items) }
{
    let clock = machine.world().clock();
    if thread >= machine.world().rows() {
        unreachable!()
    }
    let part = &mut parts[thread as usize];
    part.reserve()?;
    machine.make(alloc, plain, thread)?;
    part.note(clock);
    Ok(())
}

/// The recording of a machine that has an end.
fn finished(
    alloc: Global,
    plain: &Plain,
    machine: &Machine,
    parts: Vec<Folding>,
    end: End,
) -> Result<Recording, NoMemory>
    requires own { IsMachineOf plain.now machine.now }
    requires whole { machine.now.is_broken ≡ false }
    requires ended { end_of plain.now (machine_of machine.now) machine.now.world.budget ≡ Some end }
    requires begins { end_of plain.now (start_machine plain.now) machine.now.world.budget ≡ None }
    requires within { length machine.now.world.history ≤ machine.now.world.budget }
    requires few { length parts.items ≡ MOST_THREADS }
    requires parts { AreParts (threads_of machine.now.world.history) parts.items }
    ensures recording { IfOk result (λ r. IsRecording plain.now r.log r.output.items r.end) }
    ensures threads { IfOk result (λ r. expansion r.log ≡ threads_of machine.now.world.history) }
    ensures budget { IfOk result (λ r. r.log.budget ≡ machine.now.world.budget) }
{
    let budget = machine.world().budget();
    let output = Vec::from_slice(alloc, machine.world().output())?;
    Ok(Recording {
        log: Log::of(alloc, budget, parts, end.kind())?,
        output,
        end,
    })
}

/// The run by the ring without switches, of at most so many events, from 1 to `MOST_EVENTS`. The first thread goes on as long as
/// it can, and then the next one round the ring.
pub fn record_still(alloc: Global, plain: &Plain, events: u64) -> Result<Recording, DriverFault>
    requires some { 1 ≤ events }
    requires limit { events ≤ MOST_EVENTS }
    requires begins { end_of plain.now (start_machine plain.now) events ≡ None }
    ensures recording { IfOk result (λ r. IsRecording plain.now r.log r.output.items r.end) }
    ensures threads { IfOk result (λ r. expansion r.log ≡ schedule_threads plain.now [] events) }
    ensures budget { IfOk result (λ r. r.log.budget ≡ events) }
{
    match record_schedule(alloc, plain, &[], events) {
        Ok(recording) => Ok(recording),
        Err(_) => Err(DriverFault::NoMemory),
    }
}

/// The run of a schedule, of at most so many events, from 1 to 1,048,576. The times are clocks, in any order. Before each
/// event the current thread, 0 at first, moves on by as many places round the ring of live threads as there are times of that
/// clock, and then on while the thread there can't go on.
pub fn record_schedule(
    alloc: Global,
    plain: &Plain,
    times: &[u32],
    events: u64,
) -> Result<Recording, NoMemory>
    requires few { length times.now ≤ MOST_SWITCHES }
    requires some { 1 ≤ events }
    requires limit { events ≤ MOST_EVENTS }
    requires begins { end_of plain.now (start_machine plain.now) events ≡ None }
    ensures recording { IfOk result (λ r. IsRecording plain.now r.log r.output.items r.end) }
    ensures threads { IfOk result (λ r. expansion r.log ≡ schedule_threads plain.now times.now events) }
    ensures budget { IfOk result (λ r. r.log.budget ≡ events) }
{
    let sorted = in_order(alloc, times)?;
    let mut machine = Machine::new(alloc, plain, events)?;
    let mut parts = foldings(alloc)?;
    let mut thread = 0;
    let mut passed = 0;
    loop {
        let places = places_at(&sorted[passed..], machine.world().clock());
        let next = match machine.next(thread, places) {
            Next::Ends(end) => return finished(alloc, plain, &machine, parts, end),
            Next::Turns(next) => next,
        };
        record_event(alloc, plain, &mut machine, &mut parts, next)?;
        passed += places as usize;
        thread = next;
    }
}

/// Goes on with a run that was begun elsewhere: from this machine, with the foldings of the run so far, one of each thread from
/// 0 to 63. This thread is the current one, and the rest is by the ring without switches.
pub fn record_on(
    alloc: Global,
    plain: &Plain,
    mut machine: Machine,
    mut parts: Vec<Folding>,
    mut thread: u32,
) -> Result<Recording, NoMemory>
    requires own { IsMachineOf plain.now machine }
    requires whole { machine.is_broken ≡ false }
    requires begins { end_of plain.now (start_machine plain.now) machine.world.budget ≡ None }
    requires within { length machine.world.history ≤ machine.world.budget }
    requires few { length parts.items ≡ MOST_THREADS }
    requires parts { AreParts (threads_of machine.world.history) parts.items }
    ensures recording { IfOk result (λ r. IsRecording plain.now r.log r.output.items r.end) }
    ensures threads { IfOk result (λ r. expansion r.log ≡ threads_on plain.now (machine_of machine) thread machine.world.budget) }
    ensures budget { IfOk result (λ r. r.log.budget ≡ machine.world.budget) }
{
    loop {
        let next = match machine.next(thread, 0) {
            Next::Ends(end) => return finished(alloc, plain, &machine, parts, end),
            Next::Turns(next) => next,
        };
        record_event(alloc, plain, &mut machine, &mut parts, next)?;
        thread = next;
    }
}

ghost use Rattle.std.specs.Prelude.{◌≡◌, ◌≤◌, ◌<◌, ℕ, [], IfOk, IfErr, Some, None, false, length, take};
ghost use Rattle.machine_model.specs.Machine.{end_of, run, threads_of};
ghost use Rattle.schedule_log.specs.Logs.{events, expansion, IsLawful};
ghost use Rattle.event_machine.specs.MachineView.{machine_of, IsMachineOf};
ghost use Rattle.thread_driver.specs.Recordings.{IsRecording};
ghost use Rattle.thread_driver.specs.Answers.{refusal, Refuses, RefusesBefore};

use crate::record::Recording;
use event_machine::{Machine, TurnFault};
use schedule_log::Log;
use std::alloc::Global;
use vm_model::Plain;

/// Why a log was not replayed.
#[derive(Clone, Copy, Debug, PartialEq, Eq)]
pub enum ReplayFault {
    /// The turn of this thread at this clock can't be made; or, without a thread, all turns were made, the clock is their
    /// number, and the run doesn't end as the log says.
    Diverged { clock: u64, thread: Option<u32> },
    NoMemory,
}

/// What is kept of a run that the log led to.
fn repeated(
    alloc: Global,
    plain: &Plain,
    machine: &Machine,
    log: &Log,
) -> Result<Recording, ReplayFault>
    requires own { IsMachineOf plain.now machine.now }
    requires whole { machine.now.is_broken ≡ false }
    requires budget { machine.now.world.budget ≡ log.now.budget }
    requires lawful { IsLawful log.now }
    requires runs { run plain.now (expansion log.now) ≡ Some (machine_of machine.now) }
    ensures ok { IfOk result (λ r. IsRecording plain.now r.log r.output.items r.end) }
    ensures log { IfOk result (λ r. r.log ≡ log.now) }
    ensures err { IfErr result (Refuses plain.now log.now) }
{
    let Some(end) = machine.end() else {
        return Err(at_end(log));
    };
    if end.kind() != log.end() {
        return Err(at_end(log));
    }
    let (Ok(output), Ok(copy)) = (
        Vec::from_slice(alloc, machine.world().output()),
        log.copy(alloc),
    ) else {
        return Err(ReplayFault::NoMemory);
    };
    Ok(Recording {
        log: copy,
        output,
        end,
    })
}

fn at_end(log: &Log) -> ReplayFault
    ensures { result ≡ ReplayFault.Diverged (events log.now) None }
{
    ReplayFault::Diverged {
        clock: log.events(),
        thread: None,
    }
}

/// Why the log isn't replayed, where a turn of it isn't made.
fn refusal(fault: TurnFault, clock: u64, thread: u32) -> ReplayFault
    ensures { result ≡ refusal fault clock thread }
{
    match fault {
        TurnFault::Over | TurnFault::NotLive | TurnFault::NotEnabled => ReplayFault::Diverged {
            clock,
            thread: Some(thread),
        },
        TurnFault::NoMemory => ReplayFault::NoMemory,
    }
}

/// The machine before the log's first event.
fn at_start(alloc: Global, plain: &Plain, log: &Log) -> Result<Machine, ReplayFault>
    requires lawful { IsLawful log.now }
    ensures own { IfOk result (IsMachineOf plain.now) }
    ensures whole { IfOk result (λ m. m.is_broken ≡ false) }
    ensures budget { IfOk result (λ m. m.world.budget ≡ log.now.budget) }
    ensures start { IfOk result (λ m. run plain.now [] ≡ Some (machine_of m)) }
    ensures err { IfErr result (λ e. e ≡ ReplayFault.NoMemory) }
{
    match Machine::new(alloc, plain, log.budget()) {
        Ok(machine) => Ok(machine),
        Err(_) => Err(ReplayFault::NoMemory),
    }
}

/// Goes on from the machine after the log's first events, to the one after so many.
fn turned(
    alloc: Global,
    plain: &Plain,
    log: &Log,
    threads: &[u32],
    mut machine: Machine,
    made: usize,
    count: usize,
) -> Result<Machine, ReplayFault>
    requires threads { threads.now ≡ expansion log.now }
    requires lawful { IsLawful log.now }
    requires own { IsMachineOf plain.now machine }
    requires whole { machine.is_broken ≡ false }
    requires budget { machine.world.budget ≡ log.now.budget }
    requires runs { run plain.now (take made threads.now) ≡ Some (machine_of machine) }
    requires further { made ≤ count }
    requires within { count ≤ length threads.now }
    ensures own { IfOk result (IsMachineOf plain.now) }
    ensures whole { IfOk result (λ m. m.is_broken ≡ false) }
    ensures budget { IfOk result (λ m. m.world.budget ≡ log.now.budget) }
    ensures runs { IfOk result (λ m. run plain.now (take count threads.now) ≡ Some (machine_of m)) }
    ensures err { IfErr result (RefusesBefore plain.now log.now count) }
{
    for clock in made..count {
        let thread = threads[clock];
        match machine.turn(alloc, plain, thread) {
            Ok(_) => {}
            Err(fault) => return Err(refusal(fault, clock as u64, thread)),
        }
    }
    Ok(machine)
}

/// The run that the log tells, event by event: it repeats that run's events, output and end. `Diverged` comes exactly where
/// the program doesn't make the log's turns, or ends otherwise.
pub fn replay_still(alloc: Global, plain: &Plain, log: &Log) -> Result<Recording, ReplayFault>
    ensures ok { IfOk result (λ r. IsRecording plain.now r.log r.output.items r.end) }
    ensures log { IfOk result (λ r. r.log ≡ log.now) }
    ensures err { IfErr result (Refuses plain.now log.now) }
{
    let Ok(threads) = log.expand(alloc) else {
        return Err(ReplayFault::NoMemory);
    };
    let start = at_start(alloc, plain, log)?;
    let machine = turned(alloc, plain, log, &threads, start, 0, threads.len())?;
    repeated(alloc, plain, &machine, log)
}

/// Goes on with a replay that was begun elsewhere: from this machine, which made the log's first events, to the log's end.
/// `Diverged` is as in `replay_still`.
pub fn replay_on(
    alloc: Global,
    plain: &Plain,
    machine: Machine,
    log: &Log,
) -> Result<Recording, ReplayFault>
    requires own { IsMachineOf plain.now machine }
    requires whole { machine.is_broken ≡ false }
    requires budget { machine.world.budget ≡ log.now.budget }
    requires by_log { threads_of machine.world.history ≡ take (length machine.world.history) (expansion log.now) }
    ensures ok { IfOk result (λ r. IsRecording plain.now r.log r.output.items r.end) }
    ensures log { IfOk result (λ r. r.log ≡ log.now) }
    ensures err { IfErr result (Refuses plain.now log.now) }
{
    let Ok(threads) = log.expand(alloc) else {
        return Err(ReplayFault::NoMemory);
    };
    let made = machine.world().clock() as usize;
    let machine = turned(alloc, plain, log, &threads, machine, made, threads.len())?;
    repeated(alloc, plain, &machine, log)
}

/// The machine after the log's first events, up to this clock or to the log's end, whichever comes first. `Diverged` comes
/// exactly where a turn before is not defined, and names the first one.
pub fn replay_until(
    alloc: Global,
    plain: &Plain,
    log: &Log,
    clock: u64,
) -> Result<Machine, ReplayFault>
    ensures own { IfOk result (IsMachineOf plain.now) }
    ensures whole { IfOk result (λ m. m.is_broken ≡ false) }
    ensures state { IfOk result (λ m. run plain.now (take clock (expansion log.now)) ≡ Some (machine_of m)) }
    ensures err { IfErr result (RefusesBefore plain.now log.now clock) }
{
    let Ok(threads) = log.expand(alloc) else {
        return Err(ReplayFault::NoMemory);
    };
    let start = at_start(alloc, plain, log)?;
    let all = threads.len();
    if clock < all as u64 {
        turned(alloc, plain, log, &threads, start, 0, clock as usize)
    } else {
        turned(alloc, plain, log, &threads, start, 0, all)
    }
}

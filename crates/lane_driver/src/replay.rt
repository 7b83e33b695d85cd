//! Replay by lanes.

ghost use Rattle.std.specs.Prelude.{◌≡◌, ◌≤◌, ℕ, IfOk, IfErr, false, length, take};
ghost use Rattle.vm_model.specs.declared.limits.TheConstants.{MOST_LANES};
ghost use Rattle.machine_model.specs.Machine.{threads_of};
ghost use Rattle.schedule_log.specs.Logs.{expansion};
ghost use Rattle.event_machine.specs.MachineView.{IsMachineOf};
ghost use Rattle.thread_driver.specs.Answers.{Refuses};
ghost use Rattle.thread_driver.specs.Recordings.{IsRecording};

use crate::machine::machine_by_lanes;
use event_machine::Machine;
use gate_core::Meeting;
use replay_gate::ReplayGate;
use schedule_log::Log;
use std::alloc::Global;
use std::sync::Wait;
use std::thread::Threads;
use thread_driver::{Recording, ReplayFault, replay_on};
use vm_model::{NoMemory, Plain};
use world_start::start_of;

/// The machine after the log's first events, those that the lanes made.
fn machine_of_log<R: Threads + Wait + Sync, M: Meeting>(
    rt: &R,
    alloc: Global,
    plain: &Plain,
    log: &Log,
    lanes: u32,
    meeting: &M,
) -> Result<Machine, NoMemory>
    requires one { 1 ≤ lanes }
    requires few { lanes ≤ MOST_LANES }
    ensures own { IfOk result (IsMachineOf plain.now) }
    ensures whole { IfOk result (λ m. m.is_broken ≡ false) }
    ensures budget { IfOk result (λ m. m.world.budget ≡ log.now.budget) }
    ensures by_log { IfOk result (λ m. threads_of m.world.history ≡ take (length m.world.history) (expansion log.now)) }
{
    let start = start_of(alloc, plain)?;
    let (gate, first) = ReplayGate::new(alloc, start, log.copy(alloc)?, lanes)?;
    let (machine, _) = machine_by_lanes(rt, alloc, plain, gate, first, lanes, meeting)?;
    Ok(machine)
}

/// Replays a log by 1 to 16 lanes, each on a thread of its own where one can be made: the log's intervals say which thread
/// makes the next event. What the lanes leave undone is done on this thread. The run, and each refusal, is that of
/// `replay_still`, whatever the number of lanes.
pub fn replay_lanes<R: Threads + Wait + Sync, M: Meeting>(
    rt: &R,
    alloc: Global,
    plain: &Plain,
    log: &Log,
    lanes: u32,
    meeting: &M,
) -> Result<Recording, ReplayFault>
    requires one { 1 ≤ lanes }
    requires few { lanes ≤ MOST_LANES }
    ensures ok { IfOk result (λ r. IsRecording plain.now r.log r.output.items r.end) }
    ensures log { IfOk result (λ r. r.log ≡ log.now) }
    ensures err { IfErr result (Refuses plain.now log.now) }
{
    match machine_of_log(rt, alloc, plain, log, lanes, meeting) {
        Ok(machine) => replay_on(alloc, plain, machine, log),
        Err(_) => Err(ReplayFault::NoMemory),
    }
}

//! Recording by lanes.

ghost use Rattle.std.specs.Prelude.{◌≡◌, ◌≤◌, ◌<◌, ℕ, IfOk, None, false, length, Contains};
ghost use Rattle.vm_model.specs.declared.limits.TheConstants.{MOST_EVENTS, MOST_LANES, MOST_THREADS};
ghost use Rattle.machine_model.specs.Machine.{end_of, start_machine, threads_of};
ghost use Rattle.schedule_log.specs.Logs.{expansion};
ghost use Rattle.schedule_log.specs.Parts.{AreParts};
ghost use Rattle.event_machine.specs.MachineView.{machine_of, IsMachineOf};
ghost use Rattle.thread_driver.specs.Recordings.{threads_on, IsRecording};
ghost use Rattle.lane_driver.specs.Finishing.{last_thread};

use crate::machine::machine_by_lanes;
use event_machine::Machine;
use gate_core::Meeting;
use record_gate::RecordGate;
use schedule_log::Folding;
use std::alloc::Global;
use std::sync::Wait;
use std::thread::Threads;
use thread_driver::{Recording, record_on};
use vm_model::{NoMemory, Plain};
use world_start::start_of;

/// The thread of the last event, and the first thread before any.
fn last_thread(machine: &Machine) -> u32
    ensures { result ≡ last_thread machine.now.world.history }
{
    match machine.world().history() {
        [.., entry] => entry.thread,
        [] => 0,
    }
}

/// Finishes what lanes left: by the ring, on one thread, from the thread of the last event on.
fn finished(
    alloc: Global,
    plain: &Plain,
    machine: Machine,
    parts: Vec<Folding>,
) -> Result<Recording, NoMemory>
    requires own { IsMachineOf plain.now machine }
    requires whole { machine.is_broken ≡ false }
    requires begins { end_of plain.now (start_machine plain.now) machine.world.budget ≡ None }
    requires within { length machine.world.history ≤ machine.world.budget }
    requires many { length parts.items ≡ MOST_THREADS }
    requires parts { AreParts (threads_of machine.world.history) parts.items }
    ensures recording { IfOk result (λ r. IsRecording plain.now r.log r.output.items r.end) }
    ensures threads { IfOk result (λ r. expansion r.log ≡ threads_on plain.now (machine_of machine) (last_thread machine.world.history) machine.world.budget) }
    ensures budget { IfOk result (λ r. r.log.budget ≡ machine.world.budget) }
{
    let thread = last_thread(&machine);
    record_on(alloc, plain, machine, parts, thread)
}

/// Records a run of at most so many events, from 1 to `MOST_EVENTS`, by 1 to 16 lanes, each on a thread of its own where one
/// can be made. The order of the events is that in which the lanes came to the gate, so two recordings may differ. What the
/// lanes leave undone is done by the ring without switches, on this thread. It fails only for memory, and nothing is left then.
pub fn record_lanes<R: Threads + Wait + Sync, M: Meeting>(
    rt: &R,
    alloc: Global,
    plain: &Plain,
    events: u64,
    lanes: u32,
    meeting: &M,
) -> Result<Recording, NoMemory>
    requires some { 1 ≤ events }
    requires limit { events ≤ MOST_EVENTS }
    requires begins { end_of plain.now (start_machine plain.now) events ≡ None }
    requires one { 1 ≤ lanes }
    requires few { lanes ≤ MOST_LANES }
    ensures recording { IfOk result (λ r. IsRecording plain.now r.log r.output.items r.end) }
    ensures budget { IfOk result (λ r. r.log.budget ≡ events) }
{
    let (gate, first) = RecordGate::new(alloc, start_of(alloc, plain)?, lanes, events)?;
    let (machine, parts) = machine_by_lanes(rt, alloc, plain, gate, first, lanes, meeting)?;
    finished(alloc, plain, machine, parts)
}

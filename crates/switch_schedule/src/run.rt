//! The run of a schedule.

ghost use Rattle.std.specs.Prelude.{◌≡◌, ◌≤◌, None, length, IfOk};
ghost use Rattle.vm_model.specs.declared.limits.TheConstants.{MOST_EVENTS, MOST_SWITCHES};
ghost use Rattle.machine_model.specs.Machine.{end_of, start_machine};
ghost use Rattle.machine_model.specs.Ring.{schedule_threads};
ghost use Rattle.switch_schedule.specs.Runs.{IsRunOf};

use schedule_log::Interval;
use schedule_model::Schedule;
use std::alloc::Global;
use thread_driver::record_schedule;
use vm_model::{End, NoMemory, Plain};

/// What is kept of the run of a schedule.
#[derive(Drop)]
pub struct Ran {
    /// The maximal intervals, in order of `first`: they tile the events.
    pub intervals: Vec<Interval>,
    /// How many events were made, at most 1,048,576.
    pub clock: u64,
    /// The bytes that the run printed.
    pub output: Vec<u8>,
    /// How it ended.
    pub end: End,
}

/// The run of a schedule, of at most so many events, from 1 to 1,048,576: before each event the current thread, 0 at first,
/// moves on by as many places round the ring of live threads as the event's clock stands among the times, and then on while
/// the thread there can't go on.
pub fn run_schedule(
    alloc: Global,
    plain: &Plain,
    schedule: &Schedule,
    events: u64,
) -> Result<Ran, NoMemory>
    requires few { length schedule.now ≤ MOST_SWITCHES }
    requires some { 1 ≤ events }
    requires limit { events ≤ MOST_EVENTS }
    requires begins { end_of plain.now (start_machine plain.now) events ≡ None }
    ensures run { IfOk result (λ r. IsRunOf plain.now schedule.now events r.intervals.items r.clock r.output.items r.end) }
    ensures clock { IfOk result (λ r. r.clock ≡ length (schedule_threads plain.now schedule.now events)) }
    ensures within { IfOk result (λ r. r.clock ≤ events) }
{
    let recording = record_schedule(alloc, plain, &schedule.times, events)?;
    Ok(Ran {
        intervals: Vec::from_slice(alloc, recording.log.intervals())?,
        clock: recording.log.events(),
        output: recording.output,
        end: recording.end,
    })
}

//! Recording: a run of a program, its log and what is printed of it.

ghost use Rattle.std.specs.Prelude.{◌≡◌, ◌≤◌, None, IfOk, IfErr};
ghost use Rattle.vm_model.specs.declared.limits.TheConstants.{MOST_EVENTS, MOST_LANES};
ghost use Rattle.machine_model.specs.Machine.{end_of, start_machine};
ghost use Rattle.schedule_log.specs.Spelling.{Spells};
ghost use Rattle.thread_driver.specs.Recordings.{IsRecording};
ghost use Rattle.command_line.specs.Requests.{Record};
ghost use Rattle.tool_stages.specs.Calls.{folder_call};
ghost use Rattle.tool_stages.specs.Stages.{CountsLoads};
ghost use Rattle.dejavu_tool.specs.Answers.{Halts, Records};
ghost use Rattle.dejavu_tool.specs.Runs.{TellsRecording, TellsRun};

use gate_core::Meeting;
use lane_driver::record_lanes;
use report_writer::run_text;
use schedule_log::encode;
use std::alloc::Global;
use std::sync::Wait;
use std::thread::Threads;
use thread_driver::{Recording, record_still};
use tool_io::Folder;
use tool_stages::{Halt, load_program, store_file};
use vm_model::{NoMemory, Plain};

/// The file of a run's log, and what is printed of the run.
#[derive(Drop)]
pub struct Recorded {
    pub bytes: Vec<u8>,
    pub text: Vec<u8>,
}

/// What is stored and printed of a recording.
fn kept(alloc: Global, plain: &Plain, recording: &Recording) -> Result<Recorded, NoMemory>
    requires { IsRecording plain.now recording.now.log recording.now.output.items recording.now.end }
    ensures spelled { IfOk result (λ r. Spells recording.now.log r.bytes.items) }
    ensures run { IfOk result (λ r. TellsRun plain.now recording.now.log r.text.items) }
{
    let log = &recording.log;
    let text = run_text(
        alloc,
        log.events(),
        log.intervals().len() as u64,
        &recording.end,
        &recording.output,
        plain.program(),
    )?;
    Ok(Recorded {
        bytes: encode(alloc, log)?,
        text,
    })
}

/// The run by the ring without switches, of at most so many events.
pub fn run_recorded(alloc: Global, plain: &Plain, events: u64) -> Result<Recorded, NoMemory>
    requires some { 1 ≤ events }
    requires limit { events ≤ MOST_EVENTS }
    requires begins { end_of plain.now (start_machine plain.now) MOST_EVENTS ≡ None }
    ensures { IfOk result (λ r. TellsRecording plain.now 1 events r.bytes.items r.text.items) }
{
    let Ok(recording) = record_still(alloc, plain, events) else {
        return Err(NoMemory);
    };
    kept(alloc, plain, &recording)
}

/// A run that several lanes carry, of at most so many events.
fn run_carried<R: Threads + Wait + Sync, M: Meeting>(
    rt: &R,
    alloc: Global,
    plain: &Plain,
    lanes: u32,
    events: u64,
    meeting: &M,
) -> Result<Recorded, NoMemory>
    requires several { 2 ≤ lanes }
    requires few { lanes ≤ MOST_LANES }
    requires some { 1 ≤ events }
    requires limit { events ≤ MOST_EVENTS }
    requires begins { end_of plain.now (start_machine plain.now) MOST_EVENTS ≡ None }
    ensures { IfOk result (λ r. TellsRecording plain.now lanes events r.bytes.items r.text.items) }
{
    let recording = record_lanes(rt, alloc, plain, events, lanes, meeting)?;
    kept(alloc, plain, &recording)
}

/// A run by so many lanes, of at most so many events. One lane is this thread, and its run that by the ring.
fn run_by<R: Threads + Wait + Sync, M: Meeting>(
    rt: &R,
    alloc: Global,
    plain: &Plain,
    lanes: u32,
    events: u64,
    meeting: &M,
) -> Result<Recorded, NoMemory>
    requires one { 1 ≤ lanes }
    requires few { lanes ≤ MOST_LANES }
    requires some { 1 ≤ events }
    requires limit { events ≤ MOST_EVENTS }
    requires begins { end_of plain.now (start_machine plain.now) MOST_EVENTS ≡ None }
    ensures { IfOk result (λ r. TellsRecording plain.now lanes events r.bytes.items r.text.items) }
{
    if lanes == 1 {
        run_recorded(alloc, plain, events)
    } else {
        run_carried(rt, alloc, plain, lanes, events, meeting)
    }
}

/// Records the program of one file on this thread, and stores its log under the other name. What is printed is the result.
pub fn record_file<F: Folder>(
    alloc: Global,
    program: &str,
    log: &str,
    events: u64,
    folder: &mut F,
) -> Result<Vec<u8>, Halt>
    requires some { 1 ≤ events }
    requires limit { events ≤ MOST_EVENTS }
    ensures records { IfOk result (λ text. Records (folder_call F.is_told F.file F.load_faults F.store_faults folder.old folder.new) program.now log.now 1 events text.items) }
    ensures halts { IfErr result (Halts (Record program.now log.now 1 events) (folder_call F.is_told F.file F.load_faults F.store_faults folder.old folder.new)) }
    ensures counts { CountsLoads (F.load_faults folder.old) (F.load_faults folder.new) result }
{
    let shaped = load_program(alloc, program, folder)?;
    let run = run_recorded(alloc, shaped.plain(), events)?;
    store_file(alloc, log, &run.bytes, folder)?;
    Ok(run.text)
}

/// Records the program of one file by 1 to 16 lanes, and stores its log under the other name. What is printed is the result.
pub fn record_file_by<R: Threads + Wait + Sync, F: Folder, M: Meeting>(
    rt: &R,
    alloc: Global,
    program: &str,
    log: &str,
    lanes: u32,
    events: u64,
    folder: &mut F,
    meeting: &M,
) -> Result<Vec<u8>, Halt>
    requires one { 1 ≤ lanes }
    requires few { lanes ≤ MOST_LANES }
    requires some { 1 ≤ events }
    requires limit { events ≤ MOST_EVENTS }
    ensures records { IfOk result (λ text. Records (folder_call F.is_told F.file F.load_faults F.store_faults folder.old folder.new) program.now log.now lanes events text.items) }
    ensures halts { IfErr result (Halts (Record program.now log.now lanes events) (folder_call F.is_told F.file F.load_faults F.store_faults folder.old folder.new)) }
    ensures counts { CountsLoads (F.load_faults folder.old) (F.load_faults folder.new) result }
{
    let shaped = load_program(alloc, program, folder)?;
    let run = run_by(rt, alloc, shaped.plain(), lanes, events, meeting)?;
    store_file(alloc, log, &run.bytes, folder)?;
    Ok(run.text)
}

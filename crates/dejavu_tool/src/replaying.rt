//! Replay: the run of a program by a log, and what is printed of it.

ghost use Rattle.std.specs.Prelude.{◌≡◌, ◌≤◌, IfOk, IfErr};
ghost use Rattle.vm_model.specs.declared.limits.TheConstants.{MOST_LANES};
ghost use Rattle.thread_driver.specs.Answers.{Refuses};
ghost use Rattle.thread_driver.specs.Recordings.{IsRecording};
ghost use Rattle.command_line.specs.Requests.{Replay};
ghost use Rattle.tool_stages.specs.Calls.{folder_call};
ghost use Rattle.tool_stages.specs.Stages.{CountsLoads, HaltsBy};
ghost use Rattle.dejavu_tool.specs.Answers.{Halts, Replays};
ghost use Rattle.dejavu_tool.specs.Runs.{RunStops, TellsRun};

use gate_core::Meeting;
use lane_driver::replay_lanes;
use report_writer::run_text;
use schedule_log::Log;
use std::alloc::Global;
use std::sync::Wait;
use std::thread::Threads;
use thread_driver::{Recording, ReplayFault, replay_still};
use tool_io::Folder;
use tool_stages::{Halt, Status, lines, load_log, load_program};
use vm_model::{NoMemory, Plain};

/// A replay, or why there was none.
fn judged(
    alloc: Global,
    _plain: &Plain,
    _log: &Log,
    replay: Result<Recording, ReplayFault>,
) -> Result<Recording, Halt>
    requires ok { IfOk replay (λ r. IsRecording _plain.now r.log r.output.items r.end) }
    requires log { IfOk replay (λ r. r.log ≡ _log.now) }
    requires err { IfErr replay (Refuses _plain.now _log.now) }
    ensures recording { IfOk result (λ r. IsRecording _plain.now r.log r.output.items r.end) }
    ensures log { IfOk result (λ r. r.log ≡ _log.now) }
    ensures halts { IfErr result (HaltsBy (RunStops _plain.now _log.now)) }
{
    match replay {
        Ok(run) => Ok(run),
        Err(ReplayFault::Diverged { clock, thread }) => Err(Halt::Told(
            Status::Diverged,
            lines::diverged(alloc, clock, thread)?,
        )),
        Err(ReplayFault::NoMemory) => Err(Halt::Memory),
    }
}

/// The run that the log tells, on this thread.
pub fn replayed(alloc: Global, plain: &Plain, log: &Log) -> Result<Recording, Halt>
    ensures recording { IfOk result (λ r. IsRecording plain.now r.log r.output.items r.end) }
    ensures log { IfOk result (λ r. r.log ≡ log.now) }
    ensures halts { IfErr result (HaltsBy (RunStops plain.now log.now)) }
{
    judged(alloc, plain, log, replay_still(alloc, plain, log))
}

/// What is printed of the run that a log tells.
fn text_of_run(
    alloc: Global,
    plain: &Plain,
    _log: &Log,
    run: &Recording,
) -> Result<Vec<u8>, NoMemory>
    requires recording { IsRecording plain.now run.now.log run.now.output.items run.now.end }
    requires log { run.now.log ≡ _log.now }
    ensures { IfOk result (λ text. TellsRun plain.now _log.now text.items) }
{
    run_text(
        alloc,
        run.log.events(),
        run.log.intervals().len() as u64,
        &run.end,
        &run.output,
        plain.program(),
    )
}

/// The run that the log tells, by so many lanes. One lane is this thread.
fn replay_by<R: Threads + Wait + Sync, M: Meeting>(
    rt: &R,
    alloc: Global,
    plain: &Plain,
    log: &Log,
    lanes: u32,
    meeting: &M,
) -> Result<Recording, ReplayFault>
    requires one { 1 ≤ lanes }
    requires few { lanes ≤ MOST_LANES }
    ensures ok { IfOk result (λ r. IsRecording plain.now r.log r.output.items r.end) }
    ensures log { IfOk result (λ r. r.log ≡ log.now) }
    ensures err { IfErr result (Refuses plain.now log.now) }
{
    if lanes == 1 {
        replay_still(alloc, plain, log)
    } else {
        replay_lanes(rt, alloc, plain, log, lanes, meeting)
    }
}

/// Replays the log of one file with the program of the other on this thread. What is printed is the result.
pub fn replay_file<F: Folder>(
    alloc: Global,
    program: &str,
    log: &str,
    folder: &mut F,
) -> Result<Vec<u8>, Halt>
    ensures replays { IfOk result (λ text. Replays (folder_call F.is_told F.file F.load_faults F.store_faults folder.old folder.new) program.now log.now text.items) }
    ensures halts { IfErr result (Halts (Replay program.now log.now 1) (folder_call F.is_told F.file F.load_faults F.store_faults folder.old folder.new)) }
    ensures counts { CountsLoads (F.load_faults folder.old) (F.load_faults folder.new) result }
{
    let shaped = load_program(alloc, program, folder)?;
    let kept = load_log(alloc, log, folder)?;
    let run = replayed(alloc, shaped.plain(), &kept)?;
    Ok(text_of_run(alloc, shaped.plain(), &kept, &run)?)
}

/// Replays the log of one file with the program of the other by 1 to 16 lanes. What is printed is the result.
pub fn replay_file_by<R: Threads + Wait + Sync, F: Folder, M: Meeting>(
    rt: &R,
    alloc: Global,
    program: &str,
    log: &str,
    lanes: u32,
    folder: &mut F,
    meeting: &M,
) -> Result<Vec<u8>, Halt>
    requires one { 1 ≤ lanes }
    requires few { lanes ≤ MOST_LANES }
    ensures replays { IfOk result (λ text. Replays (folder_call F.is_told F.file F.load_faults F.store_faults folder.old folder.new) program.now log.now text.items) }
    ensures halts { IfErr result (Halts (Replay program.now log.now lanes) (folder_call F.is_told F.file F.load_faults F.store_faults folder.old folder.new)) }
    ensures counts { CountsLoads (F.load_faults folder.old) (F.load_faults folder.new) result }
{
    let shaped = load_program(alloc, program, folder)?;
    let kept = load_log(alloc, log, folder)?;
    let replay = replay_by(rt, alloc, shaped.plain(), &kept, lanes, meeting);
    let run = judged(alloc, shaped.plain(), &kept, replay)?;
    Ok(text_of_run(alloc, shaped.plain(), &kept, &run)?)
}

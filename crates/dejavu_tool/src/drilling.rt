//! The drill: a program with a known number of events is stored, recorded and replayed.

ghost use Rattle.std.specs.Prelude.{◌≡◌, ◌≤◌, ◌++◌, None, IfOk, IfErr, codes};
ghost use Rattle.vm_model.specs.declared.limits.TheConstants.{MOST_DRILL_WORKERS, MOST_EVENTS};
ghost use Rattle.machine_model.specs.Machine.{end_of, start_machine};
ghost use Rattle.schedule_log.specs.Spelling.{Spells};
ghost use Rattle.thread_driver.specs.Recordings.{IsRecording};
ghost use Rattle.command_line.specs.Requests.{Drill};
ghost use Rattle.tool_stages.specs.Calls.{folder_call};
ghost use Rattle.tool_stages.specs.Stages.{CountsLoads, HaltsBy, TextStops};
ghost use Rattle.dejavu_tool.specs.Answers.{Drills, Halts, TellsDrill};
ghost use Rattle.dejavu_tool.specs.Checking.{count_line};
ghost use Rattle.dejavu_tool.specs.Runs.{TellsRecording};

use crate::checking::put_count;
use crate::recording::{Recorded, run_recorded};
use drill_program::drill_text;
use report_writer::run_text;
use schedule_log::{Log, LogFault, decode};
use std::alloc::Global;
use thread_driver::{Recording, ReplayFault, replay_still};
use tool_io::Folder;
use tool_stages::{Halt, program_of, store_file};
use vm_model::{MOST_EVENTS, NoMemory, Plain};

/// The log of a recording, read from its bytes.
fn log_of(alloc: Global, plain: &Plain, run: &Recorded) -> Result<Log, NoMemory>
    requires { TellsRecording plain.now 1 MOST_EVENTS run.now.bytes.items run.now.text.items }
    ensures { IfOk result (λ log. Spells log run.now.bytes.items) }
{
    match decode(alloc, &run.bytes) {
        Ok(log) => Ok(log),
        Err(LogFault::At { kind: _, offset: _ }) => unreachable!(),
        Err(LogFault::NoMemory) => Err(NoMemory),
    }
}

/// The run of a recording once more, by its log.
fn run_again(alloc: Global, plain: &Plain, run: &Recorded, log: &Log) -> Result<Recording, NoMemory>
    requires recorded { TellsRecording plain.now 1 MOST_EVENTS run.now.bytes.items run.now.text.items }
    requires spelled { Spells log.now run.now.bytes.items }
    ensures recording { IfOk result (λ r. IsRecording plain.now r.log r.output.items r.end) }
    ensures log { IfOk result (λ r. r.log ≡ log.now) }
{
    match replay_still(alloc, plain, log) {
        Ok(recording) => Ok(recording),
        Err(
            ReplayFault::Diverged {
                clock: _,
                thread: _,
            },
        ) => unreachable!(),
        Err(ReplayFault::NoMemory) => Err(NoMemory),
    }
}

/// What is printed of the replay of a recording.
fn replayed(alloc: Global, plain: &Plain, run: &Recorded) -> Result<Vec<u8>, NoMemory>
    requires { TellsRecording plain.now 1 MOST_EVENTS run.now.bytes.items run.now.text.items }
    ensures { IfOk result (λ text. TellsRecording plain.now 1 MOST_EVENTS run.now.bytes.items text.items) }
{
    let log = log_of(alloc, plain, run)?;
    let again = run_again(alloc, plain, run, &log)?;
    run_text(
        alloc,
        again.log.events(),
        again.log.intervals().len() as u64,
        &again.end,
        &again.output,
        plain.program(),
    )
}

/// What is printed of so many workers, and of the run.
fn text_of_drill(alloc: Global, workers: u32, run: &[u8]) -> Result<Vec<u8>, NoMemory>
    ensures { IfOk result (λ printed. printed.items ≡ count_line (codes "drill ") workers ++ run.now) }
{
    let mut out = Vec::new(alloc);
    put_count(&mut out, b"drill ", u128::from(workers))?;
    out.extend_from_slice(run)?;
    Ok(out)
}

/// What is printed of a drill.
fn drilled(alloc: Global, text: &[u8], workers: u32) -> Result<Vec<u8>, Halt>
    ensures drills { IfOk result (λ printed. TellsDrill text.now workers printed.items) }
    ensures halts { IfErr result (HaltsBy (TextStops text.now)) }
{
    let shaped = program_of(alloc, text)?;
    let run = run_recorded(alloc, shaped.plain(), MOST_EVENTS)?;
    let again = replayed(alloc, shaped.plain(), &run)?;
    Ok(text_of_drill(alloc, workers, &again)?)
}

/// Stores the drill of so many workers, from 1 to 60, and records and replays it. What is printed is the result.
pub fn drill_file<F: Folder>(
    alloc: Global,
    workers: u32,
    program: &str,
    folder: &mut F,
) -> Result<Vec<u8>, Halt>
    requires some { 1 ≤ workers }
    requires few { workers ≤ MOST_DRILL_WORKERS }
    ensures drills { IfOk result (λ text. Drills (folder_call F.is_told F.file F.load_faults F.store_faults folder.old folder.new) workers program.now text.items) }
    ensures halts { IfErr result (Halts (Drill workers program.now) (folder_call F.is_told F.file F.load_faults F.store_faults folder.old folder.new)) }
    ensures counts { CountsLoads (F.load_faults folder.old) (F.load_faults folder.new) result }
{
    let text = drill_text(alloc, workers)?;
    store_file(alloc, program, &text, folder)?;
    drilled(alloc, &text, workers)
}

ghost use Rattle.std.specs.Prelude.{◌≡◌, IfOk, IfErr, map, string_bytes};
ghost use Rattle.command_line.specs.Plain.{IsWithin, plain_command};
ghost use Rattle.command_line.specs.Requests.{request_of};
ghost use Rattle.tool_stages.specs.Calls.{folder_call, sink_call};
ghost use Rattle.tool_stages.specs.Stages.{CountsLoads, HaltsBy};
ghost use Rattle.dejavu_tool.specs.Answers.{Answers, CountsAnswer, Does, Halts, PutsUnlessFault, UsageTold, on_one_lane};
ghost use Rattle.dejavu_tool.specs.Completeness.{IsComplete};
ghost use Rattle.dejavu_tool.specs.Headline.{CheckHolds, DeriveHolds, DrillHolds, IsolationHolds, RacesHold, RecordingHolds, ReduceHolds, ReplayHolds, RunHolds, SeekHolds, ShowHolds, TilesHold};

use crate::checking::check_file;
use crate::derivation::derive_file;
use crate::drilling::drill_file;
use crate::isolating::isolate_file;
use crate::racing::races_file;
use crate::recording::{record_file, record_file_by};
use crate::reducing::reduce_file;
use crate::replaying::{replay_file, replay_file_by};
use crate::running::run_file;
use crate::seeking::seek_file;
use crate::showing::show_file;
use crate::tiling::tiles_file;
use command_line::{Command, command_in};
use gate_core::Meeting;
use std::alloc::Global;
use std::sync::Wait;
use std::thread::Threads;
use tool_io::{Folder, Sink, put_all};
use tool_stages::{Halt, Status, lines};

/// What the words of no command get.
fn unknown(alloc: Global) -> Result<Vec<u8>, Halt>
    ensures some { IfOk result (λ _. ⊥) }
    ensures halts { IfErr result (HaltsBy UsageTold) }
{
    Err(Halt::Told(Status::Usage, lines::usage(alloc)?))
}

/// Does what was asked for on one lane, up to the printing. What is printed is the result.
fn done<H: Threads + Sync, F: Folder>(
    rt: &H,
    alloc: Global,
    command: Command<'_>,
    folder: &mut F,
) -> Result<Vec<u8>, Halt>
    requires { IsWithin command }
    ensures does { IfOk result (λ text. Does (on_one_lane (plain_command command.entry)) (folder_call F.is_told F.file F.load_faults F.store_faults folder.old folder.new) text.items) }
    ensures halts { IfErr result (Halts (on_one_lane (plain_command command.entry)) (folder_call F.is_told F.file F.load_faults F.store_faults folder.old folder.new)) }
    ensures counts { CountsLoads (F.load_faults folder.old) (F.load_faults folder.new) result }
{
    match command {
        Command::Check { program } => check_file(alloc, program, folder),
        Command::Record {
            program,
            log,
            lanes: _,
            events,
        } => record_file(alloc, program, log, events, folder),
        Command::Replay {
            program,
            log,
            lanes: _,
        } => replay_file(alloc, program, log, folder),
        Command::Show {
            program,
            log,
            clock,
        } => show_file(alloc, program, log, clock, folder),
        Command::Derive {
            program,
            log,
            schedule,
        } => derive_file(alloc, program, log, schedule, folder),
        Command::Run {
            program,
            schedule,
            events,
        } => run_file(alloc, program, schedule, events, folder),
        Command::Seek {
            program,
            seed,
            tries,
            schedule,
            events,
        } => seek_file(alloc, program, seed, tries, schedule, events, folder),
        Command::Isolate {
            program,
            pass,
            fail,
            tests,
            workers,
            events,
        } => isolate_file(
            rt, alloc, program, pass, fail, tests, workers, events, folder,
        ),
        Command::Reduce {
            program,
            fail,
            schedule,
            tests,
            events,
        } => reduce_file(rt, alloc, program, fail, schedule, tests, events, folder),
        Command::Races { program, log } => races_file(alloc, program, log, folder),
        Command::Tiles { log } => tiles_file(alloc, log, folder),
        Command::Drill { workers, program } => drill_file(alloc, workers as u32, program, folder),
        Command::Unknown => unknown(alloc),
    }
}

/// Does what was asked for, up to the printing, on as many lanes as it asks for.
fn done_by_lanes<H: Threads + Wait + Sync, F: Folder, M: Meeting>(
    rt: &H,
    alloc: Global,
    command: Command<'_>,
    folder: &mut F,
    meeting: &M,
) -> Result<Vec<u8>, Halt>
    requires { IsWithin command }
    ensures does { IfOk result (λ text. Does (plain_command command.entry) (folder_call F.is_told F.file F.load_faults F.store_faults folder.old folder.new) text.items) }
    ensures halts { IfErr result (Halts (plain_command command.entry) (folder_call F.is_told F.file F.load_faults F.store_faults folder.old folder.new)) }
    ensures counts { CountsLoads (F.load_faults folder.old) (F.load_faults folder.new) result }
{
    match command {
        Command::Record {
            program,
            log,
            lanes,
            events,
        } => record_file_by(
            rt,
            alloc,
            program,
            log,
            lanes as u32,
            events,
            folder,
            meeting,
        ),
        Command::Replay {
            program,
            log,
            lanes,
        } => replay_file_by(rt, alloc, program, log, lanes as u32, folder, meeting),
        other => done(rt, alloc, other, folder),
    }
}

/// Prints what the status says.
fn put_text<O: Sink>(out: &mut O, status: Status, text: &[u8]) -> Status
    ensures { PutsUnlessFault (sink_call O.is_told O.taken O.faults out.old out.new) status text.now result }
{
    match put_all(out, text) {
        Ok(()) => status,
        Err(_) => Status::WriteFault,
    }
}

/// Does what was asked for on one lane, and prints.
fn answered<H: Threads + Sync, F: Folder, O: Sink>(
    rt: &H,
    alloc: Global,
    words: &[String],
    folder: &mut F,
    out: &mut O,
) -> Status
    ensures answer { Answers (on_one_lane (request_of (map string_bytes words.now))) (folder_call F.is_told F.file F.load_faults F.store_faults folder.old folder.new) (sink_call O.is_told O.taken O.faults out.old out.new) result }
    ensures counted { CountsAnswer (F.load_faults folder.old) (F.load_faults folder.new) result }
{
    let Ok(command) = command_in(alloc, words) else {
        return Status::OutOfMemory;
    };
    match done(rt, alloc, command, folder) {
        Ok(text) => put_text(out, Status::Ok, &text),
        Err(Halt::Told(status, line)) => put_text(out, status, &line),
        Err(Halt::Memory) => Status::OutOfMemory,
        Err(Halt::Store) => Status::WriteFault,
    }
}

/// Does what was asked for on as many lanes as it asks for, and prints.
fn answered_by_lanes<H: Threads + Wait + Sync, F: Folder, O: Sink, M: Meeting>(
    rt: &H,
    alloc: Global,
    words: &[String],
    folder: &mut F,
    out: &mut O,
    meeting: &M,
) -> Status
    ensures answer { Answers (request_of (map string_bytes words.now)) (folder_call F.is_told F.file F.load_faults F.store_faults folder.old folder.new) (sink_call O.is_told O.taken O.faults out.old out.new) result }
    ensures counted { CountsAnswer (F.load_faults folder.old) (F.load_faults folder.new) result }
{
    let Ok(command) = command_in(alloc, words) else {
        return Status::OutOfMemory;
    };
    match done_by_lanes(rt, alloc, command, folder, meeting) {
        Ok(text) => put_text(out, Status::Ok, &text),
        Err(Halt::Told(status, line)) => put_text(out, status, &line),
        Err(Halt::Memory) => Status::OutOfMemory,
        Err(Halt::Store) => Status::WriteFault,
    }
}

/// The tool on one lane, whatever `--lanes` says: for a runtime that can't wait. The answers are those of `dejavu` on one lane.
pub fn still_command<H: Threads + Sync, F: Folder, O: Sink>(
    rt: &H,
    alloc: Global,
    words: &[String],
    folder: &mut F,
    out: &mut O,
) -> Status
    // A finished recording.
    ensures recording { RecordingHolds (on_one_lane (request_of (map string_bytes words.now))) (folder_call F.is_told F.file F.load_faults F.store_faults folder.old folder.new) (sink_call O.is_told O.taken O.faults out.old out.new) result }
    // A finished replay.
    ensures replay { ReplayHolds (on_one_lane (request_of (map string_bytes words.now))) (folder_call F.is_told F.file F.load_faults F.store_faults folder.old folder.new) (sink_call O.is_told O.taken O.faults out.old out.new) result }
    // When each status comes, and what it prints and leaves.
    ensures answer { Answers (on_one_lane (request_of (map string_bytes words.now))) (folder_call F.is_told F.file F.load_faults F.store_faults folder.old folder.new) (sink_call O.is_told O.taken O.faults out.old out.new) result }
    // How many loads failed.
    ensures counted { CountsAnswer (F.load_faults folder.old) (F.load_faults folder.new) result }
    // Where nothing stands in the way, the status is `Ok`, unless memory runs out.
    ensures complete { IsComplete (on_one_lane (request_of (map string_bytes words.now))) (folder_call F.is_told F.file F.load_faults F.store_faults folder.old folder.new) (sink_call O.is_told O.taken O.faults out.old out.new) result }
{
    answered(rt, alloc, words, folder, out)
}

/// The tool. The words are those after the program's name; the first names the command.
///
/// A file is stored before anything is printed. The runtime lets `isolate` run several tests at once, and lets lanes run and
/// wait for their turns; `meeting` is what lanes meet around their offers, and changes nothing else. With one lane each call
/// returns.
pub fn dejavu<H: Threads + Wait + Sync, F: Folder, O: Sink, M: Meeting>(
    rt: &H,
    alloc: Global,
    words: &[String],
    folder: &mut F,
    out: &mut O,
    meeting: &M,
) -> Status
    // A finished check.
    ensures check { CheckHolds (request_of (map string_bytes words.now)) (folder_call F.is_told F.file F.load_faults F.store_faults folder.old folder.new) (sink_call O.is_told O.taken O.faults out.old out.new) result }
    // A finished recording.
    ensures recording { RecordingHolds (request_of (map string_bytes words.now)) (folder_call F.is_told F.file F.load_faults F.store_faults folder.old folder.new) (sink_call O.is_told O.taken O.faults out.old out.new) result }
    // A finished replay.
    ensures replay { ReplayHolds (request_of (map string_bytes words.now)) (folder_call F.is_told F.file F.load_faults F.store_faults folder.old folder.new) (sink_call O.is_told O.taken O.faults out.old out.new) result }
    // The state at a clock.
    ensures show { ShowHolds (request_of (map string_bytes words.now)) (folder_call F.is_told F.file F.load_faults F.store_faults folder.old folder.new) (sink_call O.is_told O.taken O.faults out.old out.new) result }
    // A finished run of a schedule.
    ensures run { RunHolds (request_of (map string_bytes words.now)) (folder_call F.is_told F.file F.load_faults F.store_faults folder.old folder.new) (sink_call O.is_told O.taken O.faults out.old out.new) result }
    // A finished derivation.
    ensures derive { DeriveHolds (request_of (map string_bytes words.now)) (folder_call F.is_told F.file F.load_faults F.store_faults folder.old folder.new) (sink_call O.is_told O.taken O.faults out.old out.new) result }
    // A finished search.
    ensures seek { SeekHolds (request_of (map string_bytes words.now)) (folder_call F.is_told F.file F.load_faults F.store_faults folder.old folder.new) (sink_call O.is_told O.taken O.faults out.old out.new) result }
    // A finished isolation.
    ensures isolation { IsolationHolds (request_of (map string_bytes words.now)) (folder_call F.is_told F.file F.load_faults F.store_faults folder.old folder.new) (sink_call O.is_told O.taken O.faults out.old out.new) result }
    // A finished reduction.
    ensures reduction { ReduceHolds (request_of (map string_bytes words.now)) (folder_call F.is_told F.file F.load_faults F.store_faults folder.old folder.new) (sink_call O.is_told O.taken O.faults out.old out.new) result }
    // A finished report of races.
    ensures races { RacesHold (request_of (map string_bytes words.now)) (folder_call F.is_told F.file F.load_faults F.store_faults folder.old folder.new) (sink_call O.is_told O.taken O.faults out.old out.new) result }
    // A finished list of intervals.
    ensures tiles { TilesHold (request_of (map string_bytes words.now)) (folder_call F.is_told F.file F.load_faults F.store_faults folder.old folder.new) (sink_call O.is_told O.taken O.faults out.old out.new) result }
    // A finished drill.
    ensures drill { DrillHolds (request_of (map string_bytes words.now)) (folder_call F.is_told F.file F.load_faults F.store_faults folder.old folder.new) (sink_call O.is_told O.taken O.faults out.old out.new) result }
    // When each status comes, and what it prints and leaves.
    ensures answer { Answers (request_of (map string_bytes words.now)) (folder_call F.is_told F.file F.load_faults F.store_faults folder.old folder.new) (sink_call O.is_told O.taken O.faults out.old out.new) result }
    // How many loads failed.
    ensures counted { CountsAnswer (F.load_faults folder.old) (F.load_faults folder.new) result }
    // Where nothing stands in the way, the status is `Ok`, unless memory runs out.
    ensures complete { IsComplete (request_of (map string_bytes words.now)) (folder_call F.is_told F.file F.load_faults F.store_faults folder.old folder.new) (sink_call O.is_told O.taken O.faults out.old out.new) result }
{
    answered_by_lanes(rt, alloc, words, folder, out, meeting)
}

//! Running: the run of a program by a schedule.

ghost use Rattle.std.specs.Prelude.{◌≡◌, ◌≤◌, None, IfOk, IfErr, length};
ghost use Rattle.vm_model.specs.declared.limits.TheConstants.{MOST_EVENTS, MOST_SWITCHES};
ghost use Rattle.machine_model.specs.Machine.{end_of, start_machine};
ghost use Rattle.command_line.specs.Requests.{Run};
ghost use Rattle.tool_stages.specs.Calls.{folder_call};
ghost use Rattle.tool_stages.specs.Stages.{CountsLoads};
ghost use Rattle.dejavu_tool.specs.Answers.{Halts, Runs};
ghost use Rattle.dejavu_tool.specs.Runs.{TellsScheduled};

use report_writer::run_text;
use schedule_model::Schedule;
use std::alloc::Global;
use switch_schedule::run_schedule;
use tool_io::Folder;
use tool_stages::{Halt, load_program, load_schedule};
use vm_model::{NoMemory, Plain};

/// What is printed of the run of a schedule, of at most so many events.
fn text_of_run(
    alloc: Global,
    plain: &Plain,
    schedule: &Schedule,
    events: u64,
) -> Result<Vec<u8>, NoMemory>
    requires few { length schedule.now ≤ MOST_SWITCHES }
    requires some { 1 ≤ events }
    requires limit { events ≤ MOST_EVENTS }
    requires begins { end_of plain.now (start_machine plain.now) MOST_EVENTS ≡ None }
    ensures { IfOk result (λ text. TellsScheduled plain.now schedule.now events text.items) }
{
    let ran = run_schedule(alloc, plain, schedule, events)?;
    run_text(
        alloc,
        ran.clock,
        ran.intervals.len() as u64,
        &ran.end,
        &ran.output,
        plain.program(),
    )
}

/// Runs the program of one file by the schedule of the other. What is printed is the result.
pub fn run_file<F: Folder>(
    alloc: Global,
    program: &str,
    schedule: &str,
    events: u64,
    folder: &mut F,
) -> Result<Vec<u8>, Halt>
    requires some { 1 ≤ events }
    requires limit { events ≤ MOST_EVENTS }
    ensures runs { IfOk result (λ text. Runs (folder_call F.is_told F.file F.load_faults F.store_faults folder.old folder.new) program.now schedule.now events text.items) }
    ensures halts { IfErr result (Halts (Run program.now schedule.now events) (folder_call F.is_told F.file F.load_faults F.store_faults folder.old folder.new)) }
    ensures counts { CountsLoads (F.load_faults folder.old) (F.load_faults folder.new) result }
{
    let shaped = load_program(alloc, program, folder)?;
    let times = load_schedule(alloc, schedule, events, folder)?;
    Ok(text_of_run(alloc, shaped.plain(), &times, events)?)
}

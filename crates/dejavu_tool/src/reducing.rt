//! Reducing: a failing schedule without the times that its fault doesn't need.

ghost use Rattle.std.specs.Prelude.{◌≡◌, ◌≤◌, All, None, IfOk, IfErr, length};
ghost use Rattle.vm_model.specs.declared.limits.TheConstants.{MOST_EVENTS, MOST_SWITCHES};
ghost use Rattle.machine_model.specs.Machine.{end_of, start_machine};
ghost use Rattle.program_reducer.specs.Reductions.{IsReduction};
ghost use Rattle.switch_schedule.specs.Texts.{AreTimes};
ghost use Rattle.command_line.specs.Requests.{Reduce};
ghost use Rattle.tool_stages.specs.Calls.{folder_call};
ghost use Rattle.tool_stages.specs.Stages.{CountsLoads, HaltsBy};
ghost use Rattle.dejavu_tool.specs.Answers.{Halts, Reduces};
ghost use Rattle.dejavu_tool.specs.Runs.{ReduceStops, TellsReduced};

use program_reducer::{ReductionRefusal, reduce_program};
use report_writer::reduced_text;
use schedule_model::Schedule;
use std::alloc::Global;
use std::thread::Threads;
use switch_reducer::Reduced;
use switch_schedule::write_schedule;
use tool_io::Folder;
use tool_stages::{Halt, Status, lines, load_program, load_schedule, store_file};
use vm_model::{NoMemory, Plain};

/// The file of what is left of a schedule, and what is printed of it.
#[derive(Drop)]
pub struct Left {
    pub bytes: Vec<u8>,
    pub text: Vec<u8>,
}

/// What is left of a failing schedule.
fn left_of<H: Threads + Sync>(
    rt: &H,
    alloc: Global,
    plain: &Plain,
    fail: &Schedule,
    tests: u64,
    events: u64,
) -> Result<Reduced, Halt>
    requires size { length fail.now ≤ MOST_SWITCHES }
    requires times { AreTimes events fail.now }
    requires some { 1 ≤ events }
    requires limit { events ≤ MOST_EVENTS }
    requires begins { end_of plain.now (start_machine plain.now) MOST_EVENTS ≡ None }
    ensures reduction { IfOk result (IsReduction plain.now events fail.now tests) }
    ensures few { IfOk result (λ found. length found.schedule ≤ MOST_SWITCHES) }
    ensures small { IfOk result (λ found. All (λ time. time ≤ MOST_EVENTS) found.schedule) }
    ensures halts { IfErr result (HaltsBy (ReduceStops plain.now events fail.now tests)) }
{
    match reduce_program(rt, alloc, plain, fail, events, tests, 1) {
        Ok(found) => Ok(found),
        Err(ReductionRefusal::NotFailing(end)) => Err(Halt::Told(
            Status::NotFailing,
            lines::not_failing(alloc, plain.program(), &end)?,
        )),
        Err(ReductionRefusal::TestsSpent(asked)) => {
            Err(Halt::Told(Status::TestsSpent, lines::tests_spent(alloc, asked)?))
        }
        Err(ReductionRefusal::NoMemory) => Err(Halt::Memory),
    }
}

/// What is left of a schedule as a file, and what is printed of it.
fn told(
    alloc: Global,
    _plain: &Plain,
    fail: &Schedule,
    _tests: u64,
    _events: u64,
    found: &Reduced,
) -> Result<Left, NoMemory>
    requires reduction { IsReduction _plain.now _events fail.now _tests found.now }
    requires few { length found.now.schedule ≤ MOST_SWITCHES }
    requires small { All (λ time. time ≤ MOST_EVENTS) found.now.schedule }
    ensures { IfOk result (λ left. TellsReduced _plain.now _events fail.now _tests left.bytes.items left.text.items) }
{
    let text = reduced_text(alloc, fail, &found.schedule, found.asked, found.unresolved)?;
    let bytes = write_schedule(alloc, &found.schedule)?;
    Ok(Left { bytes, text })
}

/// Stores what is left of a failing schedule. What is printed is the result.
pub fn reduce_file<H: Threads + Sync, F: Folder>(
    rt: &H,
    alloc: Global,
    program: &str,
    fail: &str,
    schedule: &str,
    tests: u64,
    events: u64,
    folder: &mut F,
) -> Result<Vec<u8>, Halt>
    requires some { 1 ≤ events }
    requires limit { events ≤ MOST_EVENTS }
    ensures reduces { IfOk result (λ text. Reduces (folder_call F.is_told F.file F.load_faults F.store_faults folder.old folder.new) program.now fail.now schedule.now tests events text.items) }
    ensures halts { IfErr result (Halts (Reduce program.now fail.now schedule.now tests events) (folder_call F.is_told F.file F.load_faults F.store_faults folder.old folder.new)) }
    ensures counts { CountsLoads (F.load_faults folder.old) (F.load_faults folder.new) result }
{
    let shaped = load_program(alloc, program, folder)?;
    let failing = load_schedule(alloc, fail, events, folder)?;
    let found = left_of(rt, alloc, shaped.plain(), &failing, tests, events)?;
    let left = told(alloc, shaped.plain(), &failing, tests, events, &found)?;
    store_file(alloc, schedule, &left.bytes, folder)?;
    Ok(left.text)
}

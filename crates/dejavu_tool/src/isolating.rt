//! Isolating: the pair of schedules that no single shift narrows.

ghost use Rattle.std.specs.Prelude.{◌≡◌, ◌≤◌, None, IfOk, IfErr, length};
ghost use Rattle.vm_model.specs.declared.limits.TheConstants.{MOST_EVENTS, MOST_SWITCHES};
ghost use Rattle.machine_model.specs.Machine.{end_of, start_machine};
ghost use Rattle.program_isolator.specs.Isolations.{IsIsolation};
ghost use Rattle.command_line.specs.Requests.{Isolate};
ghost use Rattle.tool_stages.specs.Calls.{folder_call};
ghost use Rattle.tool_stages.specs.Stages.{CountsLoads, HaltsBy};
ghost use Rattle.dejavu_tool.specs.Answers.{Halts, Isolates};
ghost use Rattle.dejavu_tool.specs.Runs.{IsolateStops, TellsIsolated};

use program_isolator::{IsolationRefusal, isolate_program};
use report_writer::isolated_text;
use schedule_model::{Isolated, Schedule};
use std::alloc::Global;
use std::thread::Threads;
use tool_io::Folder;
use tool_stages::{Halt, Status, lines, load_program, load_schedule};
use vm_model::Plain;

/// What is found between the two schedules.
fn found_between<H: Threads + Sync>(
    rt: &H,
    alloc: Global,
    plain: &Plain,
    pass: &Schedule,
    fail: &Schedule,
    tests: u64,
    workers: u32,
    events: u64,
) -> Result<Isolated, Halt>
    requires pass_size { length pass.now ≤ MOST_SWITCHES }
    requires fail_size { length fail.now ≤ MOST_SWITCHES }
    requires some { 1 ≤ events }
    requires limit { events ≤ MOST_EVENTS }
    requires begins { end_of plain.now (start_machine plain.now) MOST_EVENTS ≡ None }
    ensures isolation { IfOk result (IsIsolation plain.now events pass.now fail.now tests) }
    ensures same_size { IfOk result (λ found. length found.fail ≡ length found.pass) }
    ensures halts { IfErr result (HaltsBy (IsolateStops plain.now events pass.now fail.now tests)) }
{
    match isolate_program(rt, alloc, plain, pass, fail, events, tests, workers) {
        Ok(found) => Ok(found),
        Err(IsolationRefusal::NotPassing(end)) => Err(Halt::Told(
            Status::NotPassing,
            lines::not_passing(alloc, plain.program(), &end)?,
        )),
        Err(IsolationRefusal::NotFailing(end)) => Err(Halt::Told(
            Status::NotFailing,
            lines::not_failing(alloc, plain.program(), &end)?,
        )),
        Err(IsolationRefusal::TestsSpent(asked)) => {
            Err(Halt::Told(Status::TestsSpent, lines::tests_spent(alloc, asked)?))
        }
        Err(IsolationRefusal::NoMemory) => Err(Halt::Memory),
    }
}

/// What is printed of an isolation.
fn text_between<H: Threads + Sync>(
    rt: &H,
    alloc: Global,
    plain: &Plain,
    pass: &Schedule,
    fail: &Schedule,
    tests: u64,
    workers: u32,
    events: u64,
) -> Result<Vec<u8>, Halt>
    requires pass_size { length pass.now ≤ MOST_SWITCHES }
    requires fail_size { length fail.now ≤ MOST_SWITCHES }
    requires some { 1 ≤ events }
    requires limit { events ≤ MOST_EVENTS }
    requires begins { end_of plain.now (start_machine plain.now) MOST_EVENTS ≡ None }
    ensures isolated { IfOk result (λ text. TellsIsolated plain.now events pass.now fail.now tests text.items) }
    ensures halts { IfErr result (HaltsBy (IsolateStops plain.now events pass.now fail.now tests)) }
{
    let found = found_between(rt, alloc, plain, pass, fail, tests, workers, events)?;
    Ok(isolated_text(alloc, &found)?)
}

/// Narrows the difference between the two schedules. What is printed is the result.
pub fn isolate_file<H: Threads + Sync, F: Folder>(
    rt: &H,
    alloc: Global,
    program: &str,
    pass: &str,
    fail: &str,
    tests: u64,
    workers: u64,
    events: u64,
    folder: &mut F,
) -> Result<Vec<u8>, Halt>
    requires some { 1 ≤ events }
    requires limit { events ≤ MOST_EVENTS }
    requires few { workers ≤ 16 }
    ensures isolates { IfOk result (λ text. Isolates (folder_call F.is_told F.file F.load_faults F.store_faults folder.old folder.new) program.now pass.now fail.now tests events text.items) }
    ensures halts { IfErr result (Halts (Isolate program.now pass.now fail.now tests workers events) (folder_call F.is_told F.file F.load_faults F.store_faults folder.old folder.new)) }
    ensures counts { CountsLoads (F.load_faults folder.old) (F.load_faults folder.new) result }
{
    let shaped = load_program(alloc, program, folder)?;
    let passing = load_schedule(alloc, pass, events, folder)?;
    let failing = load_schedule(alloc, fail, events, folder)?;
    text_between(
        rt,
        alloc,
        shaped.plain(),
        &passing,
        &failing,
        tests,
        workers as u32,
        events,
    )
}

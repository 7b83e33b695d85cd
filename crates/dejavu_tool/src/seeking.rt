//! Seeking: a search for a schedule whose run ends in a fault.

ghost use Rattle.std.specs.Prelude.{◌≡◌, ◌≤◌, ◌++◌, None, IfOk, IfErr, codes, length};
ghost use Rattle.report_writer.specs.Texts as texts;
ghost use Rattle.vm_model.specs.declared.limits.TheConstants.{MOST_EVENTS, MOST_TRIES};
ghost use Rattle.machine_model.specs.Machine.{end_of, start_machine};
ghost use Rattle.switch_schedule.specs.Searches.{IsFirstFault};
ghost use Rattle.command_line.specs.Requests.{Seek};
ghost use Rattle.tool_stages.specs.Calls.{folder_call};
ghost use Rattle.tool_stages.specs.Stages.{CountsLoads, HaltsBy};
ghost use Rattle.dejavu_tool.specs.Answers.{Halts, Seeks};
ghost use Rattle.dejavu_tool.specs.Runs.{SeekStops, TellsSought};

use report_writer::{put_counted, run_text};
use schedule_model::Schedule;
use std::alloc::Global;
use switch_schedule::{Ran, Sought, seek, write_schedule};
use tool_io::Folder;
use tool_stages::{Halt, Status, lines, load_program, store_file};
use vm_model::{NoMemory, Plain};

/// The file of a schedule that was found, and what is printed of it.
#[derive(Drop)]
pub struct Found {
    pub bytes: Vec<u8>,
    pub text: Vec<u8>,
}

/// What is printed of a try's number, and of its run.
fn text_of_try(alloc: Global, plain: &Plain, at: u32, ran: &Ran) -> Result<Vec<u8>, NoMemory>
    ensures { IfOk result (λ text. text.items ≡ texts.counted (codes "found at try") at ++ texts.run_text plain.now ran.now.clock (length ran.now.intervals.items) ran.now.end ran.now.output.items) }
{
    let mut text = Vec::new(alloc);
    put_counted(&mut text, b"found at try", u64::from(at))?;
    let run = run_text(
        alloc,
        ran.clock,
        ran.intervals.len() as u64,
        &ran.end,
        &ran.output,
        plain.program(),
    )?;
    text.extend_from_slice(&run)?;
    Ok(text)
}

/// A try that was found as a file, and what is printed of it.
fn told(
    alloc: Global,
    plain: &Plain,
    seed: u64,
    tries: u64,
    events: u64,
    at: u32,
    schedule: &Schedule,
    ran: &Ran,
) -> Result<Found, NoMemory>
    requires limit { events ≤ MOST_EVENTS }
    requires first { IsFirstFault plain.now seed tries events at schedule.now ran.now }
    ensures { IfOk result (λ found. TellsSought plain.now seed tries events found.bytes.items found.text.items) }
{
    let text = text_of_try(alloc, plain, at, ran)?;
    let bytes = write_schedule(alloc, schedule)?;
    Ok(Found { bytes, text })
}

/// The first try of the seed whose run ends in a fault.
fn sought(alloc: Global, plain: &Plain, seed: u64, tries: u64, events: u64) -> Result<Found, Halt>
    requires some { 1 ≤ events }
    requires limit { events ≤ MOST_EVENTS }
    requires few { tries ≤ MOST_TRIES }
    requires begins { end_of plain.now (start_machine plain.now) MOST_EVENTS ≡ None }
    ensures sought { IfOk result (λ found. TellsSought plain.now seed tries events found.bytes.items found.text.items) }
    ensures halts { IfErr result (HaltsBy (SeekStops plain.now seed tries events)) }
{
    match seek(alloc, plain, seed, tries as u32, events)? {
        Sought::Found { at, schedule, ran } => {
            Ok(told(alloc, plain, seed, tries, events, at, &schedule, &ran)?)
        }
        Sought::NotFound => Err(Halt::Told(Status::NotFound, lines::not_found(alloc, tries)?)),
    }
}

/// Stores the first schedule that is found to fail. What is printed is the result.
pub fn seek_file<F: Folder>(
    alloc: Global,
    program: &str,
    seed: u64,
    tries: u64,
    schedule: &str,
    events: u64,
    folder: &mut F,
) -> Result<Vec<u8>, Halt>
    requires some { 1 ≤ events }
    requires limit { events ≤ MOST_EVENTS }
    requires few { tries ≤ MOST_TRIES }
    ensures seeks { IfOk result (λ text. Seeks (folder_call F.is_told F.file F.load_faults F.store_faults folder.old folder.new) program.now seed tries schedule.now events text.items) }
    ensures halts { IfErr result (Halts (Seek program.now seed tries schedule.now events) (folder_call F.is_told F.file F.load_faults F.store_faults folder.old folder.new)) }
    ensures counts { CountsLoads (F.load_faults folder.old) (F.load_faults folder.new) result }
{
    let shaped = load_program(alloc, program, folder)?;
    let found = sought(alloc, shaped.plain(), seed, tries, events)?;
    store_file(alloc, schedule, &found.bytes, folder)?;
    Ok(found.text)
}

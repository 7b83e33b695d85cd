//! Deriving: the schedule whose run is a log's.

ghost use Rattle.std.specs.Prelude.{◌≡◌, IfOk, IfErr, length};
ghost use Rattle.schedule_log.specs.Logs.{IsLawful};
ghost use Rattle.switch_schedule.specs.Derivations.{EndsAsTold, IsDerived};
ghost use Rattle.command_line.specs.Requests.{Derive};
ghost use Rattle.tool_stages.specs.Calls.{folder_call};
ghost use Rattle.tool_stages.specs.Stages.{CountsLoads, HaltsBy};
ghost use Rattle.dejavu_tool.specs.Answers.{Derives, Halts};
ghost use Rattle.dejavu_tool.specs.Runs.{DeriveStops, TellsDerived};
ghost use Rattle.std.specs.Prelude.{◌≤◌};
ghost use Rattle.vm_model.specs.declared.limits.TheConstants.{MOST_SWITCHES};

use report_writer::put_counted;
use schedule_log::Log;
use schedule_model::Schedule;
use std::alloc::Global;
use switch_schedule::{DeriveFault, schedule_of, write_schedule};
use tool_io::Folder;
use tool_stages::{Halt, Status, lines, load_log, load_program, store_file};
use vm_model::Plain;

/// The file of a schedule, and what is printed of it.
#[derive(Drop)]
pub struct Derived {
    pub bytes: Vec<u8>,
    pub text: Vec<u8>,
}

/// The schedule of the log's run.
fn times_of(alloc: Global, plain: &Plain, log: &Log) -> Result<Schedule, Halt>
    ensures derived { IfOk result (λ times. IsDerived plain.now log.now times) }
    ensures told { IfOk result (λ times. EndsAsTold plain.now log.now) }
    ensures few { IfOk result (λ times. length times ≤ MOST_SWITCHES) }
    ensures halts { IfErr result (HaltsBy (DeriveStops plain.now log.now)) }
{
    match schedule_of(alloc, plain, log) {
        Ok(times) => Ok(times),
        Err(DeriveFault::Diverged { clock, thread }) => Err(Halt::Told(
            Status::Diverged,
            lines::diverged(alloc, clock, thread)?,
        )),
        Err(DeriveFault::TooManySwitches { clock }) => Err(Halt::Told(
            Status::ScheduleRefused,
            lines::too_many(alloc, clock)?,
        )),
        Err(DeriveFault::NoMemory) => Err(Halt::Memory),
    }
}

/// The schedule of the log's run as a file, and what is printed of it.
fn derivation_of(alloc: Global, plain: &Plain, log: &Log) -> Result<Derived, Halt>
    ensures derived { IfOk result (λ d. TellsDerived plain.now log.now d.bytes.items d.text.items) }
    ensures halts { IfErr result (HaltsBy (DeriveStops plain.now log.now)) }
{
    let _lawful = log.intervals();
    let times = times_of(alloc, plain, log)?;
    let mut text = Vec::new(alloc);
    put_counted(&mut text, b"switches", times.times.len() as u64)?;
    Ok(Derived {
        bytes: write_schedule(alloc, &times)?,
        text,
    })
}

/// Stores the schedule that gives the log's run. What is printed is the result.
pub fn derive_file<F: Folder>(
    alloc: Global,
    program: &str,
    log: &str,
    schedule: &str,
    folder: &mut F,
) -> Result<Vec<u8>, Halt>
    ensures derives { IfOk result (λ text. Derives (folder_call F.is_told F.file F.load_faults F.store_faults folder.old folder.new) program.now log.now schedule.now text.items) }
    ensures halts { IfErr result (Halts (Derive program.now log.now schedule.now) (folder_call F.is_told F.file F.load_faults F.store_faults folder.old folder.new)) }
    ensures counts { CountsLoads (F.load_faults folder.old) (F.load_faults folder.new) result }
{
    let shaped = load_program(alloc, program, folder)?;
    let kept = load_log(alloc, log, folder)?;
    let found = derivation_of(alloc, shaped.plain(), &kept)?;
    store_file(alloc, schedule, &found.bytes, folder)?;
    Ok(found.text)
}

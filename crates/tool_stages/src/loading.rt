//! Loading: the files of a command.

ghost use Rattle.std.specs.Prelude.{◌≡◌, ◌≤◌, None, IfOk, IfErr, length};
ghost use Rattle.vm_model.specs.declared.limits.TheConstants.{MOST_EVENTS};
ghost use Rattle.linking_laws.specs.Limits.{HasFewClasses, HasFewStatics};
ghost use Rattle.machine_model.specs.Machine.{end_of, start_machine};
ghost use Rattle.schedule_log.specs.Spelling.{Spells};
ghost use Rattle.switch_schedule.specs.Texts.{SpellsSchedule};
ghost use Rattle.tool_stages.specs.declared.programs.ProgramFault.TheVariants.{Shape};
ghost use Rattle.tool_stages.specs.Accepting.{IsAccepted, Refuses};
ghost use Rattle.tool_stages.specs.Calls.{folder_call, Loads};
ghost use Rattle.tool_stages.specs.Files.{FileStops, LoadsLog, LoadsProgram, LoadsSchedule, LogStops, ProgramStops, ScheduleStops, TellsFault, TellsShape};
ghost use Rattle.tool_stages.specs.Stages.{BytesStop, CountsLoads, HaltsBy, OnlyReads, TextStops, TimesStop};

use crate::halt::Halt;
use crate::lines;
use crate::programs::{ProgramFault, accept, linked_program};
use crate::status::Status;
use schedule_log::{Log, LogFault, decode};
use schedule_model::Schedule;
use shape_verifier::{ShapeKind, Shaped};
use std::alloc::Global;
use switch_schedule::{ScheduleFault, read_schedule};
use tool_io::{Folder, Load};
use vm_model::NoMemory;

/// The bytes of a file.
fn load_file<F: Folder>(alloc: Global, name: &str, folder: &mut F) -> Result<Vec<u8>, Halt>
    ensures told { F.is_told folder.new ≡ F.is_told folder.old }
    ensures reads { OnlyReads (folder_call F.is_told F.file F.load_faults F.store_faults folder.old folder.new) }
    ensures loaded { IfOk result (λ bytes. Loads (folder_call F.is_told F.file F.load_faults F.store_faults folder.old folder.new) name.now bytes.items) }
    ensures halts { IfErr result (HaltsBy (FileStops (folder_call F.is_told F.file F.load_faults F.store_faults folder.old folder.new) name.now)) }
    ensures counts { CountsLoads (F.load_faults folder.old) (F.load_faults folder.new) result }
{
    match folder.load(alloc, name) {
        Load::Loaded(bytes) => Ok(bytes),
        Load::Absent => Err(Halt::Told(Status::Absent, lines::absent(alloc, name)?)),
        Load::Failed => Err(Halt::Told(Status::ReadFault, lines::read_fault(alloc, name)?)),
        Load::NoMemory => Err(Halt::Memory),
    }
}

/// The line of a text that is linked and not verified: it is linked once more, for the method's name.
fn shape_line(
    alloc: Global,
    text: &[u8],
    kind: ShapeKind,
    method: u32,
    at: u32,
) -> Result<Vec<u8>, NoMemory>
    requires { Refuses text.now (Shape kind method at) }
    ensures { IfOk result (λ line. TellsShape text.now kind method at line.items) }
{
    match linked_program(alloc, text) {
        Ok(program) => lines::shape(alloc, &program, kind.number(), method, at),
        Err(_) => Err(NoMemory),
    }
}

/// The line of a text that isn't accepted.
fn refusal(alloc: Global, text: &[u8], fault: ProgramFault) -> Result<Vec<u8>, NoMemory>
    requires { Refuses text.now fault }
    ensures { IfOk result (λ line. TellsFault text.now fault line.items) }
{
    match fault {
        ProgramFault::Text { kind, line, column } => {
            lines::text(alloc, kind.number(), line, column)
        }
        ProgramFault::Read { kind, line } => lines::read(alloc, kind.number(), line),
        ProgramFault::Link { kind, line } => lines::link(alloc, kind.number(), line),
        ProgramFault::Shape { kind, method, at } => shape_line(alloc, text, kind, method, at),
        ProgramFault::NoMemory => Err(NoMemory),
    }
}

/// The program of a text, or the status and line of its first fault.
pub fn program_of(alloc: Global, text: &[u8]) -> Result<Shaped, Halt>
    ensures accepted { IfOk result (λ p. IsAccepted text.now p) }
    ensures begins { IfOk result (λ p. end_of p (start_machine p) MOST_EVENTS ≡ None) }
    ensures statics { IfOk result HasFewStatics }
    ensures classes { IfOk result HasFewClasses }
    ensures halts { IfErr result (HaltsBy (TextStops text.now)) }
{
    match accept(alloc, text) {
        Ok(shaped) => Ok(shaped),
        Err(fault) => Err(Halt::Told(Status::ProgramRefused, refusal(alloc, text, fault)?)),
    }
}

/// The log that bytes spell.
fn log_of(alloc: Global, bytes: &[u8]) -> Result<Log, Halt>
    ensures spelled { IfOk result (λ log. Spells log bytes.now) }
    ensures halts { IfErr result (HaltsBy (BytesStop bytes.now)) }
{
    match decode(alloc, bytes) {
        Ok(log) => Ok(log),
        Err(LogFault::At { kind, offset }) => Err(Halt::Told(
            Status::LogRefused,
            lines::log_refused(alloc, kind.number(), offset)?,
        )),
        Err(LogFault::NoMemory) => Err(Halt::Memory),
    }
}

/// The schedule that bytes spell, for so many events.
fn schedule_of(alloc: Global, bytes: &[u8], events: u64) -> Result<Schedule, Halt>
    requires { events ≤ MOST_EVENTS }
    ensures spelled { IfOk result (λ times. SpellsSchedule events times bytes.now) }
    ensures halts { IfErr result (HaltsBy (TimesStop events bytes.now)) }
{
    match read_schedule(alloc, bytes, events) {
        Ok(schedule) => Ok(schedule),
        Err(ScheduleFault::At { kind, offset }) => Err(Halt::Told(
            Status::ScheduleRefused,
            lines::schedule_refused(alloc, kind.number(), offset)?,
        )),
        Err(ScheduleFault::NoMemory) => Err(Halt::Memory),
    }
}

/// The program of a file, or the status and line of what is wrong with it. The file is loaded once, and none is stored.
pub fn load_program<F: Folder>(alloc: Global, name: &str, folder: &mut F) -> Result<Shaped, Halt>
    ensures told { F.is_told folder.new ≡ F.is_told folder.old }
    ensures reads { OnlyReads (folder_call F.is_told F.file F.load_faults F.store_faults folder.old folder.new) }
    ensures loads { IfOk result (LoadsProgram (folder_call F.is_told F.file F.load_faults F.store_faults folder.old folder.new) name.now) }
    ensures begins { IfOk result (λ p. end_of p (start_machine p) MOST_EVENTS ≡ None) }
    ensures statics { IfOk result HasFewStatics }
    ensures classes { IfOk result HasFewClasses }
    ensures halts { IfErr result (HaltsBy (ProgramStops (folder_call F.is_told F.file F.load_faults F.store_faults folder.old folder.new) name.now)) }
    ensures counts { CountsLoads (F.load_faults folder.old) (F.load_faults folder.new) result }
{
    let text = load_file(alloc, name, folder)?;
    program_of(alloc, &text)
}

/// The log of a file, as `load_program` gives a program.
pub fn load_log<F: Folder>(alloc: Global, name: &str, folder: &mut F) -> Result<Log, Halt>
    ensures told { F.is_told folder.new ≡ F.is_told folder.old }
    ensures reads { OnlyReads (folder_call F.is_told F.file F.load_faults F.store_faults folder.old folder.new) }
    ensures loads { IfOk result (LoadsLog (folder_call F.is_told F.file F.load_faults F.store_faults folder.old folder.new) name.now) }
    ensures halts { IfErr result (HaltsBy (LogStops (folder_call F.is_told F.file F.load_faults F.store_faults folder.old folder.new) name.now)) }
    ensures counts { CountsLoads (F.load_faults folder.old) (F.load_faults folder.new) result }
{
    let bytes = load_file(alloc, name, folder)?;
    log_of(alloc, &bytes)
}

/// The schedule of a file, for so many events, as `load_program` gives a program.
pub fn load_schedule<F: Folder>(
    alloc: Global,
    name: &str,
    events: u64,
    folder: &mut F,
) -> Result<Schedule, Halt>
    requires { events ≤ MOST_EVENTS }
    ensures told { F.is_told folder.new ≡ F.is_told folder.old }
    ensures reads { OnlyReads (folder_call F.is_told F.file F.load_faults F.store_faults folder.old folder.new) }
    ensures loads { IfOk result (LoadsSchedule (folder_call F.is_told F.file F.load_faults F.store_faults folder.old folder.new) events name.now) }
    ensures halts { IfErr result (HaltsBy (ScheduleStops (folder_call F.is_told F.file F.load_faults F.store_faults folder.old folder.new) events name.now)) }
    ensures counts { CountsLoads (F.load_faults folder.old) (F.load_faults folder.new) result }
{
    let bytes = load_file(alloc, name, folder)?;
    schedule_of(alloc, &bytes, events)
}

//! Showing: the state of a log's run at a clock.

ghost use Rattle.std.specs.Prelude.{◌≡◌, IfOk, IfErr};
ghost use Rattle.command_line.specs.Requests.{Show};
ghost use Rattle.tool_stages.specs.Calls.{folder_call};
ghost use Rattle.tool_stages.specs.Stages.{CountsLoads, HaltsBy};
ghost use Rattle.dejavu_tool.specs.Answers.{Halts, Shows};
ghost use Rattle.dejavu_tool.specs.Runs.{StateStops, TellsState};
ghost use Rattle.event_machine.specs.MachineView.{machine_of};
ghost use Rattle.machine_model.specs.Machine.{run};
ghost use Rattle.linking_laws.specs.Limits.{HasFewClasses, HasFewStatics};
ghost use Rattle.schedule_log.specs.Logs.{expansion};
ghost use Rattle.std.specs.Prelude.{Some, take};

use event_machine::Machine;
use report_writer::state_text;
use schedule_log::Log;
use std::alloc::Global;
use thread_driver::{ReplayFault, replay_until};
use tool_io::Folder;
use tool_stages::{Halt, Status, lines, load_log, load_program};
use vm_model::Plain;

/// The machine after the log's events below the clock.
fn machine_at(alloc: Global, plain: &Plain, log: &Log, clock: u64) -> Result<Machine, Halt>
    ensures state { IfOk result (λ m. run plain.now (take clock (expansion log.now)) ≡ Some (machine_of m)) }
    ensures halts { IfErr result (HaltsBy (StateStops plain.now log.now clock)) }
{
    match replay_until(alloc, plain, log, clock) {
        Ok(machine) => Ok(machine),
        Err(ReplayFault::Diverged { clock, thread }) => Err(Halt::Told(
            Status::Diverged,
            lines::diverged(alloc, clock, thread)?,
        )),
        Err(ReplayFault::NoMemory) => Err(Halt::Memory),
    }
}

/// What is printed of the state at a clock.
fn text_at(alloc: Global, plain: &Plain, log: &Log, clock: u64) -> Result<Vec<u8>, Halt>
    requires statics { HasFewStatics plain.now }
    requires classes { HasFewClasses plain.now }
    ensures state { IfOk result (λ text. TellsState plain.now log.now clock text.items) }
    ensures halts { IfErr result (HaltsBy (StateStops plain.now log.now clock)) }
{
    let machine = machine_at(alloc, plain, log, clock)?;
    Ok(state_text(alloc, &machine, plain.program())?)
}

/// Shows the state after the log's events below the clock. What is printed is the result.
pub fn show_file<F: Folder>(
    alloc: Global,
    program: &str,
    log: &str,
    clock: u64,
    folder: &mut F,
) -> Result<Vec<u8>, Halt>
    ensures shows { IfOk result (λ text. Shows (folder_call F.is_told F.file F.load_faults F.store_faults folder.old folder.new) program.now log.now clock text.items) }
    ensures halts { IfErr result (Halts (Show program.now log.now clock) (folder_call F.is_told F.file F.load_faults F.store_faults folder.old folder.new)) }
    ensures counts { CountsLoads (F.load_faults folder.old) (F.load_faults folder.new) result }
{
    let shaped = load_program(alloc, program, folder)?;
    let kept = load_log(alloc, log, folder)?;
    text_at(alloc, shaped.plain(), &kept, clock)
}

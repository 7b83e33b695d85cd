//! Races: which accesses of a log's run no order keeps apart.

ghost use Rattle.std.specs.Prelude.{◌≡◌, Some, IfOk, IfErr, option_map};
ghost use Rattle.vm_model.specs.Ends.{kind_of_end};
ghost use Rattle.machine_model.specs.Machine.{end_of, run};
ghost use Rattle.schedule_log.specs.Logs.{expansion};
ghost use Rattle.event_machine.specs.MachineView.{machine_of};
ghost use Rattle.command_line.specs.Requests.{Races};
ghost use Rattle.tool_stages.specs.Calls.{folder_call};
ghost use Rattle.tool_stages.specs.Stages.{CountsLoads, HaltsBy};
ghost use Rattle.dejavu_tool.specs.Answers.{Halts, ReportsRaces};
ghost use Rattle.dejavu_tool.specs.Runs.{RunStops, TellsRaces};

use crate::replaying::replayed;
use event_machine::Machine;
use race_report::races;
use report_writer::races_text;
use schedule_log::Log;
use std::alloc::Global;
use thread_driver::{ReplayFault, replay_until};
use tool_io::Folder;
use tool_stages::{Halt, load_log, load_program};
use vm_model::{NoMemory, Plain};

/// The machine after the log's run, which ends as the log says.
fn machine_after(alloc: Global, plain: &Plain, log: &Log) -> Result<Machine, Halt>
    ensures runs { IfOk result (λ m. run plain.now (expansion log.now) ≡ Some (machine_of m)) }
    ensures ends { IfOk result (λ m. option_map kind_of_end (end_of plain.now (machine_of m) log.now.budget) ≡ Some log.now.end) }
    ensures halts { IfErr result (HaltsBy (RunStops plain.now log.now)) }
{
    replayed(alloc, plain, log)?;
    match replay_until(alloc, plain, log, log.events()) {
        Ok(machine) => Ok(machine),
        Err(ReplayFault::Diverged { .. }) => unreachable!(),
        Err(ReplayFault::NoMemory) => Err(Halt::Memory),
    }
}

/// What is printed of the races of a machine's history.
fn text_after(
    alloc: Global,
    plain: &Plain,
    log: &Log,
    machine: &Machine,
) -> Result<Vec<u8>, NoMemory>
    requires runs { run plain.now (expansion log.now) ≡ Some (machine_of machine.now) }
    requires ends { option_map kind_of_end (end_of plain.now (machine_of machine.now) log.now.budget) ≡ Some log.now.end }
    ensures { IfOk result (λ text. TellsRaces plain.now log.now text.items) }
{
    let _lawful = log.intervals();
    let found = races(alloc, machine.world().history())?;
    races_text(alloc, &found, plain.program())
}

/// Reports the races of the log's run. What is printed is the result.
pub fn races_file<F: Folder>(
    alloc: Global,
    program: &str,
    log: &str,
    folder: &mut F,
) -> Result<Vec<u8>, Halt>
    ensures races { IfOk result (λ text. ReportsRaces (folder_call F.is_told F.file F.load_faults F.store_faults folder.old folder.new) program.now log.now text.items) }
    ensures halts { IfErr result (Halts (Races program.now log.now) (folder_call F.is_told F.file F.load_faults F.store_faults folder.old folder.new)) }
    ensures counts { CountsLoads (F.load_faults folder.old) (F.load_faults folder.new) result }
{
    let shaped = load_program(alloc, program, folder)?;
    let kept = load_log(alloc, log, folder)?;
    let machine = machine_after(alloc, shaped.plain(), &kept)?;
    Ok(text_after(alloc, shaped.plain(), &kept, &machine)?)
}

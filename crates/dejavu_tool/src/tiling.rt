//! Tiling: what a log has.

ghost use Rattle.std.specs.Prelude.{◌≡◌, IfOk, IfErr};
ghost use Rattle.command_line.specs.Requests.{Tiles};
ghost use Rattle.tool_stages.specs.Calls.{folder_call};
ghost use Rattle.tool_stages.specs.Stages.{CountsLoads};
ghost use Rattle.dejavu_tool.specs.Answers.{Halts, ListsTiles};

use report_writer::tiles_text;
use std::alloc::Global;
use tool_io::Folder;
use tool_stages::{Halt, load_log};

/// Lists the intervals of the log. What is printed is the result.
pub fn tiles_file<F: Folder>(alloc: Global, log: &str, folder: &mut F) -> Result<Vec<u8>, Halt>
    ensures tiles { IfOk result (λ text. ListsTiles (folder_call F.is_told F.file F.load_faults F.store_faults folder.old folder.new) log.now text.items) }
    ensures halts { IfErr result (Halts (Tiles log.now) (folder_call F.is_told F.file F.load_faults F.store_faults folder.old folder.new)) }
    ensures counts { CountsLoads (F.load_faults folder.old) (F.load_faults folder.new) result }
{
    let kept = load_log(alloc, log, folder)?;
    Ok(tiles_text(alloc, &kept)?)
}

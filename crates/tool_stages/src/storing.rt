//! Storing: the one file that a command leaves.

ghost use Rattle.std.specs.Prelude.{◌≡◌, IfErr, OnOk};
ghost use Rattle.tool_stages.specs.Calls.{folder_call, Stores};
ghost use Rattle.tool_stages.specs.Stages.{StoreHalts};

use crate::halt::Halt;
use std::alloc::Global;
use tool_io::{Folder, Store};

/// Stores bytes under a name. The folder is asked once.
pub fn store_file<F: Folder>(
    alloc: Global,
    name: &str,
    bytes: &[u8],
    folder: &mut F,
) -> Result<(), Halt>
    ensures told { F.is_told folder.new ≡ F.is_told folder.old }
    ensures loads { F.load_faults folder.new ≡ F.load_faults folder.old }
    ensures stored { OnOk result (Stores (folder_call F.is_told F.file F.load_faults F.store_faults folder.old folder.new) name.now bytes.now) }
    ensures halts { IfErr result (StoreHalts (folder_call F.is_told F.file F.load_faults F.store_faults folder.old folder.new) name.now) }
{
    match folder.store(alloc, name, bytes) {
        Store::Stored => Ok(()),
        Store::Failed => Err(Halt::Store),
        Store::NoMemory => Err(Halt::Memory),
    }
}

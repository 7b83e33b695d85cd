//! The commands over files and a sink in memory: words, files before, calls that fail, and what must come of it. A file for each
//! command; those that hunt a fault have theirs in `hunt_tests`.

#[cfg(test)]
mod bytewise;
#[cfg(test)]
mod check;
#[cfg(test)]
mod drill;
pub mod programs;
#[cfg(test)]
mod record;
#[cfg(test)]
mod replay;
#[cfg(test)]
mod show;
#[cfg(test)]
mod tiles;
#[cfg(test)]
mod unknown;

use dejavu_tool::{Status, dejavu};
use gate_core::NoMeeting;
use std::alloc::Global;
use std::sync::Wait;
use std::thread::Threads;
use tool_io::{Folder, MemoryFolder, MemorySink, Store};
use vm_model::NoMemory;

/// A file by its name.
pub struct File {
    pub name: &'static str,
    pub bytes: &'static [u8],
}

/// Words, the files before, the numbers of the folder's and the sink's calls that fail, and what must come of it: the status, what
/// is printed, and a file that is stored.
pub struct Row {
    pub words: &'static [&'static str],
    pub files: &'static [File],
    pub folder: &'static [u64],
    pub sink: &'static [u64],
    pub status: Status,
    pub text: &'static [u8],
    pub stored: Option<File>,
}

/// A folder with the row's files. Calls that fail are counted from the first one after the files were stored.
fn folder_of(alloc: Global, row: &Row) -> Result<MemoryFolder, NoMemory> {
    let mut failing = Vec::new(alloc);
    for call in row.folder {
        failing.push(call.saturating_add(row.files.len() as u64))?;
    }
    let mut folder = MemoryFolder::new(alloc, Vec::new(alloc), failing)?;
    for file in row.files {
        match folder.store(alloc, file.name, file.bytes) {
            Store::Stored => {}
            Store::Failed | Store::NoMemory => return Err(NoMemory),
        }
    }
    Ok(folder)
}

fn words_of(alloc: Global, row: &Row) -> Result<Vec<String>, NoMemory> {
    let mut words = Vec::new(alloc);
    for word in row.words {
        words.push(String::from_str(alloc, word)?)?;
    }
    Ok(words)
}

/// Whether the file that is to be stored is there.
fn is_stored(folder: &MemoryFolder, row: &Row) -> bool {
    match &row.stored {
        Some(file) => folder.file(file.name) == Some(file.bytes),
        None => true,
    }
}

/// Whether a row's words give what it says.
fn is_right<H: Threads + Wait + Sync>(rt: &H, alloc: Global, row: &Row) -> Result<bool, NoMemory> {
    let words = words_of(alloc, row)?;
    let mut folder = folder_of(alloc, row)?;
    let mut sink = MemorySink::new(alloc, Vec::from_slice(alloc, row.sink)?)?;
    let status = dejavu(rt, alloc, &words, &mut folder, &mut sink, &NoMeeting);
    Ok(status == row.status && sink.taken() == row.text && is_stored(&folder, row))
}

/// The first row whose words give something else.
pub fn first_wrong<H: Threads + Wait + Sync>(
    rt: &H,
    alloc: Global,
    rows: &[Row],
) -> Result<Option<usize>, NoMemory> {
    for (at, row) in rows.iter().enumerate() {
        if !is_right(rt, alloc, row)? {
            return Ok(Some(at));
        }
    }
    Ok(None)
}

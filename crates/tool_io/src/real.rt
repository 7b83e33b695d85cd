ghost use Rattle.std.specs.Prelude.{◌≡◌};
ghost use Rattle.tool_io.specs.Outside.{raised_count};

use crate::folder::{Folder, Load, Store};
use crate::sink::{Put, Sink};
use std::alloc::Global;
use std::fs::{File, OpenFile, Permissions};
use std::io::{ErrorKind, Read, Write};
use std::rt::Files;
use std::{fs, io};

/// The greatest size of a file that is loaded, in bytes.
const MOST_FILE: u64 = 16_777_216;

/// What is put behind a name for a file beside it, which isn't whole yet.
const PART: &str = ".part";

/// How many names beside a file are tried.
const MOST_PARTS: u32 = 8;

/// The folder in which the tool was started. It tells nothing of what it holds. A file above 16 MiB counts as a fault. Where a
/// store fails, the file that was there is as it was: the new one is written beside it, and gets its name when it is whole.
#[derive(Drop)]
pub struct DiskFolder<'a, H> {
    rt: &'a H,
    load_faults: u64,
    store_faults: u64,
}

/// Standard output. It tells nothing of what it took.
#[derive(Drop)]
pub struct OutSink<'a, H> {
    rt: &'a H,
    faults: u64,
}

fn raised(count: u64) -> u64
    ensures { result ≡ raised_count count }
{
    if count == u64::MAX { count } else { count + 1 }
}

/// The bytes of a file, or None where it has too many.
fn read_file<H: Files>(rt: &H, alloc: Global, name: &str) -> io::Result<Option<Vec<u8>>> {
    let file = fs::open(rt, name)?;
    let mut bytes = Vec::new(alloc);
    file.take(MOST_FILE + 1).read_to_end(&mut bytes)?;
    if bytes.len() as u64 > MOST_FILE {
        Ok(None)
    } else {
        Ok(Some(bytes))
    }
}

/// A new file beside this one, and its name. Names that are in use are passed over.
fn part_beside<H: Files>(rt: &H, alloc: Global, path: &str) -> io::Result<(String, H::File)> {
    let mut name = String::from_str(alloc, path)?;
    for _ in 0..MOST_PARTS {
        name.push_str(PART)?;
        match File::create_new(rt, name.as_str()) {
            Ok(file) => return Ok((name, file)),
            Err(e) if e.kind() == ErrorKind::AlreadyExists => {}
            Err(e) => return Err(e),
        }
    }
    Err(io::Error::from(ErrorKind::AlreadyExists))
}

/// Writes a new file to the disk, with the rights of the one that it replaces.
fn fill<F: Write + OpenFile + Drop>(
    mut file: F,
    bytes: &[u8],
    rights: Option<Permissions>,
) -> io::Result<()> {
    if let Some(rights) = rights {
        file.set_permissions(rights)?;
    }
    file.write_all(bytes)?;
    file.sync_all()
}

/// Puts these bytes under the name, at once or not at all.
fn replace<H: Files>(
    rt: &H,
    alloc: Global,
    path: &str,
    bytes: &[u8],
    rights: Option<Permissions>,
) -> io::Result<()> {
    let (part, file) = part_beside(rt, alloc, path)?;
    let done = match fill(file, bytes, rights) {
        Ok(()) => rt.rename(part.as_str(), path),
        Err(e) => Err(e),
    };
    if done.is_err() {
        let _ = rt.remove_file(part.as_str());
    }
    done
}

/// Stores a file: one that a link leads to under its own name, and what isn't a file, as a terminal, in place.
fn store_file<H: Files>(rt: &H, alloc: Global, name: &str, bytes: &[u8]) -> io::Result<()> {
    match rt.metadata(name) {
        Ok(found) => {
            if found.is_file() {
                let path = rt.canonicalize(alloc, name)?;
                replace(rt, alloc, path.as_str(), bytes, Some(found.permissions()))
            } else {
                fs::write(rt, name, bytes)
            }
        }
        Err(e) if e.kind() == ErrorKind::NotFound => replace(rt, alloc, name, bytes, None),
        Err(e) => Err(e),
    }
}

impl<'a, H> DiskFolder<'a, H> {
    /// The folder in which the tool was started.
    pub fn new(rt: &'a H) -> DiskFolder<'a, H>
        ensures loads { result.load_faults ≡ 0 }
        ensures stores { result.store_faults ≡ 0 }
    {
        DiskFolder {
            rt,
            load_faults: 0,
            store_faults: 0,
        }
    }
}

impl<'a, H: Files> Folder for DiskFolder<'a, H> {
    ghost use Rattle.std.specs.Prelude.{false, None};

    ghost is_told = { λ _. false };

    ghost file = { λ _ _. None };

    ghost load_faults = { λ f. f.load_faults };

    ghost store_faults = { λ f. f.store_faults };

    fn load(&mut self, alloc: Global, name: &str) -> Load {
        match read_file(self.rt, alloc, name) {
            Ok(Some(bytes)) => return Load::Loaded(bytes),
            Ok(None) => {}
            Err(e) => match e.kind() {
                ErrorKind::NotFound => return Load::Absent,
                ErrorKind::OutOfMemory => return Load::NoMemory,
                _ => {}
            },
        }
        self.load_faults = raised(self.load_faults);
        Load::Failed
    }

    fn store(&mut self, alloc: Global, name: &str, bytes: &[u8]) -> Store {
        match store_file(self.rt, alloc, name, bytes) {
            Ok(()) => Store::Stored,
            Err(e) if e.kind() == ErrorKind::OutOfMemory => Store::NoMemory,
            Err(_) => {
                self.store_faults = raised(self.store_faults);
                Store::Failed
            }
        }
    }
}

impl<'a, H> OutSink<'a, H> {
    /// Standard output.
    pub fn new(rt: &'a H) -> OutSink<'a, H>
        ensures { result.faults ≡ 0 }
    {
        OutSink { rt, faults: 0 }
    }
}

impl<'a, H: Print> Sink for OutSink<'a, H> {
    ghost use Rattle.std.specs.Prelude.{[], false};

    ghost is_told = { λ _. false };

    ghost taken = { λ _. [] };

    ghost faults = { λ s. s.faults };

    fn put(&mut self, piece: &[u8]) -> Put {
        match io::writer(self.rt).write(piece) {
            Ok(count) if count > 0 || piece.is_empty() => Put::Taken(count as u64),
            _ => {
                self.faults = raised(self.faults);
                Put::Failed
            }
        }
    }
}

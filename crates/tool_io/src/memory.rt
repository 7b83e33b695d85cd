ghost use Rattle.std.specs.Prelude.{◌≡◌, ◌+◌, ◌-◌, ◌^◌, ◌<◌, ◌≤◌, ℕ, List, [], Contains, length, min, true, false, IfOk, OnOk, OnErr, IfSome, IfNone, None};
ghost use Rattle.std.specs.Option.{option_copied};
ghost use Rattle.tool_io.specs.Memory.{AreDistinct, IsPlaceOf, file_in};
ghost use Rattle.tool_io.specs.Outside.{HasLoadFailed, HasPutFailed, HasStoreFailed, LoadFails, LoadGives, PutCounts, PutFails, PutGives, PutTakes, SetsFile, StoreFails, StoreGives, raised_count};

use crate::folder::{Folder, Load, Store};
use crate::sink::{Put, Sink};
use std::alloc::Global;
use std::marker::Model;
use vm_model::{Name, NoMemory};

/// The greatest number of bytes that a sink in memory takes.
const MOST_OUTPUT: usize = 33_554_432;

/// A folder in memory. It tells what it holds. Its calls of `load` and `store` are counted from 0, and those in its list of
/// failing calls fail.
#[derive(Debug, Drop)]
pub struct MemoryFolder {
    files: Vec<(Name, Vec<u8>)>,
    failing: Vec<u64>,
    calls: u64,
    load_faults: u64,
    store_faults: u64,
}

impl Model for MemoryFolder {
    ghost use Rattle.tool_io.specs.Memory.{FolderValue};

    ghost Value = { FolderValue };

    ghost view = { λ f. record { files = f.files.items; failing = f.failing.items; calls = f.calls; load_faults = f.load_faults; store_faults = f.store_faults } };
}

/// Whether the call of this number is to fail.
fn is_failing(failing: &[u64], call: u64) -> bool
    ensures listed { Contains failing.now call → result ≡ true }
    ensures none { failing.now ≡ [] → result ≡ false }
{
    failing.contains(&call)
}

/// One more fault.
fn raised(count: u64) -> u64
    ensures { result ≡ raised_count count }
{
    if count == u64::MAX { count } else { count + 1 }
}

/// Where the first file of this name stands.
fn place_of(files: &[(Name, Vec<u8>)], name: &[u8]) -> Option<usize>
    ensures found { IfSome result (λ i. IsPlaceOf files.now name.now i) }
    ensures none { IfNone result (file_in files.now name.now ≡ None) }
{
    for (i, file) in files.iter().enumerate() {
        if file.0.bytes() == name {
            return Some(i);
        }
    }
    None
}

/// The bytes of the first file of this name.
fn bytes_of<'a>(files: &'a [(Name, Vec<u8>)], name: &[u8]) -> Option<&'a [u8]>
    ensures { option_copied result ≡ file_in files.now name.now }
{
    match place_of(files, name) {
        Some(i) => Some(files[i].1.as_slice()),
        None => None,
    }
}

/// Keeps the bytes under the name, in place of those that it had.
fn keep(files: &mut Vec<(Name, Vec<u8>)>, name: Name, bytes: Vec<u8>) -> Result<(), NoMemory>
    ensures ok { OnOk result (SetsFile (file_in files.old.items) (file_in files.new.items) name bytes.items) }
    ensures err { OnErr result (files.new.items ≡ files.old.items) }
{
    match place_of(files, name.bytes()) {
        Some(i) => {
            files[i].1 = bytes;
            Ok(())
        }
        None => {
            files.push((name, bytes))?;
            Ok(())
        }
    }
}

impl MemoryFolder {
    /// A folder of these files, of which no two have one name, and in which these calls fail.
    pub fn new(
        alloc: Global,
        files: Vec<(Name, Vec<u8>)>,
        failing: Vec<u64>,
    ) -> Result<MemoryFolder, NoMemory>
        requires { AreDistinct files.items }
        ensures { IfOk result (λ f. f ≡ record { files = files.items; failing = failing.items; calls = 0; load_faults = 0; store_faults = 0 }) }
    {
        let _ = alloc;
        Ok(MemoryFolder {
            files,
            failing,
            calls: 0,
            load_faults: 0,
            store_faults: 0,
        })
    }

    /// The bytes of the file of this name, if it is there. It takes no memory.
    pub fn file(&self, name: &str) -> Option<&[u8]>
        ensures { option_copied result ≡ file_in self.now.files name.now }
    {
        bytes_of(&self.files, name.as_bytes())
    }

    /// Counts a call, and says whether it is to fail.
    fn fails_now(&mut self) -> bool
        ensures files { self.new.files ≡ self.old.files }
        ensures failing { self.new.failing ≡ self.old.failing }
        ensures loads { self.new.load_faults ≡ self.old.load_faults }
        ensures stores { self.new.store_faults ≡ self.old.store_faults }
        ensures calls { self.new.calls ≡ raised_count self.old.calls }
        ensures listed { Contains self.old.failing self.old.calls → result ≡ true }
        ensures none { self.old.failing ≡ [] → result ≡ false }
    {
        let fails = is_failing(&self.failing, self.calls);
        self.calls = raised(self.calls);
        fails
    }

    fn copy_of(&self, alloc: Global, name: &str) -> Load
        ensures gives { LoadGives true (file_in self.now.files name.now) result }
        ensures answers { (count : ℕ) → LoadFails count count result }
        ensures never { HasLoadFailed result → ⊥ }
    {
        match bytes_of(&self.files, name.as_bytes()) {
            Some(bytes) => match Vec::from_slice(alloc, bytes) {
                Ok(copy) => Load::Loaded(copy),
                Err(_) => Load::NoMemory,
            },
            None => Load::Absent,
        }
    }

    fn keep_copy(&mut self, alloc: Global, name: &str, bytes: &[u8]) -> Result<(), NoMemory>
        ensures ok { OnOk result (SetsFile (file_in self.old.files) (file_in self.new.files) name.now bytes.now) }
        ensures err { OnErr result (self.new.files ≡ self.old.files) }
        ensures calls { self.new.calls ≡ self.old.calls }
        ensures failing { self.new.failing ≡ self.old.failing }
        ensures loads { self.new.load_faults ≡ self.old.load_faults }
        ensures stores { self.new.store_faults ≡ self.old.store_faults }
    {
        let owned = Name::of(alloc, name.as_bytes())?;
        let copy = Vec::from_slice(alloc, bytes)?;
        keep(&mut self.files, owned, copy)
    }
}

impl Folder for MemoryFolder {
    ghost use Rattle.tool_io.specs.Memory.{file_in};
    ghost use Rattle.std.specs.Prelude.{true};

    ghost is_told = { λ _. true };

    ghost file = { λ f. file_in f.files };

    ghost load_faults = { λ f. f.load_faults };

    ghost store_faults = { λ f. f.store_faults };

    fn load(&mut self, alloc: Global, name: &str) -> Load
        ensures told { true ≡ true }
        ensures files { (other : List ℕ) → file_in self.new.files other ≡ file_in self.old.files other }
        ensures gives { LoadGives true (file_in self.old.files name.now) result }
        ensures counted { self.old.load_faults ≤ self.new.load_faults }
        ensures failed { LoadFails self.old.load_faults self.new.load_faults result }
        ensures stores { self.new.store_faults ≡ self.old.store_faults }

        // The calls of the list fail, and with an empty list none does.
        ensures calls { self.new.calls ≡ raised_count self.old.calls }
        ensures listed { Contains self.old.failing self.old.calls → HasLoadFailed result }
        ensures never { self.old.failing ≡ [] → HasLoadFailed result → ⊥ }
        ensures failing { self.new.failing ≡ self.old.failing }
    {
        if self.fails_now() {
            self.load_faults = raised(self.load_faults);
            return Load::Failed;
        }
        self.copy_of(alloc, name)
    }

    fn store(&mut self, alloc: Global, name: &str, bytes: &[u8]) -> Store
        ensures told { true ≡ true }
        ensures gives { StoreGives true (file_in self.old.files) (file_in self.new.files) name.now bytes.now result }
        ensures counted { self.old.store_faults ≤ self.new.store_faults }
        ensures failed { StoreFails self.old.store_faults self.new.store_faults result }
        ensures loads { self.new.load_faults ≡ self.old.load_faults }

        // The calls of the list fail, and with an empty list none does.
        ensures calls { self.new.calls ≡ raised_count self.old.calls }
        ensures listed { Contains self.old.failing self.old.calls → HasStoreFailed result }
        ensures never { self.old.failing ≡ [] → HasStoreFailed result → ⊥ }
        ensures failing { self.new.failing ≡ self.old.failing }
    {
        if self.fails_now() {
            self.store_faults = raised(self.store_faults);
            return Store::Failed;
        }
        match self.keep_copy(alloc, name, bytes) {
            Ok(()) => Store::Stored,
            Err(_) => Store::NoMemory,
        }
    }
}

/// A sink in memory. It tells the bytes taken. Its puts are counted from 0, and those in its list of failing puts fail; one
/// that would pass 32 MiB in all fails too. A short one takes the first bytes of a piece alone, up to a number that it has.
#[derive(Debug, Drop)]
pub struct MemorySink {
    taken: Vec<u8>,
    most: usize,
    failing: Vec<u64>,
    calls: u64,
    faults: u64,
}

impl Model for MemorySink {
    ghost use Rattle.std.specs.Prelude.{vec_len, vec_capacity, ◌-◌, ◌≤◌};
    ghost use Rattle.tool_io.specs.Memory.{SinkValue};

    ghost Value = { SinkValue };

    ghost view = { λ s. record { taken = s.taken.items; room = vec_capacity s.taken - vec_len s.taken; most = s.most; failing = s.failing.items; calls = s.calls; faults = s.faults } };

    ghost invariant = { λ s. 1 ≤ s.most };
}

impl MemorySink {
    /// A sink that took nothing yet, with room for 32 MiB, and in which these puts fail. The others take the whole piece.
    pub fn new(alloc: Global, failing: Vec<u64>) -> Result<MemorySink, NoMemory>
        ensures { IfOk result (λ s. s ≡ record { taken = []; room = 33554432; most = 2 ^ 64 - 1; failing = failing.items; calls = 0; faults = 0 }) }
    {
        MemorySink::short(alloc, usize::MAX, failing)
    }

    /// A sink as `new` makes it, of which a put takes at most this many bytes. It is for callers that must go on after a put
    /// that took less than it was given.
    pub fn short(alloc: Global, most: usize, failing: Vec<u64>) -> Result<MemorySink, NoMemory>
        requires { 1 ≤ most }
        ensures { IfOk result (λ s. s ≡ record { taken = []; room = 33554432; most = most; failing = failing.items; calls = 0; faults = 0 }) }
    {
        Ok(MemorySink {
            taken: Vec::with_capacity(alloc, MOST_OUTPUT)?,
            most,
            failing,
            calls: 0,
            faults: 0,
        })
    }

    /// The bytes taken so far. It takes no memory.
    pub fn taken(&self) -> &[u8]
        ensures { result.now ≡ self.now.taken }
    {
        &self.taken
    }
}

impl Sink for MemorySink {
    ghost use Rattle.std.specs.Prelude.{true};

    ghost is_told = { λ _. true };

    ghost taken = { λ s. s.taken };

    ghost faults = { λ s. s.faults };

    fn put(&mut self, piece: &[u8]) -> Put
        ensures told { true ≡ true }
        ensures takes { PutTakes piece.now result }
        ensures gives { PutGives true self.old.taken self.new.taken piece.now result }
        ensures counted { self.old.faults ≤ self.new.faults }
        ensures failed { PutFails self.old.faults self.new.faults result }

        // The puts of the list fail. With an empty list one fails only where there is no room, which only what is taken takes.
        ensures calls { self.new.calls ≡ raised_count self.old.calls }
        ensures listed { Contains self.old.failing self.old.calls → HasPutFailed result }
        ensures room { length self.old.taken + self.old.room ≤ length self.new.taken + self.new.room }
        ensures never { self.old.failing ≡ [] → HasPutFailed result → self.old.room < length piece.now }
        ensures failing { self.new.failing ≡ self.old.failing }

        // It takes as much of the piece as it may, and room for that is enough.
        ensures most { self.new.most ≡ self.old.most }
        ensures count { PutCounts (min self.old.most (length piece.now)) result }
        ensures short { self.old.failing ≡ [] → HasPutFailed result → self.old.room < min self.old.most (length piece.now) }
    {
        let part = &piece[..self.most.min(piece.len())];
        let fails = is_failing(&self.failing, self.calls);
        self.calls = raised(self.calls);
        if fails || self.taken.capacity() - self.taken.len() < part.len() {
            self.faults = raised(self.faults);
            return Put::Failed;
        }
        match self.taken.extend_from_slice(part) {
            Ok(()) => Put::Taken(part.len() as u64),
            Err(_) => unreachable!(),
        }
    }
}

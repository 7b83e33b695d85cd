// A folder and a sink in memory: what they keep, and the calls that are to fail.
use std::alloc::Global;
use std::test::Fail;
use tool_io::{Folder, Load, MemoryFolder, MemorySink, Put, Sink, SinkFault, Store, put_all};
use vm_model::{Name, NoMemory};

fn folder_of(alloc: Global, failing: &[u64]) -> Result<MemoryFolder, NoMemory> {
    let mut files = Vec::new(alloc);
    files.push((Name::of(alloc, b"a")?, Vec::from_slice(alloc, b"one")?))?;
    MemoryFolder::new(alloc, files, Vec::from_slice(alloc, failing)?)
}

fn loads<F: Folder>(folder: &mut F, alloc: Global, name: &str, bytes: &[u8]) -> bool {
    match folder.load(alloc, name) {
        Load::Loaded(found) => found.as_slice() == bytes,
        _ => false,
    }
}

fn is_absent<F: Folder>(folder: &mut F, alloc: Global, name: &str) -> bool {
    matches!(folder.load(alloc, name), Load::Absent)
}

/// Whether a folder with one file, named a, keeps what is stored in it.
fn keeps_files(folder: &mut MemoryFolder, alloc: Global) -> bool {
    let has_first = loads(folder, alloc, "a", b"one") && is_absent(folder, alloc, "b");
    let stores_new = folder.store(alloc, "b", b"two") == Store::Stored;
    let stores_again = folder.store(alloc, "a", b"") == Store::Stored;
    let has_both = loads(folder, alloc, "b", b"two") && loads(folder, alloc, "a", b"");
    has_first && stores_new && stores_again && has_both
}

#[test]
fn files_are_kept(rt: HostRuntime) -> Result<(), Fail> {
    let alloc = rt.alloc();
    let mut folder = folder_of(alloc, &[])?;
    assert!(rt; keeps_files(&mut folder, alloc));
    assert!(rt; folder.file("b") == Some(b"two".as_slice()) && folder.file("c").is_none());
    Ok(())
}

/// Whether the second and the third call of a folder with one file fail, and no other.
fn fails_twice(folder: &mut MemoryFolder, alloc: Global) -> bool {
    let is_first = loads(folder, alloc, "a", b"one");
    let is_second = folder.store(alloc, "a", b"two") == Store::Failed;
    let is_third = matches!(folder.load(alloc, "a"), Load::Failed);
    is_first && is_second && is_third && loads(folder, alloc, "a", b"one")
}

#[test]
fn calls_fail_by_number(rt: HostRuntime) -> Result<(), Fail> {
    let alloc = rt.alloc();
    let mut folder = folder_of(alloc, &[1, 2])?;
    assert!(rt; fails_twice(&mut folder, alloc));
    Ok(())
}

/// Whether the third put of a sink fails, and no other.
fn takes_but_one(sink: &mut MemorySink) -> bool {
    let is_first = sink.put(b"ab") == Put::Taken(2);
    let is_second = put_all(sink, b"cd") == Ok(());
    let is_third = put_all(sink, b"ef") == Err(SinkFault);
    let are_last = put_all(sink, b"") == Ok(()) && put_all(sink, b"gh") == Ok(());
    is_first && is_second && is_third && are_last
}

#[test]
fn puts_are_taken(rt: HostRuntime) -> Result<(), Fail> {
    let alloc = rt.alloc();
    let mut sink = MemorySink::new(alloc, Vec::from_slice(alloc, &[2])?)?;
    assert!(rt; takes_but_one(&mut sink));
    assert!(rt; sink.taken() == b"abcdgh".as_slice());
    Ok(())
}

const DIGITS: &[u8] = b"0123456789";

fn takes_short(alloc: Global) -> Result<bool, NoMemory> {
    let mut sink = MemorySink::short(alloc, 3, Vec::new(alloc))?;
    Ok(put_all(&mut sink, DIGITS) == Ok(()) && sink.taken() == DIGITS)
}

/// The put that fails is the fifth one.
fn fails_after_digits(alloc: Global) -> Result<bool, NoMemory> {
    let mut counted = MemorySink::short(alloc, 3, Vec::from_slice(alloc, &[4])?)?;
    let is_first = put_all(&mut counted, DIGITS) == Ok(());
    Ok(is_first && put_all(&mut counted, b"a") == Err(SinkFault))
}

/// The put that fails is the third one.
fn fails_within_digits(alloc: Global) -> Result<bool, NoMemory> {
    let mut failing = MemorySink::short(alloc, 3, Vec::from_slice(alloc, &[2])?)?;
    let is_failed = put_all(&mut failing, DIGITS) == Err(SinkFault);
    Ok(is_failed && failing.taken() == b"012345".as_slice())
}

#[test]
fn short_puts_go_on(rt: HostRuntime) -> Result<(), Fail> {
    assert!(rt; takes_short(rt.alloc())?);
    assert!(rt; fails_after_digits(rt.alloc())?);
    assert!(rt; fails_within_digits(rt.alloc())?);
    Ok(())
}

// Logs that are written down here byte by byte: read, refused, recorded and written.
ghost use Rattle.std.specs.Prelude.{◌≡◌, ◌<◌, ◌≤◌, IsTrue, IfOk, length, nat_lt};
ghost use Rattle.std.specs.List.{list_all};
ghost use Rattle.schedule_log.specs.Logs.{expansion};

use schedule_log::{Folding, Interval, Log, LogFault, LogKind, decode, encode};
use std::alloc::Global;
use std::test::Fail;
use vm_model::{EndKind, NoMemory};

/// One thread that ends with its first event.
const SHORTEST: [u8; 13] = [
    0x44, 0x4A, 0x56, 0x4C, 0x01, 0x80, 0x80, 0x40, 0x01, 0x01, 0x00, 0x00, 0xF0,
];

/// One thread with 23 events.
const SUM: [u8; 13] = [
    0x44, 0x4A, 0x56, 0x4C, 0x01, 0x80, 0x80, 0x40, 0x01, 0x01, 0x00, 0x16, 0xF0,
];

/// A thread that starts two others and joins them: 14 events.
const WORKERS: [u8; 21] = [
    0x44, 0x4A, 0x56, 0x4C, 0x01, 0x80, 0x80, 0x40, 0x03, 0x02, 0x00, 0x03, 0x06, 0x03, 0x01, 0x04,
    0x02, 0x01, 0x07, 0x02, 0xF0,
];

/// Two threads that hold each a lock that the other wants: 14 events of 100.
const DEADLOCK: [u8; 19] = [
    0x44, 0x4A, 0x56, 0x4C, 0x01, 0x64, 0x03, 0x01, 0x00, 0x07, 0x02, 0x08, 0x01, 0x03, 0x00, 0x01,
    0x0A, 0x02, 0xF2,
];

/// Five events of five, and none of thread 1.
const SPENT: [u8; 17] = [
    0x44, 0x4A, 0x56, 0x4C, 0x01, 0x05, 0x03, 0x02, 0x00, 0x02, 0x01, 0x00, 0x00, 0x01, 0x03, 0x00,
    0xF3,
];

fn is_refused(alloc: Global, bytes: &[u8], kind: LogKind, offset: u64) -> bool {
    match decode(alloc, bytes) {
        Ok(_log) => false,
        Err(fault) => fault == LogFault::At { kind, offset },
    }
}

// A place in the log of the workers, the byte that is put there, and the kind and place of the fault.
const CHANGED: [(usize, u8, LogKind, u64); 16] = [
    (0, 0x45, LogKind::Magic, 0),
    (1, 0x4B, LogKind::Magic, 1),
    (4, 0x00, LogKind::Version, 4),
    (7, 0x41, LogKind::Limit, 5),
    (8, 0x00, LogKind::Limit, 8),
    (8, 0x41, LogKind::Limit, 8),
    (8, 0x02, LogKind::Gap, 17),
    (9, 0x03, LogKind::Overlap, 17),
    (12, 0x00, LogKind::NotMaximal, 12),
    (16, 0x03, LogKind::Overlap, 18),
    (17, 0x00, LogKind::Limit, 17),
    (18, 0x06, LogKind::Overlap, 18),
    (18, 0x08, LogKind::Overlap, 18),
    (19, 0x01, LogKind::Gap, 20),
    (20, 0xF3, LogKind::BadEnd, 20),
    (20, 0xF4, LogKind::BadEnd, 20),
];

fn is_change_refused(alloc: Global, case: &(usize, u8, LogKind, u64)) -> bool {
    let (at, value, kind, offset) = *case;
    let mut bytes = WORKERS;
    if at >= 21 {
        return false;
    }
    bytes[at] = value;
    is_refused(alloc, &bytes, kind, offset)
}

/// The first row that is read otherwise.
fn wrong_in_changed(alloc: Global) -> Option<usize> {
    for (at, case) in CHANGED.iter().enumerate() {
        if !is_change_refused(alloc, case) {
            return Some(at);
        }
    }
    None
}

#[test]
fn one_byte_changed(rt: HostRuntime) {
    assert_eq!(rt; wrong_in_changed(rt.alloc()), None);
}

const LONG: [u8; 22] = [
    0x44, 0x4A, 0x56, 0x4C, 0x01, 0x80, 0x80, 0x40, 0x03, 0x02, 0x80, 0x00, 0x03, 0x06, 0x03, 0x01,
    0x04, 0x02, 0x01, 0x07, 0x02, 0xF0,
];

const FIVE: [u8; 25] = [
    0x44, 0x4A, 0x56, 0x4C, 0x01, 0x80, 0x80, 0x40, 0x03, 0x02, 0x00, 0x80, 0x80, 0x80, 0x80, 0x80,
    0x06, 0x03, 0x01, 0x04, 0x02, 0x01, 0x07, 0x02, 0xF0,
];

const SMALL: [u8; 19] = [
    0x44, 0x4A, 0x56, 0x4C, 0x01, 0x0D, 0x03, 0x02, 0x00, 0x03, 0x06, 0x03, 0x01, 0x04, 0x02, 0x01,
    0x07, 0x02, 0xF0,
];

// Bytes that are no log, and the kind and place of their fault.
const OTHERS: [(&[u8], LogKind, u64); 6] = [
    (&LONG, LogKind::LongSpelling, 10),
    (&FIVE, LogKind::Limit, 11),
    (&SMALL, LogKind::Limit, 11),
    (&[0x44, 0x4B], LogKind::Magic, 1),
    (&[0x44, 0x4A], LogKind::Short, 2),
    (&[], LogKind::Short, 0),
];

/// The first row that is read otherwise.
fn wrong_in_others(alloc: Global) -> Option<usize> {
    for (at, (bytes, kind, offset)) in OTHERS.iter().enumerate() {
        if !is_refused(alloc, bytes, *kind, *offset) {
            return Some(at);
        }
    }
    None
}

#[test]
fn other_lengths(rt: HostRuntime) {
    assert_eq!(rt; wrong_in_others(rt.alloc()), None);
}

/// Whether each proper front of the bytes is refused at its length.
fn are_fronts_short(alloc: Global, bytes: &[u8]) -> bool {
    for size in 0..bytes.len() {
        if !is_refused(alloc, &bytes[..size], LogKind::Short, size as u64) {
            return false;
        }
    }
    true
}

/// Whether each proper front of the bytes is refused at its length, and the bytes with one more after them at theirs.
fn is_whole(alloc: Global, bytes: &[u8]) -> Result<bool, NoMemory> {
    let mut longer = Vec::from_slice(alloc, bytes)?;
    longer.push(0)?;
    let is_trailing = is_refused(alloc, &longer, LogKind::Trailing, bytes.len() as u64);
    Ok(is_trailing && are_fronts_short(alloc, bytes))
}

const LOGS: [&[u8]; 5] = [&SHORTEST, &SUM, &WORKERS, &DEADLOCK, &SPENT];

/// The first log that is read otherwise where it is cut or longer.
fn wrong_in_logs(alloc: Global) -> Result<Option<usize>, NoMemory> {
    for (at, bytes) in LOGS.iter().enumerate() {
        if !is_whole(alloc, bytes)? {
            return Ok(Some(at));
        }
    }
    Ok(None)
}

#[test]
fn cut_or_longer(rt: HostRuntime) -> Result<(), Fail> {
    assert_eq!(rt; wrong_in_logs(rt.alloc())?, None);
    Ok(())
}

/// Whether the log and its copy are written with these bytes and expand to these threads.
fn is_log(alloc: Global, log: &Log, bytes: &[u8], threads: &[u32]) -> Result<bool, NoMemory> {
    let copy = log.copy(alloc)?;
    let written = encode(alloc, &copy)?;
    let expanded = log.expand(alloc)?;
    Ok(
        written.as_slice() == bytes
            && expanded.as_slice() == threads
            && log.events() == threads.len() as u64,
    )
}

const WORKERS_THREADS: [u32; 14] = [0, 0, 0, 0, 1, 1, 1, 2, 2, 2, 0, 0, 0, 0];

const DEADLOCK_THREADS: [u32; 14] = [0, 0, 0, 0, 0, 0, 0, 0, 1, 1, 2, 2, 2, 1];

const SPENT_THREADS: [u32; 5] = [0, 0, 0, 2, 0];

/// The bytes of a log, and what is read from them.
struct Read {
    bytes: &'static [u8],
    threads: &'static [u32],
    budget: u64,
    end: EndKind,
}

const LOGS_READ: [Read; 4] = [
    Read {
        bytes: &WORKERS,
        threads: &WORKERS_THREADS,
        budget: 1_048_576,
        end: EndKind::Done,
    },
    Read {
        bytes: &SUM,
        threads: &[0; 23],
        budget: 1_048_576,
        end: EndKind::Done,
    },
    Read {
        bytes: &DEADLOCK,
        threads: &DEADLOCK_THREADS,
        budget: 100,
        end: EndKind::Stuck,
    },
    Read {
        bytes: &SPENT,
        threads: &SPENT_THREADS,
        budget: 5,
        end: EndKind::Spent,
    },
];

fn is_read(alloc: Global, row: &Read) -> Result<bool, NoMemory> {
    let Ok(log) = decode(alloc, row.bytes) else {
        return Ok(false);
    };
    let is_same = is_log(alloc, &log, row.bytes, row.threads)?;
    Ok(is_same && log.budget() == row.budget && log.end() == row.end)
}

/// The first row that is read or written otherwise.
fn wrong_in_logs_read(alloc: Global) -> Result<Option<usize>, NoMemory> {
    for (at, row) in LOGS_READ.iter().enumerate() {
        if !is_read(alloc, row)? {
            return Ok(Some(at));
        }
    }
    Ok(None)
}

const TILES: [Interval; 3] = [
    Interval {
        thread: 0,
        first: 0,
        last: 2,
    },
    Interval {
        thread: 2,
        first: 3,
        last: 3,
    },
    Interval {
        thread: 0,
        first: 4,
        last: 4,
    },
];

fn is_tiled(alloc: Global) -> bool {
    match decode(alloc, &SPENT) {
        Ok(log) => log.intervals() == TILES.as_slice(),
        Err(_) => false,
    }
}

#[test]
fn read_and_written(rt: HostRuntime) -> Result<(), Fail> {
    assert_eq!(rt; wrong_in_logs_read(rt.alloc())?, None);
    assert!(rt; is_tiled(rt.alloc()));
    Ok(())
}

/// The log of a run of at most three threads, as a recorder makes it.
fn recorded(alloc: Global, budget: u64, threads: &[u32], end: EndKind) -> Result<Log, NoMemory>
    requires few { IsTrue (list_all (λ t. nat_lt t 3) threads.now) }
    requires low { 1 ≤ length threads.now }
    requires within { length threads.now ≤ budget }
    requires high { budget ≤ 1048576 }
    requires spent { end ≡ EndKind.Spent → length threads.now ≡ budget }
    ensures { IfOk result (λ log. expansion log ≡ threads.now) }
{
    let mut parts = Vec::new(alloc);
    parts.push(Folding::new(alloc, 0))?;
    parts.push(Folding::new(alloc, 1))?;
    parts.push(Folding::new(alloc, 2))?;
    for (clock, t) in threads.iter().enumerate() {
        let part = &mut parts[*t as usize];
        part.reserve()?;
        part.note(clock as u64);
    }
    Log::of(alloc, budget, parts, end)
}

fn are_workers_recorded(alloc: Global) -> Result<bool, NoMemory> {
    let log = recorded(alloc, 1_048_576, &WORKERS_THREADS, EndKind::Done)?;
    is_log(alloc, &log, &WORKERS, &WORKERS_THREADS)
}

fn is_deadlock_recorded(alloc: Global) -> Result<bool, NoMemory> {
    let log = recorded(alloc, 100, &DEADLOCK_THREADS, EndKind::Stuck)?;
    is_log(alloc, &log, &DEADLOCK, &DEADLOCK_THREADS)
}

fn is_spent_recorded(alloc: Global) -> Result<bool, NoMemory> {
    let log = recorded(alloc, 5, &SPENT_THREADS, EndKind::Spent)?;
    is_log(alloc, &log, &SPENT, &SPENT_THREADS)
}

#[test]
fn recorded_and_written(rt: HostRuntime) -> Result<(), Fail> {
    assert!(rt; are_workers_recorded(rt.alloc())?);
    assert!(rt; is_deadlock_recorded(rt.alloc())?);
    assert!(rt; is_spent_recorded(rt.alloc())?);
    Ok(())
}

const RUNS: [Interval; 2] = [
    Interval {
        thread: 5,
        first: 3,
        last: 4,
    },
    Interval {
        thread: 5,
        first: 7,
        last: 7,
    },
];

/// What thread 5 made: the events at the clocks 3, 4 and 7.
fn noted(alloc: Global) -> Result<Folding, NoMemory> {
    let mut folding = Folding::new(alloc, 5);
    folding.reserve()?;
    folding.note(3);
    folding.reserve()?;
    folding.note(4);
    folding.reserve()?;
    folding.note(7);
    Ok(folding)
}

/// Whether these clocks are two intervals of that thread.
fn is_folded(alloc: Global) -> Result<bool, NoMemory> {
    let folding = noted(alloc)?;
    Ok(folding.thread() == 5 && folding.intervals() == RUNS.as_slice())
}

#[test]
fn folded(rt: HostRuntime) -> Result<(), Fail> {
    assert!(rt; is_folded(rt.alloc())?);
    Ok(())
}

const KINDS: [(LogKind, u8); 10] = [
    (LogKind::Magic, 1),
    (LogKind::Version, 2),
    (LogKind::Short, 3),
    (LogKind::LongSpelling, 4),
    (LogKind::Overlap, 5),
    (LogKind::Gap, 6),
    (LogKind::NotMaximal, 7),
    (LogKind::Limit, 8),
    (LogKind::Trailing, 9),
    (LogKind::BadEnd, 10),
];

fn wrong_in_kinds() -> Option<usize> {
    for (at, (kind, number)) in KINDS.iter().enumerate() {
        if kind.number() != *number {
            return Some(at);
        }
    }
    None
}

#[test]
fn numbers_of_kinds(rt: HostRuntime) {
    assert_eq!(rt; wrong_in_kinds(), None);
}

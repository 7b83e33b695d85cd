//! Lanes: that they run beside each other, that they carry the events, and that the tool on one lane has none. No contract can
//! say that two threads ran; these tests alone show it.

ghost use Rattle.std.specs.Prelude.{◌≡◌, ◌≤◌, None};
ghost use Rattle.vm_model.specs.declared.limits.TheConstants.{MOST_EVENTS, MOST_LANES};
ghost use Rattle.machine_model.specs.Machine.{end_of, start_machine};

use crate::commands::programs::{WRITERS, WRITERS_LOG};
use dejavu_tool::{Status, accept, dejavu, still_command};
use drill_program::drill_text;
use gate_core::{Meeting, NoMeeting};
use lane_driver::{record_lanes, replay_lanes};
use std::alloc::Global;
use std::sync::Wait;
use std::sync::atomic::{AtomicBool, AtomicU64, Ordering};
use std::test::Fail;
use std::thread::Threads;
use thread_driver::Recording;
use tool_io::{Folder, MemoryFolder, MemorySink, Store};
use vm_model::{MOST_EVENTS, NoMemory, Plain};

/// So often a test of lanes is tried: which one comes first is nobody's promise.
const TRIES: u32 = 20;

/// So many events has the drill of 8 workers.
const DRILL_EVENTS: u64 = 32_035;

/// Holds lane 0 up before its first offer at this clock or a later one, until lane 1 commits or many turns of a loop are over.
#[derive(Drop)]
struct Beside {
    clock: u64,
    is_held: AtomicBool,
    commits: AtomicU64,
    rose: AtomicBool,
}

impl Beside {
    fn new(clock: u64) -> Beside {
        Beside {
            clock,
            is_held: AtomicBool::new(false),
            commits: AtomicU64::new(0),
            rose: AtomicBool::new(false),
        }
    }
}

impl Meeting for Beside {
    fn before_offer(&self, lane: u32, clock: u64) {
        if lane != 0 || clock < self.clock || self.is_held.swap(true, Ordering::SeqCst) {
            return;
        }
        let before = self.commits.load(Ordering::SeqCst);
        for _ in 0..10_000_000 {
            if self.commits.load(Ordering::SeqCst) != before {
                self.rose.store(true, Ordering::SeqCst);
                return;
            }
        }
    }

    fn after_commit(&self, lane: u32, _clock: u64) {
        if lane == 1 {
            self.commits.fetch_add(1, Ordering::SeqCst);
        }
    }
}

/// Counts the events that lanes make.
#[derive(Drop)]
struct Counts {
    commits: AtomicU64,
}

impl Counts {
    fn new() -> Counts {
        Counts {
            commits: AtomicU64::new(0),
        }
    }

    fn all(&self) -> u64 {
        self.commits.load(Ordering::SeqCst)
    }
}

impl Meeting for Counts {
    fn before_offer(&self, _lane: u32, _clock: u64) {}

    fn after_commit(&self, _lane: u32, _clock: u64) {
        self.commits.fetch_add(1, Ordering::SeqCst);
    }
}

/// A folder with the writers under `P`, and their log under `L`.
fn folder_of(alloc: Global) -> Result<MemoryFolder, NoMemory> {
    let mut folder = MemoryFolder::new(alloc, Vec::new(alloc), Vec::new(alloc))?;
    for (name, bytes) in [("P", WRITERS), ("L", WRITERS_LOG)] {
        match folder.store(alloc, name, bytes) {
            Store::Stored => {}
            Store::Failed | Store::NoMemory => return Err(NoMemory),
        }
    }
    Ok(folder)
}

fn words_of(alloc: Global, command: &str, log: &str) -> Result<Vec<String>, Fail> {
    let mut words = Vec::new(alloc);
    for word in [command, "P", log, "--lanes", "2"] {
        words.push(String::from_str(alloc, word)?)?;
    }
    Ok(words)
}

/// Whether in one of the tries lane 1 committed while lane 0 was held up before its offer.
fn runs_beside<H: Threads + Wait + Sync>(
    rt: &H,
    alloc: Global,
    command: &str,
    log: &str,
    clock: u64,
) -> Result<bool, Fail> {
    let words = words_of(alloc, command, log)?;
    for _ in 0..TRIES {
        let meeting = Beside::new(clock);
        let mut folder = folder_of(alloc)?;
        let mut sink = MemorySink::new(alloc, Vec::new(alloc))?;
        let status = dejavu(rt, alloc, &words, &mut folder, &mut sink, &meeting);
        if status == Status::Ok && meeting.rose.load(Ordering::SeqCst) {
            return Ok(true);
        }
    }
    Ok(false)
}

#[test]
fn lanes_record_beside_each_other(rt: HostRuntime) -> Result<(), Fail> {
    assert!(rt; runs_beside(&rt, rt.alloc(), "record", "M", 3)?);
    Ok(())
}

#[test]
fn lanes_replay_beside_each_other(rt: HostRuntime) -> Result<(), Fail> {
    assert!(rt; runs_beside(&rt, rt.alloc(), "replay", "L", 4)?);
    Ok(())
}

/// How many events of the drill so many lanes make in a recording, and the recording.
fn carried<H: Threads + Wait + Sync>(
    rt: &H,
    alloc: Global,
    plain: &Plain,
    lanes: u32,
) -> Result<(u64, Recording), NoMemory>
    requires begins { end_of plain.now (start_machine plain.now) MOST_EVENTS ≡ None }
    requires one { 1 ≤ lanes }
    requires few { lanes ≤ MOST_LANES }
{
    let meeting = Counts::new();
    let recording = record_lanes(rt, alloc, plain, MOST_EVENTS, lanes, &meeting)?;
    Ok((meeting.all(), recording))
}

#[test]
fn lanes_carry_the_drill(rt: HostRuntime) -> Result<(), Fail> {
    let alloc = rt.alloc();
    let text = drill_text(alloc, 8)?;
    let shaped = accept(alloc, &text)?;
    let plain = shaped.plain();
    let (alone, recording) = carried(&rt, alloc, plain, 1)?;
    assert_eq!(rt; alone, DRILL_EVENTS);
    let meeting = Counts::new();
    let again = replay_lanes(&rt, alloc, plain, &recording.log, 1, &meeting)?;
    assert_eq!(rt; meeting.all(), DRILL_EVENTS);
    assert_eq!(rt; again.log.events(), DRILL_EVENTS);
    let mut most = 0;
    for _ in 0..TRIES {
        let (made, _) = carried(&rt, alloc, plain, 4)?;
        if made > most {
            most = made;
        }
        if most >= DRILL_EVENTS.div_ceil(2) {
            break;
        }
    }
    assert!(rt; most >= DRILL_EVENTS.div_ceil(2), "{}", most);
    Ok(())
}

#[test]
fn one_lane_is_the_ring(rt: HostRuntime) -> Result<(), Fail> {
    let alloc = rt.alloc();
    let words = words_of(alloc, "record", "M")?;
    let mut folder = folder_of(alloc)?;
    let mut sink = MemorySink::new(alloc, Vec::new(alloc))?;
    let status = still_command(&rt, alloc, &words, &mut folder, &mut sink);
    assert!(rt; status == Status::Ok && folder.file("M") == Some(WRITERS_LOG));
    Ok(())
}

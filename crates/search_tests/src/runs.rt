// Schedules run, derived and sought over programs that are linked by hand.
ghost use Rattle.std.specs.Prelude.{◌≤◌, length};
ghost use Rattle.vm_model.specs.declared.limits.TheConstants.{MOST_SWITCHES};

use crate::writers::{LOST, begins, program, schedule, two_writers};
use std::alloc::Global;
use std::test::Fail;
use switch_schedule::{Sought, run_schedule, schedule_of, seek};
use thread_driver::record_schedule;
use vm_model::{End, Instr, MOST_EVENTS, NoMemory, Plain};

/// Divides by zero.
const DIVIDE: [Instr; 5] = [
    Instr::Push(1),
    Instr::Push(0),
    Instr::Idiv,
    Instr::Pop,
    Instr::Return,
];

/// How the run of these times ends, with its numbers of events and intervals, where the program begins.
fn ran(alloc: Global, plain: &Plain, times: &[u32]) -> Result<Option<(u64, usize, End)>, NoMemory>
    requires { length times.now ≤ MOST_SWITCHES }
{
    if !begins(alloc, plain, MOST_EVENTS)? {
        return Ok(None);
    }
    let ran = run_schedule(alloc, plain, &schedule(alloc, times)?, MOST_EVENTS)?;
    Ok(Some((ran.clock, ran.intervals.len(), ran.end)))
}

/// The times that are derived of the run of these times.
fn derived(alloc: Global, plain: &Plain, times: &[u32]) -> Result<Vec<u32>, Fail>
    requires { length times.now ≤ MOST_SWITCHES }
{
    let mut none = Vec::new(alloc);
    if !begins(alloc, plain, MOST_EVENTS)? {
        none.push(99)?;
        return Ok(none);
    }
    let recording = record_schedule(alloc, plain, times, MOST_EVENTS)?;
    match schedule_of(alloc, plain, &recording.log) {
        Ok(schedule) => Ok(schedule.times),
        Err(_) => Ok(none),
    }
}

#[test]
fn schedules_of_w(rt: HostRuntime) -> Result<(), Fail> {
    let alloc = rt.alloc();
    let plain = two_writers(alloc)?;
    assert_eq!(rt; ran(alloc, &plain, &[])?, Some((14, 4, End::Done)));
    assert_eq!(rt; ran(alloc, &plain, &[5])?, Some((15, 5, End::Fault(LOST))));
    assert_eq!(rt; ran(alloc, &plain, &[7, 7, 3])?, Some((14, 5, End::Done)));
    assert_eq!(rt; ran(alloc, &plain, &[3, 7, 7])?, Some((14, 5, End::Done)));
    assert_eq!(rt; ran(alloc, &plain, &[9])?.is_some(), true);
    Ok(())
}

#[test]
fn derived_of_w(rt: HostRuntime) -> Result<(), Fail> {
    let alloc = rt.alloc();
    let plain = two_writers(alloc)?;
    assert_eq!(rt; derived(alloc, &plain, &[5])?.as_slice(), [5].as_slice());
    assert_eq!(rt;
        derived(alloc, &plain, &[7, 7, 3])?.as_slice(),
        [3].as_slice()
    );
    assert_eq!(rt; derived(alloc, &plain, &[])?.as_slice(), [].as_slice());
    Ok(())
}

/// What a search with seed 1 and 5 tries finds: the number of the try and its times; 0 where it finds nothing.
fn sought(alloc: Global, plain: &Plain) -> Result<(u32, Vec<u32>), NoMemory> {
    let none = Vec::new(alloc);
    if !begins(alloc, plain, MOST_EVENTS)? {
        return Ok((99, none));
    }
    match seek(alloc, plain, 1, 5, MOST_EVENTS)? {
        Sought::Found { at, schedule, .. } => Ok((at, schedule.times)),
        Sought::NotFound => Ok((0, none)),
    }
}

#[test]
fn sought_faults(rt: HostRuntime) -> Result<(), Fail> {
    let alloc = rt.alloc();
    let quiet = program(alloc, &[Instr::Return])?;
    assert_eq!(rt; sought(alloc, &quiet)?.0, 0);
    let loud = program(alloc, &DIVIDE)?;
    let (at, times) = sought(alloc, &loud)?;
    assert_eq!(rt; at, 1);
    assert_eq!(rt; times.as_slice(), [1, 1].as_slice());
    Ok(())
}

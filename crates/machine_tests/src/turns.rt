// Machines turned by hand. What the bytecodes do is told in JVMS SE 8 §6.5.
ghost use Rattle.std.specs.Prelude.{◌≤◌};

use crate::programs::{SEVEN, program};
use event_machine::{Machine, TurnFault};
use std::alloc::Global;
use std::test::Fail;
use vm_model::{End, Instr, Plain};

/// The end after the turn of one thread, under a budget from 1 to 9.
fn one_turn(
    alloc: Global,
    plain: &Plain,
    events: u64,
    thread: u32,
) -> Result<Option<End>, TurnFault>
    requires some { 1 ≤ events }
    requires few { events ≤ 9 }
{
    let Ok(mut machine) = Machine::new(alloc, plain, events) else {
        return Err(TurnFault::NoMemory);
    };
    machine.turn(alloc, plain, thread)?;
    Ok(machine.end())
}

/// The end after the turns of two threads, under a budget from 1 to 9.
fn two_turns(
    alloc: Global,
    plain: &Plain,
    events: u64,
    first: u32,
    second: u32,
) -> Result<Option<End>, TurnFault>
    requires some { 1 ≤ events }
    requires few { events ≤ 9 }
{
    let Ok(mut machine) = Machine::new(alloc, plain, events) else {
        return Err(TurnFault::NoMemory);
    };
    machine.turn(alloc, plain, first)?;
    machine.turn(alloc, plain, second)?;
    Ok(machine.end())
}

// A budget, one or two threads that make a turn, and what is answered at last.
const RETURNS_ONCE: [(u64, u32, Result<Option<End>, TurnFault>); 3] = [
    (5, 0, Ok(Some(End::Done))),
    (1, 0, Ok(Some(End::Done))),
    (5, 1, Err(TurnFault::NotLive)),
];

const RETURNS_TWICE: [(u64, u32, u32, Result<Option<End>, TurnFault>); 2] = [
    (5, 0, 0, Err(TurnFault::Over)),
    (5, 0, 1, Err(TurnFault::Over)),
];

const PRINTS_ONCE: [(u64, u32, Result<Option<End>, TurnFault>); 2] = [
    (5, 0, Ok(None)),
    (1, 0, Ok(Some(End::Spent))),
];

const PRINTS_TWICE: [(u64, u32, u32, Result<Option<End>, TurnFault>); 3] = [
    (2, 0, 0, Ok(Some(End::Done))),
    (1, 0, 0, Err(TurnFault::Over)),
    (5, 0, 1, Err(TurnFault::NotLive)),
];

/// The first row that is answered otherwise.
fn wrong_in_one(
    alloc: Global,
    plain: &Plain,
    rows: &[(u64, u32, Result<Option<End>, TurnFault>)],
) -> Option<usize> {
    for (at, (events, thread, wanted)) in rows.iter().enumerate() {
        if *events < 1 || *events > 9 || one_turn(alloc, plain, *events, *thread) != *wanted {
            return Some(at);
        }
    }
    None
}

/// The first row that is answered otherwise.
fn wrong_in_two(
    alloc: Global,
    plain: &Plain,
    rows: &[(u64, u32, u32, Result<Option<End>, TurnFault>)],
) -> Option<usize> {
    for (at, (events, first, second, wanted)) in rows.iter().enumerate() {
        if *events < 1
            || *events > 9
            || two_turns(alloc, plain, *events, *first, *second) != *wanted
        {
            return Some(at);
        }
    }
    None
}

#[test]
fn return_alone(rt: HostRuntime) -> Result<(), Fail> {
    let alloc = rt.alloc();
    let plain = program(alloc, &[Instr::Return])?;
    assert_eq!(rt; wrong_in_one(alloc, &plain, &RETURNS_ONCE), None);
    assert_eq!(rt; wrong_in_two(alloc, &plain, &RETURNS_TWICE), None);
    Ok(())
}

#[test]
fn a_print_and_the_end(rt: HostRuntime) -> Result<(), Fail> {
    let alloc = rt.alloc();
    let plain = program(alloc, &SEVEN)?;
    assert_eq!(rt; wrong_in_one(alloc, &plain, &PRINTS_ONCE), None);
    assert_eq!(rt; wrong_in_two(alloc, &plain, &PRINTS_TWICE), None);
    Ok(())
}

/// Whether a copy goes on as the machine does: it is picked, prints and ends.
fn copy_prints(alloc: Global, plain: &Plain) -> Result<bool, TurnFault> {
    let Ok(machine) = Machine::new(alloc, plain, 2) else {
        return Err(TurnFault::NoMemory);
    };
    let Ok(mut copy) = machine.copy(alloc) else {
        return Err(TurnFault::NoMemory);
    };
    if copy.pick(0, 3) != Some(0) {
        return Ok(false);
    }
    copy.turn(alloc, plain, 0)?;
    Ok(copy.world().output() == b"7\n".as_slice() && copy.world().clock() == 1)
}

#[test]
fn copies(rt: HostRuntime) -> Result<(), Fail> {
    let alloc = rt.alloc();
    let plain = program(alloc, &SEVEN)?;
    assert!(rt; copy_prints(alloc, &plain) == Ok(true));
    Ok(())
}

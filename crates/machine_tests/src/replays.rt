// Logs that are written down here byte by byte, replayed over two small programs.
use crate::programs::{SEVEN, program};
use schedule_log::{Log, decode};
use std::alloc::Global;
use std::test::Fail;
use thread_driver::{ReplayFault, replay_still};
use vm_model::{End, Instr, NoMemory, Plain};

/// The magic bytes, the version and a budget of 1,048,576 events.
const HEAD: [u8; 8] = [0x44, 0x4A, 0x56, 0x4C, 0x01, 0x80, 0x80, 0x40];

/// The bytes of a log after this head.
fn bytes_of(alloc: Global, rest: &[u8]) -> Result<Vec<u8>, NoMemory> {
    let mut bytes = Vec::from_slice(alloc, &HEAD)?;
    bytes.extend_from_slice(rest)?;
    Ok(bytes)
}

/// The log of these bytes; nothing where they are none.
fn log_of(alloc: Global, rest: &[u8]) -> Result<Option<Log>, NoMemory> {
    let bytes = bytes_of(alloc, rest)?;
    match decode(alloc, &bytes) {
        Ok(log) => Ok(Some(log)),
        Err(_) => Ok(None),
    }
}

/// What stands in a log after the head, what its replay prints, and how it ends or where it parts.
type Replayed = (&'static [u8], &'static [u8], Result<End, ReplayFault>);

fn is_replayed(alloc: Global, plain: &Plain, row: &Replayed) -> Result<bool, NoMemory> {
    let (rest, output, wanted) = *row;
    let Some(log) = log_of(alloc, rest)? else {
        return Ok(false);
    };
    match replay_still(alloc, plain, &log) {
        Ok(again) => Ok(wanted == Ok(again.end) && again.output.as_slice() == output),
        Err(fault) => Ok(wanted == Err(fault)),
    }
}

/// The first row that goes otherwise.
fn first_wrong(alloc: Global, plain: &Plain, rows: &[Replayed]) -> Result<Option<usize>, NoMemory> {
    for (at, row) in rows.iter().enumerate() {
        if !is_replayed(alloc, plain, row)? {
            return Ok(Some(at));
        }
    }
    Ok(None)
}

const AT_END: Result<End, ReplayFault> = Err(ReplayFault::Diverged {
    clock: 1,
    thread: None,
});

const AT_FIRST: Result<End, ReplayFault> = Err(ReplayFault::Diverged {
    clock: 1,
    thread: Some(0),
});

const AT_SECOND: Result<End, ReplayFault> = Err(ReplayFault::Diverged {
    clock: 1,
    thread: Some(1),
});

// Done, stuck, with an event too many, and with one of another thread.
const OF_RETURN: [Replayed; 4] = [
    (&[0x01, 0x01, 0x00, 0x00, 0xF0], b"", Ok(End::Done)),
    (&[0x01, 0x01, 0x00, 0x00, 0xF2], b"", AT_END),
    (&[0x01, 0x01, 0x00, 0x01, 0xF0], b"", AT_FIRST),
    (
        &[0x02, 0x01, 0x00, 0x00, 0x01, 0x01, 0x00, 0xF0],
        b"",
        AT_SECOND,
    ),
];

// Done, and with an event too few.
const OF_PRINT: [Replayed; 2] = [
    (&[0x01, 0x01, 0x00, 0x01, 0xF0], b"7\n", Ok(End::Done)),
    (&[0x01, 0x01, 0x00, 0x00, 0xF0], b"7\n", AT_END),
];

#[test]
fn return_alone(rt: HostRuntime) -> Result<(), Fail> {
    let alloc = rt.alloc();
    let plain = program(alloc, &[Instr::Return])?;
    assert_eq!(rt; first_wrong(alloc, &plain, &OF_RETURN)?, None);
    Ok(())
}

#[test]
fn a_print_and_the_end(rt: HostRuntime) -> Result<(), Fail> {
    let alloc = rt.alloc();
    let plain = program(alloc, &SEVEN)?;
    assert_eq!(rt; first_wrong(alloc, &plain, &OF_PRINT)?, None);
    Ok(())
}

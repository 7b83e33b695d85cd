// What is printed to a sink that takes one byte a put.

use crate::commands::programs::{SUM, SUM_TEXT};
use crate::commands::{File, Row, folder_of, words_of};
use dejavu_tool::{Status, dejavu};
use gate_core::NoMeeting;
use std::alloc::Global;
use std::sync::Wait;
use std::test::Fail;
use std::thread::Threads;
use tool_io::{MemorySink, Sink};
use vm_model::NoMemory;

const BYTEWISE: Row = Row {
    words: &["record", "P", "L"],
    files: &[File {
        name: "P",
        bytes: SUM,
    }],
    folder: &[],
    sink: &[],
    status: Status::Ok,
    text: SUM_TEXT,
    stored: None,
};

/// What `record` of the sum prints to a sink that takes one byte a put, where these puts fail, and its status.
fn printed_bytewise<H: Threads + Wait + Sync>(
    rt: &H,
    alloc: Global,
    failing: &[u64],
) -> Result<(Status, MemorySink), NoMemory> {
    let words = words_of(alloc, &BYTEWISE)?;
    let mut folder = folder_of(alloc, &BYTEWISE)?;
    let mut sink = MemorySink::short(alloc, 1, Vec::from_slice(alloc, failing)?)?;
    let status = dejavu(rt, alloc, &words, &mut folder, &mut sink, &NoMeeting);
    Ok((status, sink))
}

/// Whether all is printed where no put fails.
fn is_whole<H: Threads + Wait + Sync>(rt: &H, alloc: Global) -> Result<bool, NoMemory> {
    let (status, sink) = printed_bytewise(rt, alloc, &[])?;
    Ok(status == Status::Ok && sink.taken() == SUM_TEXT)
}

/// Whether 42 bytes are printed where the put after them fails.
fn is_cut<H: Threads + Wait + Sync>(rt: &H, alloc: Global) -> Result<bool, NoMemory> {
    let (status, sink) = printed_bytewise(rt, alloc, &[42])?;
    let is_front = sink.taken().len() == 42 && SUM_TEXT.starts_with(sink.taken());
    Ok(status == Status::WriteFault && is_front)
}

#[test]
fn bytes_are_put_one_by_one(rt: HostRuntime) -> Result<(), Fail> {
    assert!(rt; is_whole(&rt, rt.alloc())?);
    assert!(rt; is_cut(&rt, rt.alloc())?);
    Ok(())
}

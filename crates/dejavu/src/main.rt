//! The program: the tool over the folder in which it was started and standard output.
#![tactic(auto)]

use dejavu_tool::{Status, dejavu};
use gate_core::NoMeeting;
use std::alloc::Global;
use std::env::{self, Env};
use std::io;
use std::process::ExitCode;
use tool_io::{DiskFolder, OutSink};

/// The words after the program's name. Where one isn't UTF-8 there are none, and those are of no command.
fn words<R: Env + Alloc<A = Global>>(rt: &R) -> Result<Vec<String>, Status> {
    match env::args(rt) {
        Ok(args) => match args.skip(1).collect(rt.alloc()) {
            Ok(words) => Ok(words),
            Err(_) => Err(Status::OutOfMemory),
        },
        Err(e) if e.kind() == io::ErrorKind::OutOfMemory => Err(Status::OutOfMemory),
        Err(_) => Ok(Vec::new(rt.alloc())),
    }
}

fn main(rt: HostRuntime) -> ExitCode {
    let status = match words(&rt) {
        Ok(words) => dejavu(
            &rt,
            rt.alloc(),
            &words,
            &mut DiskFolder::new(&rt),
            &mut OutSink::new(&rt),
            &NoMeeting,
        ),
        Err(status) => status,
    };
    ExitCode::from(status.number())
}

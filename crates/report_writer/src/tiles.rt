//! The intervals of a log, as a text.

ghost use Rattle.std.specs.Prelude.{◌≡◌, ◌++◌, OnOk, IfOk};
ghost use Rattle.report_writer.specs.Tiles as spec;
ghost use Rattle.report_writer.specs.Tiles.{interval_line, kind_line};

use crate::names::{put, put_number};
use crate::report::put_counted;
use schedule_log::{Interval, Log};
use std::alloc::Global;
use vm_model::{EndKind, NoMemory};

/// Adds the line of an end, as a log keeps it.
fn put_kind(out: &mut Vec<u8>, kind: EndKind) -> Result<(), NoMemory>
    ensures { OnOk result (out.new.items ≡ out.old.items ++ kind_line kind) }
{
    match kind {
        EndKind::Done => put(out, b"end done\n"),
        EndKind::Fault => put(out, b"end fault\n"),
        EndKind::Stuck => put(out, b"end stuck\n"),
        EndKind::Spent => put(out, b"end spent\n"),
    }
}

/// Adds the line of an interval: its thread, and its first and last clock.
fn put_interval(out: &mut Vec<u8>, interval: Interval) -> Result<(), NoMemory>
    ensures { OnOk result (out.new.items ≡ out.old.items ++ interval_line interval) }
{
    put(out, b"interval ")?;
    put_number(out, u64::from(interval.thread))?;
    put(out, b" ")?;
    put_number(out, interval.first)?;
    put(out, b" ")?;
    put_number(out, interval.last)?;
    put(out, b"\n")
}

/// What a log has: its budget and its number of events, how its run ended, and its intervals in order of their first clocks.
pub fn tiles_text(alloc: Global, log: &Log) -> Result<Vec<u8>, NoMemory>
    ensures { IfOk result (λ text. text.items ≡ spec.tiles_text log.now) }
{
    let mut out = Vec::new(alloc);
    put_counted(&mut out, b"budget", log.budget())?;
    put_counted(&mut out, b"events", log.events())?;
    put_kind(&mut out, log.end())?;
    for interval in log.intervals() {
        put_interval(&mut out, *interval)?;
    }
    Ok(out)
}

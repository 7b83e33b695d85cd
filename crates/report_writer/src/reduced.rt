//! What a reduction left, as a text.

ghost use Rattle.std.specs.Prelude.{◌≡◌, ◌++◌, OnOk, IfOk};
ghost use Rattle.report_writer.specs.Reduced as spec;
ghost use Rattle.report_writer.specs.Reduced.{kept_line};

use crate::names::{put, put_number};
use crate::report::put_counted;
use schedule_model::Schedule;
use std::alloc::Global;
use vm_model::NoMemory;

/// Adds a line on how many of how many times were kept.
fn put_kept(out: &mut Vec<u8>, kept: u64, given: u64) -> Result<(), NoMemory>
    ensures { OnOk result (out.new.items ≡ out.old.items ++ kept_line kept given) }
{
    put(out, b"kept ")?;
    put_number(out, kept)?;
    put(out, b" of ")?;
    put_number(out, given)?;
    put(out, b"\n")
}

/// What a reduction left of a schedule: how many of its times were kept, and how many tests were made and how many of them
/// were unresolved. `given` is the schedule that was reduced, and `left` what is left of it.
pub fn reduced_text(
    alloc: Global,
    given: &Schedule,
    left: &Schedule,
    asked: u64,
    unresolved: u64,
) -> Result<Vec<u8>, NoMemory>
    ensures { IfOk result (λ text. text.items ≡ spec.reduced_text given.now left.now asked unresolved) }
{
    let mut out = Vec::new(alloc);
    put_kept(&mut out, left.times.len() as u64, given.times.len() as u64)?;
    put_counted(&mut out, b"asked", asked)?;
    put_counted(&mut out, b"unresolved", unresolved)?;
    Ok(out)
}

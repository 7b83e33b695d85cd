//! What an isolation found, as a text.

ghost use Rattle.std.specs.Prelude.{◌≡◌, ◌++◌, ◌<◌, List, ℕ, OnOk, IfOk, length};
ghost use Rattle.std.specs.List.{flat_map};
ghost use Rattle.report_writer.specs.Texts as spec;
ghost use Rattle.report_writer.specs.Texts.{place_line, place_lines, time_word, times_line};

use crate::names::{put, put_number};
use crate::report::put_counted;
use schedule_model::Isolated;
use std::alloc::Global;
use vm_model::NoMemory;

/// Adds a number after a space.
fn put_time(out: &mut Vec<u8>, time: u64) -> Result<(), NoMemory>
    ensures { OnOk result (out.new.items ≡ out.old.items ++ time_word time) }
{
    put(out, b" ")?;
    put_number(out, time)
}

fn put_times(out: &mut Vec<u8>, times: &[u32]) -> Result<(), NoMemory>
    ensures { OnOk result (out.new.items ≡ out.old.items ++ flat_map time_word times.now) }
{
    for time in times {
        put_time(out, u64::from(*time))?;
    }
    Ok(())
}

/// Adds a word and times on a line.
fn put_times_line(out: &mut Vec<u8>, word: &[u8], times: &[u32]) -> Result<(), NoMemory>
    ensures { OnOk result (out.new.items ≡ out.old.items ++ times_line word.now times.now) }
{
    put(out, word)?;
    put_times(out, times)?;
    put(out, b"\n")
}

/// Adds a line on a place, where the schedules differ there.
fn put_place(
    out: &mut Vec<u8>,
    passing: &[u32],
    failing: &[u32],
    place: usize,
) -> Result<(), NoMemory>
    requires in_passing { place < length passing.now }
    requires in_failing { place < length failing.now }
    ensures { OnOk result (out.new.items ≡ out.old.items ++ place_line passing.now failing.now place) }
{
    if passing[place] == failing[place] {
        return Ok(());
    }
    put(out, b"place")?;
    put_time(out, place as u64)?;
    put_time(out, u64::from(passing[place]))?;
    put_time(out, u64::from(failing[place]))?;
    put(out, b"\n")
}

fn put_places(out: &mut Vec<u8>, passing: &[u32], failing: &[u32]) -> Result<(), NoMemory>
    requires { length failing.now ≡ length passing.now }
    ensures { OnOk result (out.new.items ≡ out.old.items ++ place_lines passing.now failing.now) }
{
    for place in 0..passing.len() {
        put_place(out, passing, failing, place)?;
    }
    Ok(())
}

/// What an isolation found: the times of the passing schedule and those of the failing one, each place where they differ with
/// both times, by how many units they differ, and how many tests were made and how many of them were unresolved.
pub fn isolated_text(alloc: Global, found: &Isolated) -> Result<Vec<u8>, NoMemory>
    requires same_size { length found.now.fail ≡ length found.now.pass }
    ensures { IfOk result (λ text. text.items ≡ spec.isolated_text found.now.pass found.now.fail found.now.units found.now.asked found.now.unresolved) }
{
    let mut out = Vec::new(alloc);
    put_times_line(&mut out, b"pass", &found.pass.times)?;
    put_times_line(&mut out, b"fail", &found.fail.times)?;
    put_places(&mut out, &found.pass.times, &found.fail.times)?;
    put_counted(&mut out, b"units", found.units)?;
    put_counted(&mut out, b"asked", found.asked)?;
    put_counted(&mut out, b"unresolved", found.unresolved)?;
    Ok(out)
}

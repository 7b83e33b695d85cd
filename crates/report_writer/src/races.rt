//! The text of a report of races.

ghost use Rattle.std.specs.Prelude.{◌≡◌, ◌++◌, OnOk, IfOk, All};
ghost use Rattle.race_report.specs.Races.{IsDeclared};
ghost use Rattle.report_writer.specs.Texts as spec;
ghost use Rattle.report_writer.specs.Texts.{access_words, place_words, race_line};

use crate::names::{put, put_number, put_static_name};
use crate::report::put_counted;
use race_report::{Place, Race};
use std::alloc::Global;
use vm_model::{NoMemory, Program};

fn put_place(out: &mut Vec<u8>, program: &Program, place: Place) -> Result<(), NoMemory>
    ensures { OnOk result (out.new.items ≡ out.old.items ++ place_words program.now place) }
{
    match place {
        Place::Static(slot) => {
            put(out, b"static ")?;
            put_static_name(out, program, slot)
        }
        Place::Field { obj, place } => {
            put(out, b"obj ")?;
            put_number(out, u64::from(obj))?;
            put(out, b" place ")?;
            put_number(out, u64::from(place))
        }
        Place::Item { arr, index } => {
            put(out, b"arr ")?;
            put_number(out, u64::from(arr))?;
            put(out, b" index ")?;
            put_number(out, u64::from(index))
        }
    }
}

fn put_access(out: &mut Vec<u8>, clock: u64, thread: u32) -> Result<(), NoMemory>
    ensures { OnOk result (out.new.items ≡ out.old.items ++ access_words clock thread) }
{
    put_number(out, clock)?;
    put(out, b" thread ")?;
    put_number(out, u64::from(thread))
}

fn put_race(out: &mut Vec<u8>, program: &Program, race: Race) -> Result<(), NoMemory>
    ensures { OnOk result (out.new.items ≡ out.old.items ++ race_line program.now race) }
{
    put(out, b"race ")?;
    put_place(out, program, race.place)?;
    put(out, b" first ")?;
    put_access(out, race.first, race.first_thread)?;
    put(out, b" second ")?;
    put_access(out, race.second, race.second_thread)?;
    put(out, b"\n")
}

/// A report of races of a run of this program: how many there are, and a line for each with its place, and the clock and the
/// thread of both accesses.
pub fn races_text(alloc: Global, found: &[Race], program: &Program) -> Result<Vec<u8>, NoMemory>
    requires declared { All (λ r. IsDeclared program.now.statics r.place) found.now }
    ensures { IfOk result (λ text. text.items ≡ spec.races_text program.now found.now) }
{
    let mut out = Vec::new(alloc);
    put_counted(&mut out, b"races", found.len() as u64)?;
    for race in found {
        put_race(&mut out, program, *race)?;
    }
    Ok(out)
}

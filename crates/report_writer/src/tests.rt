//! The printed report of races.

ghost use Rattle.std.specs.Prelude.{◌<◌, ◌≡◌, ◌↔◌, IsTrue, All, true, length};
ghost use Rattle.race_report.specs.Races.{IsDeclared};

use crate::races_text;
use race_report::{Place, Race};
use std::alloc::Global;
use std::test::Fail;
use vm_model::{Class, Kind, Name, NoMemory, Program, StaticSlot, Value};

/// A class W with a static n.
fn program_of(alloc: Global) -> Result<Program, NoMemory> {
    let mut classes = Vec::new(alloc);
    classes.push(Class {
        name: Name::of(alloc, b"W")?,
        is_thread: true,
        is_runnable: false,
        fields: Vec::new(alloc),
        run: None,
    })?;
    let mut statics = Vec::new(alloc);
    statics.push(StaticSlot {
        class: 32,
        name: Name::of(alloc, b"n")?,
        kind: Kind::Int,
        start: Value::Int(0),
    })?;
    Ok(Program {
        classes,
        methods: Vec::new(alloc),
        statics,
        texts: Vec::new(alloc),
        main: 0,
    })
}

fn is_declared(program: &Program, place: Place) -> bool
    ensures { (result ≡ true) ↔ IsDeclared program.now.statics place }
{
    match place {
        Place::Static(slot) => (slot as usize) < program.statics.len(),
        Place::Field { obj: _, place: _ } => true,
        Place::Item { arr: _, index: _ } => true,
    }
}

fn are_declared(program: &Program, found: &[Race]) -> bool
    ensures { IsTrue result ↔ All (λ r. IsDeclared program.now.statics r.place) found.now }
{
    found.iter().all(|r| is_declared(program, r.place))
}

fn reads(alloc: Global, found: &[Race], wanted: &[u8]) -> Result<bool, NoMemory> {
    let program = program_of(alloc)?;
    if !are_declared(&program, found) {
        return Ok(false);
    }
    Ok(races_text(alloc, found, &program)?.as_slice() == wanted)
}

fn race(place: Place) -> Race {
    Race {
        place,
        first: 5,
        first_thread: 1,
        second: 7,
        second_thread: 2,
    }
}

#[test]
fn races_are_told_by_place(rt: HostRuntime) -> Result<(), Fail> {
    let alloc = rt.alloc();
    let found = [
        race(Place::Static(0)),
        race(Place::Field { obj: 3, place: 1 }),
        race(Place::Item { arr: 4, index: 0 }),
    ];
    assert!(rt; reads(alloc, &[], b"races 0\n")?);
    assert!(rt;
        reads(
            alloc,
            &found,
            b"races 3
race static W/n first 5 thread 1 second 7 thread 2
race obj 3 place 1 first 5 thread 1 second 7 thread 2
race arr 4 index 0 first 5 thread 1 second 7 thread 2
"
        )?
    );
    Ok(())
}

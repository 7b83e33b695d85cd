// The printed texts of runs and of their ends.
ghost use Rattle.std.specs.Prelude.{◌≡◌, IfOk};

use report_writer::{end_text, isolated_text, run_text};
use schedule_model::{Isolated, Schedule};
use std::alloc::Global;
use std::test::Fail;
use vm_model::{Class, End, Fault, FaultKind, Kind, Method, Name, NoMemory, Program};

fn one_class(alloc: Global) -> Result<Vec<Class>, NoMemory> {
    let class = Class {
        name: Name::of(alloc, b"W")?,
        is_thread: true,
        is_runnable: false,
        fields: Vec::new(alloc),
        run: None,
    };
    let mut classes = Vec::new(alloc);
    classes.push(class)?;
    Ok(classes)
}

const PARAMS: [Kind; 4] = [Kind::Int, Kind::Arr, Kind::Ref(32), Kind::Ref(3)];

fn two_methods(alloc: Global) -> Result<Vec<Method>, NoMemory> {
    let main = method_of(alloc, b"main", &[Kind::Args], None)?;
    let max = method_of(alloc, b"max", &PARAMS, Some(Kind::Int))?;
    let mut methods = Vec::new(alloc);
    methods.push(main)?;
    methods.push(max)?;
    Ok(methods)
}

/// A class W of threads with a `main` and a method of four parameters.
fn program_of(alloc: Global) -> Result<Program, NoMemory> {
    let classes = one_class(alloc)?;
    let methods = two_methods(alloc)?;
    Ok(Program {
        classes,
        methods,
        statics: Vec::new(alloc),
        texts: Vec::new(alloc),
        main: 0,
    })
}

fn method_of(
    alloc: Global,
    name: &[u8],
    params: &[Kind],
    gives: Option<Kind>,
) -> Result<Method, NoMemory> {
    Ok(Method {
        class: 32,
        name: Name::of(alloc, name)?,
        params: Vec::from_slice(alloc, params)?,
        gives,
        is_static: true,
        is_synchronized: false,
        max_stack: None,
        max_locals: None,
        code: Vec::new(alloc),
    })
}

fn in_program(kind: FaultKind, method: u32) -> End {
    End::Fault(Fault {
        kind,
        thread: 0,
        method,
        at: 22,
    })
}

const ENDS: [(End, &str); 3] = [
    (End::Done, "end done\n"),
    (End::Stuck, "end stuck\n"),
    (End::Spent, "end spent\n"),
];

const FAULTS: [(FaultKind, u32, &str); 4] = [
    (
        FaultKind::Thrown(8),
        0,
        "end fault thrown java/lang/Error thread 0 in W/main([Ljava/lang/String;)V at 22\n",
    ),
    (
        FaultKind::Thrown(32),
        1,
        "end fault thrown W thread 0 in W/max(I[ILW;Ljava/lang/String;)I at 22\n",
    ),
    (
        FaultKind::Arithmetic,
        0,
        "end fault arithmetic thread 0 in W/main([Ljava/lang/String;)V at 22\n",
    ),
    (
        FaultKind::StackOverflow,
        0,
        "end fault stack-overflow thread 0 in W/main([Ljava/lang/String;)V at 22\n",
    ),
];

fn ends_as(alloc: Global, program: &Program, end: End, text: &[u8]) -> Result<bool, NoMemory> {
    Ok(end_text(alloc, &end, program)?.as_slice() == text)
}

/// The first end that is named otherwise.
fn wrong_in_ends(alloc: Global, program: &Program) -> Result<Option<usize>, NoMemory> {
    for (at, (end, text)) in ENDS.iter().enumerate() {
        if !ends_as(alloc, program, *end, text.as_bytes())? {
            return Ok(Some(at));
        }
    }
    Ok(None)
}

/// The first fault that is named otherwise.
fn wrong_in_faults(alloc: Global, program: &Program) -> Result<Option<usize>, NoMemory> {
    for (at, (kind, method, text)) in FAULTS.iter().enumerate() {
        let end = in_program(*kind, *method);
        if !ends_as(alloc, program, end, text.as_bytes())? {
            return Ok(Some(at));
        }
    }
    Ok(None)
}

#[test]
fn ends_are_named(rt: HostRuntime) -> Result<(), Fail> {
    let alloc = rt.alloc();
    let program = program_of(alloc)?;
    assert_eq!(rt; wrong_in_ends(alloc, &program)?, None);
    assert_eq!(rt; wrong_in_faults(alloc, &program)?, None);
    Ok(())
}

fn is_run_told(alloc: Global) -> Result<bool, NoMemory> {
    let program = program_of(alloc)?;
    let text = run_text(alloc, 23, 1, &End::Done, b"55\n", &program)?;
    Ok(text.as_slice() == b"events 23\nintervals 1\nend done\noutput 3\n55\n".as_slice())
}

#[test]
fn runs_are_told(rt: HostRuntime) -> Result<(), Fail> {
    assert!(rt; is_run_told(rt.alloc())?);
    Ok(())
}

fn schedule_of(alloc: Global, times: &[u32]) -> Result<Schedule, NoMemory>
    ensures { IfOk result (λ s. s ≡ times.now) }
{
    Ok(Schedule {
        times: Vec::from_slice(alloc, times)?,
    })
}

fn isolated_as(
    alloc: Global,
    passing: &[u32],
    failing: &[u32],
    text: &[u8],
) -> Result<bool, NoMemory> {
    if failing.len() != passing.len() {
        return Ok(false);
    }
    let pass = schedule_of(alloc, passing)?;
    let fail = schedule_of(alloc, failing)?;
    let found = Isolated {
        pass,
        fail,
        units: 8,
        asked: 30,
        unresolved: 2,
    };
    Ok(isolated_text(alloc, &found)?.as_slice() == text)
}

// The times of two schedules, and what is told. A place is told where its times differ, and places count from 0.
const ISOLATIONS: [(&[u32], &[u32], &str); 2] = [
    (
        &[6, 9, 20],
        &[5, 9, 13],
        "pass 6 9 20\nfail 5 9 13\nplace 0 6 5\nplace 2 20 13\nunits 8\nasked 30\nunresolved 2\n",
    ),
    (
        &[0, 1, 1048576],
        &[0, 1, 1048576],
        "pass 0 1 1048576\nfail 0 1 1048576\nunits 8\nasked 30\nunresolved 2\n",
    ),
];

/// The first row that is told otherwise.
fn wrong_in_isolations(alloc: Global) -> Result<Option<usize>, NoMemory> {
    for (at, (passing, failing, text)) in ISOLATIONS.iter().enumerate() {
        if !isolated_as(alloc, passing, failing, text.as_bytes())? {
            return Ok(Some(at));
        }
    }
    Ok(None)
}

#[test]
fn isolations_are_told(rt: HostRuntime) -> Result<(), Fail> {
    assert_eq!(rt; wrong_in_isolations(rt.alloc())?, None);
    Ok(())
}

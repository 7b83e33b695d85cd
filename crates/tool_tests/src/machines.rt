//! Machines and recordings of accepted programs.

ghost use Rattle.std.specs.Prelude.{◌≤◌};
ghost use Rattle.vm_model.specs.declared.limits.TheConstants.{MOST_EVENTS};
ghost use Rattle.event_machine.specs.MachineView.{IsMachineOf};

use crate::commands::programs::{SHORTEST, SUM, TWICE};
use dejavu_tool::accept;
use event_machine::{Machine, TurnFault};
use std::alloc::Global;
use std::test::Fail;
use thread_driver::record_still;
use vm_model::{End, Entry, Lock, Op, Plain, Reply};

/// Two threads that each add 1 to a static, and a `main` that starts both and waits for their ends.
const TWO_WRITERS: &[u8] =
    b".class W\n.super java/lang/Thread\n.field static n I\n.method public <init>()V\naload_0\ninvokespecial java/lang/Thread/<init>()V\nreturn\n.end method\n.method public run()V\ngetstatic W/n I\niconst_1\niadd\nputstatic W/n I\nreturn\n.end method\n.method public static main([Ljava/lang/String;)V\nnew W\ndup\ninvokespecial W/<init>()V\nastore_1\nnew W\ndup\ninvokespecial W/<init>()V\nastore_2\naload_1\ninvokevirtual W/start()V\naload_2\ninvokevirtual W/start()V\naload_1\ninvokevirtual W/join()V\naload_2\ninvokevirtual W/join()V\nreturn\n.end method\n";

/// Makes the turns of these threads.
fn go_on(
    alloc: Global,
    plain: &Plain,
    machine: &mut Machine,
    threads: &[u32],
) -> Result<(), TurnFault>
    requires own { IsMachineOf plain.now machine.old }
    ensures own { IsMachineOf plain.now machine.new }
{
    for thread in threads {
        machine.turn(alloc, plain, *thread)?;
    }
    Ok(())
}

/// The next event of a thread in a copy of the machine.
fn event_of_copy(
    alloc: Global,
    plain: &Plain,
    machine: &Machine,
    thread: u32,
) -> Result<Entry, TurnFault>
    requires own { IsMachineOf plain.now machine.now }
{
    let Ok(mut copy) = machine.copy(alloc) else {
        return Err(TurnFault::NoMemory);
    };
    copy.turn(alloc, plain, thread)
}

/// Whether a copy of the machine after four turns of `main` makes the event of thread 1 that the machine itself makes then, which
/// has four events until then.
fn copy_turns_alike(alloc: Global, plain: &Plain) -> Result<bool, TurnFault> {
    let Ok(mut machine) = Machine::new(alloc, plain, 100) else {
        return Err(TurnFault::NoMemory);
    };
    go_on(alloc, plain, &mut machine, &[0, 0, 0, 0])?;
    let first = event_of_copy(alloc, plain, &machine, 1)?;
    let events = machine.world().clock();
    let second = machine.turn(alloc, plain, 1)?;
    Ok(events == 4 && first == second)
}

#[test]
fn copies_go_on_alike(rt: HostRuntime) -> Result<(), Fail> {
    let alloc = rt.alloc();
    match accept(alloc, TWO_WRITERS) {
        Ok(shaped) => assert!(rt; copy_turns_alike(alloc, shaped.plain()) == Ok(true)),
        Err(_) => assert!(rt; false),
    }
    Ok(())
}

/// The event that a thread makes after the turns of these.
fn event_after(
    alloc: Global,
    plain: &Plain,
    threads: &[u32],
    thread: u32,
) -> Result<Entry, TurnFault> {
    let Ok(mut machine) = Machine::new(alloc, plain, 100) else {
        return Err(TurnFault::NoMemory);
    };
    go_on(alloc, plain, &mut machine, threads)?;
    machine.turn(alloc, plain, thread)
}

/// Whether `main` waits at its seventh event, having entered twice.
fn waits_twice(alloc: Global, plain: &Plain) -> Result<bool, TurnFault> {
    let wait = event_after(alloc, plain, &[0, 0, 0, 0, 0, 0], 0)?;
    let lock = Lock::Object(0);
    Ok(wait.op == Op::Wait { lock } && wait.reply == Reply::Waits(2))
}

/// Whether `main` is resumed with that count once the thread has notified it.
fn resumes_twice(alloc: Global, plain: &Plain) -> Result<bool, TurnFault> {
    let resume = event_after(alloc, plain, &[0, 0, 0, 0, 0, 0, 0, 1, 1, 1, 1, 1], 0)?;
    let lock = Lock::Object(0);
    Ok(resume.op == Op::Resume { lock, count: 2 })
}

#[test]
fn a_wait_keeps_its_count(rt: HostRuntime) -> Result<(), Fail> {
    let alloc = rt.alloc();
    match accept(alloc, TWICE) {
        Ok(shaped) => {
            assert!(rt; waits_twice(alloc, shaped.plain()) == Ok(true));
            assert!(rt; resumes_twice(alloc, shaped.plain()) == Ok(true));
        }
        Err(_) => assert!(rt; false),
    }
    Ok(())
}

/// A `main` that jumps for ever: each 4,096 jumps are followed by an event.
const TURNING: &[u8] =
    b".class A\n.super java/lang/Object\n.method public static main([Ljava/lang/String;)V\nLoop:\ngoto Loop\n.end method\n";

/// Whether the run of a program under a budget ends this way, with so many events, and prints these bytes.
fn ends(
    alloc: Global,
    text: &[u8],
    budget: u64,
    end: End,
    events: u64,
    output: &[u8],
) -> Result<bool, Fail>
    requires some { 1 ≤ budget }
    requires limit { budget ≤ MOST_EVENTS }
{
    let Ok(shaped) = accept(alloc, text) else {
        return Ok(false);
    };
    let Ok(run) = record_still(alloc, shaped.plain(), budget) else {
        return Ok(false);
    };
    Ok(run.end == end && run.log.events() == events && run.output.as_slice() == output)
}

#[test]
fn budgets(rt: HostRuntime) -> Result<(), Fail> {
    let alloc = rt.alloc();
    assert!(rt; ends(alloc, SUM, 23, End::Done, 23, b"55\n")?);
    assert!(rt; ends(alloc, SUM, 22, End::Spent, 22, b"55\n")?);
    assert!(rt; ends(alloc, SUM, 21, End::Spent, 21, b"")?);
    assert!(rt; ends(alloc, SHORTEST, 1, End::Done, 1, b"")?);
    assert!(rt; ends(alloc, TURNING, 3, End::Spent, 3, b"")?);
    Ok(())
}

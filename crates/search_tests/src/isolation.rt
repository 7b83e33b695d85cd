// What is isolated between schedules of two writers, and how the tests of a search count.
ghost use Rattle.std.specs.Prelude.{◌≡◌, ◌≤◌, All, IfOk, length};
ghost use Rattle.vm_model.specs.declared.limits.TheConstants.{MOST_SWITCHES};

use crate::writers::{LOST, begins, schedule, two_writers};
use outcome_test::{SerialRounds, WideRounds};
use program_isolator::{IsolationRefusal, isolate_program};
use schedule_model::{Found, Isolated, Outcome, Rounds, Schedule};
use std::alloc::Global;
use std::test::Fail;
use std::thread::Threads;
use vm_model::{End, Fault, MOST_EVENTS, NoMemory};

/// What is isolated between two schedules.
fn isolated<H: Threads + Sync>(
    rt: &H,
    alloc: Global,
    times: (&[u32], &[u32]),
    events: u64,
    budget: u64,
    workers: u32,
) -> Result<Isolated, IsolationRefusal>
    requires some { 1 ≤ events }
    requires limit { events ≤ MOST_EVENTS }
    requires pass { length times.0.now ≤ MOST_SWITCHES }
    requires fail { length times.1.now ≤ MOST_SWITCHES }
{
    let plain = two_writers(alloc)?;
    let pass = schedule(alloc, times.0)?;
    let fail = schedule(alloc, times.1)?;
    if begins(alloc, &plain, events)? {
        isolate_program(rt, alloc, &plain, &pass, &fail, events, budget, workers)
    } else {
        Err(IsolationRefusal::NoMemory)
    }
}

/// Whether [6] and [5] are found, after so many tests.
fn finds<H: Threads + Sync>(
    rt: &H,
    alloc: Global,
    pass: &[u32],
    events: u64,
    workers: u32,
    asked: u64,
) -> bool
    requires some { 1 ≤ events }
    requires limit { events ≤ MOST_EVENTS }
    requires few { length pass.now ≤ MOST_SWITCHES }
{
    match isolated(rt, alloc, (pass, &[5]), events, asked, workers) {
        Ok(found) => {
            found.pass.times.as_slice() == [6].as_slice()
                && found.fail.times.as_slice() == [5].as_slice()
                && found.units == 1
                && found.asked == asked
                && found.unresolved == 0
        }
        Err(_) => false,
    }
}

// [9] and [5] are 4 units apart, and [7] and [6] are tested. Of 20 events the empty schedule is padded to [20], which is 15
// units from [5], and [13], [9], [7] and [6] are tested. [6] and [5] are one unit apart, and nothing is tested.
#[test]
fn one_switch_is_found(rt: HostRuntime) -> Result<(), Fail> {
    let alloc = rt.alloc();
    for workers in [1, 2, 16] {
        assert!(rt; finds(&rt, alloc, &[9], MOST_EVENTS, workers, 2));
        assert!(rt; finds(&rt, alloc, &[], 20, workers, 4));
        assert!(rt; finds(&rt, alloc, &[6], MOST_EVENTS, workers, 0));
    }
    Ok(())
}

#[test]
fn refusals_are_told(rt: HostRuntime) -> Result<(), Fail> {
    let alloc = rt.alloc();
    let n = MOST_EVENTS;
    assert!(rt;
        matches!(
            isolated(&rt, alloc, (&[9], &[5]), n, 1, 1),
            Err(IsolationRefusal::TestsSpent(1))
        )
    );
    assert!(rt;
        matches!(
            isolated(&rt, alloc, (&[], &[5]), 20, 3, 2),
            Err(IsolationRefusal::TestsSpent(3))
        )
    );
    assert!(rt;
        matches!(
            isolated(&rt, alloc, (&[9], &[6]), n, 9, 1),
            Err(IsolationRefusal::NotFailing(End::Done))
        )
    );
    match isolated(&rt, alloc, (&[5], &[9]), n, 9, 1) {
        Err(IsolationRefusal::NotPassing(end)) => assert!(rt; end == End::Fault(LOST)),
        _ => assert!(rt; false),
    }
    Ok(())
}

/// Three schedules of one time each.
fn three(alloc: Global, times: (u32, u32, u32)) -> Result<Vec<Schedule>, NoMemory>
    ensures count { IfOk result (λ tests. length tests.items ≡ 3) }
    ensures sizes { IfOk result (λ tests. All (λ test. length test ≤ MOST_SWITCHES) tests.items) }
{
    let mut tests = Vec::new(alloc);
    tests.push(schedule(alloc, &[times.0])?)?;
    tests.push(schedule(alloc, &[times.1])?)?;
    tests.push(schedule(alloc, &[times.2])?)?;
    Ok(tests)
}

/// What is found among three schedules, and how many of them counted and were unresolved.
fn found_by<R: Rounds>(
    alloc: Global,
    times: (u32, u32, u32),
    rounds: &mut R,
) -> Result<(Found, u64, u64), NoMemory>
    requires { R.asked rounds.old ≡ 0 }
{
    let tests = three(alloc, times)?;
    let found = rounds.first_resolved(alloc, tests.as_slice())?;
    Ok((found, rounds.asked(), rounds.unresolved()))
}

/// The same, against a fault, by rounds on one thread or on several.
fn found<H: Threads + Sync>(
    rt: &H,
    alloc: Global,
    times: (u32, u32, u32),
    fault: Fault,
    workers: u32,
) -> Result<(Found, u64, u64), NoMemory> {
    let plain = two_writers(alloc)?;
    if begins(alloc, &plain, 100)? {
        if workers == 0 {
            let mut rounds = SerialRounds::new(alloc, &plain, fault, 100)?;
            found_by(alloc, times, &mut rounds)
        } else {
            let mut rounds = WideRounds::new(rt, alloc, &plain, fault, 100, workers)?;
            found_by(alloc, times, &mut rounds)
        }
    } else {
        Err(NoMemory)
    }
}

// The first of [9], [6] and [5] passes. Against a fault at another instruction [5] is unresolved.
#[test]
fn tests_count_in_order(rt: HostRuntime) -> Result<(), Fail> {
    let alloc = rt.alloc();
    let other = Fault { at: 21, ..LOST };
    let first = Found::Resolved {
        at: 0,
        outcome: Outcome::Pass,
    };
    let last = Found::Resolved {
        at: 2,
        outcome: Outcome::Pass,
    };
    for workers in [0, 1, 2, 3, 16] {
        assert!(rt; found(&rt, alloc, (9, 6, 5), LOST, workers) == Ok((first, 1, 0)));
        assert!(rt; found(&rt, alloc, (5, 5, 9), other, workers) == Ok((last, 3, 2)));
        assert!(rt;
            found(&rt, alloc, (5, 5, 5), other, workers) == Ok((Found::NoneResolved, 3, 3))
        );
    }
    Ok(())
}

/// How many events four tests of one time each make, one after another, where each of them passes.
fn turns_of(alloc: Global, times: [u32; 4], events: u64) -> Result<Option<u64>, NoMemory>
    requires some { 1 ≤ events }
    requires limit { events ≤ MOST_EVENTS }
{
    let plain = two_writers(alloc)?;
    if !begins(alloc, &plain, events)? {
        return Ok(None);
    }
    let mut rounds = SerialRounds::new(alloc, &plain, LOST, events)?;
    for time in times {
        let mut tests = Vec::new(alloc);
        tests.push(schedule(alloc, &[time])?)?;
        match rounds.first_resolved(alloc, tests.as_slice())? {
            Found::Resolved {
                at: 0,
                outcome: Outcome::Pass,
            } => {}
            _ => return Ok(None),
        }
    }
    Ok(Some(rounds.turns()))
}

// Four runs from the start have 14 events each.
#[test]
fn tests_go_on_from_paused_runs(rt: HostRuntime) -> Result<(), Fail> {
    let alloc = rt.alloc();
    match turns_of(alloc, [13, 9, 7, 6], 20)? {
        Some(turns) => assert!(rt; turns > 0 && turns < 56),
        None => assert!(rt; false),
    }
    match turns_of(alloc, [13, 13, 13, 13], 20)? {
        Some(turns) => assert!(rt; turns == 14),
        None => assert!(rt; false),
    }
    Ok(())
}

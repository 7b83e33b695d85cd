// What schedules of two writers are reduced to.
ghost use Rattle.std.specs.Prelude.{◌≤◌, length};
ghost use Rattle.vm_model.specs.declared.limits.TheConstants.{MOST_SWITCHES};

use crate::writers::{begins, schedule, two_writers};
use program_reducer::{ReductionRefusal, reduce_program};
use std::alloc::Global;
use std::test::Fail;
use std::thread::Threads;
use switch_reducer::Reduced;
use vm_model::End;

/// What a schedule is reduced to.
fn reduced<H: Threads + Sync>(
    rt: &H,
    alloc: Global,
    times: &[u32],
    budget: u64,
    workers: u32,
) -> Result<Reduced, ReductionRefusal>
    requires { length times.now ≤ MOST_SWITCHES }
{
    let plain = two_writers(alloc)?;
    let fail = schedule(alloc, times)?;
    if begins(alloc, &plain, 100)? {
        reduce_program(rt, alloc, &plain, &fail, 100, budget, workers)
    } else {
        Err(ReductionRefusal::NoMemory)
    }
}

/// Whether [5] is left, after so many tests.
fn leaves_five<H: Threads + Sync>(
    rt: &H,
    alloc: Global,
    times: &[u32],
    workers: u32,
    asked: u64,
) -> bool
    requires { length times.now ≤ MOST_SWITCHES }
{
    match reduced(rt, alloc, times, asked, workers) {
        Ok(found) => {
            found.schedule.times.as_slice() == [5].as_slice()
                && found.asked == asked
                && found.unresolved == 0
        }
        Err(_) => false,
    }
}

// Of [5] the empty schedule is tested, and of [5, 20] that and [5]. Of [20, 5, 7] in order it is [], [5].
#[test]
fn one_switch_is_left(rt: HostRuntime) -> Result<(), Fail> {
    let alloc = rt.alloc();
    for workers in [0, 1, 2, 16] {
        assert!(rt; leaves_five(&rt, alloc, &[5], workers, 1));
        assert!(rt; leaves_five(&rt, alloc, &[5, 20], workers, 2));
        assert!(rt; leaves_five(&rt, alloc, &[20, 5, 40], workers, 2));
    }
    Ok(())
}

// One test fewer than is needed; and a schedule that passes.
#[test]
fn refusals_are_told(rt: HostRuntime) -> Result<(), Fail> {
    let alloc = rt.alloc();
    assert!(rt;
        matches!(
            reduced(&rt, alloc, &[5, 20], 1, 1),
            Err(ReductionRefusal::TestsSpent(1))
        )
    );
    assert!(rt;
        matches!(
            reduced(&rt, alloc, &[6], 9, 1),
            Err(ReductionRefusal::NotFailing(End::Done))
        )
    );
    Ok(())
}

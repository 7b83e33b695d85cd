//! The reducer on made-up runs.

use crate::made_up::{FailsAtFive, shows};
use schedule_model::{Outcome, Schedule};
use std::alloc::Global;
use std::test::Fail;
use switch_reducer::{ReduceFault, Reduced, reduce};
use vm_model::MOST_SWITCHES;

/// What a failing schedule is reduced to; nothing where it doesn't fail.
fn reduced(alloc: Global, times: &[u32], budget: u64) -> Result<Option<Reduced>, ReduceFault> {
    if MOST_SWITCHES < times.len() {
        return Ok(None);
    }
    let Ok(times) = times.to_vec(alloc) else {
        return Err(ReduceFault::NoMemory);
    };
    let fail = Schedule { times };
    if shows(&fail) != Outcome::Fail {
        return Ok(None);
    }
    let mut rounds = FailsAtFive { asked: 0 };
    Ok(Some(reduce(alloc, &fail, budget, &mut rounds)?))
}

// A schedule, and how many tests it takes until [5] is left. Of [9, 8, 5, 2, 1, 0] in order first the empty schedule is
// tested, then [0, 1, 2] and [5, 8, 9], and then [5].
const REDUCED: [(&[u32], u64); 4] = [
    (&[5], 1),
    (&[5, 20], 2),
    (&[20, 5, 5, 7], 3),
    (&[9, 8, 5, 2, 1, 0], 4),
];

#[test]
fn one_switch_is_left(rt: HostRuntime) -> Result<(), Fail> {
    let alloc = rt.alloc();
    let left: &[u32] = &[5];
    for (times, asked) in REDUCED {
        match reduced(alloc, times, asked) {
            Ok(Some(found)) => {
                assert!(rt; found.schedule.times.as_slice() == left);
                assert_eq!(rt; found.asked, asked);
                assert_eq!(rt; found.unresolved, 0);
            }
            Ok(None) | Err(_) => assert!(rt; false),
        }
    }
    Ok(())
}

// One test fewer than is needed.
#[test]
fn budgets_are_spent(rt: HostRuntime) -> Result<(), Fail> {
    let alloc = rt.alloc();
    for (times, asked) in REDUCED {
        let budget = asked - 1;
        assert!(rt;
            matches!(reduced(alloc, times, budget), Err(ReduceFault::TestsSpent { asked }) if asked == budget)
        );
    }
    Ok(())
}

//! The isolator on made-up runs.

use crate::made_up::{FailsAtFive, shows};
use dd_isolator::{IsolateFault, isolate};
use schedule_model::{Isolated, Outcome, Schedule};
use std::alloc::Global;
use std::test::Fail;
use vm_model::MOST_SWITCHES;

/// What is isolated between two schedules; nothing where the first doesn't pass or the second doesn't fail.
fn isolated(
    alloc: Global,
    pass: &[u32],
    fail: &[u32],
    budget: u64,
) -> Result<Option<Isolated>, IsolateFault> {
    if MOST_SWITCHES < pass.len() || MOST_SWITCHES < fail.len() {
        return Ok(None);
    }
    let Ok(times) = pass.to_vec(alloc) else {
        return Err(IsolateFault::NoMemory);
    };
    let pass = Schedule { times };
    let Ok(times) = fail.to_vec(alloc) else {
        return Err(IsolateFault::NoMemory);
    };
    let fail = Schedule { times };
    if shows(&pass) != Outcome::Pass || shows(&fail) != Outcome::Fail {
        return Ok(None);
    }
    let mut rounds = FailsAtFive { asked: 0 };
    Ok(Some(isolate(alloc, &pass, &fail, 20, budget, &mut rounds)?))
}

// Two schedules, what is found between them, and how many tests that takes. [9] and [5] are 4 units apart: [7] and [6] are
// tested. [20], to which the empty one is padded, and [5] are 15 units apart: [13], [9], [7] and [6] are tested.
const FOUND: [(&[u32], &[u32], &[u32], &[u32], u64); 4] = [
    (&[6], &[5], &[6], &[5], 0),
    (&[9], &[5], &[6], &[5], 2),
    (&[], &[5], &[6], &[5], 4),
    (&[2, 3], &[2, 5], &[2, 4], &[2, 5], 1),
];

#[test]
fn one_unit_is_left(rt: HostRuntime) -> Result<(), Fail> {
    let alloc = rt.alloc();
    for (pass, fail, left, right, asked) in FOUND {
        match isolated(alloc, pass, fail, asked) {
            Ok(Some(found)) => {
                assert!(rt; found.pass.times.as_slice() == left);
                assert!(rt; found.fail.times.as_slice() == right);
                assert_eq!(rt; found.units, 1);
                assert_eq!(rt; found.asked, asked);
                assert_eq!(rt; found.unresolved, 0);
            }
            Ok(None) | Err(_) => assert!(rt; false),
        }
    }
    Ok(())
}

// One test fewer than is needed.
#[test]
fn budgets_are_spent(rt: HostRuntime) -> Result<(), Fail> {
    let alloc = rt.alloc();
    let all: &[u32] = &[5];
    for (pass, budget) in [([9].as_slice(), 1), ([].as_slice(), 3)] {
        assert!(rt;
            matches!(isolated(alloc, pass, all, budget), Err(IsolateFault::TestsSpent { asked }) if asked == budget)
        );
    }
    Ok(())
}

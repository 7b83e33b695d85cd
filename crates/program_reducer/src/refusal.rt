//! Why nothing was reduced.

use switch_reducer::ReduceFault;
use vm_model::{End, NoMemory};

/// Why nothing was reduced. The causes are looked for in this order.
#[derive(Clone, Copy, Debug, PartialEq, Eq)]
pub enum ReductionRefusal {
    /// The run of the schedule doesn't end in a fault, but so.
    NotFailing(End),
    /// More tests are needed than allowed. So many were made: all that are allowed.
    TestsSpent(u64),
    NoMemory,
}

impl From<NoMemory> for ReductionRefusal {
    ghost use Rattle.std.specs.Prelude.{◌≡◌};
    ghost use Rattle.program_reducer.specs.declared.refusal.ReductionRefusal.TheVariants.{NoMemory};

    ghost from_gives = { λ _ e. e ≡ NoMemory };

    fn from(_e: NoMemory) -> ReductionRefusal {
        ReductionRefusal::NoMemory
    }
}

impl From<ReduceFault> for ReductionRefusal {
    ghost use Rattle.std.specs.Prelude.{◌≡◌};
    ghost use Rattle.program_reducer.specs.Refusals.{refusal_of};

    ghost from_gives = { λ e refusal. refusal ≡ refusal_of e };

    fn from(e: ReduceFault) -> ReductionRefusal {
        match e {
            ReduceFault::TestsSpent { asked } => ReductionRefusal::TestsSpent(asked),
            ReduceFault::NoMemory => ReductionRefusal::NoMemory,
        }
    }
}

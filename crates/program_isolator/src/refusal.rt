//! Why nothing was isolated.

use dd_isolator::IsolateFault;
use vm_model::{End, NoMemory};

/// Why nothing was isolated. The causes are looked for in this order.
#[derive(Clone, Copy, Debug, PartialEq, Eq)]
pub enum IsolationRefusal {
    /// The run of the first schedule doesn't end with all threads ended, but so.
    NotPassing(End),
    /// The run of the second schedule doesn't end in a fault, but so.
    NotFailing(End),
    /// More tests are needed than allowed. So many were made: all that are allowed.
    TestsSpent(u64),
    NoMemory,
}

impl From<NoMemory> for IsolationRefusal {
    ghost use Rattle.std.specs.Prelude.{◌≡◌};
    ghost use Rattle.program_isolator.specs.declared.refusal.IsolationRefusal.TheVariants.{NoMemory};

    ghost from_gives = { λ _ e. e ≡ NoMemory };

    fn from(_e: NoMemory) -> IsolationRefusal {
        IsolationRefusal::NoMemory
    }
}

impl From<IsolateFault> for IsolationRefusal {
    ghost use Rattle.std.specs.Prelude.{◌≡◌};
    ghost use Rattle.program_isolator.specs.Refusals.{refusal_of};

    ghost from_gives = { λ e refusal. refusal ≡ refusal_of e };

    fn from(e: IsolateFault) -> IsolationRefusal {
        match e {
            IsolateFault::TestsSpent { asked } => IsolationRefusal::TestsSpent(asked),
            IsolateFault::NoMemory => IsolationRefusal::NoMemory,
        }
    }
}

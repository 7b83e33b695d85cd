//! Why a search gives no answer.

use vm_model::NoMemory;

/// Why there is no answer. The rounds then have asked what they have asked; nothing else is left.
#[derive(Clone, Copy, Debug, PartialEq, Eq)]
pub enum ReduceFault {
    /// More tests are needed than the budget allows. `asked` is the budget, and so many tests were made.
    TestsSpent { asked: u64 },
    NoMemory,
}

impl From<NoMemory> for ReduceFault {
    ghost use Rattle.std.specs.Prelude.{◌≡◌};
    ghost use Rattle.switch_reducer.specs.declared.fault.ReduceFault.TheVariants.{NoMemory};

    ghost from_gives = { λ _ e. e ≡ NoMemory };

    fn from(_e: NoMemory) -> ReduceFault {
        ReduceFault::NoMemory
    }
}

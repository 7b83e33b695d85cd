//! Why classes give no program.

ghost use Rattle.class_linker.specs.declared.fault.LinkFault.TheVariants.{NoMemory};
ghost use Rattle.std.specs.Prelude.{◌≡◌};

use name_resolver::LinkKind;
use std::alloc::{AllocError, AllocFailed};

/// Why classes weren't linked. Nothing is left behind.
#[derive(Clone, Copy, Debug, PartialEq, Eq)]
pub enum LinkFault {
    /// The first fault: those of declarations come before those of bodies; in each the least line counts, from 1, and of
    /// one line the least kind. NoMain comes last, at line 0.
    At { kind: LinkKind, line: u32 },
    /// Memory was not found; the classes may be right.
    NoMemory,
}

/// A fault, and the line that has it.
#[derive(Clone, Copy, Debug, PartialEq, Eq)]
pub struct Refusal {
    pub kind: LinkKind,
    pub line: u32,
}

impl From<AllocError> for LinkFault {
    ghost from_gives = { λ _ e. e ≡ NoMemory };

    fn from(_e: AllocError) -> LinkFault {
        LinkFault::NoMemory
    }
}

impl From<vm_model::NoMemory> for LinkFault {
    ghost from_gives = { λ _ e. e ≡ NoMemory };

    fn from(_e: vm_model::NoMemory) -> LinkFault {
        LinkFault::NoMemory
    }
}

impl<T: Drop> From<AllocFailed<T>> for LinkFault {
    ghost from_gives = { λ _ e. e ≡ NoMemory };

    fn from(_e: AllocFailed<T>) -> LinkFault {
        LinkFault::NoMemory
    }
}

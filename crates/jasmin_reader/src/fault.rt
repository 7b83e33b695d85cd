//! Why a text has no classes.

ghost use Rattle.jasmin_reader.specs.declared.fault.ReadFault.TheVariants.{NoMemory};
ghost use Rattle.std.specs.Prelude.{◌≡◌};

use jasmin_lines::ReadKind;
use std::alloc::{AllocError, AllocFailed};

/// Why no classes were read. Nothing is left behind.
#[derive(Clone, Copy, Debug, PartialEq, Eq)]
pub enum ReadFault {
    /// The first line that breaks the grammar, counted from 1, and the least of its faults.
    At { kind: ReadKind, line: u32 },
    /// Memory was not found; the text may be in the grammar.
    NoMemory,
}

/// A fault, and the line that has it.
#[derive(Clone, Copy, Debug, PartialEq, Eq)]
pub struct Refusal {
    pub kind: ReadKind,
    pub line: u32,
}

impl From<AllocError> for ReadFault {
    ghost from_gives = { λ _ e. e ≡ NoMemory };

    fn from(_e: AllocError) -> ReadFault {
        ReadFault::NoMemory
    }
}

impl From<vm_model::NoMemory> for ReadFault {
    ghost from_gives = { λ _ e. e ≡ NoMemory };

    fn from(_e: vm_model::NoMemory) -> ReadFault {
        ReadFault::NoMemory
    }
}

impl<T: Drop> From<AllocFailed<T>> for ReadFault {
    ghost from_gives = { λ _ e. e ≡ NoMemory };

    fn from(_e: AllocFailed<T>) -> ReadFault {
        ReadFault::NoMemory
    }
}

//! Why a program can't be verified.

ghost use Rattle.shape_verifier.specs.declared.fault.ShapeFault.TheVariants.{NoMemory};
ghost use Rattle.std.specs.Prelude.{◌≡◌};

use shape_lattice::ShapeKind;
use std::alloc::{AllocError, AllocFailed};

/// Why a program wasn't verified. The program is given up.
#[derive(Clone, Copy, Debug, PartialEq, Eq)]
pub enum ShapeFault {
    /// The least method, by number, that has no closed table of shapes, and the instruction, counted from 0, at which the
    /// pass over it stops.
    At {
        kind: ShapeKind,
        method: u32,
        at: u32,
    },
    /// Memory was not found; the program may be right.
    NoMemory,
}

/// Where the pass over a method stops: the instruction, counted from 0.
#[derive(Clone, Copy, Debug, PartialEq, Eq)]
pub struct Refusal {
    pub kind: ShapeKind,
    pub at: u32,
}

impl From<AllocError> for ShapeFault {
    ghost from_gives = { λ _ e. e ≡ NoMemory };

    fn from(_e: AllocError) -> ShapeFault {
        ShapeFault::NoMemory
    }
}

impl<T: Drop> From<AllocFailed<T>> for ShapeFault {
    ghost from_gives = { λ _ e. e ≡ NoMemory };

    fn from(_e: AllocFailed<T>) -> ShapeFault {
        ShapeFault::NoMemory
    }
}

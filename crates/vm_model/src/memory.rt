// What is answered where memory was not found.
ghost use Rattle.std.specs.Prelude.{◌≡◌};
ghost use Rattle.vm_model.specs.declared.memory.Failure.TheVariants.{Memory};

use std::alloc::{AllocError, AllocFailed};

/// Memory was not found. It is the one answer that no contract gives a cause for.
#[derive(Clone, Copy, Debug, PartialEq, Eq)]
pub struct NoMemory;

impl From<AllocError> for NoMemory {
    fn from(_e: AllocError) -> NoMemory {
        NoMemory
    }
}

impl<T: Drop> From<AllocFailed<T>> for NoMemory {
    fn from(_e: AllocFailed<T>) -> NoMemory {
        NoMemory
    }
}

/// Why a part of something wasn't made: memory was not found, or this stands in its way.
#[derive(Clone, Copy, Debug, PartialEq, Eq, Drop)]
pub enum Failure<F> {
    Memory,
    Fault(F),
}

impl<F> From<AllocError> for Failure<F> {
    ghost from_gives = { λ _ e. e ≡ Memory };

    fn from(_e: AllocError) -> Failure<F> {
        Failure::Memory
    }
}

impl<F> From<NoMemory> for Failure<F> {
    ghost from_gives = { λ _ e. e ≡ Memory };

    fn from(_e: NoMemory) -> Failure<F> {
        Failure::Memory
    }
}

impl<F, T: Drop> From<AllocFailed<T>> for Failure<F> {
    ghost from_gives = { λ _ e. e ≡ Memory };

    fn from(_e: AllocFailed<T>) -> Failure<F> {
        Failure::Memory
    }
}

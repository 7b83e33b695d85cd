//! Why a text has no tokens.

ghost use Rattle.jasmin_text.specs.declared.fault.TextFault.TheVariants.{NoMemory};
ghost use Rattle.std.specs.Prelude.{◌≡◌};

use std::alloc::{AllocError, AllocFailed};

/// What is wrong with a text. Faults are met in the order of the bytes.
#[derive(Clone, Copy, Debug, PartialEq, Eq)]
pub enum TextKind {
    /// A byte of 128 or more in a word, or one in a string that may not stand there: at that byte.
    NotAscii,
    /// A backslash in a string, and after it none of `n`, `t`, `r`, `"`, `'` and `\`: at the backslash.
    BadEscape,
    /// A string that the line's end or the text's end leaves open: at its opening quote.
    OpenString,
    /// A number outside 32 bits: at its first byte.
    NumberRange,
}

impl TextKind {
    ghost use Rattle.jasmin_text.specs.Texts.{kind_number};

    /// The number from 1 to 4 by which the kind is printed.
    pub fn number(&self) -> u8
        ensures { result ≡ kind_number self.now }
    {
        match self {
            TextKind::NotAscii => 1,
            TextKind::BadEscape => 2,
            TextKind::OpenString => 3,
            TextKind::NumberRange => 4,
        }
    }
}

/// Why no tokens were made. Nothing is left behind.
#[derive(Clone, Copy, Debug, PartialEq, Eq)]
pub enum TextFault {
    /// The first fault of the text, and where it stands: line and column count from 1, columns in bytes.
    At {
        kind: TextKind,
        line: u32,
        column: u32,
    },
    /// Memory was not found; the text may have no fault.
    NoMemory,
}

/// A fault of a word or a string, and how many of its bytes come before it.
#[derive(Clone, Copy, Debug, PartialEq, Eq)]
pub struct Broken {
    pub kind: TextKind,
    pub before: u32,
}

impl From<AllocError> for TextFault {
    ghost from_gives = { λ _ e. e ≡ NoMemory };

    fn from(_e: AllocError) -> TextFault {
        TextFault::NoMemory
    }
}

impl<T: Drop> From<AllocFailed<T>> for TextFault {
    ghost from_gives = { λ _ e. e ≡ NoMemory };

    fn from(_e: AllocFailed<T>) -> TextFault {
        TextFault::NoMemory
    }
}

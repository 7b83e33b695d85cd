// Strings: what their bytes stand for.
ghost use Rattle.std.specs.Prelude.{◌≡◌, ◌≤◌, true, false, length};
ghost use Rattle.vm_model.specs.declared.limits.TheConstants.{MOST_TEXT_BYTES};
ghost use Rattle.vm_model.specs.Failures.{Gives};
ghost use Rattle.jasmin_text.specs.Pieces as spec;

use crate::fault::{Broken, TextKind};
use std::alloc::Global;
use vm_model::Failure;

/// What stands for itself in a string: the tab, and the bytes from the space to `~`.
fn is_plain(b: u8) -> bool
    ensures { result ≡ spec.is_plain b }
{
    b == b'\t' || (32 <= b && b <= 126)
}

/// What a backslash and this byte stand for.
fn escaped(b: u8) -> Option<u8>
    ensures { result ≡ spec.escaped b }
{
    match b {
        b'n' => Some(b'\n'),
        b't' => Some(b'\t'),
        b'r' => Some(b'\r'),
        b'"' | b'\'' | b'\\' => Some(b),
        _ => None,
    }
}

/// What the next byte of a string is.
#[derive(Clone, Copy, Debug, PartialEq, Eq)]
pub enum Turn {
    /// The closing quote.
    End,
    /// The beginning of an escape.
    Backslash,
    /// A byte of the text that the string stands for.
    Byte(u8),
}

fn after_backslash(passed: u32, b: u8) -> Result<Turn, Broken>
    requires { 1 ≤ passed }
    ensures { result ≡ spec.turn_of true passed b }
{
    match escaped(b) {
        Some(byte) => Ok(Turn::Byte(byte)),
        None => Err(Broken {
            kind: TextKind::BadEscape,
            before: passed - 1,
        }),
    }
}

/// What the next byte of a string is, where `passed` bytes of the string come before it.
fn turn_of(is_escape: bool, passed: u32, b: u8) -> Result<Turn, Broken>
    requires { 1 ≤ passed }
    ensures { result ≡ spec.turn_of is_escape passed b }
{
    if is_escape {
        after_backslash(passed, b)
    } else if b == b'"' {
        Ok(Turn::End)
    } else if b == b'\\' {
        Ok(Turn::Backslash)
    } else if is_plain(b) {
        Ok(Turn::Byte(b))
    } else if b == b'\n' {
        Err(Broken {
            kind: TextKind::OpenString,
            before: 0,
        })
    } else {
        Err(Broken {
            kind: TextKind::NotAscii,
            before: passed,
        })
    }
}

/// The text of a string whose opening quote comes right before these bytes, and how many bytes the string has with its
/// quotes.
pub fn string_at(alloc: Global, bytes: &[u8]) -> Result<(Vec<u8>, u32), Failure<Broken>>
    requires { length bytes.now ≤ MOST_TEXT_BYTES }
    ensures { Gives (λ x. (x.0.items, x.1)) result (spec.string_after false 1 bytes.now) }
{
    let mut text = Vec::new(alloc);
    let mut is_escape = false;
    let mut passed = 1;
    let mut rest = bytes;
    while let [b, after @ ..] = rest {
        match turn_of(is_escape, passed, *b) {
            Ok(Turn::End) => return Ok((text, passed + 1)),
            Ok(Turn::Backslash) => {
                is_escape = true;
                passed += 1;
                rest = after;
            }
            Ok(Turn::Byte(byte)) => {
                text.push(byte)?;
                is_escape = false;
                passed += 1;
                rest = after;
            }
            Err(broken) => return Err(Failure::Fault(broken)),
        }
    }
    Err(Failure::Fault(Broken {
        kind: TextKind::OpenString,
        before: 0,
    }))
}

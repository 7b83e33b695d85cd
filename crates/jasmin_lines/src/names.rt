// The forms of names, and words that are made of several.
ghost use Rattle.std.specs.Prelude.{◌≡◌, ◌==◌, position, Ok, IfSome, ◌<◌, ◌≤◌, length, IfOk};
ghost use Rattle.std.specs.List.{list_any, list_all};
ghost use Rattle.vm_model.specs.Failures.{Gives};
ghost use Rattle.jasmin_lines.specs.Words as spec;

use crate::fault::ReadKind;
use crate::lexeme::Lexeme;
use crate::words::{is, word_of};
use std::alloc::Global;
use vm_model::{Failure, Name};

fn is_name_byte(b: u8) -> bool
    ensures { result ≡ spec.is_name_byte b }
{
    b.is_ascii_alphanumeric() || b == b'_' || b == b'$' || b == b'-'
}

fn is_class_byte(b: u8) -> bool
    ensures { result ≡ spec.is_class_byte b }
{
    is_name_byte(b) || b == b'/'
}

fn are_name_bytes(bytes: &[u8]) -> bool
    ensures { result ≡ list_all spec.is_name_byte bytes.now }
{
    bytes.iter().all(|b| is_name_byte(*b))
}

fn are_class_bytes(bytes: &[u8]) -> bool
    ensures { result ≡ list_all spec.is_class_byte bytes.now }
{
    bytes.iter().all(|b| is_class_byte(*b))
}

/// Letters, digits, `_`, `$` and `-`.
pub fn is_name(bytes: &[u8]) -> bool
    ensures { result ≡ spec.is_name bytes.now }
{
    !bytes.is_empty() && are_name_bytes(bytes)
}

/// The same of a class, which may have `/` too.
pub fn is_class_name(bytes: &[u8]) -> bool
    ensures { result ≡ spec.is_class_name bytes.now }
{
    !bytes.is_empty() && are_class_bytes(bytes)
}

/// The same of a method, which may be a constructor or a class initialiser too.
pub fn is_method_name(bytes: &[u8]) -> bool
    ensures { result ≡ spec.is_method_name bytes.now }
{
    is_name(bytes) || is(bytes, b"<init>") || is(bytes, b"<clinit>")
}

/// A copy of a name, where it has the right form.
pub fn named(alloc: Global, is_good: bool, bytes: &[u8]) -> Result<Name, Failure<ReadKind>>
    ensures { Gives (λ x. x) result (spec.named is_good bytes.now) }
{
    if is_good {
        Ok(Name::of(alloc, bytes)?)
    } else {
        Err(Failure::Fault(ReadKind::BadName))
    }
}

pub fn name_of(alloc: Global, word: &Lexeme) -> Result<Name, Failure<ReadKind>>
    ensures { Gives (λ x. x) result (spec.name_of word.now) }
{
    let bytes = word_of(word)?;
    named(alloc, is_name(bytes), bytes)
}

pub fn class_name_of(alloc: Global, word: &Lexeme) -> Result<Name, Failure<ReadKind>>
    ensures { Gives (λ x. x) result (spec.class_name_of word.now) }
{
    let bytes = word_of(word)?;
    named(alloc, is_class_name(bytes), bytes)
}

/// How many bytes come before the last slash.
pub fn last_slash(bytes: &[u8]) -> Option<usize>
    ensures value { result ≡ spec.last_slash bytes.now }
    ensures within { IfSome result (λ n. n < length bytes.now) }
{
    let mut found = None;
    let mut passed = 0;
    let mut rest = bytes;
    while let [b, after @ ..] = rest {
        if *b == b'/' {
            found = Some(passed);
        }
        passed += 1;
        rest = after;
    }
    found
}

/// Whether a field's word has the names of a class and of a field.
pub fn is_field(bytes: &[u8]) -> Result<bool, Failure<ReadKind>>
    ensures { Gives (λ x. x) result (spec.is_member spec.is_name bytes.now) }
{
    match last_slash(bytes) {
        Some(end) => Ok(is_class_name(&bytes[..end]) && is_name(&bytes[end + 1..])),
        None => Err(Failure::Fault(ReadKind::BadOperand)),
    }
}

/// Whether a method's word, without its descriptor, has the names of a class and of a method.
pub fn is_method(bytes: &[u8]) -> Result<bool, Failure<ReadKind>>
    ensures { Gives (λ x. x) result (spec.is_member spec.is_method_name bytes.now) }
{
    match last_slash(bytes) {
        Some(end) => Ok(is_class_name(&bytes[..end]) && is_method_name(&bytes[end + 1..])),
        None => Err(Failure::Fault(ReadKind::BadOperand)),
    }
}

fn find_open(bytes: &[u8]) -> Option<usize>
    ensures { result ≡ position (λ b. b == 40) bytes.now }
{
    bytes.iter().position(|b| *b == b'(')
}

fn is_closed(bytes: &[u8]) -> bool
    ensures { result ≡ list_any (λ b. b == 41) bytes.now }
{
    bytes.iter().any(|b| *b == b')')
}

/// The name of a method, and its descriptor.
pub fn described(bytes: &[u8]) -> Result<(&[u8], &[u8]), Failure<ReadKind>>
    ensures { Gives (λ x. (x.0.now, x.1.now)) result (spec.described bytes.now) }
{
    match find_open(bytes) {
        Some(open) => {
            let desc = &bytes[open..];
            if is_closed(desc) {
                Ok((&bytes[..open], desc))
            } else {
                Err(Failure::Fault(ReadKind::BadOperand))
            }
        }
        None => Err(Failure::Fault(ReadKind::BadOperand)),
    }
}

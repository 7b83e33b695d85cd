// What a line's words are.
ghost use Rattle.std.specs.Prelude.{◌≡◌, bytes_eq, Ok, Err};
ghost use Rattle.std.specs.List.{list_any, list_all};
ghost use Rattle.jasmin_lines.specs.Texts.{texts};
ghost use Rattle.jasmin_lines.specs.Words as spec;
ghost use denote.Ref.{Bor};
ghost use Rattle.std.specs.Prelude.{List, ℕ};
ghost use Rattle.vm_model.specs.Failures.{Gives};

use crate::fault::ReadKind;
use crate::lexeme::Lexeme;
use std::alloc::Global;
use vm_model::{Failure, Name, NoMemory};

pub fn none(words: &[Lexeme]) -> Result<(), Failure<ReadKind>>
    ensures { Gives (λ x. x) result (spec.none words.now) }
{
    match words {
        [] => Ok(()),
        _ => Err(Failure::Fault(ReadKind::BadOperand)),
    }
}

pub fn one(words: &[Lexeme]) -> Result<&Lexeme, Failure<ReadKind>>
    ensures { Gives (λ x. x.now) result (spec.one words.now) }
{
    match words {
        [word] => Ok(word),
        _ => Err(Failure::Fault(ReadKind::BadOperand)),
    }
}

pub fn two(words: &[Lexeme]) -> Result<(&Lexeme, &Lexeme), Failure<ReadKind>>
    ensures { Gives (λ x. (x.0.now, x.1.now)) result (spec.two words.now) }
{
    match words {
        [first, second] => Ok((first, second)),
        _ => Err(Failure::Fault(ReadKind::BadOperand)),
    }
}

pub fn word_of(word: &Lexeme) -> Result<&[u8], Failure<ReadKind>>
    ensures { Gives (λ x. x.now) result (spec.word_of word.now) }
{
    match word {
        Lexeme::Word(name) => Ok(name.bytes()),
        _ => Err(Failure::Fault(ReadKind::BadOperand)),
    }
}

/// A number from low to high.
pub fn number_of(low: i32, high: i32, word: &Lexeme) -> Result<i32, Failure<ReadKind>>
    ensures { Gives (λ x. x) result (spec.number_of low high word.now) }
{
    match word {
        Lexeme::Number(n) => {
            if low <= *n && *n <= high {
                Ok(*n)
            } else {
                Err(Failure::Fault(ReadKind::BadOperand))
            }
        }
        _ => Err(Failure::Fault(ReadKind::BadOperand)),
    }
}

/// Whether two words are the same.
pub fn is(word: &[u8], other: &[u8]) -> bool
    ensures { result ≡ bytes_eq word.now other.now }
{
    word == other
}

/// Whether a word is spelled so.
pub fn is_word(bytes: &[u8], word: &Lexeme) -> bool
    ensures { result ≡ spec.is_word bytes.now word.now }
{
    match word {
        Lexeme::Word(name) => is(name.bytes(), bytes),
        _ => false,
    }
}

pub fn copied(alloc: Global, bytes: &[u8]) -> Result<Name, Failure<ReadKind>>
    ensures { Gives (λ x. x) result (Ok bytes.now) }
{
    Ok(Name::of(alloc, bytes)?)
}

fn is_flag(known: &[&[u8]], word: &Lexeme) -> bool
    ensures { result ≡ list_any (λ (flag : Bor (List ℕ)). spec.is_word flag.now word.now) known.now }
{
    known.iter().any(|flag| is_word(flag, word))
}

fn are_flags(known: &[&[u8]], words: &[Lexeme]) -> bool
    ensures { result ≡ list_all (λ word. list_any (λ (flag : Bor (List ℕ)). spec.is_word flag.now word) known.now) words.now }
{
    words.iter().all(|word| is_flag(known, word))
}

fn is_said(flag: &[u8], words: &[Lexeme]) -> bool
    ensures { result ≡ list_any (spec.is_word flag.now) words.now }
{
    words.iter().any(|word| is_word(flag, word))
}

/// The flags among these words, once each and in the order of the known ones.
pub fn flags_of(
    alloc: Global,
    known: &[&[u8]],
    words: &[Lexeme],
) -> Result<Vec<Name>, Failure<ReadKind>>
    ensures { Gives (λ x. x.items) result (spec.flags_of (texts known.now) words.now) }
{
    if !are_flags(known, words) {
        return Err(Failure::Fault(ReadKind::BadOperand));
    }
    let mut flags = Vec::new(alloc);
    let mut rest = known;
    while let [flag, after @ ..] = rest {
        if is_said(flag, words) {
            flags.push(Name::of(alloc, flag)?)?;
        }
        rest = after;
    }
    Ok(flags)
}

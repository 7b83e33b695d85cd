// Words: up to where each goes, and what it is.
ghost use Rattle.std.specs.Prelude.{◌≡◌, ◌≤◌, ◌==◌, position, length};
ghost use Rattle.std.specs.List.{position_or_len};
ghost use Rattle.vm_model.specs.declared.limits.TheConstants.{MOST_TEXT_BYTES};
ghost use Rattle.jasmin_text.specs.Pieces as spec;
ghost use Rattle.jasmin_text.specs.Texts.{left_of_line};

use crate::fault::{Broken, TextKind};
use crate::numbers::{is_number, number_of};
use crate::token::TokenKind;

/// White space: the space, every byte below it, and byte 127.
pub fn is_white(b: u8) -> bool
    ensures { result ≡ spec.is_white b }
{
    b <= 32 || b == 127
}

fn find_white(bytes: &[u8]) -> Option<usize>
    ensures { result ≡ position spec.is_white bytes.now }
{
    bytes.iter().position(|b| is_white(*b))
}

fn find_high(word: &[u8]) -> Option<usize>
    ensures { result ≡ position spec.is_high word.now }
{
    word.iter().position(|b| *b >= 128)
}

fn find_line_feed(bytes: &[u8]) -> Option<usize>
    ensures { result ≡ position (λ b. b == 10) bytes.now }
{
    bytes.iter().position(|b| *b == b'\n')
}

/// How many bytes come before the line's end.
pub fn left_of_line(bytes: &[u8]) -> usize
    ensures { result ≡ left_of_line bytes.now }
{
    match find_line_feed(bytes) {
        Some(end) => end,
        None => bytes.len(),
    }
}

/// The bytes up to the first white space.
pub fn word_at(bytes: &[u8]) -> &[u8]
    ensures { result.now ≡ spec.word_at bytes.now }
{
    match find_white(bytes) {
        Some(end) => &bytes[..end],
        None => bytes,
    }
}

/// What a word is, or its first fault.
pub fn kind_of_word(word: &[u8]) -> Result<TokenKind, Broken>
    requires { length word.now ≤ MOST_TEXT_BYTES }
    ensures { result ≡ spec.kind_of_word word.now }
{
    if let Some(before) = find_high(word) {
        return Err(Broken {
            kind: TextKind::NotAscii,
            before: before as u32,
        });
    }
    if !is_number(word) {
        return Ok(TokenKind::Word);
    }
    match number_of(word) {
        Some(number) => Ok(TokenKind::Number(number)),
        None => Err(Broken {
            kind: TextKind::NumberRange,
            before: 0,
        }),
    }
}

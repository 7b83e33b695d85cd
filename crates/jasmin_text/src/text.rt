// From a text to its tokens.
ghost use Rattle.std.specs.Prelude.{◌≡◌, ◌≤◌, ◌<◌, ◌+◌, ◌^◌, ◌&&◌, ◌==◌, Ok, length, IfOk, MatchResult};
ghost use Rattle.std.specs.List.{AllByRecursion};
ghost use Rattle.vm_model.specs.declared.limits.TheConstants.{MOST_TEXT_BYTES};
ghost use Rattle.jasmin_text.specs.Cutting.{GivesAt};
ghost use Rattle.jasmin_text.specs.Pieces.{piece_at};
ghost use Rattle.jasmin_text.specs.Spans.{AreInOrder, IsOf};
ghost use Rattle.jasmin_text.specs.Texts as spec;

use crate::fault::TextFault;
use crate::piece::{Piece, piece_at};
use crate::place::Place;
use crate::token::{Token, TokenKind};
use crate::words::{is_white, left_of_line};
use std::alloc::Global;
use vm_model::Failure;

fn token_at(place: Place, piece: Piece) -> Token
    requires { place.offset + piece.length < 2 ^ 32 }
    ensures { result ≡ spec.token_at place piece }
{
    Token {
        kind: piece.kind,
        from: place.offset,
        to: place.offset + piece.length,
        line: place.line,
        column: place.column,
    }
}

/// A line's end of so many bytes: one where it is a line feed, and none at the end of the text.
fn line_end(place: Place, bytes: u32) -> Token
    requires { place.offset + bytes < 2 ^ 32 }
    ensures { result ≡ spec.line_end place bytes }
{
    Token {
        kind: TokenKind::LineEnd,
        from: place.offset,
        to: place.offset + bytes,
        line: place.line,
        column: place.column,
    }
}

/// Whether this byte begins a comment, where white space or the line's start comes before it or not.
fn begins_comment(is_open: bool, b: u8) -> bool
    ensures { result ≡ (is_open && b == 59) }
{
    is_open && b == b';'
}

/// The piece that begins at a place, or where its fault stands.
fn piece_there(alloc: Global, place: Place, bytes: &[u8]) -> Result<Piece, TextFault>
    requires long { length bytes.now ≤ MOST_TEXT_BYTES }
    requires column { place.column ≤ MOST_TEXT_BYTES + 1 }
    ensures { GivesAt place result (piece_at bytes.now) }
{
    match piece_at(alloc, bytes) {
        Ok(piece) => Ok(piece),
        Err(Failure::Memory) => Err(TextFault::NoMemory),
        Err(Failure::Fault(broken)) => Err(TextFault::At {
            kind: broken.kind,
            line: place.line,
            column: place.column + broken.before,
        }),
    }
}

/// What the definition of a text's tokens says.
fn cut(alloc: Global, text: &[u8]) -> Result<Vec<Token>, TextFault>
    requires { length text.now ≤ MOST_TEXT_BYTES }
    ensures { MatchResult result (λ v. spec.tokens_of text.now ≡ Ok v.items) (spec.Refuses (spec.tokens_of text.now)) }
{
    let mut found = Vec::new(alloc);
    let mut place = Place::first();
    let mut is_open = true;
    let mut rest = text;
    while let [b, after @ ..] = rest {
        if *b == b'\n' {
            found.push(line_end(place, 1))?;
            place = place.next_line();
            is_open = true;
            rest = after;
        } else if is_white(*b) {
            place = place.along(1);
            is_open = true;
            rest = after;
        } else if begins_comment(is_open, *b) {
            let left = left_of_line(after);
            place = place.along(1 + left as u32);
            is_open = true;
            rest = &after[left..];
        } else {
            let piece = piece_there(alloc, place, rest)?;
            let length = piece.length;
            found.push(token_at(place, piece))?;
            place = place.along(length);
            is_open = false;
            rest = &rest[length as usize..];
        }
    }
    if place.column == 1 {
        return Ok(found);
    }
    found.push(line_end(place, 0))?;
    Ok(found)
}

/// The tokens of a text, in its order.
///
/// White space separates words and is no token; a comment begins with a semicolon that white space or the line's start
/// comes before, and goes up to the line's end. Each token's bytes are those of the text from `from` to `to`. The form is
/// that of the Jasmin assembler.
///
/// A text with a fault has no tokens: the answer is its first fault in the order of the bytes, where a number's range is
/// judged after all bytes of its word.
pub fn tokens(alloc: Global, text: &[u8]) -> Result<Vec<Token>, TextFault>
    requires { length text.now ≤ MOST_TEXT_BYTES }
    ensures read { MatchResult result (λ v. spec.tokens_of text.now ≡ Ok v.items) (spec.Refuses (spec.tokens_of text.now)) }
    ensures spans { IfOk result (λ v. AreInOrder 0 (length text.now) v.items) }
    ensures slices { IfOk result (λ v. AllByRecursion (IsOf text.now) v.items) }
{
    cut(alloc, text)
}

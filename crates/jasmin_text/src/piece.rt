// The next word or string of a text.
ghost use Rattle.std.specs.Prelude.{◌≡◌, ◌≤◌, ◌<◌, length, IfOk};
ghost use Rattle.vm_model.specs.declared.limits.TheConstants.{MOST_TEXT_BYTES};
ghost use Rattle.vm_model.specs.Failures.{Gives};
ghost use Rattle.jasmin_text.specs.Pieces as spec;

use crate::fault::Broken;
use crate::strings::string_at;
use crate::token::TokenKind;
use crate::words::{kind_of_word, word_at};
use std::alloc::Global;
use vm_model::{Failure, Name};

/// What a word or a string is, and how many bytes it has.
#[derive(Debug, Drop)]
pub struct Piece {
    pub kind: TokenKind,
    pub length: u32,
}

fn word_piece(bytes: &[u8]) -> Result<Piece, Failure<Broken>>
    requires { length bytes.now ≤ MOST_TEXT_BYTES }
    ensures { Gives (λ x. x) result (spec.word_piece (length (spec.word_at bytes.now)) (spec.kind_of_word (spec.word_at bytes.now))) }
{
    let word = word_at(bytes);
    match kind_of_word(word) {
        Ok(kind) => Ok(Piece {
            kind,
            length: word.len() as u32,
        }),
        Err(broken) => Err(Failure::Fault(broken)),
    }
}

/// The string that begins with a quote, or the word, at the front of these bytes.
pub fn piece_at(alloc: Global, bytes: &[u8]) -> Result<Piece, Failure<Broken>>
    requires { length bytes.now ≤ MOST_TEXT_BYTES }
    ensures { Gives (λ x. x) result (spec.piece_at bytes.now) }
{
    match bytes {
        [b'"', rest @ ..] => {
            let (text, length) = string_at(alloc, rest)?;
            Ok(Piece {
                kind: TokenKind::Str(Name::of(alloc, &text)?),
                length,
            })
        }
        _ => word_piece(bytes),
    }
}

// The words of each line.
ghost use Rattle.std.specs.Prelude.{◌≡◌, [], IfOk};
ghost use Rattle.std.specs.List.{AllByRecursion};
ghost use Rattle.std.specs.Prelude.{length};
ghost use Rattle.jasmin_lines.specs.Lexemes as spec;

use jasmin_text::{Token, TokenKind};
use std::alloc::Global;
use std::marker::Model;
use vm_model::{Name, NoMemory};

/// What stands between white space in a line.
#[derive(Debug, Drop)]
pub enum Lexeme {
    Word(Name),
    Number(i32),
    Text(Name),
}

/// A line that isn't blank: its number, counted from 1, and what stands in it.
#[derive(Debug, Drop)]
pub struct Line {
    pub number: u32,
    pub words: Vec<Lexeme>,
}

impl Model for Line {
    ghost use Rattle.jasmin_lines.specs.Lexemes.{PlainLine};

    ghost Value = { PlainLine };

    ghost view = { λ l. record { number = l.number; words = l.words.items } };
}

/// What a token that ends no line is; nothing where it ends one.
fn lexeme_of(alloc: Global, text: &[u8], token: &Token) -> Result<Option<Lexeme>, NoMemory>
    requires { spec.IsWithin (length text.now) token.now }
    ensures { IfOk result (λ o. o ≡ spec.lexeme_of text.now token.now) }
{
    match &token.kind {
        TokenKind::Word => {
            let bytes = &text[token.from as usize..token.to as usize];
            Ok(Some(Lexeme::Word(Name::of(alloc, bytes)?)))
        }
        TokenKind::Number(number) => Ok(Some(Lexeme::Number(*number))),
        TokenKind::Str(string) => Ok(Some(Lexeme::Text(Name::of(alloc, string.bytes())?))),
        TokenKind::LineEnd => Ok(None),
    }
}

/// The lines of a text that aren't blank.
#[tactic(auto, unfolding(crate::specs::Lexemes::lines_after))]
pub fn lines_of(alloc: Global, text: &[u8], tokens: &[Token]) -> Result<Vec<Line>, NoMemory>
    requires { AllByRecursion (spec.IsWithin (length text.now)) tokens.now }
    ensures { IfOk result (λ v. v.items ≡ spec.lines_after text.now [] tokens.now) }
{
    let mut lines = Vec::new(alloc);
    let mut words = Vec::new(alloc);
    let mut rest = tokens;
    while let [token, after @ ..] = rest {
        match lexeme_of(alloc, text, token)? {
            Some(lexeme) => words.push(lexeme)?,
            None => {
                if !words.is_empty() {
                    lines.push(Line {
                        number: token.line,
                        words,
                    })?;
                    words = Vec::new(alloc);
                }
            }
        }
        rest = after;
    }
    Ok(lines)
}

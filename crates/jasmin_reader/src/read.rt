// From the tokens of a text to its classes.
ghost use Rattle.std.specs.Prelude.{◌≡◌, [], Ok, MatchResult};
ghost use Rattle.jasmin_text.specs.Texts.{tokens_of};
ghost use Rattle.jasmin_reader.specs.Faults.{Refuses};
ghost use Rattle.jasmin_reader.specs.Grammar.{nothing_begun};
ghost use Rattle.jasmin_reader.specs.Reading as spec;

use crate::assembly::classes_of;
use crate::fault::ReadFault;
use crate::grammar::State;
use jasmin_lines::{ClassText, Form, Line, ReadKind, lines_of};
use jasmin_text::Token;
use std::alloc::Global;
use vm_model::Failure;

/// The forms of the lines, or the first fault.
#[tactic(auto, unfolding(crate::specs::Reading::forms_after))]
fn forms_of(alloc: Global, last: u32, lines: &[Line]) -> Result<Vec<Form>, ReadFault>
    ensures { MatchResult result (λ v. spec.forms_after last nothing_begun lines.now ≡ Ok v.items) (Refuses (spec.forms_after last nothing_begun lines.now)) }
{
    let mut state = State::new(alloc);
    let mut forms = Vec::new(alloc);
    let mut rest = lines;
    while let [line, after @ ..] = rest {
        let form = match state.form_among(alloc, line, after) {
            Ok(form) => form,
            Err(Failure::Memory) => return Err(ReadFault::NoMemory),
            Err(Failure::Fault(kind)) => {
                return Err(ReadFault::At {
                    kind,
                    line: line.number,
                });
            }
        };
        state.go_on(alloc, &form)?;
        forms.push(form)?;
        rest = after;
    }
    if state.lacks_super() {
        return Err(ReadFault::At {
            kind: ReadKind::NoSuper,
            line: last,
        });
    }
    Ok(forms)
}

/// The number of a text's last line, 0 where it has none.
fn last_line(tokens: &[Token]) -> u32
    ensures { result ≡ spec.last_line tokens.now }
{
    match tokens {
        [.., last] => last.line,
        [] => 0,
    }
}

/// The classes of a text of these tokens, in its order.
///
/// Lines are those of the Jasmin assembler (Meyer and Reynaud, Jasmin user guide) that docs/TEXT.md lists. Flags stand once
/// each and in a fixed order, pushes of an int are `ldc`, local variables are operands, and lines that say nothing of the
/// program, as `.line`, are left out.
///
/// A text that breaks the grammar has no classes: the answer is the first line that breaks it, and the least of its faults.
#[tactic(auto, unfolding(crate::specs::Reading::reading))]
pub fn read_classes(
    alloc: Global,
    text: &[u8],
    tokens: &[Token],
) -> Result<Vec<ClassText>, ReadFault>
    requires { tokens_of text.now ≡ Ok tokens.now }
    ensures read { MatchResult result (λ v. spec.reading text.now tokens.now ≡ Ok v.items) (Refuses (spec.reading text.now tokens.now)) }
{
    let lines = lines_of(alloc, text, tokens)?;
    let forms = forms_of(alloc, last_line(tokens), &lines)?;
    Ok(classes_of(alloc, forms)?)
}

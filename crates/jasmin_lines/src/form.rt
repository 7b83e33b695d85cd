// What a line says, taken alone.
ghost use Rattle.std.specs.Prelude.{◌≡◌, Ok, option_copied};
ghost use Rattle.vm_model.specs.Failures.{Gives};
ghost use Rattle.jasmin_lines.specs.Forms as spec;

use crate::class_text::{CatchText, ClassText, FieldText, LineText, MethodText, NameAt};
use crate::directives::directive_form;
use crate::fault::ReadKind;
use crate::instructions::instruction;
use crate::lexeme::Lexeme;
use crate::names::{is_name, named};
use std::alloc::Global;
use vm_model::{Failure, Name};

/// What a line says. A class and a method come without what stands in them.
#[derive(Debug, Drop)]
pub enum Form {
    /// `.source` and `.bytecode`.
    Skipped,
    /// `.interface`, with its line.
    Interface(u32),
    Class(ClassText),
    Super(NameAt),
    Implements(NameAt),
    Field(FieldText),
    Method(MethodText),
    StackLimit(u32),
    LocalsLimit(u32),
    /// `.line`, `.var` and `.throws`.
    Ignored,
    Catch(CatchText),
    End,
    /// A label alone.
    Label(Name),
    /// An instruction, with its label if it has one.
    Code(LineText),
}

/// An instruction of a line that has no label.
#[tactic(auto, unfolding(crate::specs::Forms::unlabelled_form))]
fn unlabelled_form(alloc: Global, line: u32, words: &[Lexeme]) -> Result<Form, Failure<ReadKind>>
    ensures { Gives (λ x. x) result (spec.unlabelled_form line words.now) }
{
    let said = instruction(alloc, words)?;
    Ok(Form::Code(LineText {
        line,
        labels: Vec::new(alloc),
        word: said.word,
        operands: said.operands,
    }))
}

/// A label, and the instruction after it if there is one.
#[tactic(auto, unfolding(crate::specs::Forms::labelled_form))]
fn labelled_form(
    alloc: Global,
    line: u32,
    label: &[u8],
    words: &[Lexeme],
) -> Result<Form, Failure<ReadKind>>
    ensures { Gives (λ x. x) result (spec.labelled_form line label.now words.now) }
{
    if words.is_empty() {
        return Ok(Form::Label(named(alloc, is_name(label), label)?));
    }
    let said = instruction(alloc, words)?;
    let name = named(alloc, is_name(label), label)?;
    let mut labels = Vec::new(alloc);
    labels.push(name)?;
    Ok(Form::Code(LineText {
        line,
        labels,
        word: said.word,
        operands: said.operands,
    }))
}

/// What comes before a colon at a word's end.
fn label_of(bytes: &[u8]) -> Option<&[u8]>
    ensures { option_copied result ≡ spec.label_of bytes.now }
{
    match bytes {
        [label @ .., b':'] => Some(label),
        _ => None,
    }
}

/// What a line that begins with this word says.
fn form_by(
    alloc: Global,
    line: u32,
    first: &[u8],
    words: &[Lexeme],
    all: &[Lexeme],
) -> Result<Form, Failure<ReadKind>>
    ensures { Gives (λ x. x) result (spec.form_by line first.now words.now all.now) }
{
    if let [b'.', ..] = first {
        return directive_form(alloc, line, first, words);
    }
    match label_of(first) {
        Some(label) => labelled_form(alloc, line, label, words),
        None => unlabelled_form(alloc, line, all),
    }
}

/// What a line of these words says.
#[tactic(auto, unfolding(crate::specs::Forms::form_of))]
pub fn form_of(alloc: Global, line: u32, words: &[Lexeme]) -> Result<Form, Failure<ReadKind>>
    ensures { Gives (λ x. x) result (spec.form_of line words.now) }
{
    match words {
        [Lexeme::Word(first), rest @ ..] => form_by(alloc, line, first.bytes(), rest, words),
        _ => unlabelled_form(alloc, line, words),
    }
}

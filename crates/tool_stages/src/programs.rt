//! Accepting: a text is cut into tokens, read as classes, linked and verified.

ghost use Rattle.std.specs.Prelude.{◌≡◌, ◌≤◌, IfOk, IfErr, None, Ok, length};
ghost use Rattle.vm_model.specs.declared.limits.TheConstants.{MOST_EVENTS};
ghost use Rattle.class_linker.specs.Linking.{linking};
ghost use Rattle.jasmin_reader.specs.Reading.{reading};
ghost use Rattle.jasmin_text.specs.Texts.{tokens_of};
ghost use Rattle.linking_laws.specs.Limits.{HasFewClasses, HasFewStatics};
ghost use Rattle.machine_model.specs.Machine.{end_of, start_machine};
ghost use Rattle.tool_stages.specs.Accepting.{Gives, IsAccepted, Refuses, by_classes, by_link, by_tokens, linked};

use class_linker::{LinkFault, link};
use jasmin_lines::{ClassText, ReadKind};
use jasmin_reader::{ReadFault, read_classes};
use jasmin_text::{TextFault, TextKind, Token, tokens};
use name_resolver::LinkKind;
use shape_verifier::{ShapeFault, ShapeKind, Shaped, verify};
use std::alloc::Global;
use vm_model::{MOST_TEXT_BYTES, Program};

/// Why a text is not accepted. Nothing is left behind. Lines and columns count from 1, columns in bytes.
#[derive(Clone, Copy, Debug, PartialEq, Eq)]
pub enum ProgramFault {
    /// The first fault of the text's bytes.
    Text {
        kind: TextKind,
        line: u32,
        column: u32,
    },
    /// The first line that breaks the grammar, and the least of its faults; TooMany at line 0 for a text of more than `MOST_TEXT_BYTES`
    /// bytes.
    Read {
        kind: ReadKind,
        line: u32,
    },
    /// The first fault of names, descriptors, limits and the profile.
    Link {
        kind: LinkKind,
        line: u32,
    },
    /// The least method, by number, that has no closed table of shapes, and the instruction, counted from 0, at which the pass
    /// over it stops.
    Shape {
        kind: ShapeKind,
        method: u32,
        at: u32,
    },
    /// Memory was not found; the text may be a program.
    NoMemory,
}

fn link_classes(alloc: Global, classes: &[ClassText]) -> Result<Program, ProgramFault>
    ensures { Gives result (by_link (linking classes.now)) }
{
    match link(alloc, classes) {
        Ok(program) => Ok(program),
        Err(LinkFault::At { kind, line }) => Err(ProgramFault::Link { kind, line }),
        Err(LinkFault::NoMemory) => Err(ProgramFault::NoMemory),
    }
}

fn link_tokens(alloc: Global, text: &[u8], tokens: &[Token]) -> Result<Program, ProgramFault>
    requires { tokens_of text.now ≡ Ok tokens.now }
    ensures { Gives result (by_classes (reading text.now tokens.now)) }
{
    match read_classes(alloc, text, tokens) {
        Ok(classes) => link_classes(alloc, &classes),
        Err(ReadFault::At { kind, line }) => Err(ProgramFault::Read { kind, line }),
        Err(ReadFault::NoMemory) => Err(ProgramFault::NoMemory),
    }
}

fn link_text(alloc: Global, text: &[u8]) -> Result<Program, ProgramFault>
    requires { length text.now ≤ MOST_TEXT_BYTES }
    ensures { Gives result (by_tokens text.now (tokens_of text.now)) }
{
    match tokens(alloc, text) {
        Ok(found) => link_tokens(alloc, text, &found),
        Err(TextFault::At { kind, line, column }) => Err(ProgramFault::Text { kind, line, column }),
        Err(TextFault::NoMemory) => Err(ProgramFault::NoMemory),
    }
}

/// The linked program of a text of the whole language.
#[tactic(auto, unfolding(crate::specs::Accepting::linked))]
pub fn linked_program(alloc: Global, text: &[u8]) -> Result<Program, ProgramFault>
    ensures gives { Gives result (linked text.now) }
    ensures small { IfOk result (λ _. length text.now ≤ MOST_TEXT_BYTES) }
{
    if text.len() > MOST_TEXT_BYTES {
        return Err(ProgramFault::Read {
            kind: ReadKind::TooMany,
            line: 0,
        });
    }
    link_text(alloc, text)
}

/// The program of a text in Jasmin's form, of at most `MOST_TEXT_BYTES` bytes. An accepted program makes an event, and
/// has at most 1,024 statics and 256 classes.
///
/// The text's bytes are judged first, then its grammar, then its names, and last the shapes of its methods.
pub fn accept(alloc: Global, text: &[u8]) -> Result<Shaped, ProgramFault>
    ensures accepted { IfOk result (λ p. IsAccepted text.now p) }
    ensures refused { IfErr result (Refuses text.now) }
    ensures begins { IfOk result (λ p. end_of p (start_machine p) MOST_EVENTS ≡ None) }
    ensures statics { IfOk result HasFewStatics }
    ensures classes { IfOk result HasFewClasses }
{
    let program = linked_program(alloc, text)?;
    match verify(alloc, program) {
        Ok(shaped) => Ok(shaped),
        Err(ShapeFault::At { kind, method, at }) => Err(ProgramFault::Shape { kind, method, at }),
        Err(ShapeFault::NoMemory) => Err(ProgramFault::NoMemory),
    }
}

// The lines that begin with a dot.
ghost use Rattle.std.specs.Prelude.{◌≡◌, Ok, true, int_le, pos};
ghost use Rattle.vm_model.specs.Failures.{Gives};
ghost use Rattle.jasmin_lines.specs.Directives as spec;

use crate::class_text::{CatchText, ClassText, FieldText, MethodText, NameAt};
use crate::fault::ReadKind;
use crate::form::Form;
use crate::lexeme::Lexeme;
use crate::names::{
    class_name_of, described, is_class_name, is_method_name, is_name, name_of, named,
};
use crate::words::{copied, flags_of, is, is_word, number_of, one, two, word_of};
use std::alloc::Global;
use vm_model::{Failure, Name};

const CLASS_FLAGS: [&[u8]; 6] = [
    b"public",
    b"final",
    b"super",
    b"abstract",
    b"interface",
    b"native",
];

const FIELD_FLAGS: [&[u8]; 10] = [
    b"public",
    b"private",
    b"protected",
    b"static",
    b"final",
    b"volatile",
    b"transient",
    b"abstract",
    b"interface",
    b"native",
];

const METHOD_FLAGS: [&[u8]; 9] = [
    b"public",
    b"private",
    b"protected",
    b"static",
    b"final",
    b"synchronized",
    b"abstract",
    b"interface",
    b"native",
];

fn class_flags(alloc: Global, words: &[Lexeme]) -> Result<Vec<Name>, Failure<ReadKind>>
    ensures { Gives (λ x. x.items) result (spec.class_flags words.now) }
{
    flags_of(alloc, &CLASS_FLAGS, words)
}

fn field_flags(alloc: Global, words: &[Lexeme]) -> Result<Vec<Name>, Failure<ReadKind>>
    ensures { Gives (λ x. x.items) result (spec.field_flags words.now) }
{
    flags_of(alloc, &FIELD_FLAGS, words)
}

fn method_flags(alloc: Global, words: &[Lexeme]) -> Result<Vec<Name>, Failure<ReadKind>>
    ensures { Gives (λ x. x.items) result (spec.method_flags words.now) }
{
    flags_of(alloc, &METHOD_FLAGS, words)
}

/// The last word, and those before it.
fn split_last(words: &[Lexeme]) -> Result<(&[Lexeme], &Lexeme), Failure<ReadKind>>
    ensures { Gives (λ x. (x.0.now, x.1.now)) result (spec.split_last words.now) }
{
    match words {
        [front @ .., last] => Ok((front, last)),
        [] => Err(Failure::Fault(ReadKind::BadOperand)),
    }
}

#[tactic(auto, unfolding(crate::specs::Directives::source_form))]
fn source_form(words: &[Lexeme]) -> Result<Form, Failure<ReadKind>>
    ensures { Gives (λ x. x) result (spec.source_form words.now) }
{
    one(words)?;
    Ok(Form::Skipped)
}

#[tactic(auto, unfolding(crate::specs::Directives::class_form))]
fn class_form(alloc: Global, line: u32, words: &[Lexeme]) -> Result<Form, Failure<ReadKind>>
    ensures { Gives (λ x. x) result (spec.class_form line words.now) }
{
    let (front, last) = split_last(words)?;
    let flags = class_flags(alloc, front)?;
    let name = class_name_of(alloc, last)?;
    Ok(Form::Class(ClassText {
        line,
        flags,
        name,
        super_line: 0,
        super_name: Name::of(alloc, b"")?,
        implements: Vec::new(alloc),
        fields: Vec::new(alloc),
        methods: Vec::new(alloc),
    }))
}

/// The name of a class, alone in its line.
#[tactic(auto, unfolding(crate::specs::Directives::name_at))]
fn name_at(alloc: Global, line: u32, words: &[Lexeme]) -> Result<NameAt, Failure<ReadKind>>
    ensures { Gives (λ x. x) result (spec.name_at line words.now) }
{
    let word = one(words)?;
    let name = class_name_of(alloc, word)?;
    Ok(NameAt { line, name })
}

/// What comes before an equals sign and a number at the end, and the number.
fn valued(words: &[Lexeme]) -> (&[Lexeme], Option<i32>)
    ensures value { (result.0.now, result.1) ≡ spec.valued words.now }
{
    if let [before @ .., sign, Lexeme::Number(n)] = words {
        if is_word(b"=", sign) {
            return (before, Some(*n));
        }
    }
    (words, None)
}

#[tactic(auto, unfolding(crate::specs::Directives::field_of))]
fn field_of(
    alloc: Global,
    line: u32,
    words: &[Lexeme],
    value: Option<i32>,
) -> Result<Form, Failure<ReadKind>>
    ensures { Gives (λ x. x) result (spec.field_of line words.now value) }
{
    let (before, desc) = split_last(words)?;
    let (front, name) = split_last(before)?;
    let flags = field_flags(alloc, front)?;
    let desc = word_of(desc)?;
    let name = name_of(alloc, name)?;
    Ok(Form::Field(FieldText {
        line,
        flags,
        name,
        desc: copied(alloc, desc)?,
        value,
    }))
}

fn field_form(alloc: Global, line: u32, words: &[Lexeme]) -> Result<Form, Failure<ReadKind>>
    ensures { Gives (λ x. x) result (spec.field_form line words.now) }
{
    let (declared, value) = valued(words);
    field_of(alloc, line, declared, value)
}

#[tactic(auto, unfolding(crate::specs::Directives::method_form))]
fn method_form(alloc: Global, line: u32, words: &[Lexeme]) -> Result<Form, Failure<ReadKind>>
    ensures { Gives (λ x. x) result (spec.method_form line words.now) }
{
    let (front, last) = split_last(words)?;
    let flags = method_flags(alloc, front)?;
    let bytes = word_of(last)?;
    let (name, desc) = described(bytes)?;
    let name = named(alloc, is_method_name(name), name)?;
    Ok(Form::Method(MethodText {
        line,
        flags,
        name,
        desc: copied(alloc, desc)?,
        stack: None,
        locals: None,
        lines: Vec::new(alloc),
        end_labels: Vec::new(alloc),
        catches: Vec::new(alloc),
    }))
}

fn limit_of(kind: &Lexeme, n: i32) -> Result<Form, Failure<ReadKind>>
    requires { int_le (pos 0) n ≡ true }
    ensures { Gives (λ x. x) result (spec.limit_of kind.now n) }
{
    if is_word(b"stack", kind) {
        Ok(Form::StackLimit(n as u32))
    } else if is_word(b"locals", kind) {
        Ok(Form::LocalsLimit(n as u32))
    } else {
        Err(Failure::Fault(ReadKind::BadOperand))
    }
}

#[tactic(auto, unfolding(crate::specs::Directives::limit_form))]
fn limit_form(words: &[Lexeme]) -> Result<Form, Failure<ReadKind>>
    ensures { Gives (λ x. x) result (spec.limit_form words.now) }
{
    let (kind, number) = two(words)?;
    let n = number_of(0, i32::MAX, number)?;
    limit_of(kind, n)
}

#[tactic(auto, unfolding(crate::specs::Directives::end_form))]
fn end_form(words: &[Lexeme]) -> Result<Form, Failure<ReadKind>>
    ensures { Gives (λ x. x) result (spec.end_form words.now) }
{
    let word = one(words)?;
    if is_word(b"method", word) {
        Ok(Form::End)
    } else {
        Err(Failure::Fault(ReadKind::BadOperand))
    }
}

#[tactic(auto, unfolding(crate::specs::Directives::catch_of))]
fn catch_of(
    alloc: Global,
    line: u32,
    class: &Lexeme,
    from: &Lexeme,
    to: &Lexeme,
    handler: &Lexeme,
) -> Result<Form, Failure<ReadKind>>
    ensures { Gives (λ x. x) result (spec.catch_of line class.now from.now to.now handler.now) }
{
    let class = word_of(class)?;
    let from = word_of(from)?;
    let to = word_of(to)?;
    let handler = word_of(handler)?;
    Ok(Form::Catch(CatchText {
        line,
        class: named(alloc, is_class_name(class), class)?,
        from: named(alloc, is_name(from), from)?,
        to: named(alloc, is_name(to), to)?,
        using: named(alloc, is_name(handler), handler)?,
    }))
}

fn catch_form(alloc: Global, line: u32, words: &[Lexeme]) -> Result<Form, Failure<ReadKind>>
    ensures { Gives (λ x. x) result (spec.catch_form line words.now) }
{
    match words {
        [class, a, from, b, to, c, using] => {
            if is_word(b"from", a) && is_word(b"to", b) && is_word(b"using", c) {
                catch_of(alloc, line, class, from, to, using)
            } else {
                Err(Failure::Fault(ReadKind::BadOperand))
            }
        }
        _ => Err(Failure::Fault(ReadKind::BadOperand)),
    }
}

/// A line of a class.
fn class_directive(
    alloc: Global,
    line: u32,
    first: &[u8],
    words: &[Lexeme],
) -> Result<Form, Failure<ReadKind>>
    ensures { Gives (λ x. x) result (spec.class_directive line first.now words.now) }
{
    if is(first, b".class") {
        class_form(alloc, line, words)
    } else if is(first, b".super") {
        Ok(Form::Super(name_at(alloc, line, words)?))
    } else if is(first, b".implements") {
        Ok(Form::Implements(name_at(alloc, line, words)?))
    } else if is(first, b".field") {
        field_form(alloc, line, words)
    } else if is(first, b".method") {
        method_form(alloc, line, words)
    } else {
        Err(Failure::Fault(ReadKind::BadDirective))
    }
}

/// A line of a method, or of a class.
fn method_directive(
    alloc: Global,
    line: u32,
    first: &[u8],
    words: &[Lexeme],
) -> Result<Form, Failure<ReadKind>>
    ensures { Gives (λ x. x) result (spec.method_directive line first.now words.now) }
{
    if is(first, b".limit") {
        limit_form(words)
    } else if is(first, b".line") || is(first, b".var") || is(first, b".throws") {
        Ok(Form::Ignored)
    } else if is(first, b".catch") {
        catch_form(alloc, line, words)
    } else if is(first, b".end") {
        end_form(words)
    } else {
        class_directive(alloc, line, first, words)
    }
}

/// What a line that begins with this directive says.
pub fn directive_form(
    alloc: Global,
    line: u32,
    first: &[u8],
    words: &[Lexeme],
) -> Result<Form, Failure<ReadKind>>
    ensures { Gives (λ x. x) result (spec.directive_form line first.now words.now) }
{
    if is(first, b".source") || is(first, b".bytecode") {
        source_form(words)
    } else if is(first, b".interface") {
        Ok(Form::Interface(line))
    } else {
        method_directive(alloc, line, first, words)
    }
}

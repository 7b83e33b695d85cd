// The canonical text of classes.
ghost use Rattle.std.specs.Prelude.{◌≡◌, ◌++◌, codes, decimal, OnOk, IfOk};
ghost use Rattle.std.specs.Fmt.{signed_decimal};
ghost use Rattle.std.specs.List.{flat_map};
ghost use Rattle.jasmin_writer.specs.Canonical as spec;

use itoa::Buffer;
use jasmin_lines::{CatchText, ClassText, FieldText, LineText, MethodText, NameAt, Operand};
use std::alloc::Global;
use vm_model::{Name, NoMemory};

/// Adds bytes at the end.
fn put(out: &mut Vec<u8>, bytes: &[u8]) -> Result<(), NoMemory>
    ensures { OnOk result (out.new.items ≡ out.old.items ++ bytes.now) }
{
    out.extend_from_slice(bytes)?;
    Ok(())
}

fn put_number(out: &mut Vec<u8>, n: u32) -> Result<(), NoMemory>
    ensures { OnOk result (out.new.items ≡ out.old.items ++ decimal n) }
{
    let mut buffer = Buffer::new();
    put(out, buffer.format(n).as_bytes())
}

fn put_int(out: &mut Vec<u8>, n: i32) -> Result<(), NoMemory>
    ensures { OnOk result (out.new.items ≡ out.old.items ++ signed_decimal n) }
{
    let mut buffer = Buffer::new();
    put(out, buffer.format(n).as_bytes())
}

/// Adds a byte of a text between quotes.
fn put_quoted_byte(out: &mut Vec<u8>, b: &u8) -> Result<(), NoMemory>
    ensures { OnOk result (out.new.items ≡ out.old.items ++ spec.quoted_byte b.now) }
{
    match *b {
        b'\n' => put(out, b"\\n"),
        b'\t' => put(out, b"\\t"),
        b'\r' => put(out, b"\\r"),
        b'"' => put(out, b"\\\""),
        b'\\' => put(out, b"\\\\"),
        byte => {
            out.push(byte)?;
            Ok(())
        }
    }
}

fn put_quoted_bytes(out: &mut Vec<u8>, items: &[u8]) -> Result<(), NoMemory>
    ensures { OnOk result (out.new.items ≡ out.old.items ++ flat_map spec.quoted_byte items.now) }
{
    let mut rest = items;
    while let [item, after @ ..] = rest {
        put_quoted_byte(out, item)?;
        rest = after;
    }
    Ok(())
}

fn put_quoted(out: &mut Vec<u8>, text: &[u8]) -> Result<(), NoMemory>
    ensures { OnOk result (out.new.items ≡ out.old.items ++ spec.quoted text.now) }
{
    put(out, b"\"")?;
    put_quoted_bytes(out, text)?;
    put(out, b"\"")
}

fn put_operand(out: &mut Vec<u8>, operand: &Operand) -> Result<(), NoMemory>
    ensures { OnOk result (out.new.items ≡ out.old.items ++ spec.spaced_operand operand.now) }
{
    put(out, b" ")?;
    match operand {
        Operand::Number(n) => put_int(out, *n),
        Operand::Word(word) => put(out, word.bytes()),
        Operand::Text(text) => put_quoted(out, text.bytes()),
    }
}

fn put_operands(out: &mut Vec<u8>, items: &[Operand]) -> Result<(), NoMemory>
    ensures { OnOk result (out.new.items ≡ out.old.items ++ flat_map spec.spaced_operand items.now) }
{
    let mut rest = items;
    while let [item, after @ ..] = rest {
        put_operand(out, item)?;
        rest = after;
    }
    Ok(())
}

fn put_word(out: &mut Vec<u8>, word: &Name) -> Result<(), NoMemory>
    ensures { OnOk result (out.new.items ≡ out.old.items ++ spec.spaced_word word.now) }
{
    put(out, b" ")?;
    put(out, word.bytes())
}

fn put_words(out: &mut Vec<u8>, items: &[Name]) -> Result<(), NoMemory>
    ensures { OnOk result (out.new.items ≡ out.old.items ++ flat_map spec.spaced_word items.now) }
{
    let mut rest = items;
    while let [item, after @ ..] = rest {
        put_word(out, item)?;
        rest = after;
    }
    Ok(())
}

fn put_label(out: &mut Vec<u8>, label: &Name) -> Result<(), NoMemory>
    ensures { OnOk result (out.new.items ≡ out.old.items ++ spec.label_line label.now) }
{
    put(out, label.bytes())?;
    put(out, b":\n")
}

fn put_labels(out: &mut Vec<u8>, items: &[Name]) -> Result<(), NoMemory>
    ensures { OnOk result (out.new.items ≡ out.old.items ++ flat_map spec.label_line items.now) }
{
    let mut rest = items;
    while let [item, after @ ..] = rest {
        put_label(out, item)?;
        rest = after;
    }
    Ok(())
}

fn put_code(out: &mut Vec<u8>, line: &LineText) -> Result<(), NoMemory>
    ensures { OnOk result (out.new.items ≡ out.old.items ++ spec.code_lines line.now) }
{
    put_labels(out, &line.labels)?;
    put(out, line.word.bytes())?;
    put_operands(out, &line.operands)?;
    put(out, b"\n")
}

fn put_lines(out: &mut Vec<u8>, items: &[LineText]) -> Result<(), NoMemory>
    ensures { OnOk result (out.new.items ≡ out.old.items ++ flat_map spec.code_lines items.now) }
{
    let mut rest = items;
    while let [item, after @ ..] = rest {
        put_code(out, item)?;
        rest = after;
    }
    Ok(())
}

fn put_catch(out: &mut Vec<u8>, catch: &CatchText) -> Result<(), NoMemory>
    ensures { OnOk result (out.new.items ≡ out.old.items ++ spec.catch_line catch.now) }
{
    put(out, b".catch ")?;
    put(out, catch.class.bytes())?;
    put(out, b" from ")?;
    put(out, catch.from.bytes())?;
    put(out, b" to ")?;
    put(out, catch.to.bytes())?;
    put(out, b" using ")?;
    put(out, catch.using.bytes())?;
    put(out, b"\n")
}

fn put_catches(out: &mut Vec<u8>, items: &[CatchText]) -> Result<(), NoMemory>
    ensures { OnOk result (out.new.items ≡ out.old.items ++ flat_map spec.catch_line items.now) }
{
    let mut rest = items;
    while let [item, after @ ..] = rest {
        put_catch(out, item)?;
        rest = after;
    }
    Ok(())
}

fn put_limit(out: &mut Vec<u8>, begun: &[u8], limit: Option<u32>) -> Result<(), NoMemory>
    ensures { OnOk result (out.new.items ≡ out.old.items ++ spec.limit_line begun.now limit) }
{
    match limit {
        Some(n) => {
            put(out, begun)?;
            put_number(out, n)?;
            put(out, b"\n")
        }
        None => Ok(()),
    }
}

/// Adds the first words of a line, its flags, and a space.
#[tactic(auto, unfolding(crate::specs::Canonical::begun))]
fn put_begun(out: &mut Vec<u8>, directive: &[u8], flags: &[Name]) -> Result<(), NoMemory>
    ensures { OnOk result (out.new.items ≡ out.old.items ++ spec.begun directive.now flags.now) }
{
    put(out, directive)?;
    put_words(out, flags)?;
    put(out, b" ")
}

#[tactic(auto, unfolding(crate::specs::Canonical::method_head))]
fn put_method_head(out: &mut Vec<u8>, method: &MethodText) -> Result<(), NoMemory>
    ensures { OnOk result (out.new.items ≡ out.old.items ++ spec.method_head method.now) }
{
    put_begun(out, b".method", &method.flags)?;
    put(out, method.name.bytes())?;
    put(out, method.desc.bytes())?;
    put(out, b"\n")
}

#[tactic(auto, unfolding(crate::specs::Canonical::method_limits))]
fn put_limits(out: &mut Vec<u8>, method: &MethodText) -> Result<(), NoMemory>
    ensures { OnOk result (out.new.items ≡ out.old.items ++ spec.method_limits method.now) }
{
    put_limit(out, b".limit stack ", method.stack)?;
    put_limit(out, b".limit locals ", method.locals)
}

#[tactic(auto, unfolding(crate::specs::Canonical::method_body))]
fn put_body(out: &mut Vec<u8>, method: &MethodText) -> Result<(), NoMemory>
    ensures { OnOk result (out.new.items ≡ out.old.items ++ spec.method_body method.now) }
{
    put_lines(out, &method.lines)?;
    put_labels(out, &method.end_labels)?;
    put_catches(out, &method.catches)
}

#[tactic(auto, unfolding(crate::specs::Canonical::method_lines))]
fn put_method(out: &mut Vec<u8>, method: &MethodText) -> Result<(), NoMemory>
    ensures { OnOk result (out.new.items ≡ out.old.items ++ spec.method_lines method.now) }
{
    put_method_head(out, method)?;
    put_limits(out, method)?;
    put_body(out, method)?;
    put(out, b".end method")?;
    put(out, b"\n")
}

fn put_methods(out: &mut Vec<u8>, items: &[MethodText]) -> Result<(), NoMemory>
    ensures { OnOk result (out.new.items ≡ out.old.items ++ flat_map spec.method_lines items.now) }
{
    let mut rest = items;
    while let [item, after @ ..] = rest {
        put_method(out, item)?;
        rest = after;
    }
    Ok(())
}

fn put_value(out: &mut Vec<u8>, value: Option<i32>) -> Result<(), NoMemory>
    ensures { OnOk result (out.new.items ≡ out.old.items ++ spec.value_text value) }
{
    match value {
        Some(n) => {
            put(out, b" = ")?;
            put_int(out, n)
        }
        None => Ok(()),
    }
}

#[tactic(auto, unfolding(crate::specs::Canonical::field_line))]
fn put_field(out: &mut Vec<u8>, field: &FieldText) -> Result<(), NoMemory>
    ensures { OnOk result (out.new.items ≡ out.old.items ++ spec.field_line field.now) }
{
    put_begun(out, b".field", &field.flags)?;
    put(out, field.name.bytes())?;
    put(out, b" ")?;
    put(out, field.desc.bytes())?;
    put_value(out, field.value)?;
    put(out, b"\n")
}

fn put_fields(out: &mut Vec<u8>, items: &[FieldText]) -> Result<(), NoMemory>
    ensures { OnOk result (out.new.items ≡ out.old.items ++ flat_map spec.field_line items.now) }
{
    let mut rest = items;
    while let [item, after @ ..] = rest {
        put_field(out, item)?;
        rest = after;
    }
    Ok(())
}

/// Adds a directive, a name, and the line's end.
#[tactic(auto, unfolding(crate::specs::Canonical::name_line))]
fn put_name_line(out: &mut Vec<u8>, directive: &[u8], name: &Name) -> Result<(), NoMemory>
    ensures { OnOk result (out.new.items ≡ out.old.items ++ spec.name_line directive.now name.now) }
{
    put(out, directive)?;
    put(out, name.bytes())?;
    put(out, b"\n")
}

fn put_implements(out: &mut Vec<u8>, name: &NameAt) -> Result<(), NoMemory>
    ensures { OnOk result (out.new.items ≡ out.old.items ++ spec.implements_line name.now) }
{
    put_name_line(out, b".implements ", &name.name)
}

fn put_all_implements(out: &mut Vec<u8>, items: &[NameAt]) -> Result<(), NoMemory>
    ensures { OnOk result (out.new.items ≡ out.old.items ++ flat_map spec.implements_line items.now) }
{
    let mut rest = items;
    while let [item, after @ ..] = rest {
        put_implements(out, item)?;
        rest = after;
    }
    Ok(())
}

#[tactic(auto, unfolding(crate::specs::Canonical::members))]
fn put_members(out: &mut Vec<u8>, class: &ClassText) -> Result<(), NoMemory>
    ensures { OnOk result (out.new.items ≡ out.old.items ++ spec.members class.now) }
{
    put_all_implements(out, &class.implements)?;
    put_fields(out, &class.fields)?;
    put_methods(out, &class.methods)
}

#[tactic(auto, unfolding(crate::specs::Canonical::class_lines))]
fn put_named_class(out: &mut Vec<u8>, class: &ClassText) -> Result<(), NoMemory>
    ensures { OnOk result (out.new.items ≡ out.old.items ++ spec.class_lines class.now) }
{
    put_begun(out, b".class", &class.flags)?;
    put(out, class.name.bytes())?;
    put(out, b"\n")?;
    put_name_line(out, b".super ", &class.super_name)?;
    put_members(out, class)
}

fn put_class(out: &mut Vec<u8>, class: &ClassText) -> Result<(), NoMemory>
    ensures { OnOk result (out.new.items ≡ out.old.items ++ spec.class_text class.now) }
{
    if class.name.bytes().is_empty() {
        put(out, b".interface")?;
        put(out, b"\n")
    } else {
        put_named_class(out, class)
    }
}

fn put_classes(out: &mut Vec<u8>, items: &[ClassText]) -> Result<(), NoMemory>
    ensures { OnOk result (out.new.items ≡ out.old.items ++ flat_map spec.class_text items.now) }
{
    let mut rest = items;
    while let [item, after @ ..] = rest {
        put_class(out, item)?;
        rest = after;
    }
    Ok(())
}

/// The canonical text of classes: one item a line, single spaces, each line ended by a line feed. Flags stand in a fixed order,
/// labels on lines of their own, pushes of an int are `ldc`, local variables are operands, and `.catch` lines stand after
/// the last label.
#[tactic(auto, unfolding(crate::specs::Canonical::canonical))]
pub fn write_classes(alloc: Global, classes: &[ClassText]) -> Result<Vec<u8>, NoMemory>
    ensures { IfOk result (λ v. v.items ≡ spec.canonical classes.now) }
{
    let mut out = Vec::new(alloc);
    put_classes(&mut out, classes)?;
    Ok(out)
}

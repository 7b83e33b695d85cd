// Classes as text: what a class file of the Jasmin assembler says, with names in place of numbers.

use std::marker::Model;
use vm_model::Name;

/// What stands after a mnemonic: a number, a word (a label, a class, a member, a descriptor), or a text.
#[derive(Debug, Drop)]
pub enum Operand {
    Number(i32),
    Word(Name),
    Text(Name),
}

/// A name, and the line that it stands on, counted from 1.
#[derive(Debug, Drop)]
pub struct NameAt {
    pub line: u32,
    pub name: Name,
}

/// A `.catch` line: the class of what is caught, or `all`; the labels from which and up to which it is caught, the second
/// not included; and the label where control goes on.
#[derive(Debug, Drop)]
pub struct CatchText {
    pub line: u32,
    pub class: Name,
    pub from: Name,
    pub to: Name,
    pub using: Name,
}

/// An instruction: the labels that stand before it, its mnemonic and its operands. Pushes of an int are `ldc`, and local
/// variables are operands.
#[derive(Debug, Drop)]
pub struct LineText {
    pub line: u32,
    pub labels: Vec<Name>,
    pub word: Name,
    pub operands: Vec<Operand>,
}

impl Model for LineText {
    ghost use Rattle.jasmin_lines.specs.Plain.{PlainLineText};

    ghost Value = { PlainLineText };

    ghost view = { λ l. record { line = l.line; labels = l.labels.items; word = l.word; operands = l.operands.items } };
}

/// A field, with the int that a static one has at the start where the text says one.
#[derive(Debug, Drop)]
pub struct FieldText {
    pub line: u32,
    pub flags: Vec<Name>,
    pub name: Name,
    pub desc: Name,
    pub value: Option<i32>,
}

impl Model for FieldText {
    ghost use Rattle.jasmin_lines.specs.Plain.{PlainFieldText};

    ghost Value = { PlainFieldText };

    ghost view = { λ f. record { line = f.line; flags = f.flags.items; name = f.name; desc = f.desc; value = f.value } };
}

/// A method: its limits where the text has them, in words of the operand stack and in local variables; its instructions; and
/// the labels after the last one.
#[derive(Debug, Drop)]
pub struct MethodText {
    pub line: u32,
    pub flags: Vec<Name>,
    pub name: Name,
    pub desc: Name,
    pub stack: Option<u32>,
    pub locals: Option<u32>,
    pub lines: Vec<LineText>,
    pub end_labels: Vec<Name>,
    pub catches: Vec<CatchText>,
}

impl Model for MethodText {
    ghost use Rattle.jasmin_lines.specs.Plain.{PlainMethodText};

    ghost Value = { PlainMethodText };

    ghost view = { λ m. record { line = m.line; flags = m.flags.items; name = m.name; desc = m.desc; stack = m.stack; locals = m.locals; lines = m.lines.items; end_labels = m.end_labels.items; catches = m.catches.items } };
}

/// A class, with the lines of its `.class` and its `.super`. Flags stand once each and in a fixed order. A class with an
/// empty name stands for an `.interface` line.
#[derive(Debug, Drop)]
pub struct ClassText {
    pub line: u32,
    pub flags: Vec<Name>,
    pub name: Name,
    pub super_line: u32,
    pub super_name: Name,
    pub implements: Vec<NameAt>,
    pub fields: Vec<FieldText>,
    pub methods: Vec<MethodText>,
}

impl Model for ClassText {
    ghost use Rattle.jasmin_lines.specs.Plain.{PlainClassText};

    ghost Value = { PlainClassText };

    ghost view = { λ c. record { line = c.line; flags = c.flags.items; name = c.name; super_line = c.super_line; super_name = c.super_name; implements = c.implements.items; fields = c.fields.items; methods = c.methods.items } };
}

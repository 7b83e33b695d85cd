// Text constants, labels, and what is wrong with bodies.
ghost use Rattle.std.specs.Prelude.{◌≡◌, OnOk, IfOk, Ok};
ghost use Rattle.class_linker.specs.Bodies as spec;
ghost use Rattle.class_linker.specs.Linked.{linked};

use crate::fault::Refusal;
use crate::instructions::linked;
use crate::least::{noted, only_if};
use jasmin_lines::{CatchText, ClassText, LineText, MethodText, Operand};
use name_resolver::{Index, LinkKind, Names, next};
use std::alloc::Global;
use std::marker::Model;
use vm_model::{Failure, Instr, MOST_INSTRUCTIONS, Name, NoMemory};

/// Text constants, each once, in the order of the text.
#[derive(Drop)]
pub struct Texts {
    rows: Index,
    names: Vec<Name>,
    count: u32,
}

impl Model for Texts {
    ghost use Rattle.class_linker.specs.Bodies.{PlainTexts};

    ghost Value = { PlainTexts };

    ghost view = { λ t. record { rows = t.rows; names = t.names.items; count = t.count } };
}

impl Texts {
    fn new(alloc: Global) -> Texts
        ensures { result ≡ spec.no_texts }
    {
        Texts {
            rows: Index::new(alloc),
            names: Vec::new(alloc),
            count: 0,
        }
    }

    /// The number of each text.
    pub fn rows(&self) -> &Index
        ensures { result.now ≡ self.now.rows }
    {
        &self.rows
    }

    /// The texts themselves.
    pub fn into_names(self) -> Vec<Name>
        ensures { result.items ≡ self.names }
    {
        self.names
    }

    fn add(&mut self, alloc: Global, text: &[u8]) -> Result<(), NoMemory>
        ensures { OnOk result (self.new ≡ spec.with_text text.now self.old) }
    {
        if self.rows.find(text).is_some() {
            return Ok(());
        }
        self.rows.add(alloc, text, self.count)?;
        self.names.push(Name::of(alloc, text)?)?;
        self.count = next(self.count);
        Ok(())
    }

    fn add_operand(&mut self, alloc: Global, operand: &Operand) -> Result<(), NoMemory>
        ensures { OnOk result (self.new ≡ spec.with_operand operand.now self.old) }
    {
        match operand {
            Operand::Text(text) => self.add(alloc, text.bytes()),
            Operand::Number(_) => Ok(()),
            Operand::Word(_) => Ok(()),
        }
    }

    #[tactic(auto, unfolding(crate::specs::Bodies::with_operands))]
    fn add_operands(&mut self, alloc: Global, operands: &[Operand]) -> Result<(), NoMemory>
        ensures { OnOk result (self.new ≡ spec.with_operands operands.now self.old) }
    {
        let mut rest = operands;
        while let [operand, after @ ..] = rest {
            self.add_operand(alloc, operand)?;
            rest = after;
        }
        Ok(())
    }

    #[tactic(auto, unfolding(crate::specs::Bodies::with_lines))]
    fn add_lines(&mut self, alloc: Global, lines: &[LineText]) -> Result<(), NoMemory>
        ensures { OnOk result (self.new ≡ spec.with_lines lines.now self.old) }
    {
        let mut rest = lines;
        while let [line, after @ ..] = rest {
            self.add_operands(alloc, &line.operands)?;
            rest = after;
        }
        Ok(())
    }

    #[tactic(auto, unfolding(crate::specs::Bodies::with_bodies))]
    fn add_bodies(&mut self, alloc: Global, methods: &[MethodText]) -> Result<(), NoMemory>
        ensures { OnOk result (self.new ≡ spec.with_bodies methods.now self.old) }
    {
        let mut rest = methods;
        while let [method, after @ ..] = rest {
            self.add_lines(alloc, &method.lines)?;
            rest = after;
        }
        Ok(())
    }

    #[tactic(auto, unfolding(crate::specs::Bodies::with_all))]
    fn add_all(&mut self, alloc: Global, classes: &[ClassText]) -> Result<(), NoMemory>
        ensures { OnOk result (self.new ≡ spec.with_all classes.now self.old) }
    {
        let mut rest = classes;
        while let [class, after @ ..] = rest {
            self.add_bodies(alloc, &class.methods)?;
            rest = after;
        }
        Ok(())
    }
}

/// The text constants of these classes.
pub fn texts_of(alloc: Global, classes: &[ClassText]) -> Result<Texts, NoMemory>
    ensures { IfOk result (λ t. t ≡ spec.texts_of classes.now) }
{
    let mut texts = Texts::new(alloc);
    texts.add_all(alloc, classes)?;
    Ok(texts)
}

// ---- labels

#[tactic(auto, unfolding(crate::specs::Bodies::with_labels))]
fn add_labels(alloc: Global, labels: &[Name], place: u32, rows: &mut Index) -> Result<(), NoMemory>
    ensures { OnOk result (rows.new ≡ spec.with_labels labels.now place rows.old) }
{
    let mut rest = labels;
    while let [label, after @ ..] = rest {
        rows.add(alloc, label.bytes(), place)?;
        rest = after;
    }
    Ok(())
}

#[tactic(auto, unfolding(crate::specs::Bodies::labelled))]
fn add_labelled(alloc: Global, lines: &[LineText], rows: &mut Index) -> Result<u32, NoMemory>
    ensures { IfOk result (λ n. (n, rows.new) ≡ spec.labelled lines.now 0 rows.old) }
{
    let mut place = 0;
    let mut rest = lines;
    while let [line, after @ ..] = rest {
        add_labels(alloc, &line.labels, place, rows)?;
        place = next(place);
        rest = after;
    }
    Ok(place)
}

/// The labels of a method, each with the number of the instruction after it.
pub fn labels_of(alloc: Global, method: &MethodText) -> Result<Index, NoMemory>
    ensures { IfOk result (λ rows. rows ≡ spec.labels_of method.now) }
{
    let mut rows = Index::new(alloc);
    let place = add_labelled(alloc, &method.lines, &mut rows)?;
    add_labels(alloc, &method.end_labels, place, &mut rows)?;
    Ok(rows)
}

// ---- faults

fn fault_of(
    alloc: Global,
    names: &Names,
    thread_run: u32,
    texts: &Index,
    labels: &Index,
    line: &LineText,
) -> Result<Option<LinkKind>, NoMemory>
    ensures { IfOk result (λ f. f ≡ spec.fault_in (linked names.now thread_run texts.now labels.now line.now)) }
{
    match linked(alloc, names, thread_run, texts, labels, line) {
        Ok(_) => Ok(None),
        Err(Failure::Fault(kind)) => Ok(Some(kind)),
        Err(Failure::Memory) => Err(NoMemory),
    }
}

fn judge_line(
    alloc: Global,
    names: &Names,
    thread_run: u32,
    texts: &Index,
    labels: &Index,
    line: &LineText,
    place: u32,
    found: Option<Refusal>,
) -> Result<Option<Refusal>, NoMemory>
    ensures { IfOk result (λ f. f ≡ spec.line_judged names.now thread_run texts.now labels.now line.now place found) }
{
    let fault = fault_of(alloc, names, thread_run, texts, labels, line)?;
    let found = noted(found, line.line, fault);
    let many = only_if(LinkKind::TooMany, place >= MOST_INSTRUCTIONS, None);
    Ok(noted(found, line.line, many))
}

#[tactic(auto, unfolding(crate::specs::Bodies::code_judged))]
fn judge_code(
    alloc: Global,
    names: &Names,
    thread_run: u32,
    texts: &Index,
    labels: &Index,
    lines: &[LineText],
    found: Option<Refusal>,
) -> Result<Option<Refusal>, NoMemory>
    ensures { IfOk result (λ f. f ≡ spec.code_judged names.now thread_run texts.now labels.now lines.now 0 found) }
{
    let mut found = found;
    let mut place = 0;
    let mut rest = lines;
    while let [line, after @ ..] = rest {
        found = judge_line(alloc, names, thread_run, texts, labels, line, place, found)?;
        place = next(place);
        rest = after;
    }
    Ok(found)
}

#[tactic(auto, unfolding(crate::specs::Bodies::catches_judged))]
fn judge_catches(catches: &[CatchText], found: Option<Refusal>) -> Option<Refusal>
    ensures { result ≡ spec.catches_judged catches.now found }
{
    let mut found = found;
    let mut rest = catches;
    while let [catch, after @ ..] = rest {
        found = noted(found, catch.line, Some(LinkKind::OutOfProfile));
        rest = after;
    }
    found
}

fn judge_body(
    alloc: Global,
    names: &Names,
    thread_run: u32,
    texts: &Index,
    method: &MethodText,
    found: Option<Refusal>,
) -> Result<Option<Refusal>, NoMemory>
    ensures { IfOk result (λ f. f ≡ spec.body_judged names.now thread_run texts.now method.now found) }
{
    let labels = labels_of(alloc, method)?;
    let found = judge_code(
        alloc,
        names,
        thread_run,
        texts,
        &labels,
        &method.lines,
        found,
    )?;
    Ok(judge_catches(&method.catches, found))
}

#[tactic(auto, unfolding(crate::specs::Bodies::methods_judged))]
fn judge_methods(
    alloc: Global,
    names: &Names,
    thread_run: u32,
    texts: &Index,
    methods: &[MethodText],
    found: Option<Refusal>,
) -> Result<Option<Refusal>, NoMemory>
    ensures { IfOk result (λ f. f ≡ spec.methods_judged names.now thread_run texts.now methods.now found) }
{
    let mut found = found;
    let mut rest = methods;
    while let [method, after @ ..] = rest {
        found = judge_body(alloc, names, thread_run, texts, method, found)?;
        rest = after;
    }
    Ok(found)
}

/// The first of the faults so far and of those of these classes' bodies.
#[tactic(auto, unfolding(crate::specs::Bodies::bodies_judged))]
pub fn judge_bodies(
    alloc: Global,
    names: &Names,
    thread_run: u32,
    texts: &Index,
    classes: &[ClassText],
    found: Option<Refusal>,
) -> Result<Option<Refusal>, NoMemory>
    ensures { IfOk result (λ f. f ≡ spec.bodies_judged names.now thread_run texts.now classes.now found) }
{
    let mut found = found;
    let mut rest = classes;
    while let [class, after @ ..] = rest {
        found = judge_methods(alloc, names, thread_run, texts, &class.methods, found)?;
        rest = after;
    }
    Ok(found)
}

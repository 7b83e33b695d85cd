// The program of classes whose names are known.
ghost use Rattle.std.specs.Prelude.{◌≡◌, ◌++◌, ◌∷◌, [], map, OnOk, IfOk};
ghost use Rattle.class_linker.specs.Bodies.{labels_of};
ghost use Rattle.class_linker.specs.Linked.{linked};
ghost use Rattle.class_linker.specs.Programs as spec;

use crate::bodies::labels_of;
use crate::instructions::linked;
use built_in_classes::{RUNNABLE, THREAD};
use jasmin_lines::{ClassText, FieldText, LineText, MethodText};
use name_resolver::{
    Index, Names, Signature, has, is_static, is_thread, kind_of, method_key, method_signature,
    next, type_of,
};
use std::alloc::Global;
use vm_model::{
    Class, FIRST_USER_CLASS, Failure, Field, Instr, Kind, Method, Name, NoMemory, StaticSlot, Value,
};

// ---- fields

fn field_kind(names: &Names, field: &FieldText) -> Kind
    ensures { result ≡ spec.field_kind names.now field.now }
{
    kind_of(type_of(&names.classes, field.desc.bytes()))
}

/// What a static holds at the beginning: the int that the text says, 0, or null.
fn start_of(kind: Kind, start: Option<i32>) -> Value
    ensures { result ≡ spec.start_of kind start }
{
    match kind {
        Kind::Int => Value::Int(start.unwrap_or(0)),
        Kind::Null => Value::Null,
        Kind::Ref(_) => Value::Null,
        Kind::Arr => Value::Null,
        Kind::Args => Value::Null,
    }
}

fn static_slot(
    alloc: Global,
    names: &Names,
    class: u32,
    field: &FieldText,
) -> Result<StaticSlot, NoMemory>
    ensures { IfOk result (λ s. s ≡ spec.static_slot names.now class field.now) }
{
    let kind = field_kind(names, field);
    Ok(StaticSlot {
        class,
        name: Name::of(alloc, field.name.bytes())?,
        kind,
        start: start_of(kind, field.value),
    })
}

#[tactic(auto, unfolding(crate::specs::Programs::slots_in))]
fn add_slots_in(
    alloc: Global,
    names: &Names,
    class: u32,
    fields: &[FieldText],
    slots: &mut Vec<StaticSlot>,
) -> Result<(), NoMemory>
    ensures { OnOk result (slots.new.items ≡ slots.old.items ++ spec.slots_in names.now class fields.now) }
{
    let mut rest = fields;
    while let [field, after @ ..] = rest {
        if is_static(&field.flags) {
            slots.push(static_slot(alloc, names, class, field)?)?;
        }
        rest = after;
    }
    Ok(())
}

#[tactic(auto, unfolding(crate::specs::Programs::slots_of))]
fn add_slots(
    alloc: Global,
    names: &Names,
    classes: &[ClassText],
    slots: &mut Vec<StaticSlot>,
) -> Result<(), NoMemory>
    ensures { OnOk result (slots.new.items ≡ slots.old.items ++ spec.slots_of names.now FIRST_USER_CLASS classes.now) }
{
    let mut number = FIRST_USER_CLASS;
    let mut rest = classes;
    while let [class, after @ ..] = rest {
        add_slots_in(alloc, names, number, &class.fields, slots)?;
        number = next(number);
        rest = after;
    }
    Ok(())
}

/// The static fields of all classes.
pub fn slots_of(
    alloc: Global,
    names: &Names,
    classes: &[ClassText],
) -> Result<Vec<StaticSlot>, NoMemory>
    ensures { IfOk result (λ v. v.items ≡ spec.slots_of names.now FIRST_USER_CLASS classes.now) }
{
    let mut slots = Vec::new(alloc);
    add_slots(alloc, names, classes, &mut slots)?;
    Ok(slots)
}

#[tactic(auto, unfolding(crate::specs::Programs::fields_of))]
fn fields_of(alloc: Global, names: &Names, fields: &[FieldText]) -> Result<Vec<Field>, NoMemory>
    ensures { IfOk result (λ v. v.items ≡ spec.fields_of names.now fields.now) }
{
    let mut found = Vec::new(alloc);
    let mut rest = fields;
    while let [field, after @ ..] = rest {
        if !is_static(&field.flags) {
            found.push(Field {
                name: Name::of(alloc, field.name.bytes())?,
                kind: field_kind(names, field),
            })?;
        }
        rest = after;
    }
    Ok(found)
}

// ---- classes

fn linked_class(alloc: Global, names: &Names, class: &ClassText) -> Result<Class, NoMemory>
    ensures { IfOk result (λ c. c ≡ spec.linked_class names.now class.now) }
{
    let name = class.name.bytes();
    let run = method_key(alloc, name, b"run", b"()V")?;
    Ok(Class {
        name: Name::of(alloc, name)?,
        is_thread: is_thread(class),
        is_runnable: !class.implements.is_empty(),
        fields: fields_of(alloc, names, &class.fields)?,
        run: names.instance_methods.find(&run),
    })
}

pub fn linked_classes(
    alloc: Global,
    names: &Names,
    classes: &[ClassText],
) -> Result<Vec<Class>, NoMemory>
    ensures { IfOk result (λ v. v.items ≡ map (spec.linked_class names.now) classes.now) }
{
    let mut found = Vec::new(alloc);
    let mut rest = classes;
    while let [class, after @ ..] = rest {
        found.push(linked_class(alloc, names, class)?)?;
        rest = after;
    }
    Ok(found)
}

// ---- methods

fn add_instr(
    alloc: Global,
    names: &Names,
    thread_run: u32,
    texts: &Index,
    labels: &Index,
    line: &LineText,
    code: &mut Vec<Instr>,
) -> Result<(), NoMemory>
    ensures { OnOk result (code.new.items ≡ code.old.items ++ spec.kept (linked names.now thread_run texts.now labels.now line.now)) }
{
    match linked(alloc, names, thread_run, texts, labels, line) {
        Ok(instr) => {
            code.push(instr)?;
            Ok(())
        }
        Err(Failure::Fault(_)) => Ok(()),
        Err(Failure::Memory) => Err(NoMemory),
    }
}

#[tactic(auto, unfolding(crate::specs::Programs::code_of))]
fn code_of(
    alloc: Global,
    names: &Names,
    thread_run: u32,
    texts: &Index,
    labels: &Index,
    lines: &[LineText],
) -> Result<Vec<Instr>, NoMemory>
    ensures { IfOk result (λ v. v.items ≡ spec.code_of names.now thread_run texts.now labels.now lines.now) }
{
    let mut code = Vec::new(alloc);
    let mut rest = lines;
    while let [line, after @ ..] = rest {
        add_instr(alloc, names, thread_run, texts, labels, line, &mut code)?;
        rest = after;
    }
    Ok(code)
}

fn signed(
    alloc: Global,
    method: &MethodText,
    class: u32,
    signature: &Signature,
    code: Vec<Instr>,
) -> Result<Method, NoMemory>
    ensures { IfOk result (λ m. m ≡ spec.signed method.now class signature.now code.items) }
{
    Ok(Method {
        class,
        name: Name::of(alloc, method.name.bytes())?,
        params: signature.param_kinds(alloc)?,
        gives: signature.kind_given(),
        is_static: is_static(&method.flags),
        is_synchronized: has(&method.flags, b"synchronized"),
        max_stack: method.stack,
        max_locals: method.locals,
        code,
    })
}

fn linked_method(
    alloc: Global,
    names: &Names,
    thread_run: u32,
    texts: &Index,
    class: u32,
    method: &MethodText,
) -> Result<Method, NoMemory>
    ensures { IfOk result (λ m. m ≡ spec.linked_method names.now thread_run texts.now class method.now) }
{
    let (name, desc) = (method.name.bytes(), method.desc.bytes());
    let labels = labels_of(alloc, method)?;
    let signature = method_signature(alloc, &names.classes, name, desc)?;
    let code = code_of(alloc, names, thread_run, texts, &labels, &method.lines)?;
    signed(alloc, method, class, &signature, code)
}

#[tactic(auto, unfolding(crate::specs::Programs::methods_in))]
fn add_methods_in(
    alloc: Global,
    names: &Names,
    thread_run: u32,
    texts: &Index,
    class: u32,
    methods: &[MethodText],
    found: &mut Vec<Method>,
) -> Result<(), NoMemory>
    ensures { OnOk result (found.new.items ≡ found.old.items ++ spec.methods_in names.now thread_run texts.now class methods.now) }
{
    let mut rest = methods;
    while let [method, after @ ..] = rest {
        found.push(linked_method(alloc, names, thread_run, texts, class, method)?)?;
        rest = after;
    }
    Ok(())
}

#[tactic(auto, unfolding(crate::specs::Programs::methods_of))]
fn add_methods(
    alloc: Global,
    names: &Names,
    thread_run: u32,
    texts: &Index,
    classes: &[ClassText],
    found: &mut Vec<Method>,
) -> Result<(), NoMemory>
    ensures { OnOk result (found.new.items ≡ found.old.items ++ spec.methods_of names.now thread_run texts.now FIRST_USER_CLASS classes.now) }
{
    let mut number = FIRST_USER_CLASS;
    let mut rest = classes;
    while let [class, after @ ..] = rest {
        add_methods_in(
            alloc,
            names,
            thread_run,
            texts,
            number,
            &class.methods,
            found,
        )?;
        number = next(number);
        rest = after;
    }
    Ok(())
}

fn thread_code(alloc: Global) -> Result<Vec<Instr>, NoMemory>
    ensures { IfOk result (λ v. v.items ≡ spec.thread_code) }
{
    Ok(Vec::from_slice(
        alloc,
        &[
            Instr::Aload(0),
            Instr::GetField {
                class: THREAD,
                place: 0,
            },
            Instr::Astore(1),
            Instr::Aload(1),
            Instr::Ifnull(7),
            Instr::Aload(1),
            Instr::RunOf(RUNNABLE),
            Instr::Return,
        ],
    )?)
}

/// Thread's own run.
fn thread_method(alloc: Global) -> Result<Method, NoMemory>
    ensures { IfOk result (λ m. m ≡ spec.thread_method) }
{
    Ok(Method {
        class: THREAD,
        name: Name::of(alloc, b"run")?,
        params: Vec::new(alloc),
        gives: None,
        is_static: false,
        is_synchronized: false,
        max_stack: None,
        max_locals: None,
        code: thread_code(alloc)?,
    })
}

/// The methods of all classes, and Thread's own run after them.
pub fn methods_of(
    alloc: Global,
    names: &Names,
    thread_run: u32,
    texts: &Index,
    classes: &[ClassText],
) -> Result<Vec<Method>, NoMemory>
    ensures { IfOk result (λ v. v.items ≡ spec.methods_of names.now thread_run texts.now FIRST_USER_CLASS classes.now ++ spec.thread_method ∷ []) }
{
    let mut found = Vec::new(alloc);
    add_methods(alloc, names, thread_run, texts, classes, &mut found)?;
    found.push(thread_method(alloc)?)?;
    Ok(found)
}

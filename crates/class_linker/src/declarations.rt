// What is wrong with declarations.
ghost use Rattle.std.specs.Prelude.{◌≡◌, ◌≤◌, IfOk};
ghost use Rattle.name_resolver.specs.Descriptors.{type_of, method_signature};
ghost use Rattle.name_resolver.specs.Index.{value_of};
ghost use Rattle.class_linker.specs.Judging as spec;
ghost use Rattle.name_resolver.specs.Words.{field_word, is_init, method_key};

use crate::fault::Refusal;
use crate::least::{noted, only_if};
use built_in_classes::built_in_number;
use jasmin_lines::{ClassText, FieldText, MethodText, NameAt, is};
use name_resolver::{
    Counts, LinkKind, Names, Signature, Typed, field_word, has_foreign_flag, is_bad, is_named,
    is_outside, is_reserved, is_static, is_unknown, method_key, method_signature, type_of,
};
use std::alloc::Global;
use vm_model::{
    FIRST_USER_CLASS, Kind, MOST_CLASSES, MOST_FIELDS, MOST_LOCALS, MOST_METHODS, MOST_OPERANDS,
    MOST_PARAMETERS, MOST_STATICS, NoMemory,
};

fn is_this(number: u32, found: Option<u32>) -> bool
    ensures { result ≡ spec.is_this number found }
{
    match found {
        Some(other) => other == number,
        None => false,
    }
}

// ---- `.class`, `.super` and `.implements`

fn named_fault(names: &Names, class: &ClassText, counts: Counts) -> Option<LinkKind>
    ensures { result ≡ spec.named_fault names.now class.now counts }
{
    let name = class.name.bytes();
    let is_first = is_this(counts.classes, names.classes.find(name));
    let is_twice = !is_first || built_in_number(name).is_some();
    let is_foreign = has_foreign_flag(&class.flags);
    let foreign = only_if(LinkKind::OutOfProfile, is_foreign, None);
    let many = only_if(
        LinkKind::TooMany,
        counts.classes >= FIRST_USER_CLASS + MOST_CLASSES,
        foreign,
    );
    only_if(LinkKind::Twice, is_twice, many)
}

fn class_fault(names: &Names, class: &ClassText, counts: Counts) -> Option<LinkKind>
    ensures { result ≡ spec.class_fault names.now class.now counts }
{
    if is_named(class) {
        named_fault(names, class, counts)
    } else {
        Some(LinkKind::OutOfProfile)
    }
}

fn is_super(name: &[u8]) -> bool
    ensures { result ≡ spec.is_super name.now }
{
    is(name, b"java/lang/Object") || is(name, b"java/lang/Thread")
}

fn super_fault(class: &ClassText) -> Option<LinkKind>
    ensures { result ≡ spec.super_fault class.now }
{
    let is_foreign = is_named(class) && !is_super(class.super_name.bytes());
    only_if(LinkKind::OutOfProfile, is_foreign, None)
}

fn is_own_run(method: &MethodText) -> bool
    ensures { result ≡ spec.is_own_run method.now }
{
    is(method.name.bytes(), b"run") && is(method.desc.bytes(), b"()V") && !is_static(&method.flags)
}

/// Whether a class has a `run()V` of its own that isn't static.
fn has_run(class: &ClassText) -> bool
    ensures { result ≡ spec.has_run class.now }
{
    class.methods.iter().any(|method| is_own_run(method))
}

fn implements_fault(has_run: bool, name: &NameAt) -> Option<LinkKind>
    ensures { result ≡ spec.implements_fault has_run name.now }
{
    let is_foreign = !is(name.name.bytes(), b"java/lang/Runnable");
    let foreign = only_if(LinkKind::OutOfProfile, is_foreign, None);
    only_if(LinkKind::UnknownMethod, !has_run, foreign)
}

// ---- `.field`

fn is_int(found: Typed) -> bool
    ensures { result ≡ spec.is_int found }
{
    matches!(found, Typed::Of(Kind::Int))
}

fn has_strange_value(field: &FieldText, found: Typed) -> bool
    ensures { result ≡ spec.has_strange_value field.now found }
{
    field.value.is_some() && !(is_static(&field.flags) && is_int(found))
}

fn is_full(taken: u32, field: &FieldText, counts: Counts) -> bool
    requires { taken ≤ 1 }
    ensures { result ≡ spec.is_full taken field.now counts }
{
    if is_static(&field.flags) {
        counts.statics >= MOST_STATICS
    } else {
        counts.places >= MOST_FIELDS + taken
    }
}

fn field_fault(
    alloc: Global,
    names: &Names,
    class: &[u8],
    field: &FieldText,
    counts: Counts,
    is_full: bool,
) -> Result<Option<LinkKind>, NoMemory>
    ensures { IfOk result (λ f. f ≡ spec.field_fault names.now class.now field.now counts is_full) }
{
    let found = type_of(&names.classes, field.desc.bytes());
    let word = field_word(alloc, class, field.name.bytes())?;
    let is_first = is_this(counts.fields, names.fields.find(&word));
    let is_strange = has_strange_value(field, found);
    let is_foreign = has_foreign_flag(&field.flags) || is_outside(found) || is_strange;
    let foreign = only_if(LinkKind::OutOfProfile, is_foreign, None);
    let many = only_if(LinkKind::TooMany, is_full, foreign);
    let bad = only_if(LinkKind::BadDescriptor, is_bad(found), many);
    let twice = only_if(LinkKind::Twice, !is_first, bad);
    Ok(only_if(LinkKind::UnknownClass, is_unknown(found), twice))
}

// ---- `.method`

fn above(limit: u32, number: Option<u32>) -> bool
    ensures { result ≡ spec.above limit number }
{
    match number {
        Some(n) => n > limit,
        None => false,
    }
}

fn is_init(name: &[u8]) -> bool
    ensures { result ≡ is_init name.now }
{
    is(name, b"<init>")
}

fn gives_wrong(method: &MethodText, signature: &Signature) -> bool
    ensures { result ≡ spec.gives_wrong method.now signature.now }
{
    signature.has_bad() || (is_init(method.name.bytes()) && signature.gives.is_some())
}

fn has_too_many(method: &MethodText, signature: &Signature, counts: Counts) -> bool
    ensures { result ≡ spec.has_too_many method.now signature.now counts }
{
    counts.methods >= MOST_METHODS
        || signature.params.len() > MOST_PARAMETERS
        || above(MOST_OPERANDS, method.stack)
        || above(MOST_LOCALS, method.locals)
}

fn is_reserved_method(alloc: Global, method: &MethodText) -> Result<bool, NoMemory>
    ensures { IfOk result (λ b. b ≡ spec.is_reserved_method method.now) }
{
    let mut member = Vec::from_slice(alloc, method.name.bytes())?;
    member.extend_from_slice(method.desc.bytes())?;
    Ok(is_reserved(&member))
}

fn is_foreign_method(method: &MethodText, signature: &Signature, is_reserved: bool) -> bool
    ensures { result ≡ spec.is_foreign_method method.now signature.now is_reserved }
{
    let name = method.name.bytes();
    has_foreign_flag(&method.flags)
        || signature.has_outside()
        || is(name, b"<clinit>")
        || (is_init(name) && is_static(&method.flags))
        || is_reserved
}

fn method_fault(
    alloc: Global,
    names: &Names,
    class: &[u8],
    method: &MethodText,
    counts: Counts,
) -> Result<Option<LinkKind>, NoMemory>
    ensures { IfOk result (λ f. f ≡ spec.judged_method names.now class.now method.now counts) }
{
    let name = method.name.bytes();
    let desc = method.desc.bytes();
    let signature = method_signature(alloc, &names.classes, name, desc)?;
    let key = method_key(alloc, class, name, desc)?;
    let is_first = is_this(counts.methods, names.methods.find(&key));
    let is_reserved = is_reserved_method(alloc, method)?;
    let is_foreign = is_foreign_method(method, &signature, is_reserved);
    let foreign = only_if(LinkKind::OutOfProfile, is_foreign, None);
    let has_many = has_too_many(method, &signature, counts);
    let many = only_if(LinkKind::TooMany, has_many, foreign);
    let bad = only_if(
        LinkKind::BadDescriptor,
        gives_wrong(method, &signature),
        many,
    );
    let twice = only_if(LinkKind::Twice, !is_first, bad);
    Ok(only_if(LinkKind::UnknownClass, signature.has_unknown(), twice))
}

// ---- all declarations

#[tactic(auto, unfolding(crate::specs::Judging::implements_judged))]
fn judge_implements(has_run: bool, implements: &[NameAt], found: Option<Refusal>) -> Option<Refusal>
    ensures { result ≡ spec.implements_judged has_run implements.now found }
{
    let mut found = found;
    let mut rest = implements;
    while let [name, after @ ..] = rest {
        found = noted(found, name.line, implements_fault(has_run, name));
        rest = after;
    }
    found
}

#[tactic(auto, unfolding(crate::specs::Judging::fields_judged))]
fn judge_fields(
    alloc: Global,
    names: &Names,
    class: &[u8],
    taken: u32,
    fields: &[FieldText],
    counts: Counts,
    found: Option<Refusal>,
) -> Result<(Counts, Option<Refusal>), NoMemory>
    requires { taken ≤ 1 }
    ensures { IfOk result (λ x. x ≡ spec.fields_judged names.now class.now taken fields.now counts found) }
{
    let mut counts = counts;
    let mut found = found;
    let mut rest = fields;
    while let [field, after @ ..] = rest {
        let is_full = is_full(taken, field, counts);
        let fault = field_fault(alloc, names, class, field, counts, is_full)?;
        found = noted(found, field.line, fault);
        counts = counts.field_counted(field);
        rest = after;
    }
    Ok((counts, found))
}

#[tactic(auto, unfolding(crate::specs::Judging::methods_judged))]
fn judge_methods(
    alloc: Global,
    names: &Names,
    class: &[u8],
    methods: &[MethodText],
    counts: Counts,
    found: Option<Refusal>,
) -> Result<(Counts, Option<Refusal>), NoMemory>
    ensures { IfOk result (λ x. x ≡ spec.methods_judged names.now class.now methods.now counts found) }
{
    let mut counts = counts;
    let mut found = found;
    let mut rest = methods;
    while let [method, after @ ..] = rest {
        let fault = method_fault(alloc, names, class, method, counts)?;
        found = noted(found, method.line, fault);
        counts = counts.method_counted();
        rest = after;
    }
    Ok((counts, found))
}

fn judge_lines(
    names: &Names,
    class: &ClassText,
    counts: Counts,
    found: Option<Refusal>,
) -> Option<Refusal>
    ensures { result ≡ spec.lines_judged names.now class.now counts found }
{
    let found = noted(found, class.line, class_fault(names, class, counts));
    let found = noted(found, class.super_line, super_fault(class));
    judge_implements(has_run(class), &class.implements, found)
}

fn taken_of(counts: Counts, class: &ClassText) -> u32
    ensures value { result ≡ spec.taken class.now }
    ensures few { result ≤ 1 }
{
    counts.class_begun(class).places
}

fn judge_class(
    alloc: Global,
    names: &Names,
    class: &ClassText,
    counts: Counts,
    found: Option<Refusal>,
) -> Result<(Counts, Option<Refusal>), NoMemory>
    ensures { IfOk result (λ x. x ≡ spec.class_judged names.now class.now counts found) }
{
    let name = class.name.bytes();
    let found = judge_lines(names, class, counts, found);
    let taken = taken_of(counts, class);
    let begun = counts.class_begun(class);
    let (counts, found) = judge_fields(alloc, names, name, taken, &class.fields, begun, found)?;
    judge_methods(alloc, names, name, &class.methods, counts, found)
}

/// The first of the faults so far and of those of these classes' declarations.
#[tactic(auto, unfolding(crate::specs::Judging::classes_judged))]
pub fn judge_classes(
    alloc: Global,
    names: &Names,
    classes: &[ClassText],
    counts: Counts,
    found: Option<Refusal>,
) -> Result<Option<Refusal>, NoMemory>
    ensures { IfOk result (λ f. f ≡ spec.classes_judged names.now classes.now counts found) }
{
    let mut counts = counts;
    let mut found = found;
    let mut rest = classes;
    while let [class, after @ ..] = rest {
        let (behind, judged) = judge_class(alloc, names, class, counts, found)?;
        counts = behind.counted_if(is_named(class));
        found = judged;
        rest = after;
    }
    Ok(found)
}

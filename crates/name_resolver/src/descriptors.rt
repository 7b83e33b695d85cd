// Descriptors (JVMS SE 8 §4.3), with the numbers of their classes.
ghost use Rattle.std.specs.Prelude.{◌≡◌, ◌==◌, ◌≤◌, not, length, position, drop, IfOk, map};
ghost use Rattle.std.specs.List.{list_any, position_or_len};
ghost use Rattle.name_resolver.specs.Descriptors as spec;

use crate::index::Index;
use built_in_classes::built_in_number;
use jasmin_lines::{is, is_class_name};
use std::alloc::Global;
use std::marker::Model;
use vm_model::{Kind, NoMemory};

/// What a type's spelling is.
#[derive(Clone, Copy, Debug, PartialEq, Eq)]
pub enum Typed {
    Of(Kind),
    /// Right, and no part of the language.
    Outside,
    /// A class that isn't there.
    Unknown,
    /// Spelled wrong.
    Bad,
}

/// What a method takes, and what it gives back if it gives something.
#[derive(Debug, Drop)]
pub struct Signature {
    pub params: Vec<Typed>,
    pub gives: Option<Typed>,
}

impl Model for Signature {
    ghost use Rattle.name_resolver.specs.Descriptors.{PlainSignature};

    ghost Value = { PlainSignature };

    ghost view = { λ s. record { params = s.params.items; gives = s.gives } };
}

/// The number of a class, built in or of the text.
pub fn class_of(classes: &Index, name: &[u8]) -> Option<u32>
    ensures { result ≡ spec.class_of classes.now name.now }
{
    match built_in_number(name) {
        Some(number) => Some(number),
        None => classes.find(name),
    }
}

fn by_name(classes: &Index, name: &[u8]) -> Typed
    ensures { result ≡ spec.by_name classes.now name.now }
{
    if !is_class_name(name) {
        return Typed::Bad;
    }
    match class_of(classes, name) {
        Some(number) => Typed::Of(Kind::Ref(number)),
        None => Typed::Unknown,
    }
}

fn find_semicolon(bytes: &[u8]) -> Option<usize>
    ensures { result ≡ position (λ c. c == 59) bytes.now }
{
    bytes.iter().position(|b| *b == b';')
}

fn class_type<'a>(classes: &Index, bytes: &'a [u8]) -> (Typed, &'a [u8])
    ensures { (result.0, result.1.now) ≡ spec.class_type classes.now bytes.now (position (λ c. c == 59) bytes.now) }
{
    match find_semicolon(bytes) {
        Some(end) => (by_name(classes, &bytes[..end]), &bytes[end + 1..]),
        None => (Typed::Bad, bytes),
    }
}

/// Z, B, C, S, J, F and D.
fn is_foreign(b: u8) -> bool
    ensures { result ≡ spec.is_foreign b }
{
    b == b'Z' || b == b'B' || b == b'C' || b == b'S' || b == b'J' || b == b'F' || b == b'D'
}

/// A type that is no array, and the bytes after it.
fn base_at<'a>(classes: &Index, bytes: &'a [u8]) -> (Typed, &'a [u8])
    ensures { (result.0, result.1.now) ≡ spec.base_at classes.now bytes.now }
{
    match bytes {
        [] => (Typed::Bad, bytes),
        [b, rest @ ..] => {
            if *b == b'I' {
                (Typed::Of(Kind::Int), rest)
            } else if is_foreign(*b) {
                (Typed::Outside, rest)
            } else if *b == b'L' {
                class_type(classes, rest)
            } else {
                (Typed::Bad, rest)
            }
        }
    }
}

fn array_of(element: Typed) -> Typed
    ensures { result ≡ spec.array_of element }
{
    match element {
        Typed::Of(Kind::Int) => Typed::Of(Kind::Arr),
        Typed::Of(Kind::Null) => Typed::Outside,
        Typed::Of(Kind::Ref(_)) => Typed::Outside,
        Typed::Of(Kind::Arr) => Typed::Outside,
        Typed::Of(Kind::Args) => Typed::Outside,
        Typed::Outside => Typed::Outside,
        Typed::Unknown => Typed::Outside,
        Typed::Bad => Typed::Bad,
    }
}

fn nested(dimensions: usize, base: Typed) -> Typed
    ensures { result ≡ spec.nested dimensions base }
{
    if dimensions == 0 {
        base
    } else if dimensions == 1 {
        array_of(base)
    } else {
        array_of(array_of(base))
    }
}

fn find_base(bytes: &[u8]) -> Option<usize>
    ensures { result ≡ position (λ b. not (b == 91)) bytes.now }
{
    bytes.iter().position(|b| *b != b'[')
}

fn dimensions(bytes: &[u8]) -> usize
    ensures value { result ≡ spec.dimensions bytes.now }
    ensures within { result ≤ length bytes.now }
{
    match find_base(bytes) {
        Some(count) => count,
        None => bytes.len(),
    }
}

/// The type at the front, and the bytes after it.
#[tactic(auto, unfolding(crate::specs::Descriptors::type_at))]
fn type_at<'a>(classes: &Index, bytes: &'a [u8]) -> (Typed, &'a [u8])
    ensures { (result.0, result.1.now) ≡ spec.type_at classes.now bytes.now }
{
    let count = dimensions(bytes);
    let (base, rest) = base_at(classes, &bytes[count..]);
    (nested(count, base), rest)
}

/// Whether a type is spelled wrong.
pub fn is_bad(found: Typed) -> bool
    ensures { result ≡ spec.is_bad found }
{
    matches!(found, Typed::Bad)
}

/// Whether a type is of a class that isn't there.
pub fn is_unknown(found: Typed) -> bool
    ensures { result ≡ spec.is_unknown found }
{
    matches!(found, Typed::Unknown)
}

/// Whether a type is right and no part of the language.
pub fn is_outside(found: Typed) -> bool
    ensures { result ≡ spec.is_outside found }
{
    matches!(found, Typed::Outside)
}

fn unless_bad(found: Typed, bytes: &[u8]) -> &[u8]
    ensures { result.now ≡ spec.unless_bad found bytes.now }
{
    if is_bad(found) { &[] } else { bytes }
}

fn types_in(alloc: Global, classes: &Index, bytes: &[u8]) -> Result<Vec<Typed>, NoMemory>
    ensures { IfOk result (λ v. v.items ≡ spec.types_in classes.now bytes.now) }
{
    let mut types = Vec::new(alloc);
    let mut left = bytes.len();
    let mut rest = bytes;
    while left > 0 {
        if rest.is_empty() {
            return Ok(types);
        }
        let (found, behind) = type_at(classes, rest);
        types.push(found)?;
        left -= 1;
        rest = unless_bad(found, behind);
    }
    Ok(types)
}

/// One type and nothing after it.
pub fn type_of(classes: &Index, bytes: &[u8]) -> Typed
    ensures { result ≡ spec.type_of classes.now bytes.now }
{
    let (found, rest) = type_at(classes, bytes);
    match rest {
        [] => found,
        [_, ..] => Typed::Bad,
    }
}

fn given(classes: &Index, bytes: &[u8]) -> Option<Typed>
    ensures { result ≡ spec.given classes.now bytes.now }
{
    if is(bytes, b"V") {
        None
    } else {
        Some(type_of(classes, bytes))
    }
}

fn find_close(bytes: &[u8]) -> Option<usize>
    ensures { result ≡ position (λ b. b == 41) bytes.now }
{
    bytes.iter().position(|b| *b == b')')
}

fn behind_first(bytes: &[u8]) -> &[u8]
    ensures { result.now ≡ drop 1 bytes.now }
{
    match bytes {
        [] => bytes,
        [_, rest @ ..] => rest,
    }
}

/// The bytes between the brackets, and those after.
fn parts_of(bytes: &[u8]) -> (&[u8], &[u8])
    ensures { (result.0.now, result.1.now) ≡ spec.parts_of bytes.now }
{
    match find_close(bytes) {
        Some(close) => (behind_first(&bytes[..close]), &bytes[close + 1..]),
        None => (behind_first(bytes), &[]),
    }
}

fn signature_of(alloc: Global, classes: &Index, desc: &[u8]) -> Result<Signature, NoMemory>
    ensures { IfOk result (λ s. s ≡ spec.signature_of classes.now desc.now) }
{
    let (params, gives) = parts_of(desc);
    Ok(Signature {
        params: types_in(alloc, classes, params)?,
        gives: given(classes, gives),
    })
}

fn args_signature(alloc: Global) -> Result<Signature, NoMemory>
    ensures { IfOk result (λ s. s ≡ spec.args_signature) }
{
    let mut params = Vec::new(alloc);
    params.push(Typed::Of(Kind::Args))?;
    Ok(Signature {
        params,
        gives: None,
    })
}

/// What a method of this name and descriptor takes and gives: the argument of main is for main alone.
pub fn method_signature(
    alloc: Global,
    classes: &Index,
    name: &[u8],
    desc: &[u8],
) -> Result<Signature, NoMemory>
    ensures { IfOk result (λ s. s ≡ spec.method_signature classes.now name.now desc.now) }
{
    if is(name, b"main") && is(desc, b"([Ljava/lang/String;)V") {
        args_signature(alloc)
    } else {
        signature_of(alloc, classes, desc)
    }
}

fn any_unknown(found: &[Typed]) -> bool
    ensures { result ≡ list_any spec.is_unknown found.now }
{
    found.iter().any(|found| is_unknown(*found))
}

fn given_is_unknown(gives: Option<Typed>) -> bool
    ensures { result ≡ spec.in_given spec.is_unknown gives }
{
    match gives {
        Some(found) => is_unknown(found),
        None => false,
    }
}

fn any_bad(found: &[Typed]) -> bool
    ensures { result ≡ list_any spec.is_bad found.now }
{
    found.iter().any(|found| is_bad(*found))
}

fn given_is_bad(gives: Option<Typed>) -> bool
    ensures { result ≡ spec.in_given spec.is_bad gives }
{
    match gives {
        Some(found) => is_bad(found),
        None => false,
    }
}

fn any_outside(found: &[Typed]) -> bool
    ensures { result ≡ list_any spec.is_outside found.now }
{
    found.iter().any(|found| is_outside(*found))
}

fn given_is_outside(gives: Option<Typed>) -> bool
    ensures { result ≡ spec.in_given spec.is_outside gives }
{
    match gives {
        Some(found) => is_outside(found),
        None => false,
    }
}

impl Signature {
    /// Whether a type in it is of a class that isn't there.
    pub fn has_unknown(&self) -> bool
        ensures { result ≡ spec.in_signature spec.is_unknown self.now }
    {
        any_unknown(&self.params) || given_is_unknown(self.gives)
    }

    /// Whether a type in it is spelled wrong.
    pub fn has_bad(&self) -> bool
        ensures { result ≡ spec.in_signature spec.is_bad self.now }
    {
        any_bad(&self.params) || given_is_bad(self.gives)
    }

    /// Whether a type in it is right and no part of the language.
    pub fn has_outside(&self) -> bool
        ensures { result ≡ spec.in_signature spec.is_outside self.now }
    {
        any_outside(&self.params) || given_is_outside(self.gives)
    }

    /// The kinds of the parameters.
    pub fn param_kinds(&self, alloc: Global) -> Result<Vec<Kind>, NoMemory>
        ensures { IfOk result (λ v. v.items ≡ map spec.kind_of self.now.params) }
    {
        let mut kinds = Vec::new(alloc);
        let mut rest = self.params.as_slice();
        while let [found, after @ ..] = rest {
            kinds.push(kind_of(*found))?;
            rest = after;
        }
        Ok(kinds)
    }

    /// The kind of what is given back.
    pub fn kind_given(&self) -> Option<Kind>
        ensures { result ≡ spec.kind_given self.now.gives }
    {
        match self.gives {
            Some(found) => Some(kind_of(found)),
            None => None,
        }
    }
}

/// The kind of a type, an int where it has none.
pub fn kind_of(found: Typed) -> Kind
    ensures { result ≡ spec.kind_of found }
{
    match found {
        Typed::Of(kind) => kind,
        Typed::Outside => Kind::Int,
        Typed::Unknown => Kind::Int,
        Typed::Bad => Kind::Int,
    }
}

// The declarations that the world knows of its program, and what they say of each class, static and text constant.
ghost use Rattle.std.specs.Prelude.{◌≡◌, ◌++◌, ℕ, nat_lt, length, map, slice_get, if◌then◌else◌, [], ◌∷◌, IfOk};
ghost use Rattle.std.specs.Option.{option_copied};
ghost use Rattle.machine_model.specs.Declarations.{declarations_of};
ghost use Rattle.machine_model.specs.Kinds.{first_value as first_value_of, kind_of_field};
ghost use Rattle.vm_model.specs.declared.value.Value.TheVariants as value;

use crate::copying;
use crate::kinds::{first_value, is_args, is_null, kind_of};
use built_in_classes::{BUILT_IN_COUNT, RUNNABLE};
use class_kinds::user_class;
use std::alloc::Global;
use std::marker::Model;
use vm_model::{Class, Field, Kind, Name, NoMemory, Plain, StaticSlot, Value};

/// What the world knows of the program whose threads share it: the classes with their fields, the statics with their first
/// values, and the text constants. It never changes.
#[derive(Debug, Drop)]
pub struct Start {
    classes: Vec<Class>,
    statics: Vec<StaticSlot>,
    texts: Vec<Name>,
}

impl Model for Start {
    ghost use Rattle.machine_model.specs.Declarations.{Declarations};

    ghost Value = { Declarations };

    ghost view = { λ s. record { classes = s.classes.items; statics = s.statics.items; texts = s.texts.items } };
}

/// What the world knows of this program.
pub fn start_of(alloc: Global, plain: &Plain) -> Result<Start, NoMemory>
    ensures { IfOk result (λ start. start ≡ declarations_of plain.now) }
{
    let program = plain.program();
    Ok(Start {
        classes: copying::classes(alloc, program.classes.as_slice())?,
        statics: copying::static_slots(alloc, program.statics.as_slice())?,
        texts: copying::names(alloc, program.texts.as_slice())?,
    })
}

/// Adds the first values of these fields.
fn with_first_values(values: Vec<Value>, fields: &[Field]) -> Result<Vec<Value>, NoMemory>
    ensures { IfOk result (λ all. all.items ≡ values.items ++ map first_value_of (map kind_of_field fields.now)) }
{
    let mut values = values;
    values.reserve(fields.len())?;
    for field in fields {
        values.push(first_value(field.kind))?;
    }
    Ok(values)
}

impl Start {
    ghost use Rattle.machine_model.specs.Declarations.{class_at, static_at, text_at};
    ghost use Rattle.machine_model.specs.Kinds.{is_class, is_thread_class, is_runnable_class, is_assignable, fits, fits_declared, static_kind, field_kinds, declared_kinds};
    ghost use Rattle.machine_model.specs.Operations.{kind_at};
    ghost use Rattle.machine_model.specs.Shared.{start_of_slot};

    /// An equal start.
    pub fn copy(&self, alloc: Global) -> Result<Start, NoMemory>
        ensures { IfOk result (λ copied. copied ≡ self.now) }
    {
        Ok(Start {
            classes: copying::classes(alloc, self.classes.as_slice())?,
            statics: copying::static_slots(alloc, self.statics.as_slice())?,
            texts: copying::names(alloc, self.texts.as_slice())?,
        })
    }

    /// How many user classes there are.
    pub fn class_count(&self) -> usize
        ensures { result ≡ length self.now.classes }
    {
        self.classes.len()
    }

    /// The user class of this number, if there is one. The first has the number `FIRST_USER_CLASS`.
    pub fn class(&self, class: u32) -> Option<&Class>
        ensures { option_copied result ≡ class_at self.now class }
    {
        user_class(self.classes.as_slice(), class)
    }

    /// Whether this is the number of a class, built in or not.
    pub fn is_class(&self, class: u32) -> bool
        ensures { result ≡ is_class self.now class }
    {
        class < BUILT_IN_COUNT || self.class(class).is_some()
    }

    /// Whether a thread can be started for an object of this class: it is Thread, whose number is 1, or extends it.
    pub fn is_thread(&self, class: u32) -> bool
        ensures { result ≡ is_thread_class self.now class }
    {
        class_kinds::is_thread(self.classes.as_slice(), class)
    }

    /// Whether an object of this class may stand for Runnable.
    pub fn is_runnable(&self, class: u32) -> bool
        ensures { result ≡ is_runnable_class self.now class }
    {
        class_kinds::is_runnable(self.classes.as_slice(), class)
    }

    /// Whether a value of the first kind may stand where the second is wanted.
    #[tactic(auto, using(class_kinds::proofs::Alone::same_assignable))]
    fn is_assignable(&self, from: Kind, to: Kind) -> bool
        ensures { result ≡ is_assignable self.now from to }
    {
        class_kinds::is_assignable(self.classes.as_slice(), from, to)
    }

    /// Whether the value may be kept where this kind is declared; null may be too where it is the kind of the argument of
    /// `main`.
    pub fn fits_kind(&self, value: Value, kind: Kind) -> bool
        ensures { result ≡ fits self.now value kind }
    {
        self.is_assignable(kind_of(value), kind) || is_null(value) && is_args(kind)
    }

    /// Whether the value may be kept at a place that is declared so. At one that isn't declared, whose kind is none, nothing
    /// may be kept.
    pub fn fits_declared(&self, value: Value, kind: Option<Kind>) -> bool
        ensures { result ≡ fits_declared self.now value kind }
    {
        match kind {
            Some(kind) => self.fits_kind(value, kind),
            None => false,
        }
    }

    /// The kind that a static is declared to hold.
    pub fn static_kind(&self, slot: u32) -> Option<Kind>
        ensures { result ≡ static_kind self.now slot }
    {
        match self.statics.get(slot as usize) {
            Some(found) => Some(found.kind),
            None => None,
        }
    }

    fn declared_kind(&self, class: u32, place: usize) -> Option<Kind>
        ensures { result ≡ kind_at (declared_kinds (class_at self.now class)) place }
    {
        match self.class(class) {
            Some(found) => match found.fields.get(place) {
                Some(field) => Some(field.kind),
                None => None,
            },
            None => None,
        }
    }

    /// The kind that a field of an object of this class is declared to hold. Place 0 of a thread is its Runnable target.
    pub fn field_kind(&self, class: u32, place: u32) -> Option<Kind>
        ensures { result ≡ kind_at (field_kinds self.now class) place }
    {
        if !self.is_thread(class) {
            return self.declared_kind(class, place as usize);
        }
        if place == 0 {
            return Some(Kind::Ref(RUNNABLE));
        }
        self.declared_kind(class, place as usize - 1)
    }

    /// What the fields of a new object of this class hold. Of a thread the first is its Runnable target.
    pub fn first_fields(&self, alloc: Global, class: u32) -> Result<Vec<Value>, NoMemory>
        ensures { IfOk result (λ values. values.items ≡ map first_value_of (field_kinds self.now class)) }
    {
        let hidden = hidden_values(alloc, self.is_thread(class))?;
        match self.class(class) {
            Some(found) => with_first_values(hidden, found.fields.as_slice()),
            None => Ok(hidden),
        }
    }

    /// The first values of the statics.
    pub fn first_statics(&self, alloc: Global) -> Result<Vec<Value>, NoMemory>
        ensures { IfOk result (λ values. values.items ≡ map start_of_slot self.now.statics) }
    {
        match self.statics.iter().map(|slot| slot.start).collect(alloc) {
            Ok(values) => return Ok(values),
            Err(_) => return Err(NoMemory),
        }
    }

    /// Whether there is a text constant of this number.
    pub fn has_text(&self, text: u32) -> bool
        ensures { result ≡ nat_lt text (length self.now.texts) }
    {
        (text as usize) < self.texts.len()
    }

    /// The bytes of the text constant of this number; none where there is no such constant.
    pub fn text(&self, text: u32) -> &[u8]
        ensures { result.now ≡ text_at self.now text }
    {
        match self.texts.get(text as usize) {
            Some(found) => found.bytes(),
            None => &[],
        }
    }
}

/// The first value of the hidden field of a thread.
fn hidden_values(alloc: Global, is_thread: bool) -> Result<Vec<Value>, NoMemory>
    ensures { IfOk result (λ values. values.items ≡ (if is_thread then value.Null ∷ [] else [])) }
{
    let mut values = Vec::new(alloc);
    if is_thread {
        values.push(Value::Null)?;
    }
    Ok(values)
}

//! Classes and their supers, and which kind may stand for which.

ghost use Rattle.std.specs.Prelude.{◌≡◌, Some, slice_get};
ghost use Rattle.std.specs.Option.{option_copied};
ghost use Rattle.vm_model.specs.Program.{class_in};
ghost use Rattle.machine_model.specs.Kinds.{super_of as model_super_of, supers_within, chain, is_thread_class, is_runnable_class, extends as model_extends, is_assignable as model_is_assignable};
ghost use Rattle.class_kinds.specs.Classes.{classes_alone, is_among};

use built_in_classes::{LONGEST_CHAIN, OBJECT, RUNNABLE, THREAD, built_in_super};
use vm_model::{Class, FIRST_USER_CLASS, Kind};

/// The user class of this number, where the first of these classes has the number `FIRST_USER_CLASS`.
pub fn user_class(classes: &[Class], class: u32) -> Option<&Class>
    ensures { option_copied result ≡ class_in classes.now class }
{
    if class < FIRST_USER_CLASS {
        None
    } else {
        classes.get((class - FIRST_USER_CLASS) as usize)
    }
}

/// The class that this class extends, if it extends one.
pub fn super_of(classes: &[Class], class: u32) -> Option<u32>
    ensures { result ≡ model_super_of (classes_alone classes.now) class }
{
    if class < FIRST_USER_CLASS {
        return built_in_super(class);
    }
    match user_class(classes, class) {
        Some(found) => {
            if found.is_thread {
                Some(THREAD)
            } else {
                Some(OBJECT)
            }
        }
        None => None,
    }
}

/// Whether `wanted` is among the class and its supers, of which at most `most` are looked at.
#[tactic(auto, using(crate::proofs::Chains::none_above))]
fn reaches(classes: &[Class], most: u8, class: u32, wanted: u32) -> bool
    ensures { result ≡ is_among (supers_within most (classes_alone classes.now) (Some class)) wanted }
{
    if most == 0 {
        return false;
    }
    if class == wanted {
        return true;
    }
    match super_of(classes, class) {
        Some(found) => reaches(classes, most - 1, found, wanted),
        None => false,
    }
}

/// Whether `wanted` is among the class and its supers: no chain is longer.
#[tactic(auto, unfolding(machine_model::specs::Kinds::chain))]
pub fn is_among_supers(classes: &[Class], class: u32, wanted: u32) -> bool
    ensures { result ≡ is_among (chain (classes_alone classes.now) class) wanted }
{
    reaches(classes, LONGEST_CHAIN, class, wanted)
}

/// Whether a thread can be started for an object of this class: it is Thread, whose number is 1, or extends it.
pub fn is_thread(classes: &[Class], class: u32) -> bool
    ensures { result ≡ is_thread_class (classes_alone classes.now) class }
{
    if class == THREAD {
        return true;
    }
    match user_class(classes, class) {
        Some(found) => found.is_thread,
        None => false,
    }
}

/// Whether an object of this class may stand for Runnable.
pub fn is_runnable(classes: &[Class], class: u32) -> bool
    ensures { result ≡ is_runnable_class (classes_alone classes.now) class }
{
    if class == THREAD {
        return true;
    }
    match user_class(classes, class) {
        Some(found) => found.is_runnable || found.is_thread,
        None => false,
    }
}

/// Whether a reference to the first class may stand for one to the second.
fn extends(classes: &[Class], class: u32, wanted: u32) -> bool
    ensures { result ≡ model_extends (classes_alone classes.now) class wanted }
{
    is_among_supers(classes, class, wanted) || wanted == RUNNABLE && is_runnable(classes, class)
}

/// Whether a value of the first kind may stand where the second is wanted (JVMS SE 8 §4.10.1.2).
pub fn is_assignable(classes: &[Class], from: Kind, to: Kind) -> bool
    ensures { result ≡ model_is_assignable (classes_alone classes.now) from to }
{
    match from {
        Kind::Int => match to {
            Kind::Int => true,
            Kind::Null => false,
            Kind::Ref(_) => false,
            Kind::Arr => false,
            Kind::Args => false,
        },
        Kind::Null => match to {
            Kind::Int => false,
            Kind::Null => true,
            Kind::Ref(_) => true,
            Kind::Arr => true,
            Kind::Args => false,
        },
        Kind::Ref(class) => match to {
            Kind::Int => false,
            Kind::Null => false,
            Kind::Ref(wanted) => extends(classes, class, wanted),
            Kind::Arr => false,
            Kind::Args => false,
        },
        Kind::Arr => match to {
            Kind::Int => false,
            Kind::Null => false,
            Kind::Ref(wanted) => wanted == OBJECT,
            Kind::Arr => true,
            Kind::Args => false,
        },
        Kind::Args => match to {
            Kind::Int => false,
            Kind::Null => false,
            Kind::Ref(_) => false,
            Kind::Arr => false,
            Kind::Args => true,
        },
    }
}

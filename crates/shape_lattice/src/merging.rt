//! Merging shapes that meet at an instruction.

ghost use Rattle.std.specs.Prelude.{◌≡◌, ◌<◌, cond, length, IfOk, Ok, Err, Some, None, if◌then◌else◌};
ghost use Rattle.machine_model.specs.Declarations.{declarations_of};
ghost use Rattle.machine_model.specs.Shapes.{is_subsumed as model_is_subsumed};
ghost use Rattle.shape_lattice.specs.Merging.{nearest_super as model_nearest_super, merged_array as model_merged_array, merged_kind as model_merged_kind, merged_kinds, merged_local as model_merged_local, merged_locals, merged_shape, takes as model_takes, takes_kinds as model_takes_kinds, takes_local as model_takes_local, takes_locals as model_takes_locals};
ghost use Rattle.shape_lattice.specs.InPlace.{MergedSo, MergedKindsSo};

use crate::fault::ShapeKind;
use crate::kinds::{is_among_supers, super_of};
use crate::shape::Shape;
use built_in_classes::OBJECT;
use vm_model::{Kind, Program};

/// Whether merging the first kind into the second leaves the second as it is.
pub fn is_subsumed(program: &Program, new: Kind, old: Kind) -> bool
    ensures { result ≡ model_is_subsumed program.now new old }
{
    match (new, old) {
        (Kind::Int, Kind::Int) => true,
        (Kind::Null, Kind::Null | Kind::Ref(_) | Kind::Arr) => true,
        (Kind::Ref(class), Kind::Ref(wanted)) => is_among_supers(program, class, wanted),
        (Kind::Arr, Kind::Ref(class)) => class == OBJECT,
        (Kind::Arr, Kind::Arr) => true,
        (Kind::Args, Kind::Args) => true,
        _ => false,
    }
}

fn takes_kinds(program: &Program, new: &[Kind], old: &[Kind]) -> bool
    ensures { result ≡ model_takes_kinds program.now new.now old.now }
{
    let mut ks = new;
    let mut ls = old;
    while let [k, ks_after @ ..] = ks {
        let [l, ls_after @ ..] = ls else {
            return false;
        };
        if !is_subsumed(program, *k, *l) {
            return false;
        }
        ks = ks_after;
        ls = ls_after;
    }
    ls.is_empty()
}

fn takes_local(program: &Program, new: Option<Kind>, old: Option<Kind>) -> bool
    ensures { result ≡ model_takes_local program.now new old }
{
    match (new, old) {
        (_, None) => true,
        (None, Some(_)) => false,
        (Some(k), Some(l)) => is_subsumed(program, k, l),
    }
}

fn takes_locals(program: &Program, new: &[Option<Kind>], old: &[Option<Kind>]) -> bool
    ensures { result ≡ model_takes_locals program.now new.now old.now }
{
    let mut ks = new;
    let mut ls = old;
    while let [k, ks_after @ ..] = ks {
        let [l, ls_after @ ..] = ls else {
            return false;
        };
        if !takes_local(program, *k, *l) {
            return false;
        }
        ks = ks_after;
        ls = ls_after;
    }
    ls.is_empty()
}

/// Whether merging the first shape into the second leaves the second as it is. It takes no memory.
pub fn takes(program: &Program, new: &Shape, old: &Shape) -> bool
    ensures { result ≡ model_takes program.now new.now old.now }
{
    takes_kinds(program, &new.stack, &old.stack) && takes_locals(program, &new.locals, &old.locals)
}

/// The nearest class that both are or extend.
pub fn nearest_super(program: &Program, first: u32, second: u32) -> Option<u32>
    ensures { result ≡ model_nearest_super (declarations_of program.now) first second }
{
    let mut class = Some(second);
    for depth in 0..6u32 {
        let Some(c) = class else {
            return None;
        };
        if is_among_supers(program, first, c) {
            return Some(c);
        }
        class = super_of(program, c);
    }
    None
}

fn merged_array(program: &Program, class: u32) -> Option<Kind>
    ensures { result ≡ model_merged_array (declarations_of program.now) class }
{
    if is_among_supers(program, class, 0) {
        Some(Kind::Ref(OBJECT))
    } else {
        None
    }
}

/// The first kind, merged into the second.
pub fn merged_kind(program: &Program, new: Kind, old: Kind) -> Option<Kind>
    ensures { result ≡ model_merged_kind program.now new old }
{
    match (new, old) {
        (Kind::Int, Kind::Int) => Some(Kind::Int),
        (Kind::Null, Kind::Null | Kind::Ref(_) | Kind::Arr) => Some(old),
        (Kind::Ref(_) | Kind::Arr, Kind::Null) => Some(new),
        (Kind::Ref(c), Kind::Ref(d)) => nearest_super(program, c, d).map(Kind::Ref),
        (Kind::Ref(c), Kind::Arr) => merged_array(program, c),
        (Kind::Arr, Kind::Ref(d)) => merged_array(program, d),
        (Kind::Arr, Kind::Arr) => Some(Kind::Arr),
        (Kind::Args, Kind::Args) => Some(Kind::Args),
        _ => None,
    }
}

fn merged_local(program: &Program, new: Option<Kind>, old: Option<Kind>) -> Option<Kind>
    ensures { result ≡ model_merged_local program.now new old }
{
    match (new, old) {
        (Some(k), Some(l)) => merged_kind(program, k, l),
        _ => None,
    }
}

/// Merges the first kinds into as many others; false where two have no common kind, and then the others are unknown.
fn merge_kinds(program: &Program, new: &[Kind], old: &mut [Kind]) -> bool
    requires { length new.now ≡ length old.old }
    ensures { MergedKindsSo result old.new (merged_kinds program.now new.now old.old) }
{
    for i in 0..old.len() {
        let Some(k) = merged_kind(program, new[i], old[i]) else {
            return false;
        };
        old[i] = k;
    }
    true
}

fn merge_locals(program: &Program, new: &[Option<Kind>], old: &mut [Option<Kind>])
    requires { length new.now ≡ length old.old }
    ensures { old.new ≡ merged_locals program.now new.now old.old }
{
    for i in 0..old.len() {
        old[i] = merged_local(program, new[i], old[i]);
    }
}

/// Merges the first shape into the second, which takes no memory. After an error the second is unknown.
pub fn merge(program: &Program, new: &Shape, old: &mut Shape) -> Result<(), ShapeKind>
    requires { length new.now.locals ≡ length old.old.locals }
    ensures { MergedSo result old.new (merged_shape program.now new.now old.old) }
{
    if new.stack.len() != old.stack.len() {
        return Err(ShapeKind::Depth);
    }
    if !merge_kinds(program, &new.stack, &mut old.stack) {
        return Err(ShapeKind::Kind);
    }
    merge_locals(program, &new.locals, &mut old.locals);
    Ok(())
}

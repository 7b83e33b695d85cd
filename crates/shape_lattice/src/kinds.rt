//! Classes of a program and their supers, and which kind may stand for which.

ghost use Rattle.std.specs.Prelude.{◌≡◌};
ghost use Rattle.machine_model.specs.Declarations.{declarations_of};
ghost use Rattle.machine_model.specs.Kinds.{super_of as model_super_of, chain, is_assignable as model_is_assignable};
ghost use Rattle.class_kinds.specs.Classes.{is_among};

use vm_model::{Kind, Program};

/// The class that this class extends, if it extends one.
pub fn super_of(program: &Program, class: u32) -> Option<u32>
    ensures { result ≡ model_super_of (declarations_of program.now) class }
{
    class_kinds::super_of(program.classes.as_slice(), class)
}

/// Whether `wanted` is among the class and its supers.
pub fn is_among_supers(program: &Program, class: u32, wanted: u32) -> bool
    ensures { result ≡ is_among (chain (declarations_of program.now) class) wanted }
{
    class_kinds::is_among_supers(program.classes.as_slice(), class, wanted)
}

/// Whether a value of the first kind may stand where the second is wanted (JVMS SE 8 §4.10.1.2).
pub fn is_assignable(program: &Program, from: Kind, to: Kind) -> bool
    ensures { result ≡ model_is_assignable (declarations_of program.now) from to }
{
    class_kinds::is_assignable(program.classes.as_slice(), from, to)
}

// The table of the built-in classes, and what it says of a class.
ghost use Rattle.std.specs.Prelude.{◌≡◌, ◌≤◌, length, slice_get};
ghost use Rattle.built_in_classes.specs.declared.numbers.TheConstants.{BUILT_IN_COUNT};
ghost use Rattle.built_in_classes.specs.Classes as spec;
ghost use Rattle.built_in_classes.specs.Rows.{classes_of, name_column, super_column, constructor_column};

use crate::numbers::{
    ERROR, EXCEPTION, ILLEGAL_ARGUMENT_EXCEPTION, INDEX_OUT_OF_BOUNDS_EXCEPTION, OBJECT,
    RUNTIME_EXCEPTION, THROWABLE, VIRTUAL_MACHINE_ERROR,
};

/// Which constructors a built-in class has. A class without one has no objects of its own either.
#[derive(Clone, Copy, Debug, PartialEq, Eq)]
pub enum Constructors {
    Absent,
    /// `<init>()V` alone.
    Plain,
    /// `<init>()V` and `<init>(Ljava/lang/String;)V`.
    WithText,
}

/// The name, the super, if there is one, and the constructors of each built-in class, at the place of its number (Java SE 8
/// API, `java.lang` and `java.io`). String and PrintStream extend nothing here: nothing else may stand for them, nor they
/// for another class.
const BUILT_IN_CLASSES: [(&[u8], Option<u32>, Constructors); 23] = [
    (b"java/lang/Object", None, Constructors::Plain),
    (b"java/lang/Thread", Some(OBJECT), Constructors::Plain),
    (b"java/lang/Runnable", Some(OBJECT), Constructors::Absent),
    (b"java/lang/String", None, Constructors::Absent),
    (b"java/io/PrintStream", None, Constructors::Absent),
    (b"java/lang/Throwable", Some(OBJECT), Constructors::WithText),
    (
        b"java/lang/Exception",
        Some(THROWABLE),
        Constructors::WithText,
    ),
    (
        b"java/lang/RuntimeException",
        Some(EXCEPTION),
        Constructors::WithText,
    ),
    (b"java/lang/Error", Some(THROWABLE), Constructors::WithText),
    (
        b"java/lang/ArithmeticException",
        Some(RUNTIME_EXCEPTION),
        Constructors::WithText,
    ),
    (
        b"java/lang/NullPointerException",
        Some(RUNTIME_EXCEPTION),
        Constructors::WithText,
    ),
    (
        b"java/lang/IndexOutOfBoundsException",
        Some(RUNTIME_EXCEPTION),
        Constructors::WithText,
    ),
    (
        b"java/lang/ArrayIndexOutOfBoundsException",
        Some(INDEX_OUT_OF_BOUNDS_EXCEPTION),
        Constructors::WithText,
    ),
    (
        b"java/lang/NegativeArraySizeException",
        Some(RUNTIME_EXCEPTION),
        Constructors::WithText,
    ),
    (
        b"java/lang/IllegalArgumentException",
        Some(RUNTIME_EXCEPTION),
        Constructors::WithText,
    ),
    (
        b"java/lang/IllegalMonitorStateException",
        Some(RUNTIME_EXCEPTION),
        Constructors::WithText,
    ),
    (
        b"java/lang/IllegalThreadStateException",
        Some(ILLEGAL_ARGUMENT_EXCEPTION),
        Constructors::WithText,
    ),
    (
        b"java/lang/IllegalStateException",
        Some(RUNTIME_EXCEPTION),
        Constructors::WithText,
    ),
    (
        b"java/lang/InterruptedException",
        Some(EXCEPTION),
        Constructors::WithText,
    ),
    (
        b"java/lang/VirtualMachineError",
        Some(ERROR),
        Constructors::Absent,
    ),
    (
        b"java/lang/StackOverflowError",
        Some(VIRTUAL_MACHINE_ERROR),
        Constructors::WithText,
    ),
    (
        b"java/lang/OutOfMemoryError",
        Some(VIRTUAL_MACHINE_ERROR),
        Constructors::WithText,
    ),
    (
        b"java/lang/AssertionError",
        Some(ERROR),
        Constructors::Plain,
    ),
];

fn name_in<'a>(rows: &[(&'a [u8], Option<u32>, Constructors)], class: u32) -> &'a [u8]
    ensures { result.now ≡ spec.listed_name (slice_get (name_column rows.now) class) }
{
    match rows.get(class as usize) {
        Some(row) => row.0,
        None => &[],
    }
}

fn super_in(rows: &[(&[u8], Option<u32>, Constructors)], class: u32) -> Option<u32>
    ensures { result ≡ spec.listed_super (slice_get (super_column rows.now) class) }
{
    match rows.get(class as usize) {
        Some(row) => row.1,
        None => None,
    }
}

fn constructors_in(rows: &[(&[u8], Option<u32>, Constructors)], class: u32) -> Option<Constructors>
    ensures { result ≡ slice_get (constructor_column rows.now) class }
{
    match rows.get(class as usize) {
        Some(row) => Some(row.2),
        None => None,
    }
}

/// The name of the built-in class of this number; none where there is no such class.
pub fn built_in_name(class: u32) -> &'static [u8]
    ensures { result.now ≡ spec.built_in_name class }
{
    name_in(&BUILT_IN_CLASSES, class)
}

fn number_in(rows: &[(&[u8], Option<u32>, Constructors)], name: &[u8]) -> Option<u32>
    requires { length rows.now ≤ BUILT_IN_COUNT }
    ensures { result ≡ spec.number_from 0 (classes_of rows.now) name.now }
{
    let mut number = 0;
    let mut rest = rows;
    while let [row, after @ ..] = rest {
        if name == row.0 {
            return Some(number);
        }
        number += 1;
        rest = after;
    }
    None
}

/// The number of the built-in class of this name, if there is one.
pub fn built_in_number(name: &[u8]) -> Option<u32>
    ensures { result ≡ spec.built_in_number name.now }
{
    number_in(&BUILT_IN_CLASSES, name)
}

/// The class that a built-in class extends, if it extends one; none where there is no such class.
pub fn built_in_super(class: u32) -> Option<u32>
    ensures { result ≡ spec.built_in_super class }
{
    super_in(&BUILT_IN_CLASSES, class)
}

fn constructors_of(class: u32) -> Option<Constructors>
    ensures { result ≡ spec.constructors_of class }
{
    constructors_in(&BUILT_IN_CLASSES, class)
}

/// Whether `new` takes a class of this number, which is that of a built-in class or of a user class.
pub fn has_objects(class: u32) -> bool
    ensures { result ≡ spec.has_objects class }
{
    match constructors_of(class) {
        Some(Constructors::Absent) => false,
        Some(Constructors::Plain) => true,
        Some(Constructors::WithText) => true,
        None => true,
    }
}

/// Whether this is a built-in class with the constructor `<init>()V`.
pub fn has_constructor(class: u32) -> bool
    ensures { result ≡ spec.has_constructor class }
{
    match constructors_of(class) {
        Some(Constructors::Absent) => false,
        Some(Constructors::Plain) => true,
        Some(Constructors::WithText) => true,
        None => false,
    }
}

/// Whether this is a built-in class with the constructor `<init>(Ljava/lang/String;)V`.
pub fn has_text_constructor(class: u32) -> bool
    ensures { result ≡ spec.has_text_constructor class }
{
    match constructors_of(class) {
        Some(Constructors::Absent) => false,
        Some(Constructors::Plain) => false,
        Some(Constructors::WithText) => true,
        None => false,
    }
}

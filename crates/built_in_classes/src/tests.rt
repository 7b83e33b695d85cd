// The table against the classes of the Java library.
use crate::{
    Constructors, built_in_name, built_in_number, built_in_super, has_constructor, has_objects,
    has_text_constructor,
};
use std::test::Fail;

/// A number, the name and the super that it stands for, if there is one, and the constructors.
const CLASSES: [(u32, &[u8], Option<u32>, Constructors); 9] = [
    (0, b"java/lang/Object", None, Constructors::Plain),
    (1, b"java/lang/Thread", Some(0), Constructors::Plain),
    (2, b"java/lang/Runnable", Some(0), Constructors::Absent),
    (3, b"java/lang/String", None, Constructors::Absent),
    (
        12,
        b"java/lang/ArrayIndexOutOfBoundsException",
        Some(11),
        Constructors::WithText,
    ),
    (
        16,
        b"java/lang/IllegalThreadStateException",
        Some(14),
        Constructors::WithText,
    ),
    (
        18,
        b"java/lang/InterruptedException",
        Some(6),
        Constructors::WithText,
    ),
    (
        19,
        b"java/lang/VirtualMachineError",
        Some(8),
        Constructors::Absent,
    ),
    (
        22,
        b"java/lang/AssertionError",
        Some(8),
        Constructors::Plain,
    ),
];

fn is_so(number: u32, name: &[u8], extended: Option<u32>, constructors: Constructors) -> bool {
    built_in_name(number) == name
        && built_in_number(name) == Some(number)
        && built_in_super(number) == extended
        && has_objects(number) == (constructors != Constructors::Absent)
        && has_constructor(number) == (constructors != Constructors::Absent)
        && has_text_constructor(number) == (constructors == Constructors::WithText)
}

#[test]
fn the_table_is_that_of_the_library(rt: HostRuntime) -> Result<(), Fail> {
    for (number, name, extended, constructors) in CLASSES.iter() {
        assert!(rt; is_so(*number, name, *extended, *constructors));
    }
    Ok(())
}

#[test]
fn other_numbers_and_names_are_of_no_built_in_class(rt: HostRuntime) -> Result<(), Fail> {
    assert!(rt; built_in_name(23).is_empty() && built_in_super(23).is_none());
    assert!(rt; has_objects(32) && !has_constructor(32) && !has_text_constructor(32));
    assert!(rt; built_in_number(b"java/lang/System").is_none());
    Ok(())
}

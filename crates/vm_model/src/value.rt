/// What a local, an operand, a static or a field holds (JVMS SE 8 §2.2). A reference carries its class or its length,
/// which never change, so that the tests for null, for bounds and for the method to call touch no shared state.
#[derive(Clone, Copy, Debug, PartialEq, Eq)]
pub enum Value {
    /// A number of 32 bits.
    Int(i32),
    Null,
    /// An object: its number among objects and arrays, and the number of its class.
    Obj { id: u32, class: u32 },
    /// An array of ints: its number among objects and arrays, and how many items it has.
    Arr { id: u32, len: u32 },
    /// A text constant: its number in the program.
    Text(u32),
    /// The stream `System.out`.
    Stream,
}

/// A reference to an object that isn't null: its number among objects and arrays, and the number of its class.
#[derive(Clone, Copy, Debug, PartialEq, Eq)]
pub struct ObjRef {
    pub id: u32,
    pub class: u32,
}

/// A lock, of which there is one for each object, array and user class (JLS SE 8 §17.1). A class is named by its number.
#[derive(Clone, Copy, Debug, PartialEq, Eq)]
pub enum Lock {
    Object(u32),
    Class(u32),
}

/// What the verifier knows of a value, and what a static, a field or a parameter is declared to hold.
#[derive(Clone, Copy, Debug, PartialEq, Eq)]
pub enum Kind {
    Int,
    Null,
    /// A reference to the class of this number.
    Ref(u32),
    /// An array of ints.
    Arr,
    /// The argument of `main`.
    Args,
}

//! Why a name stands for nothing, or a line is wrong.

ghost use Rattle.std.specs.Prelude.{◌≡◌};

/// What is wrong with a line of a text whose grammar is right. Of several faults of one line the one with the least number counts.
#[derive(Clone, Copy, Debug, PartialEq, Eq)]
pub enum LinkKind {
    /// No method is `public static main([Ljava/lang/String;)V`: at line 0, where nothing else is wrong.
    NoMain,
    /// A class that is named, by itself or in a descriptor, is neither built in nor in the text.
    UnknownClass,
    /// A field isn't there, or isn't one that the instruction takes.
    UnknownField,
    /// A method isn't there, or isn't one that the instruction takes; an interface's method is missing in its class.
    UnknownMethod,
    /// A jump's label isn't in the method.
    UnknownLabel,
    /// A second class, field of a class, or method of a class has the same name (and descriptor), or a class that of a built-in one.
    Twice,
    /// A descriptor is spelled wrong, or a constructor gives something back.
    BadDescriptor,
    /// A limit is passed.
    TooMany,
    /// It means something to a real machine, and isn't part of the language here.
    OutOfProfile,
}

impl LinkKind {
    ghost use Rattle.name_resolver.specs.Faults.{kind_number};

    /// The number from 1 to 9 by which the kind is printed.
    pub fn number(&self) -> u8
        ensures { result ≡ kind_number self.now }
    {
        match self {
            LinkKind::NoMain => 1,
            LinkKind::UnknownClass => 2,
            LinkKind::UnknownField => 3,
            LinkKind::UnknownMethod => 4,
            LinkKind::UnknownLabel => 5,
            LinkKind::Twice => 6,
            LinkKind::BadDescriptor => 7,
            LinkKind::TooMany => 8,
            LinkKind::OutOfProfile => 9,
        }
    }
}

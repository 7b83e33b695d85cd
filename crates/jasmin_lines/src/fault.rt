//! Why a line of a text isn't read.

ghost use Rattle.std.specs.Prelude.{◌≡◌};

/// How a line breaks the grammar. Of several faults of one line the one with the least number counts.
#[derive(Clone, Copy, Debug, PartialEq, Eq)]
pub enum ReadKind {
    /// Before the first class stands another line than `.source`, `.bytecode`, `.interface` or `.class`.
    NoClass,
    /// A first word that begins with a dot is none of the directives.
    BadDirective,
    /// The first word of a line, or the word after a label, is no mnemonic.
    BadMnemonic,
    /// The words of a line are too few, too many, in another order or of another form than the line asks for, or a number is out
    /// of its range.
    BadOperand,
    /// A name has another form than names have.
    BadName,
    /// An instruction, a label or a line of a method stands outside methods.
    OutsideMethod,
    /// A line of a class stands inside a method.
    InMethod,
    /// A field, a method, the next class or the end of the text comes in a class before its `.super`.
    NoSuper,
    /// A method has a second label of one name.
    LabelTwice,
    /// A method has no `.end method`: at the line of its `.method`.
    EndMissing,
    /// The text has more than `MOST_TEXT_BYTES` bytes: at line 0.
    TooMany,
    /// A class has a second `.super`, or a method a second `.limit` of one kind.
    Repeat,
}

impl ReadKind {
    ghost use Rattle.jasmin_lines.specs.Faults.{kind_number};

    /// The number from 1 to 12 by which the kind is printed.
    pub fn number(&self) -> u8
        ensures { result ≡ kind_number self.now }
    {
        match self {
            ReadKind::NoClass => 1,
            ReadKind::BadDirective => 2,
            ReadKind::BadMnemonic => 3,
            ReadKind::BadOperand => 4,
            ReadKind::BadName => 5,
            ReadKind::OutsideMethod => 6,
            ReadKind::InMethod => 7,
            ReadKind::NoSuper => 8,
            ReadKind::LabelTwice => 9,
            ReadKind::EndMissing => 10,
            ReadKind::TooMany => 11,
            ReadKind::Repeat => 12,
        }
    }
}

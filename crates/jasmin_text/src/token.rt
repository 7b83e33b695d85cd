use vm_model::Name;

/// What a token is.
#[derive(Debug, Drop)]
pub enum TokenKind {
    /// A run of bytes that are no white space, which is neither a number nor a string.
    Word,
    /// Digits, or a minus sign and digits, and the number that they spell.
    Number(i32),
    /// A text between quotes, with its escapes replaced by what they stand for.
    Str(Name),
    /// A line feed, or the end of a text that doesn't end in one.
    LineEnd,
}

/// A token, and the bytes of the text that it is made of: from `from`, counted from 0, up to `to`, not included. Its first
/// byte stands at `column` of `line`, both counted from 1, columns in bytes.
#[derive(Debug, Drop)]
pub struct Token {
    pub kind: TokenKind,
    pub from: u32,
    pub to: u32,
    pub line: u32,
    pub column: u32,
}

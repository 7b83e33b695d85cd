// The tokens of texts, shown with where each stands, and the first faults of texts.
use jasmin_text::{TextFault, TextKind, Token, TokenKind, tokens};
use std::alloc::Global;
use std::test::Fail;
use vm_model::{MOST_TEXT_BYTES, NoMemory};

/// What a token is; a string shows the bytes that it stands for.
fn kind_shown(alloc: Global, kind: &TokenKind) -> Result<String, NoMemory> {
    match kind {
        TokenKind::Word => Ok(format!(in alloc; "word")?),
        TokenKind::Number(number) => Ok(format!(in alloc; "number {number}")?),
        TokenKind::Str(text) => Ok(format!(in alloc; "string {:?}", text.bytes())?),
        TokenKind::LineEnd => Ok(format!(in alloc; "end")?),
    }
}

/// Two numbers and what stands between them.
fn pair_shown(alloc: Global, first: u32, between: &str, second: u32) -> Result<String, NoMemory> {
    Ok(format!(in alloc; "{first}{between}{second}")?)
}

/// Adds a token as `kind from..to line:column`.
fn show(alloc: Global, token: &Token, out: &mut String) -> Result<(), NoMemory> {
    out.push_str(&kind_shown(alloc, &token.kind)?)?;
    out.push_str(" ")?;
    out.push_str(&pair_shown(alloc, token.from, "..", token.to)?)?;
    out.push_str(" ")?;
    out.push_str(&pair_shown(alloc, token.line, ":", token.column)?)?;
    Ok(())
}

/// Tokens one after another.
fn shown(alloc: Global, found: &[Token]) -> Result<String, NoMemory> {
    let mut out = String::new(alloc);
    for token in found {
        if !out.is_empty() {
            out.push_str(", ")?;
        }
        show(alloc, token, &mut out)?;
    }
    Ok(out)
}

/// A fault as `kind line:column`.
fn fault_shown(alloc: Global, kind: TextKind, line: u32, column: u32) -> Result<String, NoMemory> {
    Ok(format!(in alloc; "{kind:?} {line}:{column}")?)
}

/// The tokens of a text, or its fault.
fn answer(alloc: Global, text: &[u8]) -> Result<String, NoMemory> {
    if text.len() > MOST_TEXT_BYTES {
        return Err(NoMemory);
    }
    match tokens(alloc, text) {
        Ok(found) => shown(alloc, &found),
        Err(TextFault::At { kind, line, column }) => fault_shown(alloc, kind, line, column),
        Err(TextFault::NoMemory) => Err(NoMemory),
    }
}

/// The first row that is answered otherwise.
fn first_wrong(alloc: Global, rows: &[(&[u8], &str)]) -> Result<Option<usize>, NoMemory> {
    for (at, (text, wanted)) in rows.iter().enumerate() {
        if answer(alloc, text)?.as_str() != *wanted {
            return Ok(Some(at));
        }
    }
    Ok(None)
}

const ACCEPTED: [(&[u8], &str); 33] = [
    // ends of lines
    (b"", ""),
    (b"\n", "end 0..1 1:1"),
    (b"nop", "word 0..3 1:1, end 3..3 1:4"),
    (b"nop\n", "word 0..3 1:1, end 3..4 1:4"),
    (
        b"\n\nnop",
        "end 0..1 1:1, end 1..2 2:1, word 2..5 3:1, end 5..5 3:4",
    ),
    // white space
    (b" ", "end 1..1 1:2"),
    (b"\0\x1f\n", "end 2..3 1:3"),
    (
        b" a\tb \x7f c\x01d\r\n",
        "word 1..2 1:2, word 3..4 1:4, word 7..8 1:8, word 9..10 1:10, end 11..12 1:12",
    ),
    (
        b"a\r\nb\r\n",
        "word 0..1 1:1, end 2..3 1:3, word 3..4 2:1, end 5..6 2:3",
    ),
    // comments
    (b";x\ny", "end 2..3 1:3, word 3..4 2:1, end 4..4 2:2"),
    (b";;\n\n", "end 2..3 1:3, end 3..4 2:1"),
    (b"\t;\n", "end 2..3 1:3"),
    (b"a ;b\n", "word 0..1 1:1, end 4..5 1:5"),
    (b"a;b\n", "word 0..3 1:1, end 3..4 1:4"),
    (
        b"\"a\";c",
        "string [97] 0..3 1:1, word 3..5 1:4, end 5..5 1:6",
    ),
    (b";\xc8\"\\\r\n", "end 5..6 1:6"),
    (b"a ; b", "word 0..1 1:1, end 5..5 1:6"),
    // numbers
    (
        b"0 -1 007\n",
        "number 0 0..1 1:1, number -1 2..4 1:3, number 7 5..8 1:6, end 8..9 1:9",
    ),
    (b"-0", "number 0 0..2 1:1, end 2..2 1:3"),
    (
        b"2147483647 -2147483648",
        "number 2147483647 0..10 1:1, number -2147483648 11..22 1:12, end 22..22 1:23",
    ),
    (
        b"-00000000002147483648",
        "number -2147483648 0..21 1:1, end 21..21 1:22",
    ),
    (
        b"- 1a --1 5: +1",
        "word 0..1 1:1, word 2..4 1:3, word 5..8 1:6, word 9..11 1:10, word 12..14 1:13, end 14..14 1:15",
    ),
    (b"2147483648L", "word 0..11 1:1, end 11..11 1:12"),
    // words
    (b"'\\q a\"b\"", "word 0..3 1:1, word 4..8 1:5, end 8..8 1:9"),
    (b"~!\x20#", "word 0..2 1:1, word 3..4 1:4, end 4..4 1:5"),
    // strings
    (
        b"\"\\n\\t\\r\\\"\\'\\\\\"",
        "string [10, 9, 13, 34, 39, 92] 0..14 1:1, end 14..14 1:15",
    ),
    (
        b"\"a\"\"b\"",
        "string [97] 0..3 1:1, string [98] 3..6 1:4, end 6..6 1:7",
    ),
    (b"\"\"", "string [] 0..2 1:1, end 2..2 1:3"),
    (b"\"\t\"", "string [9] 0..3 1:1, end 3..3 1:4"),
    (b"\"~ \"", "string [126, 32] 0..4 1:1, end 4..4 1:5"),
    (b"\"'\"", "string [39] 0..3 1:1, end 3..3 1:4"),
    (b"\";\"", "string [59] 0..3 1:1, end 3..3 1:4"),
    (
        b"\"5\"5\"5",
        "string [53] 0..3 1:1, word 3..6 1:4, end 6..6 1:7",
    ),
];

#[test]
fn accepted_texts(rt: HostRuntime) -> Result<(), Fail> {
    assert_eq!(rt; first_wrong(rt.alloc(), &ACCEPTED)?, None);
    Ok(())
}

const REFUSED: [(&[u8], &str); 26] = [
    // words
    (b".class \xc3\xa9\n", "NotAscii 1:8"),
    (b"a\x80", "NotAscii 1:2"),
    (b"99999999999\xff", "NotAscii 1:12"),
    // numbers
    (b"ldc 2147483648", "NumberRange 1:5"),
    (b"ldc -2147483649\n", "NumberRange 1:5"),
    (b"99999999999999999999999", "NumberRange 1:1"),
    // strings
    (b"\"a\\q\"", "BadEscape 1:3"),
    (b"\"a\\\n\"", "BadEscape 1:3"),
    (b"\"\\\xc3\"", "BadEscape 1:2"),
    (b"\"\\\\\\N\"", "BadEscape 1:4"),
    (b"\"a\\q", "BadEscape 1:3"),
    (b" \"a\\", "OpenString 1:2"),
    (b" \"abc", "OpenString 1:2"),
    (b" \"abc\n\"", "OpenString 1:2"),
    (b"\"\\\"", "OpenString 1:1"),
    (b"\"", "OpenString 1:1"),
    (b"\"a\r\n", "NotAscii 1:3"),
    (b"\"\xc3\xa9\"", "NotAscii 1:2"),
    (b"\"ab\x7f\"", "NotAscii 1:4"),
    (b"\"\x1f\"", "NotAscii 1:2"),
    // the first of two, and a later line
    (b"99999999999 \xff", "NumberRange 1:1"),
    (b"\xff 99999999999", "NotAscii 1:1"),
    (b"nop\n99999999999\n\xff", "NumberRange 2:1"),
    (b"nop\r\n\n  \"\\x\" \xff", "BadEscape 3:4"),
    (b";\xff\n\xff", "NotAscii 2:1"),
    (b"a;b\n\"a\";\xff", "NotAscii 2:5"),
];

#[test]
fn refused_texts(rt: HostRuntime) -> Result<(), Fail> {
    assert_eq!(rt; first_wrong(rt.alloc(), &REFUSED)?, None);
    Ok(())
}

#[test]
fn numbers_of_kinds(rt: HostRuntime) {
    let kinds = [
        (TextKind::NotAscii, 1),
        (TextKind::BadEscape, 2),
        (TextKind::OpenString, 3),
        (TextKind::NumberRange, 4),
    ];
    for (kind, number) in kinds {
        assert_eq!(rt; kind.number(), number);
    }
}

// Words that are made of several: members of classes, and flags.
ghost use Rattle.std.specs.Prelude.{◌≡◌, ◌==◌, position, IfOk};
ghost use Rattle.name_resolver.specs.Words as spec;

use jasmin_lines::{is, last_slash};
use std::alloc::Global;
use vm_model::{Name, NoMemory};

/// Whether a name is among these.
pub fn has(names: &[Name], wanted: &[u8]) -> bool
    ensures { result ≡ spec.has wanted.now names.now }
{
    names.iter().any(|name| is(name.bytes(), wanted))
}

/// Whether one of the flags is there that the language hasn't.
pub fn has_foreign_flag(flags: &[Name]) -> bool
    ensures { result ≡ spec.has_foreign_flag flags.now }
{
    has(flags, b"abstract") || has(flags, b"interface") || has(flags, b"native")
}

fn find_open(word: &[u8]) -> Option<usize>
    ensures { result ≡ position (λ b. b == 40) word.now }
{
    word.iter().position(|b| *b == b'(')
}

/// A method's word up to its descriptor, and the descriptor.
pub fn described(word: &[u8]) -> (&[u8], &[u8])
    ensures { (result.0.now, result.1.now) ≡ spec.described word.now }
{
    match find_open(word) {
        Some(open) => (&word[..open], &word[open..]),
        None => (word, &[]),
    }
}

/// The class and the name of a member's word.
pub fn member(word: &[u8]) -> (&[u8], &[u8])
    ensures { (result.0.now, result.1.now) ≡ spec.member word.now }
{
    match last_slash(word) {
        Some(end) => (&word[..end], &word[end + 1..]),
        None => (&[], word),
    }
}

/// The word of a field of a class.
pub fn field_word(alloc: Global, class: &[u8], name: &[u8]) -> Result<Vec<u8>, NoMemory>
    ensures { IfOk result (λ v. v.items ≡ spec.field_word class.now name.now) }
{
    let mut word = Vec::from_slice(alloc, class)?;
    word.push(b'/')?;
    word.extend_from_slice(name)?;
    Ok(word)
}

/// A field's word with its descriptor.
pub fn field_key(alloc: Global, word: &[u8], desc: &[u8]) -> Result<Vec<u8>, NoMemory>
    ensures { IfOk result (λ v. v.items ≡ spec.field_key word.now desc.now) }
{
    let mut key = Vec::from_slice(alloc, word)?;
    key.push(b' ')?;
    key.extend_from_slice(desc)?;
    Ok(key)
}

/// The word of a method of a class, with its descriptor.
pub fn method_key(
    alloc: Global,
    class: &[u8],
    name: &[u8],
    desc: &[u8],
) -> Result<Vec<u8>, NoMemory>
    ensures { IfOk result (λ v. v.items ≡ spec.method_key class.now name.now desc.now) }
{
    let mut key = Vec::from_slice(alloc, class)?;
    key.push(b'/')?;
    key.extend_from_slice(name)?;
    key.extend_from_slice(desc)?;
    Ok(key)
}

// Texts put together from parts, and what is read of them.
use jasmin_lines::ClassText;
use jasmin_reader::{ReadFault, read_classes};
use jasmin_text::tokens;
use std::alloc::Global;
use vm_model::{MOST_TEXT_BYTES, NoMemory};

/// Three texts one after the other.
pub fn joined(alloc: Global, before: &str, middle: &str, after: &str) -> Result<String, NoMemory> {
    let mut text = String::new(alloc);
    text.push_str(before)?;
    text.push_str(middle)?;
    text.push_str(after)?;
    Ok(text)
}

/// What the reader says of a text that has tokens.
pub fn classes_in(alloc: Global, text: &str) -> Result<Vec<ClassText>, ReadFault> {
    let bytes = text.as_bytes();
    if bytes.len() > MOST_TEXT_BYTES {
        return Err(ReadFault::NoMemory);
    }
    match tokens(alloc, bytes) {
        Ok(found) => read_classes(alloc, bytes, &found),
        Err(_) => Err(ReadFault::NoMemory),
    }
}

/// The classes of a text that reads well.
pub fn classes_of(alloc: Global, text: &str) -> Result<Vec<ClassText>, NoMemory> {
    classes_in(alloc, text).or(Err(NoMemory))
}

//! The one line that a refusal prints, as text.

ghost use Rattle.std.specs.Prelude.{◌≡◌, ◌++◌, ◌∷◌, [], List, ℕ, IfOk, OnOk, decimal};
ghost use Rattle.tool_stages.specs.Lines as spec;

use report_writer::{end_text, put_method, put_number};
use std::alloc::Global;
use vm_model::{End, NoMemory, Program};

/// A line of a word and a file's name.
fn named(alloc: Global, word: &[u8], name: &str) -> Result<Vec<u8>, NoMemory>
    ensures { IfOk result (λ line. line.items ≡ spec.named word.now name.now) }
{
    let mut out = Vec::from_slice(alloc, word)?;
    out.extend_from_slice(name.as_bytes())?;
    out.push(10)?;
    Ok(out)
}

/// The line of words that are of no command.
pub fn usage(alloc: Global) -> Result<Vec<u8>, NoMemory>
    ensures { IfOk result (λ line. line.items ≡ spec.usage_line) }
{
    Ok(Vec::from_slice(alloc, b"usage\n")?)
}

/// The line of a file that isn't there.
pub fn absent(alloc: Global, name: &str) -> Result<Vec<u8>, NoMemory>
    ensures { IfOk result (λ line. line.items ≡ spec.absent_line name.now) }
{
    named(alloc, b"absent ", name)
}

/// The line of a file that the folder failed to load.
pub fn read_fault(alloc: Global, name: &str) -> Result<Vec<u8>, NoMemory>
    ensures { IfOk result (λ line. line.items ≡ spec.read_fault_line name.now) }
{
    named(alloc, b"read fault ", name)
}

/// The number of a fault, and its line.
fn put_fault(out: &mut Vec<u8>, word: &[u8], kind: u8, line: u32) -> Result<(), NoMemory>
    ensures { OnOk result (out.new.items ≡ out.old.items ++ spec.fault_at word.now kind line) }
{
    out.extend_from_slice(word)?;
    put_number(out, kind as u64)?;
    out.extend_from_slice(b" line ")?;
    put_number(out, line as u64)
}

/// A line of a fault with its line.
fn fault_line(alloc: Global, word: &[u8], kind: u8, line: u32) -> Result<Vec<u8>, NoMemory>
    ensures { IfOk result (λ text. text.items ≡ spec.fault_at word.now kind line ++ 10 ∷ []) }
{
    let mut out = Vec::new(alloc);
    put_fault(&mut out, word, kind, line)?;
    out.push(10)?;
    Ok(out)
}

/// The line of a fault of a text's bytes: its number, line and column, both from 1.
pub fn text(alloc: Global, kind: u8, line: u32, column: u32) -> Result<Vec<u8>, NoMemory>
    ensures { IfOk result (λ text. text.items ≡ spec.text_line kind line column) }
{
    let mut out = Vec::new(alloc);
    put_fault(&mut out, b"program refused: text ", kind, line)?;
    out.extend_from_slice(b" column ")?;
    put_number(&mut out, column as u64)?;
    out.push(10)?;
    Ok(out)
}

/// The line of a fault of a text's grammar: its number and line, from 1; line 0 where the text is too long.
pub fn read(alloc: Global, kind: u8, line: u32) -> Result<Vec<u8>, NoMemory>
    ensures { IfOk result (λ text. text.items ≡ spec.read_line kind line) }
{
    fault_line(alloc, b"program refused: read ", kind, line)
}

/// The line of a fault of a text's names: its number and line, from 1.
pub fn link(alloc: Global, kind: u8, line: u32) -> Result<Vec<u8>, NoMemory>
    ensures { IfOk result (λ text. text.items ≡ spec.link_line kind line) }
{
    fault_line(alloc, b"program refused: link ", kind, line)
}

/// The line of a fault of a program's shapes: its number, the method's name, and the instruction there, from 0.
pub fn shape(
    alloc: Global,
    program: &Program,
    kind: u8,
    method: u32,
    at: u32,
) -> Result<Vec<u8>, NoMemory>
    ensures { IfOk result (λ text. text.items ≡ spec.shape_line program.now kind method at) }
{
    let mut out = Vec::from_slice(alloc, b"program refused: shape ")?;
    put_number(&mut out, kind as u64)?;
    out.extend_from_slice(b" in ")?;
    put_method(&mut out, program, method)?;
    out.extend_from_slice(b" at ")?;
    put_number(&mut out, at as u64)?;
    out.push(10)?;
    Ok(out)
}

/// The line of bytes that spell no log: the number of the first fault, and the offset of its byte from 0.
pub fn log_refused(alloc: Global, kind: u8, offset: u64) -> Result<Vec<u8>, NoMemory>
    ensures { IfOk result (λ line. line.items ≡ spec.log_refused_line kind offset) }
{
    let mut out = Vec::from_slice(alloc, b"log refused: ")?;
    put_number(&mut out, kind as u64)?;
    out.extend_from_slice(b" at ")?;
    put_number(&mut out, offset)?;
    out.push(10)?;
    Ok(out)
}

/// The line of a log that doesn't run, with the clock of the turn that isn't defined and its thread; with no thread the log
/// ends otherwise than its run.
pub fn diverged(alloc: Global, clock: u64, thread: Option<u32>) -> Result<Vec<u8>, NoMemory>
    ensures { IfOk result (λ line. line.items ≡ spec.diverged_line clock thread) }
{
    let mut out = Vec::from_slice(alloc, b"diverged at ")?;
    put_number(&mut out, clock)?;
    match thread {
        Some(thread) => {
            out.extend_from_slice(b" thread ")?;
            put_number(&mut out, thread as u64)?;
        }
        None => out.extend_from_slice(b" at the end")?,
    }
    out.push(10)?;
    Ok(out)
}

/// The line of bytes that spell no schedule: the number of the first fault, and the offset of its byte from 0.
pub fn schedule_refused(alloc: Global, kind: u8, offset: u64) -> Result<Vec<u8>, NoMemory>
    ensures { IfOk result (λ line. line.items ≡ spec.schedule_refused_line kind offset) }
{
    let mut out = Vec::from_slice(alloc, b"schedule refused: ")?;
    put_number(&mut out, kind as u64)?;
    out.extend_from_slice(b" at ")?;
    put_number(&mut out, offset)?;
    out.push(10)?;
    Ok(out)
}

/// The line of a log whose schedule would need too many times from this clock on.
pub fn too_many(alloc: Global, clock: u64) -> Result<Vec<u8>, NoMemory>
    ensures { IfOk result (λ line. line.items ≡ spec.too_many_line clock) }
{
    let mut out = Vec::from_slice(alloc, b"schedule refused: 2 at clock ")?;
    put_number(&mut out, clock)?;
    out.push(10)?;
    Ok(out)
}

/// The line of a schedule that should pass, and how its run ends.
pub fn not_passing(alloc: Global, program: &Program, end: &End) -> Result<Vec<u8>, NoMemory>
    ensures { IfOk result (λ line. line.items ≡ spec.not_passing_line program.now end.now) }
{
    let mut out = Vec::from_slice(alloc, b"not passing: ")?;
    out.extend_from_slice(&end_text(alloc, end, program)?)?;
    Ok(out)
}

/// The line of a schedule that should fail, and how its run ends.
pub fn not_failing(alloc: Global, program: &Program, end: &End) -> Result<Vec<u8>, NoMemory>
    ensures { IfOk result (λ line. line.items ≡ spec.not_failing_line program.now end.now) }
{
    let mut out = Vec::from_slice(alloc, b"not failing: ")?;
    out.extend_from_slice(&end_text(alloc, end, program)?)?;
    Ok(out)
}

/// The line of a search that needs more tests than these, which are allowed.
pub fn tests_spent(alloc: Global, asked: u64) -> Result<Vec<u8>, NoMemory>
    ensures { IfOk result (λ line. line.items ≡ spec.tests_spent_line asked) }
{
    let mut out = Vec::from_slice(alloc, b"tests spent ")?;
    put_number(&mut out, asked)?;
    out.push(10)?;
    Ok(out)
}

/// The line of a search in which none of so many tries ended in a fault.
pub fn not_found(alloc: Global, tries: u64) -> Result<Vec<u8>, NoMemory>
    ensures { IfOk result (λ line. line.items ≡ spec.not_found_line tries) }
{
    let mut out = Vec::from_slice(alloc, b"not found in ")?;
    put_number(&mut out, tries)?;
    out.extend_from_slice(b" tries")?;
    out.push(10)?;
    Ok(out)
}

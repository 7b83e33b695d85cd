ghost use Rattle.std.specs.Prelude.{◌≡◌, ◌++◌, List, ℕ, OnOk, IfOk, length};
ghost use Rattle.report_writer.specs.Texts as spec;
ghost use Rattle.report_writer.specs.Texts.{counted, end_words, fault_word, fault_words};

use crate::names::{put, put_class, put_method, put_number};
use std::alloc::Global;
use vm_model::{End, Fault, FaultKind, NoMemory, Program};

/// Adds what kind of fault it was.
fn put_fault_word(out: &mut Vec<u8>, program: &Program, kind: FaultKind) -> Result<(), NoMemory>
    ensures { OnOk result (out.new.items ≡ out.old.items ++ fault_word program.now kind) }
{
    match kind {
        FaultKind::NullPointer => put(out, b"null"),
        FaultKind::Arithmetic => put(out, b"arithmetic"),
        FaultKind::ArrayIndex => put(out, b"index"),
        FaultKind::NegativeSize => put(out, b"negative-size"),
        FaultKind::MonitorState => put(out, b"monitor-state"),
        FaultKind::ThreadState => put(out, b"thread-state"),
        FaultKind::Thrown(class) => {
            put(out, b"thrown ")?;
            put_class(out, program, class)
        }
        FaultKind::StackOverflow => put(out, b"stack-overflow"),
        FaultKind::HeapFull => put(out, b"heap-full"),
        FaultKind::OutputFull => put(out, b"output-full"),
        FaultKind::ThreadsFull => put(out, b"threads-full"),
    }
}

fn put_fault(out: &mut Vec<u8>, program: &Program, fault: &Fault) -> Result<(), NoMemory>
    ensures { OnOk result (out.new.items ≡ out.old.items ++ fault_words program.now fault.now) }
{
    put(out, b"fault ")?;
    put_fault_word(out, program, fault.kind)?;
    put(out, b" thread ")?;
    put_number(out, fault.thread as u64)?;
    put(out, b" in ")?;
    put_method(out, program, fault.method)?;
    put(out, b" at ")?;
    put_number(out, fault.at as u64)
}

fn put_end(out: &mut Vec<u8>, program: &Program, end: &End) -> Result<(), NoMemory>
    ensures { OnOk result (out.new.items ≡ out.old.items ++ end_words program.now end.now) }
{
    match end {
        End::Done => put(out, b"done"),
        End::Fault(fault) => put_fault(out, program, fault),
        End::Stuck => put(out, b"stuck"),
        End::Spent => put(out, b"spent"),
    }
}

fn put_end_line(out: &mut Vec<u8>, program: &Program, end: &End) -> Result<(), NoMemory>
    ensures { OnOk result (out.new.items ≡ out.old.items ++ spec.end_text program.now end.now) }
{
    put(out, b"end ")?;
    put_end(out, program, end)?;
    put(out, b"\n")
}

/// Adds a word and a number on a line.
pub fn put_counted(out: &mut Vec<u8>, word: &[u8], n: u64) -> Result<(), NoMemory>
    ensures { OnOk result (out.new.items ≡ out.old.items ++ counted word.now n) }
{
    put(out, word)?;
    put(out, b" ")?;
    put_number(out, n)?;
    put(out, b"\n")
}

/// The line that says how a run ended. A fault is shown by its kind, its thread, its method and the number of the
/// instruction there.
pub fn end_text(alloc: Global, end: &End, program: &Program) -> Result<Vec<u8>, NoMemory>
    ensures { IfOk result (λ text. text.items ≡ spec.end_text program.now end.now) }
{
    let mut out = Vec::new(alloc);
    put_end_line(&mut out, program, end)?;
    Ok(out)
}

/// What a run prints: the numbers of its events and intervals, its end, and its output, of which the length in bytes comes
/// first.
pub fn run_text(
    alloc: Global,
    events: u64,
    intervals: u64,
    end: &End,
    output: &[u8],
    program: &Program,
) -> Result<Vec<u8>, NoMemory>
    ensures { IfOk result (λ text. text.items ≡ spec.run_text program.now events intervals end.now output.now) }
{
    let mut out = Vec::new(alloc);
    put_counted(&mut out, b"events", events)?;
    put_counted(&mut out, b"intervals", intervals)?;
    put_end_line(&mut out, program, end)?;
    put_counted(&mut out, b"output", output.len() as u64)?;
    put(&mut out, output)?;
    Ok(out)
}

//! Checking: how much a program has.

ghost use Rattle.std.specs.Prelude.{◌≡◌, ◌++◌, decimal, IfOk, IfErr, OnOk, take, length, ◌-◌};
ghost use Rattle.tool_stages.specs.Calls.{folder_call};
ghost use Rattle.tool_stages.specs.Stages.{CountsLoads};
ghost use Rattle.dejavu_tool.specs.Answers.{Checks, Halts};
ghost use Rattle.dejavu_tool.specs.Checking as spec;
ghost use Rattle.command_line.specs.Requests.{Check};

use itoa::Buffer;
use std::alloc::Global;
use tool_io::Folder;
use tool_stages::{Halt, load_program};
use vm_model::{Method, NoMemory, Program};

/// How many instructions methods have.
fn instructions_of(methods: &[Method]) -> u128
    ensures { result ≡ spec.instructions_of methods.now }
{
    let mut total = 0;
    let mut rest = methods;
    while let [method, after @ ..] = rest {
        total += method.code.len() as u128;
        rest = after;
    }
    total
}

/// The methods of the text: all but the last, which is Thread's own.
fn text_methods(methods: &[Method]) -> &[Method]
    ensures { result.now ≡ spec.text_methods methods.now }
{
    match methods {
        [front @ .., _] => front,
        [] => &[],
    }
}

#[tactic(auto, unfolding(crate::specs::Checking::count_line))]
pub fn put_count(out: &mut Vec<u8>, word: &[u8], count: u128) -> Result<(), NoMemory>
    ensures { OnOk result (out.new.items ≡ out.old.items ++ spec.count_line word.now count) }
{
    let mut buffer = Buffer::new();
    out.extend_from_slice(word)?;
    out.extend_from_slice(buffer.format(count).as_bytes())?;
    out.push(10)?;
    Ok(())
}

/// What is printed of a program.
#[tactic(auto, unfolding(crate::specs::Checking::check_text))]
fn check_text(alloc: Global, program: &Program) -> Result<Vec<u8>, NoMemory>
    ensures { IfOk result (λ text. text.items ≡ spec.check_text program.now) }
{
    let methods = text_methods(&program.methods);
    let mut out = Vec::new(alloc);
    put_count(&mut out, b"classes ", program.classes.len() as u128)?;
    put_count(&mut out, b"methods ", methods.len() as u128)?;
    put_count(&mut out, b"instructions ", instructions_of(methods))?;
    Ok(out)
}

/// Checks the program of a file. What is printed is the result.
pub fn check_file<F: Folder>(alloc: Global, program: &str, folder: &mut F) -> Result<Vec<u8>, Halt>
    ensures checks { IfOk result (λ text. Checks (folder_call F.is_told F.file F.load_faults F.store_faults folder.old folder.new) program.now text.items) }
    ensures halts { IfErr result (Halts (Check program.now) (folder_call F.is_told F.file F.load_faults F.store_faults folder.old folder.new)) }
    ensures counts { CountsLoads (F.load_faults folder.old) (F.load_faults folder.new) result }
{
    let shaped = load_program(alloc, program, folder)?;
    Ok(check_text(alloc, shaped.program())?)
}

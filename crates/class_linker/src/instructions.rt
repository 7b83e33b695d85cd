// Instructions with numbers in place of names.
ghost use Rattle.std.specs.Prelude.{◌≡◌, Ok};
ghost use Rattle.vm_model.specs.Failures.{Gives, or_fault};
ghost use Rattle.name_resolver.specs.Index.{value_of};
ghost use Rattle.name_resolver.specs.declared.fault.LinkKind.TheVariants.{OutOfProfile};
ghost use Rattle.class_linker.specs.Linked as spec;
ghost use Rattle.jasmin_lines.specs.Tables.{row_of};

use built_in_classes::has_objects;
use jasmin_lines::{LineText, Operand, is, row_of};
use name_resolver::{Index, LinkKind, Names, call, class_of, field, first_some};
use std::alloc::Global;
use vm_model::{Failure, Instr, MOST_TEXT_CONSTANT_BYTES};

const ALONE: [(&[u8], Instr); 30] = [
    (b"nop", Instr::Nop),
    (b"aconst_null", Instr::PushNull),
    (b"pop", Instr::Pop),
    (b"pop2", Instr::Pop2),
    (b"dup", Instr::Dup),
    (b"dup_x1", Instr::DupX1),
    (b"dup_x2", Instr::DupX2),
    (b"dup2", Instr::Dup2),
    (b"swap", Instr::Swap),
    (b"iadd", Instr::Iadd),
    (b"isub", Instr::Isub),
    (b"imul", Instr::Imul),
    (b"ineg", Instr::Ineg),
    (b"idiv", Instr::Idiv),
    (b"irem", Instr::Irem),
    (b"ishl", Instr::Ishl),
    (b"ishr", Instr::Ishr),
    (b"iushr", Instr::Iushr),
    (b"iand", Instr::Iand),
    (b"ior", Instr::Ior),
    (b"ixor", Instr::Ixor),
    (b"arraylength", Instr::ArrayLength),
    (b"iaload", Instr::Iaload),
    (b"iastore", Instr::Iastore),
    (b"monitorenter", Instr::MonitorEnter),
    (b"monitorexit", Instr::MonitorExit),
    (b"athrow", Instr::Athrow),
    (b"return", Instr::Return),
    (b"ireturn", Instr::Ireturn),
    (b"areturn", Instr::Areturn),
];

/// An instruction without operands.
fn alone(word: &[u8]) -> Option<Instr>
    ensures { result ≡ row_of word.now spec.alone }
{
    row_of(&ALONE, word)
}

fn int_jump(word: &[u8], to: u32) -> Option<Instr>
    ensures { result ≡ spec.int_jump word.now to }
{
    if is(word, b"ifeq") {
        Some(Instr::Ifeq(to))
    } else if is(word, b"ifne") {
        Some(Instr::Ifne(to))
    } else if is(word, b"iflt") {
        Some(Instr::Iflt(to))
    } else if is(word, b"ifge") {
        Some(Instr::Ifge(to))
    } else if is(word, b"ifgt") {
        Some(Instr::Ifgt(to))
    } else if is(word, b"ifle") {
        Some(Instr::Ifle(to))
    } else {
        None
    }
}

fn pair_jump(word: &[u8], to: u32) -> Option<Instr>
    ensures { result ≡ spec.pair_jump word.now to }
{
    if is(word, b"if_icmpeq") {
        Some(Instr::IfIcmpeq(to))
    } else if is(word, b"if_icmpne") {
        Some(Instr::IfIcmpne(to))
    } else if is(word, b"if_icmplt") {
        Some(Instr::IfIcmplt(to))
    } else if is(word, b"if_icmpge") {
        Some(Instr::IfIcmpge(to))
    } else if is(word, b"if_icmpgt") {
        Some(Instr::IfIcmpgt(to))
    } else if is(word, b"if_icmple") {
        Some(Instr::IfIcmple(to))
    } else {
        None
    }
}

fn other_jump(word: &[u8], to: u32) -> Option<Instr>
    ensures { result ≡ spec.other_jump word.now to }
{
    if is(word, b"if_acmpeq") {
        Some(Instr::IfAcmpeq(to))
    } else if is(word, b"if_acmpne") {
        Some(Instr::IfAcmpne(to))
    } else if is(word, b"ifnull") {
        Some(Instr::Ifnull(to))
    } else if is(word, b"ifnonnull") {
        Some(Instr::Ifnonnull(to))
    } else if is(word, b"goto") {
        Some(Instr::Goto(to))
    } else {
        None
    }
}

/// A jump of this mnemonic to a place.
fn jump_to(word: &[u8], to: u32) -> Option<Instr>
    ensures { result ≡ spec.jump_to word.now to }
{
    let others = first_some(pair_jump(word, to), other_jump(word, to));
    first_some(int_jump(word, to), others)
}

fn or_outside(found: Option<Instr>) -> Result<Instr, Failure<LinkKind>>
    ensures { Gives (λ x. x) result (or_fault OutOfProfile found) }
{
    match found {
        Some(instr) => Ok(instr),
        None => Err(Failure::Fault(LinkKind::OutOfProfile)),
    }
}

fn plain(word: &[u8]) -> Result<Instr, Failure<LinkKind>>
    ensures { Gives (λ x. x) result (spec.plain word.now) }
{
    or_outside(alone(word))
}

fn numbered(word: &[u8], n: i32) -> Result<Instr, Failure<LinkKind>>
    ensures { Gives (λ x. x) result (spec.numbered word.now n) }
{
    if is(word, b"ldc") {
        Ok(Instr::Push(n))
    } else if is(word, b"iload") {
        Ok(Instr::Iload(n.unsigned_abs()))
    } else if is(word, b"istore") {
        Ok(Instr::Istore(n.unsigned_abs()))
    } else if is(word, b"aload") {
        Ok(Instr::Aload(n.unsigned_abs()))
    } else if is(word, b"astore") {
        Ok(Instr::Astore(n.unsigned_abs()))
    } else {
        Err(Failure::Fault(LinkKind::OutOfProfile))
    }
}

/// A text constant, of at most 200 bytes.
#[tactic(auto, unfolding(crate::specs::Linked::texted))]
fn texted(texts: &Index, text: &[u8]) -> Result<Instr, Failure<LinkKind>>
    ensures { Gives (λ x. x) result (spec.texted texts.now text.now) }
{
    if text.len() > MOST_TEXT_CONSTANT_BYTES {
        return Err(Failure::Fault(LinkKind::TooMany));
    }
    match texts.find(text) {
        Some(number) => Ok(Instr::PushText(number)),
        None => Err(Failure::Fault(LinkKind::OutOfProfile)),
    }
}

#[tactic(auto, unfolding(crate::specs::Linked::made))]
fn made(names: &Names, class: &[u8]) -> Result<Instr, Failure<LinkKind>>
    ensures { Gives (λ x. x) result (spec.made names.now class.now) }
{
    match class_of(&names.classes, class) {
        Some(number) => {
            if has_objects(number) {
                Ok(Instr::New(number))
            } else {
                Err(Failure::Fault(LinkKind::OutOfProfile))
            }
        }
        None => Err(Failure::Fault(LinkKind::UnknownClass)),
    }
}

#[tactic(auto, unfolding(crate::specs::Linked::jumped))]
fn jumped(labels: &Index, word: &[u8], label: &[u8]) -> Result<Instr, Failure<LinkKind>>
    ensures { Gives (λ x. x) result (spec.jumped labels.now word.now label.now) }
{
    match labels.find(label) {
        Some(to) => or_outside(jump_to(word, to)),
        None => Err(Failure::Fault(LinkKind::UnknownLabel)),
    }
}

fn is_call(word: &[u8]) -> bool
    ensures { result ≡ spec.is_call word.now }
{
    is(word, b"invokestatic") || is(word, b"invokevirtual") || is(word, b"invokespecial")
}

fn worded(
    alloc: Global,
    names: &Names,
    thread_run: u32,
    labels: &Index,
    word: &[u8],
    operand: &[u8],
) -> Result<Instr, Failure<LinkKind>>
    ensures { Gives (λ x. x) result (spec.worded names.now thread_run labels.now word.now operand.now) }
{
    if is(word, b"new") {
        made(names, operand)
    } else if is(word, b"newarray") {
        Ok(Instr::NewArray)
    } else if is_call(word) {
        call(alloc, names, thread_run, word, operand)
    } else {
        jumped(labels, word, operand)
    }
}

/// The instruction of a line, or the least fault of the line.
pub fn linked(
    alloc: Global,
    names: &Names,
    thread_run: u32,
    texts: &Index,
    labels: &Index,
    line: &LineText,
) -> Result<Instr, Failure<LinkKind>>
    ensures { Gives (λ x. x) result (spec.linked names.now thread_run texts.now labels.now line.now) }
{
    let word = line.word.bytes();
    match line.operands.as_slice() {
        [] => plain(word),
        [Operand::Number(n)] => numbered(word, *n),
        [Operand::Text(text)] => texted(texts, text.bytes()),
        [Operand::Word(operand)] => {
            worded(alloc, names, thread_run, labels, word, operand.bytes())
        }
        [Operand::Number(n), Operand::Number(by)] => Ok(Instr::Iinc {
            local: n.unsigned_abs(),
            by: *by,
        }),
        [Operand::Word(member), Operand::Word(desc)] => {
            field(alloc, names, word, member.bytes(), desc.bytes())
        }
        _ => Err(Failure::Fault(LinkKind::OutOfProfile)),
    }
}

// Instructions in their canonical form.
ghost use Rattle.std.specs.Prelude.{◌≡◌, Ok};
ghost use Rattle.vm_model.specs.Failures.{Gives};
ghost use Rattle.jasmin_lines.specs.Instructions as spec;
ghost use Rattle.jasmin_lines.specs.Mnemonics as mnemonics;

use crate::class_text::Operand;
use crate::fault::ReadKind;
use crate::lexeme::Lexeme;
use crate::mnemonic::{Access, MNEMONICS, Mnemonic};
use crate::names::{class_name_of, described, is_field, is_method, name_of, named};
use crate::tables::row_of;
use crate::words::{copied, is_word, none, number_of, one, two, word_of};
use std::alloc::Global;
use std::marker::Model;
use vm_model::{Failure, MOST_LOCALS, Name};

/// A mnemonic with its operands.
#[derive(Debug, Drop)]
pub struct Said {
    pub word: Name,
    pub operands: Vec<Operand>,
}

impl Model for Said {
    ghost use Rattle.jasmin_lines.specs.Said.{PlainSaid};

    ghost Value = { PlainSaid };

    ghost view = { λ s. record { word = s.word; operands = s.operands.items } };
}

fn without_operands(alloc: Global, word: &[u8]) -> Result<Said, Failure<ReadKind>>
    ensures { Gives (λ x. x) result (Ok (spec.alone word.now)) }
{
    Ok(Said {
        word: Name::of(alloc, word)?,
        operands: Vec::new(alloc),
    })
}

fn with_operand(alloc: Global, word: &[u8], operand: Operand) -> Result<Said, Failure<ReadKind>>
    ensures { Gives (λ x. x) result (Ok (spec.with_one word.now operand)) }
{
    let mut operands = Vec::new(alloc);
    operands.push(operand)?;
    Ok(Said {
        word: Name::of(alloc, word)?,
        operands,
    })
}

fn with_operands(
    alloc: Global,
    word: &[u8],
    first: Operand,
    second: Operand,
) -> Result<Said, Failure<ReadKind>>
    ensures { Gives (λ x. x) result (Ok (spec.with_two word.now first second)) }
{
    let mut operands = Vec::new(alloc);
    operands.push(first)?;
    operands.push(second)?;
    Ok(Said {
        word: Name::of(alloc, word)?,
        operands,
    })
}

fn pushed(alloc: Global, n: i32) -> Result<Said, Failure<ReadKind>>
    ensures { Gives (λ x. x) result (Ok (spec.pushed n)) }
{
    with_operand(alloc, b"ldc", Operand::Number(n))
}

fn access_word(access: Access) -> &'static [u8]
    ensures { result.now ≡ spec.access_word access }
{
    match access {
        Access::Iload => b"iload",
        Access::Istore => b"istore",
        Access::Aload => b"aload",
        Access::Astore => b"astore",
    }
}

fn on_local(alloc: Global, access: Access, n: i32) -> Result<Said, Failure<ReadKind>>
    ensures { Gives (λ x. x) result (Ok (spec.on_local access n)) }
{
    with_operand(alloc, access_word(access), Operand::Number(n))
}

fn constant_of(alloc: Global, word: &Lexeme) -> Result<Said, Failure<ReadKind>>
    ensures { Gives (λ x. x) result (spec.constant_of word.now) }
{
    match word {
        Lexeme::Number(n) => pushed(alloc, *n),
        Lexeme::Text(text) => with_operand(
            alloc,
            b"ldc",
            Operand::Text(copied(alloc, text.bytes())?),
        ),
        Lexeme::Word(_) => Err(Failure::Fault(ReadKind::BadOperand)),
    }
}

/// An int or a text.
#[tactic(auto, unfolding(crate::specs::Instructions::constant))]
fn constant(alloc: Global, words: &[Lexeme]) -> Result<Said, Failure<ReadKind>>
    ensures { Gives (λ x. x) result (spec.constant words.now) }
{
    let word = one(words)?;
    constant_of(alloc, word)
}

#[tactic(auto, unfolding(crate::specs::Instructions::push))]
fn push(alloc: Global, low: i32, high: i32, words: &[Lexeme]) -> Result<Said, Failure<ReadKind>>
    ensures { Gives (λ x. x) result (spec.push low high words.now) }
{
    let word = one(words)?;
    let n = number_of(low, high, word)?;
    pushed(alloc, n)
}

#[tactic(auto, unfolding(crate::specs::Instructions::local))]
fn local(alloc: Global, access: Access, words: &[Lexeme]) -> Result<Said, Failure<ReadKind>>
    ensures { Gives (λ x. x) result (spec.local access words.now) }
{
    let word = one(words)?;
    let n = number_of(0, MOST_LOCALS as i32 - 1, word)?;
    on_local(alloc, access, n)
}

#[tactic(auto, unfolding(crate::specs::Instructions::increment))]
fn increment(alloc: Global, words: &[Lexeme]) -> Result<Said, Failure<ReadKind>>
    ensures { Gives (λ x. x) result (spec.increment words.now) }
{
    let (first, second) = two(words)?;
    let n = number_of(0, MOST_LOCALS as i32 - 1, first)?;
    let by = number_of(-128, 127, second)?;
    with_operands(alloc, b"iinc", Operand::Number(n), Operand::Number(by))
}

#[tactic(auto, unfolding(crate::specs::Instructions::jump))]
fn jump(alloc: Global, mnemonic: &[u8], words: &[Lexeme]) -> Result<Said, Failure<ReadKind>>
    ensures { Gives (λ x. x) result (spec.jump mnemonic.now words.now) }
{
    let word = one(words)?;
    let label = name_of(alloc, word)?;
    with_operand(alloc, mnemonic, Operand::Word(label))
}

/// A field of a class, and its descriptor.
#[tactic(auto, unfolding(crate::specs::Instructions::field))]
fn field(alloc: Global, mnemonic: &[u8], words: &[Lexeme]) -> Result<Said, Failure<ReadKind>>
    ensures { Gives (λ x. x) result (spec.field mnemonic.now words.now) }
{
    let (first, second) = two(words)?;
    let member = word_of(first)?;
    let desc = word_of(second)?;
    let is_good = is_field(member)?;
    let good = named(alloc, is_good, member)?;
    with_operands(
        alloc,
        mnemonic,
        Operand::Word(good),
        Operand::Word(copied(alloc, desc)?),
    )
}

/// A method of a class with its descriptor.
#[tactic(auto, unfolding(crate::specs::Instructions::call))]
fn call(alloc: Global, mnemonic: &[u8], words: &[Lexeme]) -> Result<Said, Failure<ReadKind>>
    ensures { Gives (λ x. x) result (spec.call mnemonic.now words.now) }
{
    let word = one(words)?;
    let bytes = word_of(word)?;
    let (name, _) = described(bytes)?;
    let is_good = is_method(name)?;
    let good = named(alloc, is_good, bytes)?;
    with_operand(alloc, mnemonic, Operand::Word(good))
}

#[tactic(auto, unfolding(crate::specs::Instructions::class))]
fn class(alloc: Global, mnemonic: &[u8], words: &[Lexeme]) -> Result<Said, Failure<ReadKind>>
    ensures { Gives (λ x. x) result (spec.class mnemonic.now words.now) }
{
    let word = one(words)?;
    let name = class_name_of(alloc, word)?;
    with_operand(alloc, mnemonic, Operand::Word(name))
}

fn is_int(words: &[Lexeme]) -> bool
    ensures { result ≡ spec.is_int words.now }
{
    match words {
        [word] => is_word(b"int", word),
        _ => false,
    }
}

fn array(alloc: Global, mnemonic: &[u8], words: &[Lexeme]) -> Result<Said, Failure<ReadKind>>
    ensures { Gives (λ x. x) result (Ok (spec.array mnemonic.now words.now)) }
{
    if is_int(words) {
        with_operand(alloc, mnemonic, Operand::Word(copied(alloc, b"int")?))
    } else {
        without_operands(alloc, mnemonic)
    }
}

/// What a word that begins an instruction asks for.
fn mnemonic_of(word: &[u8]) -> Option<Mnemonic>
    ensures { result ≡ mnemonics.mnemonic_of word.now }
{
    row_of(&MNEMONICS, word)
}

fn said_by(
    alloc: Global,
    word: &[u8],
    words: &[Lexeme],
    mnemonic: Mnemonic,
) -> Result<Said, Failure<ReadKind>>
    ensures { Gives (λ x. x) result (spec.said_by word.now words.now mnemonic) }
{
    match mnemonic {
        Mnemonic::Alone => {
            none(words)?;
            without_operands(alloc, word)
        }
        Mnemonic::PushOf(n) => {
            none(words)?;
            pushed(alloc, n)
        }
        Mnemonic::Push(low, high) => push(alloc, low, high, words),
        Mnemonic::Constant => constant(alloc, words),
        Mnemonic::Local(access) => local(alloc, access, words),
        Mnemonic::LocalOf(access, n) => {
            none(words)?;
            on_local(alloc, access, n)
        }
        Mnemonic::Increment => increment(alloc, words),
        Mnemonic::Jump => jump(alloc, word, words),
        Mnemonic::Field => field(alloc, word, words),
        Mnemonic::Call => call(alloc, word, words),
        Mnemonic::Class => class(alloc, word, words),
        Mnemonic::Array => array(alloc, word, words),
        Mnemonic::Outside => without_operands(alloc, word),
    }
}

/// The instruction of these words.
pub fn instruction(alloc: Global, words: &[Lexeme]) -> Result<Said, Failure<ReadKind>>
    ensures { Gives (λ x. x) result (spec.instruction words.now) }
{
    match words {
        [Lexeme::Word(first), rest @ ..] => match mnemonic_of(first.bytes()) {
            Some(mnemonic) => said_by(alloc, first.bytes(), rest, mnemonic),
            None => Err(Failure::Fault(ReadKind::BadMnemonic)),
        },
        _ => Err(Failure::Fault(ReadKind::BadMnemonic)),
    }
}

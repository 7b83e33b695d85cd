// Members of classes, as instructions name them.
ghost use Rattle.std.specs.Prelude.{◌≡◌, IfOk, Ok, is_some};
ghost use Rattle.vm_model.specs.declared.instr.Instr.TheVariants as instr;
ghost use Rattle.vm_model.specs.Failures.{Gives, or_fault};
ghost use Rattle.name_resolver.specs.Calls as spec;
ghost use Rattle.name_resolver.specs.Index.{value_of};
ghost use Rattle.name_resolver.specs.declared.fault.LinkKind.TheVariants.{UnknownClass};
ghost use Rattle.name_resolver.specs.Descriptors.{class_of, in_signature, is_unknown, method_signature};

use crate::built_in::{constructor, first_some, instance_member};
use crate::descriptors::{class_of, is_unknown, method_signature, type_of};
use crate::fault::LinkKind;
use crate::names::Names;
use crate::words::{described, field_key, member};
use built_in_classes::THREAD;
use jasmin_lines::is;
use std::alloc::Global;
use vm_model::{Failure, Instr, Name};

/// A method that an instruction calls: its word with the class, its name with the descriptor, and the class's number.
#[derive(Debug, Drop)]
pub struct Target {
    pub word: Name,
    pub member: Name,
    pub class: u32,
    pub is_thread: bool,
    pub is_init: bool,
}

fn is_thread_class(names: &Names, class: &[u8]) -> bool
    ensures { result ≡ spec.is_thread_class names.now class.now }
{
    is(class, b"java/lang/Thread") || names.threads.find(class).is_some()
}

fn static_member(target: &Target) -> Option<Instr>
    ensures { result ≡ spec.static_member target.now }
{
    if is(target.member.bytes(), b"yield()V") && target.is_thread {
        Some(Instr::Yield)
    } else {
        None
    }
}

fn static_call(names: &Names, target: &Target) -> Option<Instr>
    ensures { result ≡ spec.static_call names.now target.now (value_of target.now.word names.now.functions) }
{
    match names.functions.find(target.word.bytes()) {
        Some(number) => Some(Instr::InvokeStatic(number)),
        None => {
            if names.instance_methods.find(target.word.bytes()).is_some() {
                None
            } else {
                static_member(target)
            }
        }
    }
}

fn is_run(target: &Target) -> bool
    ensures { result ≡ spec.is_run target.now }
{
    is(target.member.bytes(), b"run()V") && target.is_thread
}

fn virtual_run(thread_run: u32, target: &Target) -> Instr
    ensures { result ≡ spec.virtual_run thread_run target.now }
{
    if target.class == THREAD {
        Instr::RunOf(THREAD)
    } else {
        Instr::InvokeVirtual(thread_run)
    }
}

fn virtual_member(thread_run: u32, target: &Target) -> Option<Instr>
    ensures { result ≡ spec.virtual_member thread_run target.now }
{
    if is_run(target) {
        Some(virtual_run(thread_run, target))
    } else {
        instance_member(target.class, target.is_thread, target.member.bytes())
    }
}

fn virtual_call(names: &Names, thread_run: u32, target: &Target) -> Option<Instr>
    ensures { result ≡ spec.virtual_call names.now thread_run target.now (value_of target.now.word names.now.instance_methods) }
{
    match names.instance_methods.find(target.word.bytes()) {
        Some(number) => {
            if target.is_init {
                None
            } else {
                Some(Instr::InvokeVirtual(number))
            }
        }
        None => {
            if names.functions.find(target.word.bytes()).is_some() {
                None
            } else {
                virtual_member(thread_run, target)
            }
        }
    }
}

fn special_member(thread_run: u32, target: &Target) -> Option<Instr>
    ensures { result ≡ spec.special_member thread_run target.now }
{
    if is_run(target) {
        return Some(Instr::InvokeSpecial(thread_run));
    }
    let name = target.member.bytes();
    first_some(
        instance_member(target.class, target.is_thread, name),
        constructor(target.class, name),
    )
}

fn special_call(names: &Names, thread_run: u32, target: &Target) -> Option<Instr>
    ensures { result ≡ spec.special_call names.now thread_run target.now (value_of target.now.word names.now.instance_methods) }
{
    match names.instance_methods.find(target.word.bytes()) {
        Some(number) => Some(Instr::InvokeSpecial(number)),
        None => {
            if names.functions.find(target.word.bytes()).is_some() {
                None
            } else {
                special_member(thread_run, target)
            }
        }
    }
}

fn call_by(names: &Names, thread_run: u32, mnemonic: &[u8], target: &Target) -> Option<Instr>
    ensures { result ≡ spec.call_by names.now thread_run mnemonic.now target.now }
{
    if is(mnemonic, b"invokestatic") {
        static_call(names, target)
    } else if is(mnemonic, b"invokevirtual") {
        virtual_call(names, thread_run, target)
    } else {
        special_call(names, thread_run, target)
    }
}

fn known(is_unknown: bool) -> Result<(), Failure<LinkKind>>
    ensures { Gives (λ x. x) result (spec.known is_unknown) }
{
    if is_unknown {
        Err(Failure::Fault(LinkKind::UnknownClass))
    } else {
        Ok(())
    }
}

fn class_or_fault(names: &Names, class: &[u8]) -> Result<u32, Failure<LinkKind>>
    ensures { Gives (λ x. x) result (or_fault UnknownClass (class_of names.now.classes class.now)) }
{
    match class_of(&names.classes, class) {
        Some(number) => Ok(number),
        None => Err(Failure::Fault(LinkKind::UnknownClass)),
    }
}

fn target_at(
    alloc: Global,
    names: &Names,
    word: &[u8],
    class: &[u8],
    name: &[u8],
    desc: &[u8],
    number: u32,
) -> Result<Target, Failure<LinkKind>>
    ensures { Gives (λ x. x) result (Ok (spec.target names.now word.now class.now name.now desc.now number)) }
{
    let mut member = Vec::from_slice(alloc, name)?;
    member.extend_from_slice(desc)?;
    Ok(Target {
        word: Name::of(alloc, word)?,
        member: Name::of(alloc, &member)?,
        class: number,
        is_thread: is_thread_class(names, class),
        is_init: is(name, b"<init>"),
    })
}

fn parts(word: &[u8]) -> (&[u8], &[u8], &[u8])
    ensures { (result.0.now, result.1.now, result.2.now) ≡ spec.parts word.now }
{
    let (named, desc) = described(word);
    let (class, name) = member(named);
    (class, name, desc)
}

fn has_unknown(
    alloc: Global,
    names: &Names,
    name: &[u8],
    desc: &[u8],
) -> Result<bool, Failure<LinkKind>>
    ensures { Gives (λ x. x) result (Ok (in_signature is_unknown (method_signature names.now.classes name.now desc.now))) }
{
    let signature = method_signature(alloc, &names.classes, name, desc)?;
    Ok(signature.has_unknown())
}

/// The target of a call, whose class and classes in the descriptor are known.
#[tactic(auto, unfolding(crate::specs::Calls::target_of))]
fn target_of(alloc: Global, names: &Names, word: &[u8]) -> Result<Target, Failure<LinkKind>>
    ensures { Gives (λ x. x) result (spec.target_of names.now word.now) }
{
    let (class, name, desc) = parts(word);
    let number = class_or_fault(names, class)?;
    let is_unknown = has_unknown(alloc, names, name, desc)?;
    known(is_unknown)?;
    target_at(alloc, names, word, class, name, desc, number)
}

/// The instruction of a call (JVMS SE 8 §6.5 `invokestatic`, `invokevirtual`, `invokespecial`): of the class, the name and the
/// descriptor in the word. `thread_run` is the number of Thread's own `run`.
#[tactic(auto, unfolding(crate::specs::Calls::call))]
pub fn call(
    alloc: Global,
    names: &Names,
    thread_run: u32,
    mnemonic: &[u8],
    word: &[u8],
) -> Result<Instr, Failure<LinkKind>>
    ensures { Gives (λ x. x) result (spec.call names.now thread_run mnemonic.now word.now) }
{
    let target = target_of(alloc, names, word)?;
    match call_by(names, thread_run, mnemonic, &target) {
        Some(instr) => Ok(instr),
        None => Err(Failure::Fault(LinkKind::UnknownMethod)),
    }
}

// ---- fields

fn is_out(word: &[u8], desc: &[u8]) -> bool
    ensures { result ≡ spec.is_out word.now desc.now }
{
    is(word, b"java/lang/System/out") && is(desc, b"Ljava/io/PrintStream;")
}

fn read_static(names: &Names, key: &[u8], is_out: bool) -> Option<Instr>
    ensures { result ≡ spec.read_static is_out (is_some (value_of key.now names.now.places)) (value_of key.now names.now.statics) }
{
    match names.statics.find(key) {
        Some(slot) => Some(Instr::GetStatic(slot)),
        None => {
            if is_out && names.places.find(key).is_none() {
                Some(Instr::Out)
            } else {
                None
            }
        }
    }
}

fn write_static(names: &Names, key: &[u8]) -> Option<Instr>
    ensures { result ≡ spec.to_slot instr.PutStatic (value_of key.now names.now.statics) }
{
    match names.statics.find(key) {
        Some(slot) => Some(Instr::PutStatic(slot)),
        None => None,
    }
}

fn read_field(names: &Names, key: &[u8], class: u32) -> Option<Instr>
    ensures { result ≡ spec.to_slot (instr.GetField class) (value_of key.now names.now.places) }
{
    match names.places.find(key) {
        Some(place) => Some(Instr::GetField { class, place }),
        None => None,
    }
}

fn write_field(names: &Names, key: &[u8], class: u32) -> Option<Instr>
    ensures { result ≡ spec.to_slot (instr.PutField class) (value_of key.now names.now.places) }
{
    match names.places.find(key) {
        Some(place) => Some(Instr::PutField { class, place }),
        None => None,
    }
}

fn field_by(
    alloc: Global,
    names: &Names,
    mnemonic: &[u8],
    word: &[u8],
    desc: &[u8],
    class: u32,
) -> Result<Option<Instr>, Failure<LinkKind>>
    ensures { Gives (λ x. x) result (Ok (spec.field_by names.now mnemonic.now word.now desc.now class)) }
{
    let key = field_key(alloc, word, desc)?;
    if is(mnemonic, b"getstatic") {
        Ok(read_static(names, &key, is_out(word, desc)))
    } else if is(mnemonic, b"putstatic") {
        Ok(write_static(names, &key))
    } else if is(mnemonic, b"getfield") {
        Ok(read_field(names, &key, class))
    } else {
        Ok(write_field(names, &key, class))
    }
}

fn field_class(names: &Names, word: &[u8], desc: &[u8]) -> Result<u32, Failure<LinkKind>>
    ensures { Gives (λ x. x) result (spec.field_class names.now word.now desc.now) }
{
    let (class, _) = member(word);
    match class_of(&names.classes, class) {
        Some(number) => Ok(number),
        None => {
            if is_out(word, desc) {
                Ok(0)
            } else {
                Err(Failure::Fault(LinkKind::UnknownClass))
            }
        }
    }
}

/// The instruction that reads or writes a field (JVMS SE 8 §6.5 `getstatic`, `putstatic`, `getfield`, `putfield`).
#[tactic(auto, unfolding(crate::specs::Calls::field))]
pub fn field(
    alloc: Global,
    names: &Names,
    mnemonic: &[u8],
    word: &[u8],
    desc: &[u8],
) -> Result<Instr, Failure<LinkKind>>
    ensures { Gives (λ x. x) result (spec.field names.now mnemonic.now word.now desc.now) }
{
    let class = field_class(names, word, desc)?;
    known(is_unknown(type_of(&names.classes, desc)))?;
    match field_by(alloc, names, mnemonic, word, desc, class)? {
        Some(instr) => Ok(instr),
        None => Err(Failure::Fault(LinkKind::UnknownField)),
    }
}

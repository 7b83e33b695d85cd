// The members of the built-in classes.
ghost use Rattle.std.specs.Prelude.{◌≡◌};
ghost use Rattle.name_resolver.specs.BuiltIn as spec;

use built_in_classes::{PRINT_STREAM, STRING, THREAD, has_constructor, has_text_constructor};
use jasmin_lines::is;
use vm_model::Instr;

fn has_lock(class: u32) -> bool
    ensures { result ≡ spec.has_lock class }
{
    !(class == STRING || class == PRINT_STREAM)
}

fn lock_member(member: &[u8]) -> Option<Instr>
    ensures { result ≡ spec.lock_member member.now }
{
    if is(member, b"wait()V") {
        Some(Instr::Wait)
    } else if is(member, b"notify()V") {
        Some(Instr::Notify)
    } else if is(member, b"notifyAll()V") {
        Some(Instr::NotifyAll)
    } else {
        None
    }
}

fn thread_member(member: &[u8]) -> Option<Instr>
    ensures { result ≡ spec.thread_member member.now }
{
    if is(member, b"start()V") {
        Some(Instr::Start)
    } else if is(member, b"join()V") {
        Some(Instr::Join)
    } else {
        None
    }
}

fn stream_member(member: &[u8]) -> Option<Instr>
    ensures { result ≡ spec.stream_member member.now }
{
    if is(member, b"println()V") {
        Some(Instr::Println)
    } else if is(member, b"println(I)V") {
        Some(Instr::PrintInt { newline: true })
    } else if is(member, b"println(Ljava/lang/String;)V") {
        Some(Instr::PrintText { newline: true })
    } else if is(member, b"print(I)V") {
        Some(Instr::PrintInt { newline: false })
    } else if is(member, b"print(Ljava/lang/String;)V") {
        Some(Instr::PrintText { newline: false })
    } else {
        None
    }
}

/// A built-in constructor of a class.
pub fn constructor(class: u32, member: &[u8]) -> Option<Instr>
    ensures { result ≡ spec.constructor class member.now }
{
    if is(member, b"<init>()V") && has_constructor(class) {
        Some(Instr::Init { class, text: false })
    } else if is(member, b"<init>(Ljava/lang/Runnable;)V") && class == THREAD {
        Some(Instr::InitRunnable)
    } else if is(member, b"<init>(Ljava/lang/String;)V") && has_text_constructor(class) {
        Some(Instr::Init { class, text: true })
    } else {
        None
    }
}

/// Whether a method of this name and descriptor may not be declared.
pub fn is_reserved(member: &[u8]) -> bool
    ensures { result ≡ spec.is_reserved member.now }
{
    is(member, b"start()V")
        || is(member, b"join()V")
        || is(member, b"wait()V")
        || is(member, b"notify()V")
        || is(member, b"notifyAll()V")
        || is(member, b"yield()V")
}

fn of_lock(class: u32, member: &[u8]) -> Option<Instr>
    ensures { result ≡ spec.of_lock class member.now }
{
    if has_lock(class) {
        lock_member(member)
    } else {
        None
    }
}

fn of_thread(is_thread: bool, member: &[u8]) -> Option<Instr>
    ensures { result ≡ spec.of_thread is_thread member.now }
{
    if is_thread {
        thread_member(member)
    } else {
        None
    }
}

fn of_stream(class: u32, member: &[u8]) -> Option<Instr>
    ensures { result ≡ spec.of_stream class member.now }
{
    if class == PRINT_STREAM {
        stream_member(member)
    } else {
        None
    }
}

/// The first of two instructions that is there.
pub fn first_some(first: Option<Instr>, rest: Option<Instr>) -> Option<Instr>
    ensures { result ≡ spec.first_some first rest }
{
    match first {
        Some(instr) => Some(instr),
        None => rest,
    }
}

/// A built-in member that isn't static and no constructor, of a class that is one of threads or not.
pub fn instance_member(class: u32, is_thread: bool, member: &[u8]) -> Option<Instr>
    ensures { result ≡ spec.instance_member class is_thread member.now }
{
    let of_others = first_some(of_thread(is_thread, member), of_stream(class, member));
    first_some(of_lock(class, member), of_others)
}

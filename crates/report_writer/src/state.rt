//! The text of a machine's state.

ghost use Rattle.std.specs.Prelude.{◌≡◌, ◌<◌, ◌≤◌, ◌+◌, ◌^◌, ◌++◌, List, ℕ, Option, Some, OnOk, IfOk, length, option_map, slice_get, decimal};
ghost use Rattle.std.specs.Fmt.{signed_decimal};
ghost use Rattle.machine_model.specs.Shared.{monitor_at};
ghost use Rattle.shared_world.specs.Reading.{lock_state_of};
ghost use Rattle.event_machine.specs.MachineView.{machine_of};
ghost use Rattle.report_writer.specs.State as spec;
ghost use Rattle.report_writer.specs.Names.{class_name};

use crate::names::{put, put_class, put_number, put_static_name};
use crate::report::put_counted;
use event_machine::Machine;
use machine_model::RowState;
use shared_world::{LockState, World};
use std::alloc::Global;
use vm_model::{FIRST_USER_CLASS, Lock, NoMemory, Program, Value};

/// Adds a number with its sign, in decimal.
fn put_signed(out: &mut Vec<u8>, alloc: Global, n: i32) -> Result<(), NoMemory>
    ensures { OnOk result (out.new.items ≡ out.old.items ++ signed_decimal n) }
{
    let digits = n.to_string(alloc)?;
    put(out, digits.as_bytes())
}

fn put_value(out: &mut Vec<u8>, alloc: Global, value: Value) -> Result<(), NoMemory>
    ensures { OnOk result (out.new.items ≡ out.old.items ++ spec.value_words value) }
{
    match value {
        Value::Int(n) => put_signed(out, alloc, n),
        Value::Null => put(out, b"null"),
        Value::Obj { id, class: _ } => {
            put(out, b"obj ")?;
            put_number(out, u64::from(id))
        }
        Value::Arr { id, len: _ } => {
            put(out, b"arr ")?;
            put_number(out, u64::from(id))
        }
        Value::Text(text) => {
            put(out, b"text ")?;
            put_number(out, u64::from(text))
        }
        Value::Stream => put(out, b"stream"),
    }
}

fn put_held(out: &mut Vec<u8>, alloc: Global, world: &World, slot: u32) -> Result<(), NoMemory>
    ensures { OnOk result (out.new.items ≡ out.old.items ++ spec.held_words (slice_get world.now.shared.statics slot)) }
{
    if !world.has_static(slot) {
        return Ok(());
    }
    put_value(out, alloc, world.static_value(slot))
}

fn put_static(
    out: &mut Vec<u8>,
    alloc: Global,
    program: &Program,
    world: &World,
    slot: u32,
) -> Result<(), NoMemory>
    ensures { OnOk result (out.new.items ≡ out.old.items ++ spec.static_line program.now world.now.shared slot) }
{
    put(out, b"static ")?;
    put_static_name(out, program, slot)?;
    put(out, b" ")?;
    put_held(out, alloc, world, slot)?;
    put(out, b"\n")
}

fn put_statics(
    out: &mut Vec<u8>,
    alloc: Global,
    program: &Program,
    world: &World,
    count: u32,
) -> Result<(), NoMemory>
    ensures { OnOk result (out.new.items ≡ out.old.items ++ spec.static_lines program.now world.now.shared count) }
{
    for slot in 0..count {
        put_static(out, alloc, program, world, slot)?;
    }
    Ok(())
}

fn put_row_word(out: &mut Vec<u8>, state: RowState) -> Result<(), NoMemory>
    ensures { OnOk result (out.new.items ≡ out.old.items ++ spec.row_word state) }
{
    match state {
        RowState::Live => put(out, b"live"),
        RowState::Waiting => put(out, b"waiting"),
        RowState::Notified => put(out, b"notified"),
        RowState::Ended => put(out, b"ended"),
    }
}

fn put_thread(out: &mut Vec<u8>, world: &World, thread: u32) -> Result<(), NoMemory>
    requires { thread < length world.now.shared.rows }
    ensures { OnOk result (out.new.items ≡ out.old.items ++ spec.thread_line world.now.shared thread) }
{
    put(out, b"thread ")?;
    put_number(out, u64::from(thread))?;
    put(out, b" ")?;
    put_row_word(out, world.row(thread))?;
    put(out, b"\n")
}

fn put_threads(out: &mut Vec<u8>, world: &World) -> Result<(), NoMemory>
    ensures { OnOk result (out.new.items ≡ out.old.items ++ spec.thread_lines world.now.shared (length world.now.shared.rows)) }
{
    for thread in 0..world.rows() {
        put_thread(out, world, thread)?;
    }
    Ok(())
}

fn put_owner(out: &mut Vec<u8>, owner: Option<u32>) -> Result<(), NoMemory>
    ensures { OnOk result (out.new.items ≡ out.old.items ++ spec.owner_words owner) }
{
    match owner {
        Some(thread) => put_number(out, u64::from(thread)),
        None => put(out, b"none"),
    }
}

fn put_lock_name(out: &mut Vec<u8>, program: &Program, lock: Lock) -> Result<(), NoMemory>
    ensures { OnOk result (out.new.items ≡ out.old.items ++ spec.lock_name program.now lock) }
{
    match lock {
        Lock::Object(id) => {
            put(out, b"obj ")?;
            put_number(out, u64::from(id))
        }
        Lock::Class(class) => {
            put(out, b"class ")?;
            put_class(out, program, class)
        }
    }
}

fn put_state(
    out: &mut Vec<u8>,
    program: &Program,
    lock: Lock,
    state: LockState,
) -> Result<(), NoMemory>
    ensures { OnOk result (out.new.items ≡ out.old.items ++ spec.state_words (spec.lock_name program.now lock) state) }
{
    put(out, b"lock ")?;
    put_lock_name(out, program, lock)?;
    put(out, b" owner ")?;
    put_owner(out, state.owner)?;
    put(out, b" count ")?;
    put_number(out, u64::from(state.count))?;
    put(out, b" waiters ")?;
    put_number(out, u64::from(state.waiters))?;
    put(out, b"\n")
}

/// What is seen of a lock, if there is such a lock.
fn state_of_lock(world: &World, lock: Lock) -> Option<LockState>
    ensures { result ≡ option_map lock_state_of (monitor_at world.now.shared.monitors lock) }
{
    if world.has_lock(lock) {
        Some(world.lock_state(lock))
    } else {
        None
    }
}

fn put_lock(out: &mut Vec<u8>, program: &Program, world: &World, lock: Lock) -> Result<(), NoMemory>
    ensures { OnOk result (out.new.items ≡ out.old.items ++ spec.lock_line program.now world.now.shared lock) }
{
    match state_of_lock(world, lock) {
        Some(state) => {
            if state.owner.is_some() || 0 < state.waiters {
                put_state(out, program, lock, state)
            } else {
                Ok(())
            }
        }
        None => Ok(()),
    }
}

fn put_object_locks(out: &mut Vec<u8>, program: &Program, world: &World) -> Result<(), NoMemory>
    ensures { OnOk result (out.new.items ≡ out.old.items ++ spec.object_lock_lines program.now world.now.shared (length world.now.shared.heap)) }
{
    for id in 0..world.objects() {
        put_lock(out, program, world, Lock::Object(id))?;
    }
    Ok(())
}

fn put_class_locks(
    out: &mut Vec<u8>,
    program: &Program,
    world: &World,
    count: u32,
) -> Result<(), NoMemory>
    requires { FIRST_USER_CLASS + count < 2 ^ 32 }
    ensures { OnOk result (out.new.items ≡ out.old.items ++ spec.class_lock_lines program.now world.now.shared count) }
{
    for i in 0..count {
        put_lock(out, program, world, Lock::Class(FIRST_USER_CLASS + i))?;
    }
    Ok(())
}

/// The state of a machine of this program: its clock, what each static holds, each thread, each lock that is owned or waited
/// on, and the sizes of the heap (in objects and arrays, and in words) and of the output (in bytes).
pub fn state_text(alloc: Global, machine: &Machine, program: &Program) -> Result<Vec<u8>, NoMemory>
    requires statics { length program.now.statics < 2 ^ 32 }
    requires classes { FIRST_USER_CLASS + length program.now.classes < 2 ^ 32 }
    ensures { IfOk result (λ text. text.items ≡ spec.state_text program.now (machine_of machine.now)) }
{
    let world = machine.world();
    let mut out = Vec::new(alloc);
    put_counted(&mut out, b"clock", world.clock())?;
    put_statics(
        &mut out,
        alloc,
        program,
        world,
        program.statics.len() as u32,
    )?;
    put_threads(&mut out, world)?;
    put_object_locks(&mut out, program, world)?;
    put_class_locks(&mut out, program, world, program.classes.len() as u32)?;
    put_counted(&mut out, b"objects", u64::from(world.objects()))?;
    put_counted(&mut out, b"words", u64::from(world.words()))?;
    put_counted(&mut out, b"output", world.output().len() as u64)?;
    Ok(out)
}

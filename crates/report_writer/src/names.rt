ghost use Rattle.std.specs.Prelude.{◌≡◌, ◌++◌, List, ℕ, OnOk, decimal, Some, [], slice_get, unwrap_or};
ghost use Rattle.std.specs.List.{flat_map};
ghost use Rattle.report_writer.specs.Names.{class_name, descriptor as descriptor_text, method_name, name_of_method, name_of_slot, return_descriptor, static_name};

use built_in_classes::built_in_name;
use itoa::Buffer;
use vm_model::{FIRST_USER_CLASS, Kind, Method, NoMemory, Program, StaticSlot};

/// Adds bytes at the end.
pub fn put(out: &mut Vec<u8>, bytes: &[u8]) -> Result<(), NoMemory>
    ensures { OnOk result (out.new.items ≡ out.old.items ++ bytes.now) }
{
    out.extend_from_slice(bytes)?;
    Ok(())
}

/// Adds a number in decimal.
pub fn put_number(out: &mut Vec<u8>, n: u64) -> Result<(), NoMemory>
    ensures { OnOk result (out.new.items ≡ out.old.items ++ decimal n) }
{
    let mut buffer = Buffer::new();
    put(out, buffer.format(n).as_bytes())
}

/// The name of a class of the program.
fn name_of_class<'a>(program: &'a Program, class: u32) -> &'a [u8]
    ensures { result.now ≡ class_name program.now class }
{
    if class < FIRST_USER_CLASS {
        return built_in_name(class);
    }
    match program.class(class) {
        Some(class) => class.name.bytes(),
        None => &[],
    }
}

/// Adds the name of a class of the program.
pub fn put_class(out: &mut Vec<u8>, program: &Program, class: u32) -> Result<(), NoMemory>
    ensures { OnOk result (out.new.items ≡ out.old.items ++ class_name program.now class) }
{
    put(out, name_of_class(program, class))
}

/// Adds the descriptor of a kind.
fn put_descriptor(out: &mut Vec<u8>, program: &Program, kind: Kind) -> Result<(), NoMemory>
    ensures { OnOk result (out.new.items ≡ out.old.items ++ descriptor_text program.now kind) }
{
    match kind {
        Kind::Int => put(out, b"I"),
        Kind::Null => put(out, b"Ljava/lang/Object;"),
        Kind::Ref(class) => {
            put(out, b"L")?;
            put_class(out, program, class)?;
            put(out, b";")
        }
        Kind::Arr => put(out, b"[I"),
        Kind::Args => put(out, b"[Ljava/lang/String;"),
    }
}

fn put_descriptors(out: &mut Vec<u8>, program: &Program, kinds: &[Kind]) -> Result<(), NoMemory>
    ensures { OnOk result (out.new.items ≡ out.old.items ++ flat_map (descriptor_text program.now) kinds.now) }
{
    for kind in kinds {
        put_descriptor(out, program, *kind)?;
    }
    Ok(())
}

fn put_return(out: &mut Vec<u8>, program: &Program, gives: Option<Kind>) -> Result<(), NoMemory>
    ensures { OnOk result (out.new.items ≡ out.old.items ++ return_descriptor program.now gives) }
{
    match gives {
        Some(kind) => put_descriptor(out, program, kind),
        None => put(out, b"V"),
    }
}

fn put_named(out: &mut Vec<u8>, program: &Program, method: &Method) -> Result<(), NoMemory>
    ensures { OnOk result (out.new.items ≡ out.old.items ++ name_of_method program.now (Some method.now)) }
{
    put_class(out, program, method.class)?;
    put(out, b"/")?;
    put(out, method.name.bytes())?;
    put(out, b"(")?;
    put_descriptors(out, program, &method.params)?;
    put(out, b")")?;
    put_return(out, program, method.gives)
}

/// Adds a method of the program, as its class, its name and its descriptor.
pub fn put_method(out: &mut Vec<u8>, program: &Program, method: u32) -> Result<(), NoMemory>
    ensures { OnOk result (out.new.items ≡ out.old.items ++ method_name program.now method) }
{
    match program.method(method) {
        Some(method) => put_named(out, program, method),
        None => Ok(()),
    }
}

fn put_slot_name(out: &mut Vec<u8>, program: &Program, slot: &StaticSlot) -> Result<(), NoMemory>
    ensures { OnOk result (out.new.items ≡ out.old.items ++ name_of_slot program.now (Some slot.now)) }
{
    put_class(out, program, slot.class)?;
    put(out, b"/")?;
    put(out, slot.name.bytes())
}

/// Adds a static of the program, as its class and its name.
pub fn put_static_name(out: &mut Vec<u8>, program: &Program, slot: u32) -> Result<(), NoMemory>
    ensures { OnOk result (out.new.items ≡ out.old.items ++ static_name program.now slot) }
{
    match program.static_slot(slot) {
        Some(slot) => put_slot_name(out, program, slot),
        None => Ok(()),
    }
}

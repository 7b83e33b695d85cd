// Copies of the parts of a program.
ghost use Rattle.std.specs.Prelude.{◌≡◌, IfOk};

use std::alloc::Global;
use vm_model::{Class, Field, Name, NoMemory, StaticSlot};

/// An equal name.
pub fn name(alloc: Global, name: &Name) -> Result<Name, NoMemory>
    ensures { IfOk result (λ copied. copied ≡ name.now) }
{
    Name::of(alloc, name.bytes())
}

/// Equal names, in this order.
pub fn names(alloc: Global, items: &[Name]) -> Result<Vec<Name>, NoMemory>
    ensures { IfOk result (λ copies. copies.items ≡ items.now) }
{
    let mut copies = Vec::with_capacity(alloc, items.len())?;
    for item in items {
        copies.push(name(alloc, item)?)?;
    }
    Ok(copies)
}

fn field(alloc: Global, field: &Field) -> Result<Field, NoMemory>
    ensures { IfOk result (λ copied. copied ≡ field.now) }
{
    Ok(Field {
        name: name(alloc, &field.name)?,
        kind: field.kind,
    })
}

fn fields(alloc: Global, items: &[Field]) -> Result<Vec<Field>, NoMemory>
    ensures { IfOk result (λ copies. copies.items ≡ items.now) }
{
    let mut copies = Vec::with_capacity(alloc, items.len())?;
    for item in items {
        copies.push(field(alloc, item)?)?;
    }
    Ok(copies)
}

fn class(alloc: Global, class: &Class) -> Result<Class, NoMemory>
    ensures { IfOk result (λ copied. copied ≡ class.now) }
{
    Ok(Class {
        name: name(alloc, &class.name)?,
        is_thread: class.is_thread,
        is_runnable: class.is_runnable,
        fields: fields(alloc, class.fields.as_slice())?,
        run: class.run,
    })
}

/// Equal classes, in this order.
pub fn classes(alloc: Global, items: &[Class]) -> Result<Vec<Class>, NoMemory>
    ensures { IfOk result (λ copies. copies.items ≡ items.now) }
{
    let mut copies = Vec::with_capacity(alloc, items.len())?;
    for item in items {
        copies.push(class(alloc, item)?)?;
    }
    Ok(copies)
}

fn static_slot(alloc: Global, slot: &StaticSlot) -> Result<StaticSlot, NoMemory>
    ensures { IfOk result (λ copied. copied ≡ slot.now) }
{
    Ok(StaticSlot {
        class: slot.class,
        name: name(alloc, &slot.name)?,
        kind: slot.kind,
        start: slot.start,
    })
}

/// Equal statics, in this order.
pub fn static_slots(alloc: Global, items: &[StaticSlot]) -> Result<Vec<StaticSlot>, NoMemory>
    ensures { IfOk result (λ copies. copies.items ≡ items.now) }
{
    let mut copies = Vec::with_capacity(alloc, items.len())?;
    for item in items {
        copies.push(static_slot(alloc, item)?)?;
    }
    Ok(copies)
}

// All threads that a run can have, from the table and afresh.
ghost use Rattle.std.specs.Prelude.{◌≡◌, ◌<◌, ℕ, List, false, length, IfOk};
ghost use Rattle.schedule_log.specs.Parts.{AreParts, IsPart as IsLogPart};
ghost use Rattle.vm_model.specs.declared.limits.TheConstants.{MOST_THREADS};
ghost use Rattle.machine_model.specs.Declarations.{declarations_of};
ghost use Rattle.machine_model.specs.Machine.{threads_of};
ghost use Rattle.event_machine.specs.MachineView.{IsMachineOf};
ghost use Rattle.lane_driver.specs.Gathered.{AllParts, AllStand, FitFrom, FitsHistory, NoteFrom, Notes, Stands};

use crate::fresh::{fresh_thread, started_count};
use event_machine::Machine;
use local_machine::Local;
use schedule_log::Folding;
use shared_world::World;
use std::alloc::Global;
use vm_model::{MOST_THREADS, NoMemory, Plain};

/// A started thread: the one of the table, or a fresh one where it made no event.
fn started_part(
    alloc: Global,
    plain: &Plain,
    world: &World,
    kept: Option<(Local, Folding)>,
    thread: u32,
) -> Result<(Local, Folding), NoMemory>
    requires started { thread < length world.now.shared.rows }
    requires fits { FitsHistory plain.now world.now.history thread kept }
    ensures local { IfOk result (λ part. Stands plain.now world.now.history thread part.0) }
    ensures folding { IfOk result (λ part. IsLogPart (threads_of world.now.history) thread part.1) }
{
    match kept {
        Some(part) => Ok(part),
        None => {
            let local = fresh_thread(alloc, plain, world, thread)?;
            Ok((local, Folding::new(alloc, thread)))
        }
    }
}

/// The started threads in order of number, and their intervals.
fn gather_started(
    alloc: Global,
    plain: &Plain,
    world: &World,
    table: &mut Vec<Option<(Local, Folding)>>,
) -> Result<(Vec<Local>, Vec<Folding>), NoMemory>
    requires size { length table.old.items ≡ MOST_THREADS }
    requires fit { FitFrom plain.now world.now.history 0 table.old.items }
    ensures size { length table.new.items ≡ MOST_THREADS }
    ensures rest { IfOk result (λ all. FitFrom plain.now world.now.history (length world.now.shared.rows) table.new.items) }
    ensures many { IfOk result (λ all. length all.0.items ≡ length world.now.shared.rows) }
    ensures parts_many { IfOk result (λ all. length all.1.items ≡ length world.now.shared.rows) }
    ensures stand { IfOk result (λ all. AllStand plain.now world.now.history all.0.items) }
    ensures parts { IfOk result (λ all. AllParts world.now.history all.1.items) }
{
    let mut locals = Vec::new(alloc);
    let mut parts = Vec::new(alloc);
    for thread in 0..started_count(world) {
        let slot = &mut table[thread as usize];
        let kept = slot.take();
        let (local, folding) = started_part(alloc, plain, world, kept, thread)?;
        locals.push(local)?;
        parts.push(folding)?;
    }
    Ok((locals, parts))
}

/// The intervals of a thread: none where it made no event.
fn folding_of(alloc: Global, kept: Option<(Local, Folding)>, thread: u32) -> Folding
    requires known { thread < MOST_THREADS }
    ensures { (threads : List ℕ) → Notes threads thread kept → IsLogPart threads thread result }
{
    match kept {
        Some((_, folding)) => folding,
        None => Folding::new(alloc, thread),
    }
}

/// Adds the intervals of the numbers of which no thread was started.
fn gather_rest(
    alloc: Global,
    world: &World,
    table: &mut Vec<Option<(Local, Folding)>>,
    mut parts: Vec<Folding>,
) -> Result<Vec<Folding>, NoMemory>
    requires size { length table.old.items ≡ MOST_THREADS }
    requires note { NoteFrom (threads_of world.now.history) (length world.now.shared.rows) table.old.items }
    requires many { length parts.items ≡ length world.now.shared.rows }
    requires parts { AllParts world.now.history parts.items }
    ensures many { IfOk result (λ all. length all.items ≡ MOST_THREADS) }
    ensures parts { IfOk result (λ all. AreParts (threads_of world.now.history) all.items) }
{
    for thread in started_count(world)..MOST_THREADS {
        let slot = &mut table[thread as usize];
        let kept = slot.take();
        parts.push(folding_of(alloc, kept, thread))?;
    }
    Ok(parts)
}

/// The machine of a closed gate's world and of the threads that lanes ran, and the intervals of each thread that a run can
/// have.
pub fn assemble(
    alloc: Global,
    plain: &Plain,
    world: World,
    mut table: Vec<Option<(Local, Folding)>>,
) -> Result<(Machine, Vec<Folding>), NoMemory>
    requires declared { world.declarations ≡ declarations_of plain.now }
    requires size { length table.items ≡ MOST_THREADS }
    requires fit { FitFrom plain.now world.history 0 table.items }
    ensures own { IfOk result (λ all. IsMachineOf plain.now all.0) }
    ensures whole { IfOk result (λ all. all.0.is_broken ≡ false) }
    ensures world { IfOk result (λ all. all.0.world ≡ world) }
    ensures many { IfOk result (λ all. length all.1.items ≡ MOST_THREADS) }
    ensures parts { IfOk result (λ all. AreParts (threads_of all.0.world.history) all.1.items) }
{
    let (locals, parts) = gather_started(alloc, plain, &world, &mut table)?;
    let parts = gather_rest(alloc, &world, &mut table, parts)?;
    Ok((Machine::assemble(plain, world, locals), parts))
}

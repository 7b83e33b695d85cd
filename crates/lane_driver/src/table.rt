// The threads that lanes ran, by number.
ghost use Rattle.std.specs.Prelude.{◌≡◌, length, IfOk, None, replicate};
ghost use Rattle.vm_model.specs.declared.limits.TheConstants.{MOST_THREADS};
ghost use Rattle.lane_driver.specs.Tables.{AllThreads, place, place_lanes};

use lane_core::Lane;
use local_machine::Local;
use schedule_log::Folding;
use std::alloc::Global;
use vm_model::{MOST_THREADS, NoMemory};

/// A table without threads.
fn no_threads(alloc: Global) -> Result<Vec<Option<(Local, Folding)>>, NoMemory>
    ensures { IfOk result (λ table. table.items ≡ replicate MOST_THREADS None) }
{
    let mut table = Vec::new(alloc);
    for _ in 0..MOST_THREADS {
        table.push(None)?;
    }
    Ok(table)
}

/// Puts the threads of a lane into the table.
fn place_parts(table: &mut Vec<Option<(Local, Folding)>>, parts: Vec<(u32, Local, Folding)>)
    ensures { table.new.items ≡ place parts.items table.old.items }
{
    for part in parts {
        let (thread, local, folding) = part;
        let thread = thread as usize;
        if thread >= table.len() {
            continue;
        }
        table[thread] = Some((local, folding));
    }
}

/// The threads of these lanes, each at its number.
pub fn table_of(alloc: Global, lanes: Vec<Lane>) -> Result<Vec<Option<(Local, Folding)>>, NoMemory>
    ensures table { IfOk result (λ table. table.items ≡ place_lanes lanes.items (replicate MOST_THREADS None)) }
    ensures threads { IfOk result (λ table. AllThreads lanes.items) }
{
    let mut table = no_threads(alloc)?;
    for lane in lanes {
        let parts = lane.into_parts(alloc)?;
        place_parts(&mut table, parts);
    }
    Ok(table)
}

ghost use Rattle.std.specs.Prelude.{◌≡◌, ◌<◌, ◌≤◌, [], ◌∷◌, ℕ, false, Contains, IfOk, length};
ghost use Rattle.vm_model.specs.declared.limits.TheConstants.{MOST_LANES, MOST_THREADS};
ghost use Rattle.machine_model.specs.Declarations.{declarations_of};
ghost use Rattle.machine_model.specs.Machine.{threads_of};
ghost use Rattle.schedule_log.specs.Parts.{AreParts};
ghost use Rattle.event_machine.specs.MachineView.{IsMachineOf};

use crate::gather::assemble;
use crate::run::run_lanes;
use crate::seats::{joined, works_of};
use crate::table::table_of;
use event_machine::Machine;
use gate_core::{Meeting, WorldGate};
use schedule_log::Folding;
use std::alloc::Global;
use std::sync::Wait;
use std::thread::Threads;
use vm_model::{NoMemory, Plain};

/// Runs a program by 1 to 16 lanes over a new gate, each lane on a thread of its own where one can be made, until all have
/// left. Gives the machine where they left it, which is the run of the order that the gate made, and for each thread that a run
/// can have the intervals of its clocks. The caller finishes the run by one thread. It fails only where memory is missing, here
/// or in a lane, and nothing is left of the run then.
pub fn machine_by_lanes<R: Threads + Wait + Sync, G: WorldGate, M: Meeting>(
    rt: &R,
    alloc: Global,
    plain: &Plain,
    gate: G,
    first: G::Seat,
    lanes: u32,
    meeting: &M,
) -> Result<(Machine, Vec<Folding>), NoMemory>
    requires some { 1 ≤ lanes }
    requires lanes { lanes ≤ MOST_LANES }
    requires of { (G.about gate).lanes ≡ lanes }
    requires declared { (G.about gate).declarations ≡ declarations_of plain.now }
    requires seat { G.IsSeatOf gate first }
    requires has { (G.told first).lanes ≡ 0 ∷ [] }
    requires entries { (G.told first).own 0 ≡ [] }
    requires gives { (lane : ℕ) → 1 ≤ lane → lane < lanes → Contains (G.gives first) lane }
    ensures own { IfOk result (λ all. IsMachineOf plain.now all.0) }
    ensures whole { IfOk result (λ all. all.0.is_broken ≡ false) }
    ensures budget { IfOk result (λ all. all.0.world.budget ≡ G.budget gate) }
    ensures admits { IfOk result (λ all. G.Admits gate all.0.world) }
    ensures many { IfOk result (λ all. length all.1.items ≡ MOST_THREADS) }
    ensures parts { IfOk result (λ all. AreParts (threads_of all.0.world.history) all.1.items) }
{
    let works = works_of(alloc, plain, &gate, first, lanes)?;
    let ran = run_lanes(rt, alloc, plain, &gate, meeting, works)?;
    let (all, seat) = joined(alloc, plain, &gate, ran)?;
    let world = gate.close(seat);
    let table = table_of(alloc, all)?;
    assemble(alloc, plain, world, table)
}

ghost use Rattle.std.specs.Prelude.{◌≡◌, ℕ, List, Some, slice_get};
ghost use Rattle.vm_model.specs.declared.op.Entry.{Entry};
ghost use Rattle.vm_model.specs.Program.{PlainProgram};
ghost use Rattle.machine_model.specs.Declarations.{Declarations, declarations_of};
ghost use Rattle.machine_model.specs.Frames.{LocalState};
ghost use Rattle.machine_model.specs.Machine.{MachineState, run, threads_of};
ghost use Rattle.machine_model.specs.Operations.{IsLegalHistory, target_of};
ghost use Rattle.machine_model.specs.Shared.{SharedState};
ghost use Rattle.projection_laws.specs.Projections.{AreProjections, machine_of, target_in};

/// The projection theorem. Where each reply of a history is the one that the operations before it lead to, and each thread's
/// own entries are what the thread by itself asks for, the history is that of the run of its thread column. So threads may
/// be run apart from each other, in whatever order, and still make one run of the machine.
pub fn legal_projections_are_a_run()
    ensures { (p : PlainProgram) (h : List Entry) (s : SharedState) (ls : List LocalState) → IsLegalHistory (declarations_of p) h s → AreProjections p h s ls → run p (threads_of h) ≡ Some (machine_of s ls h) }
{}

/// Each run is so: its history is legal, and each thread's own entries lead the thread by itself to the state that it has.
pub fn run_is_legal_with_projections()
    ensures threads { (p : PlainProgram) (ts : List ℕ) (m : MachineState) → run p ts ≡ Some m → threads_of m.history ≡ ts }
    ensures legal { (p : PlainProgram) (ts : List ℕ) (m : MachineState) → run p ts ≡ Some m → IsLegalHistory (declarations_of p) m.history m.world }
    ensures projections { (p : PlainProgram) (ts : List ℕ) (m : MachineState) → run p ts ≡ Some m → AreProjections p m.history m.world m.locals }
{}

/// The object of a thread is the one of the start in the history that began the thread.
pub fn targets_stand_in_the_history()
    ensures { (d : Declarations) (h : List Entry) (s : SharedState) → IsLegalHistory d h s → (u : ℕ) → target_of (slice_get s.rows u) ≡ target_in h u }
{}

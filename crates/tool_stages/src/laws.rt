//! What holds of each accepted program: here the laws of linking and those of shapes meet. Each function does nothing: its
//! contract is the law.

ghost use Rattle.std.specs.Prelude.{◌≡◌, ◌≢◌, ◌≤◌, ℕ, List, true, None, Ok, Some, is_some, slice_get};
ghost use Rattle.vm_model.specs.Program.{PlainProgram};
ghost use Rattle.machine_model.specs.Declarations.{declarations_of};
ghost use Rattle.machine_model.specs.Frames.{LocalState, Ended};
ghost use Rattle.machine_model.specs.LocalStep.{pending_operation};
ghost use Rattle.machine_model.specs.Machine.{MachineState, end_of, run, start_machine};
ghost use Rattle.machine_model.specs.Shapes.{Table, IsShapeTable};
ghost use Rattle.shared_world.specs.Fitting.{FirstValuesFit};
ghost use Rattle.jasmin_lines.specs.Plain.{PlainClassText};
ghost use Rattle.class_linker.specs.Linking.{linking};
ghost use Rattle.shape_laws.specs.Worlds.{FitsMachine};
ghost use Rattle.tool_stages.specs.Accepting.{IsAccepted};

/// An accepted program makes an event under each budget that allows one, so that each recording has a log.
pub fn accepted_program_begins()
    ensures { (text : List ℕ) (p : PlainProgram) (budget : ℕ) → IsAccepted text p → 1 ≤ budget → end_of p (start_machine p) budget ≡ None }
{}

/// No run of an accepted program meets a missing operand, one of another kind, or an unset local (JVMS SE 8 §4.10): each
/// machine that a run leads to has statics, fields and items of their declared kinds, and each of its threads is in a state
/// that fits the shapes at its places. So a thread that isn't ended asks for an operation.
pub fn accepted_runs_fit()
    ensures machines { (text : List ℕ) (p : PlainProgram) (table : Table) (m : MachineState) (ts : List ℕ) → IsAccepted text p → IsShapeTable p table → run p ts ≡ Some m → FitsMachine p table m }
    ensures threads { (text : List ℕ) (p : PlainProgram) (m : MachineState) (ts : List ℕ) (t : ℕ) (l : LocalState) → IsAccepted text p → run p ts ≡ Some m → slice_get m.locals t ≡ Some l → l ≢ Ended → is_some (pending_operation p l) ≡ true }
{}

/// What the statics of a linked program hold at first fits their kinds, so that a world that begins with it gives values of
/// the declared kinds.
pub fn first_values_of_statics_fit()
    ensures linked { (classes : List PlainClassText) (p : PlainProgram) → linking classes ≡ Ok p → FirstValuesFit (declarations_of p) }
    ensures accepted { (text : List ℕ) (p : PlainProgram) → IsAccepted text p → FirstValuesFit (declarations_of p) }
{}

ghost use Rattle.std.specs.Prelude.{◌≡◌, ◌≢◌, ◌≤◌, ℕ, List, true, None, Some, is_some, slice_get};
ghost use Rattle.vm_model.specs.declared.op.Op.{Op};
ghost use Rattle.vm_model.specs.declared.op.Reply.{Reply};
ghost use Rattle.vm_model.specs.declared.value.ObjRef.{ObjRef};
ghost use Rattle.vm_model.specs.Program.{PlainProgram};
ghost use Rattle.machine_model.specs.Declarations.{declarations_of};
ghost use Rattle.machine_model.specs.Kinds.{extends};
ghost use Rattle.machine_model.specs.Frames.{Frame, LocalState, Ended};
ghost use Rattle.machine_model.specs.Operands.{Undefined};
ghost use Rattle.machine_model.specs.Effect.{action};
ghost use Rattle.machine_model.specs.LocalStep.{absorb, first_of_main, first_of_thread, local_step, pending_operation, settled};
ghost use Rattle.machine_model.specs.Operations.{apply, fits_reply, is_enabled};
ghost use Rattle.machine_model.specs.Shared.{SharedState};
ghost use Rattle.machine_model.specs.Machine.{MachineState, end_of, run, start_machine};
ghost use Rattle.machine_model.specs.Shapes.{Table, IsShapeTable, IsVerified};
ghost use Rattle.shape_laws.specs.Fitting.{has_objects};
ghost use Rattle.shape_laws.specs.States.{FindsOperands, FitsFrame, FitsTable, is_made_op, is_made_reply};
ghost use Rattle.shape_laws.specs.Linked.{IsWellLinked, NamesWhatIsThere, has_thread_run};
ghost use Rattle.shape_laws.specs.Worlds.{FitsMachine, FitsWorld};

/// The states with which threads begin fit each closed table of a linked program: that of `main`, and that of a thread of
/// an object whose class extends Thread.
pub fn first_states_fit()
    ensures main { (p : PlainProgram) (table : Table) → IsWellLinked p → IsShapeTable p table → FitsTable p table (first_of_main p) }
    ensures thread { (p : PlainProgram) (table : Table) (target : ObjRef) → IsWellLinked p → IsShapeTable p table → has_thread_run p ≡ true → has_objects target.class ≡ true → extends (declarations_of p) target.class 1 ≡ true → FitsTable p table (first_of_thread p target) }
{}

/// The steps of a thread alone keep its state fitting.
pub fn local_steps_fit()
    ensures one { (p : PlainProgram) (table : Table) (l m : LocalState) → IsWellLinked p → IsShapeTable p table → FitsTable p table l → local_step p l ≡ Some m → FitsTable p table m }
    ensures many { (p : PlainProgram) (table : Table) (l : LocalState) → IsWellLinked p → IsShapeTable p table → FitsTable p table l → FitsTable p table (settled p l) }
{}

/// A reply that fits the operation that a thread asks for keeps its state fitting.
pub fn replies_fit()
    ensures { (p : PlainProgram) (table : Table) (l : LocalState) (o : Op) (r : Reply) → IsWellLinked p → IsShapeTable p table → FitsTable p table l → pending_operation p l ≡ Some o → fits_reply (declarations_of p) o r ≡ true → is_made_reply r ≡ true → FitsTable p table (absorb p l o r) }
{}

/// The instruction of a frame that fits is there and finds its operands, each of the kind that it takes, and its locals set
/// (JVMS SE 8 §4.10). So what it does is defined, and a thread whose state fits asks for an operation until it is ended.
pub fn operands_are_found()
    ensures operands { (p : PlainProgram) (table : Table) (f : Frame) → IsShapeTable p table → FitsFrame p table f → FindsOperands p f }
    ensures action { (p : PlainProgram) (table : Table) (f : Frame) → IsWellLinked p → IsShapeTable p table → FitsFrame p table f → action p f ≢ Undefined }
    ensures operation { (p : PlainProgram) (table : Table) (l : LocalState) → IsWellLinked p → IsShapeTable p table → FitsTable p table l → l ≢ Ended → is_some (pending_operation p l) ≡ true }
{}

/// Each run of a verified program leads to a machine whose world holds values of the declared kinds, and whose threads are
/// all in states that fit the shapes at their places. So each thread that isn't ended asks for an operation.
pub fn runs_fit()
    ensures machines { (p : PlainProgram) (table : Table) (m : MachineState) (ts : List ℕ) → IsWellLinked p → IsShapeTable p table → run p ts ≡ Some m → FitsMachine p table m }
    ensures threads { (p : PlainProgram) (m : MachineState) (ts : List ℕ) (t : ℕ) (l : LocalState) → IsWellLinked p → IsVerified p → run p ts ≡ Some m → slice_get m.locals t ≡ Some l → l ≢ Ended → is_some (pending_operation p l) ≡ true }
{}

/// A reply of a world that holds values of the declared kinds fits its operation, and the world goes on to hold such values.
pub fn worlds_fit()
    ensures replies { (p : PlainProgram) (s : SharedState) (t : ℕ) (o : Op) → FitsWorld p s → is_made_op p o ≡ true → is_enabled (declarations_of p) s t o ≡ true → fits_reply (declarations_of p) o (apply (declarations_of p) s t o).reply ≡ true }
    ensures worlds { (p : PlainProgram) (s : SharedState) (t : ℕ) (o : Op) → FitsWorld p s → is_made_op p o ≡ true → is_enabled (declarations_of p) s t o ≡ true → FitsWorld p (apply (declarations_of p) s t o).world }
{}

/// A verified program makes an event under each budget that allows one: no run of it ends before. Linking gives that it
/// names only what is there.
pub fn verified_program_begins()
    ensures { (p : PlainProgram) (budget : ℕ) → IsWellLinked p → NamesWhatIsThere p → IsVerified p → 1 ≤ budget → end_of p (start_machine p) budget ≡ None }
{}

//! Laws of instructions and of the pass. Each function does nothing: its contract is the law.
ghost use Rattle.std.specs.Prelude.{◌≡◌, ◌<◌, ◌≤◌, ◌++◌, ℕ, Bool, true, false, List, length, Option, Some, Result, Ok, Err};
ghost use Rattle.vm_model.specs.Program.{PlainMethod, PlainProgram, instr_at, method_at};
ghost use Rattle.vm_model.specs.declared.instr.Instr.{Instr};
ghost use Rattle.vm_model.specs.declared.value.Kind.{Kind};
ghost use Rattle.machine_model.specs.Shapes.{Shape, Table, Flow, Takes, TakesAt, Follows, HasShapes, IsVerified, flow, shape_at, with_stack};
ghost use Rattle.shape_lattice.specs.declared.fault.ShapeKind.TheVariants.{Depth};
ghost use Rattle.shape_verifier.specs.declared.fault.Refusal.{Refusal};
ghost use Rattle.shape_verifier.specs.Judging.{judged, operands_of};
ghost use Rattle.shape_verifier.specs.Operands.{over};
ghost use Rattle.shape_verifier.specs.Passing.{PassState, EndsWith, HasTable, begun, turned};
ghost use Rattle.shape_verifier.specs.Kept.{IsBelowTable};

/// An instruction that finds fewer operands than it takes is refused with Depth, whatever those are that it finds, and no other
/// one is. What is below the operands that it takes stays as it is.
pub fn short_stack_is_depth()
    ensures short { (p : PlainProgram) (n place : ℕ) (m : PlainMethod) (i : Instr) (s : Shape) → length s.stack < operands_of p i → judged p n m place i s ≡ Err Depth }
    ensures only { (p : PlainProgram) (n place : ℕ) (m : PlainMethod) (i : Instr) (s : Shape) → judged p n m place i s ≡ Err Depth → length s.stack < operands_of p i }
    ensures below { (p : PlainProgram) (n : ℕ) (i : Instr) (s : Shape) (below : List Kind) → operands_of p i ≤ length s.stack → flow p n i (with_stack s (s.stack ++ below)) ≡ over below (flow p n i s) }
{}

/// An instruction that a closed table follows from one shape, it follows from each shape that this one takes.
pub fn flow_is_monotone()
    ensures { (p : PlainProgram) (table : Table) (n place : ℕ) (i : Instr) (s t : Shape) → Takes p s t → Follows p table n place (flow p n i t) → Follows p table n place (flow p n i s) }
{}

/// Each shape that the pass has reached is taken by the shape at the same place of any closed table.
pub fn pass_stays_below()
    ensures begins { (p : PlainProgram) (table : Table) (n : ℕ) (m : PlainMethod) → method_at p n ≡ Some m → HasShapes p table n (Some m) → IsBelowTable p table n 0 (begun m) }
    ensures goes_on { (p : PlainProgram) (table : Table) (n : ℕ) (m : PlainMethod) (state next : PassState) → method_at p n ≡ Some m → HasShapes p table n (Some m) → IsBelowTable p table n 0 state → turned p n m state ≡ Some (Ok next) → IsBelowTable p table n 0 next }
{}

/// A pass that stops shows that the method has no closed table.
pub fn pass_that_stops_shows_none()
    ensures { (p : PlainProgram) (n : ℕ) (m : PlainMethod) (refusal : Refusal) → method_at p n ≡ Some m → EndsWith p n m (Err refusal) → HasTable p n → ⊥ }
{}

/// A pass that ends gives a closed table.
pub fn pass_that_ends_gives_table()
    ensures { (p : PlainProgram) (n : ℕ) (m : PlainMethod) (state : PassState) → method_at p n ≡ Some m → EndsWith p n m (Ok state) → HasTable p n }
{}

/// Each pass ends.
pub fn pass_ends()
    ensures { (p : PlainProgram) (n : ℕ) (m : PlainMethod) → (answer : Result PassState Refusal) × EndsWith p n m answer }
{}

/// A pass ends in one way only.
pub fn pass_ends_one_way()
    ensures { (p : PlainProgram) (n : ℕ) (m : PlainMethod) (a b : Result PassState Refusal) → EndsWith p n m a → EndsWith p n m b → a ≡ b }
{}

/// A program is verified where each of its methods has a closed table.
pub fn tables_verify()
    ensures { (p : PlainProgram) → ((n : ℕ) → n < length p.methods → HasTable p n) → IsVerified p }
{}

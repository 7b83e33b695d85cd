//! Laws of taking and merging. Each function does nothing: its contract is the law.

ghost use Rattle.std.specs.Prelude.{◌≡◌, IsTrue, length, Ok};
ghost use Rattle.vm_model.specs.Program.{PlainProgram};
ghost use Rattle.machine_model.specs.Shapes.{Shape, Takes};
ghost use Rattle.shape_lattice.specs.Merging.{IsBelow, merged_shape, takes};

/// Merging gives the least shape that takes both: what it gives takes both, and whatever takes both takes it too.
pub fn merging_is_least()
    ensures takes_new { (p : PlainProgram) (new old merged : Shape) → merged_shape p new old ≡ Ok merged → length new.locals ≡ length old.locals → Takes p new merged }
    ensures takes_old { (p : PlainProgram) (new old merged : Shape) → merged_shape p new old ≡ Ok merged → length new.locals ≡ length old.locals → Takes p old merged }
    ensures least { (p : PlainProgram) (new old both : Shape) → Takes p new both → Takes p old both → IsBelow p (merged_shape p new old) both }
{}

/// One shape takes another where the test says so. It takes itself, and what it takes takes no more than it does.
pub fn taking_is_an_order()
    ensures test { (p : PlainProgram) (new old : Shape) → Takes p new old → IsTrue (takes p new old) }
    ensures tested { (p : PlainProgram) (new old : Shape) → IsTrue (takes p new old) → Takes p new old }
    ensures itself { (p : PlainProgram) (s : Shape) → Takes p s s }
    ensures passes { (p : PlainProgram) (r s t : Shape) → Takes p r s → Takes p s t → Takes p r t }
{}

/// One shape takes another exactly where merging the first into the second leaves the second as it is.
pub fn taking_is_merging_that_changes_nothing()
    ensures taken { (p : PlainProgram) (new old : Shape) → Takes p new old → merged_shape p new old ≡ Ok old }
    ensures unchanged { (p : PlainProgram) (new old : Shape) → length new.locals ≡ length old.locals → merged_shape p new old ≡ Ok old → Takes p new old }
{}

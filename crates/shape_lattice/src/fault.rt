//! What can be wrong at an instruction that meets a shape.

ghost use Rattle.std.specs.Prelude.{◌≡◌};

/// What is wrong at an instruction. Of several faults of one instruction the first of Depth, Unset, Kind, Limit and
/// FallsOff counts.
#[derive(Clone, Copy, Debug, PartialEq, Eq)]
pub enum ShapeKind {
    /// An operand is missing, or operand stacks of unequal depths meet.
    Depth,
    /// A value of another kind is wanted, operands that meet have no common kind, or a method gives back another kind than
    /// it says.
    Kind,
    /// A local is read that isn't set, or that the method doesn't have.
    Unset,
    /// Control goes on after the last instruction.
    FallsOff,
    /// The operand stack is deeper than the method's limit, or the method has no such local.
    Limit,
}

impl ShapeKind {
    ghost use Rattle.shape_lattice.specs.Faults.{kind_number};

    /// The number from 1 to 5 by which the kind is printed.
    pub fn number(&self) -> u8
        ensures { result ≡ kind_number self.now }
    {
        match self {
            ShapeKind::Depth => 1,
            ShapeKind::Kind => 2,
            ShapeKind::Unset => 3,
            ShapeKind::FallsOff => 4,
            ShapeKind::Limit => 5,
        }
    }
}

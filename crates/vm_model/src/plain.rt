ghost use Rattle.std.specs.Prelude.{◌≡◌};

use crate::program::Program;
use std::marker::Model;

/// A linked program within the bounds that a machine needs.
#[derive(Debug, Drop)]
pub struct Plain {
    program: Program,
}

impl Model for Plain {
    ghost use Rattle.vm_model.specs.Program.{PlainProgram};
    ghost use Rattle.vm_model.specs.Plain.{IsWithinBounds};

    ghost Value = { PlainProgram };

    ghost view = { λ s. s.program };

    ghost invariant = { λ s. IsWithinBounds s.program };
}

impl Plain {
    ghost use Rattle.vm_model.specs.Plain.{IsWithinBounds};

    /// The program, as a machine takes it.
    pub fn of(program: Program) -> Plain
        requires { IsWithinBounds program }
        ensures { result ≡ program }
    {
        Plain { program }
    }

    /// The program itself. It takes no memory.
    pub fn program(&self) -> &Program
        ensures value { result.now ≡ self.now }
        ensures within_bounds { IsWithinBounds self.now }
    {
        &self.program
    }
}

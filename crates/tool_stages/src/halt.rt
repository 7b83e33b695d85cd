//! How a stage halts.

use crate::status::Status;
use vm_model::NoMemory;

/// Why a command doesn't go on: what a stage answers where it wasn't done.
#[derive(Drop)]
pub enum Halt {
    /// This status comes, and this line says why.
    Told(Status, Vec<u8>),
    /// Memory was not found.
    Memory,
    /// The folder failed to store the file.
    Store,
}

impl From<NoMemory> for Halt {
    ghost use Rattle.std.specs.Prelude.{◌≡◌};
    ghost use Rattle.tool_stages.specs.declared.halt.Halt.TheVariants.{Memory};

    ghost from_gives = { λ _ e. e ≡ Memory };

    fn from(_e: NoMemory) -> Halt {
        Halt::Memory
    }
}

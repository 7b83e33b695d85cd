// The labels of a method.
ghost use Rattle.std.specs.Prelude.{◌≡◌, ◌∷◌, ◌++◌, [], OnOk, bytes_eq, false};
ghost use Rattle.std.specs.List.{list_any};

use indexmap::IndexSet;
use std::alloc::Global;
use std::marker::Model;
use vm_model::NoMemory;

/// Labels, each once, in the order in which they were added. To look one up takes as long for many as for few.
#[derive(Debug, Drop)]
pub struct Labels {
    names: IndexSet<Vec<u8>>,
}

impl Model for Labels {
    ghost use Rattle.std.specs.Prelude.{List, ℕ};
    ghost use Rattle.jasmin_reader.specs.LabelsView.{names_of};

    ghost Value = { List (List ℕ) };

    ghost view = { λ l. names_of l.names };
}

impl Labels {
    pub fn new(alloc: Global) -> Labels
        ensures { result ≡ [] }
    {
        Labels {
            names: IndexSet::new(alloc),
        }
    }

    /// Whether a label is among these.
    pub fn has(&self, label: &[u8]) -> bool
        ensures { result ≡ list_any (bytes_eq label.now) self.now }
    {
        self.names.contains(label)
    }

    /// Adds a label that isn't among these.
    pub fn add(&mut self, alloc: Global, label: &[u8]) -> Result<(), NoMemory>
        requires { list_any (bytes_eq label.now) self.old ≡ false }
        ensures { OnOk result (self.new ≡ self.old ++ label.now ∷ []) }
    {
        self.names.insert(Vec::from_slice(alloc, label)?)?;
        Ok(())
    }
}

// Byte strings and their numbers.
ghost use Rattle.std.specs.Prelude.{◌≡◌, OnOk, []};
ghost use Rattle.name_resolver.specs.Index as spec;

use indexmap::IndexMap;
use std::alloc::Global;
use std::marker::Model;
use vm_model::NoMemory;

/// Byte strings, each once, and the number of each.
#[derive(Drop)]
pub struct Index {
    rows: IndexMap<Vec<u8>, u32>,
}

impl Model for Index {
    ghost use Rattle.name_resolver.specs.Index.{Rows};
    ghost use Rattle.name_resolver.specs.IndexView.{rows_of};

    ghost Value = { Rows };

    ghost view = { λ i. rows_of i.rows };
}

impl Index {
    /// No byte strings.
    pub fn new(alloc: Global) -> Index
        ensures { result ≡ [] }
    {
        Index {
            rows: IndexMap::new(alloc),
        }
    }

    /// The number of a byte string, if it has one.
    pub fn find(&self, key: &[u8]) -> Option<u32>
        ensures { result ≡ spec.value_of key.now self.now }
    {
        self.rows.get(key).copied()
    }

    /// Gives a byte string a number, where it has none.
    pub fn add(&mut self, alloc: Global, key: &[u8], number: u32) -> Result<(), NoMemory>
        ensures { OnOk result (self.new ≡ spec.with_row key.now number self.old) }
    {
        if self.find(key).is_none() {
            self.rows.insert(Vec::from_slice(alloc, key)?, number)?;
        }
        Ok(())
    }
}

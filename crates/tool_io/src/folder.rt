ghost use Rattle.std.specs.Prelude.{◌≡◌, ◌≤◌, ℕ, Bool, List, Option};
ghost use Rattle.tool_io.specs.Outside.{LoadFails, LoadGives, StoreFails, StoreGives};

use std::alloc::Global;

/// What a load answers.
#[derive(Debug, Drop)]
pub enum Load {
    /// The file's bytes.
    Loaded(Vec<u8>),
    /// There is no file of this name.
    Absent,
    /// The folder failed, and counted it.
    Failed,
    NoMemory,
}

/// What a store answers.
#[derive(Clone, Copy, Debug, PartialEq, Eq)]
pub enum Store {
    Stored,
    /// The folder failed, and counted it. What the named file holds is then unknown; the others stay.
    Failed,
    /// Nothing changed.
    NoMemory,
}

/// A folder of files. It may tell what it holds, as a map from names to bytes; a real one doesn't. It counts the loads and
/// the stores that failed, and nothing else; a count ends at 2^64 - 1.
pub trait Folder {
    /// Whether it tells what it holds. No call changes this.
    ghost is_told: { Self → Bool };
    /// The bytes under a name, if there are some.
    ghost file: { Self → List ℕ → Option (List ℕ) };

    ghost load_faults: { Self → ℕ };

    ghost store_faults: { Self → ℕ };

    /// The bytes of the file of this name.
    fn load(&mut self, alloc: Global, name: &str) -> Load
        ensures told { is_told self.new ≡ is_told self.old }
        ensures files { (other : List ℕ) → file self.new other ≡ file self.old other }
        ensures gives { LoadGives (is_told self.old) (file self.old name.now) result }
        ensures counted { load_faults self.old ≤ load_faults self.new }
        ensures failed { LoadFails (load_faults self.old) (load_faults self.new) result }
        ensures stores { store_faults self.new ≡ store_faults self.old };

    /// Keeps the bytes under this name.
    fn store(&mut self, alloc: Global, name: &str, bytes: &[u8]) -> Store
        ensures told { is_told self.new ≡ is_told self.old }
        ensures gives { StoreGives (is_told self.old) (file self.old) (file self.new) name.now bytes.now result }
        ensures counted { store_faults self.old ≤ store_faults self.new }
        ensures failed { StoreFails (store_faults self.old) (store_faults self.new) result }
        ensures loads { load_faults self.new ≡ load_faults self.old };
}

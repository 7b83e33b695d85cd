ghost use Rattle.std.specs.Prelude.{◌≡◌, ◌≤◌, ℕ, Bool, List, ◌++◌, IsTrue, OnOk, OnErr};
ghost use Rattle.tool_io.specs.Outside.{PutFails, PutGives, PutTakes, TakesPrefix, raised_count};

/// What a put answers.
#[derive(Clone, Copy, Debug, PartialEq, Eq)]
pub enum Put {
    /// So many bytes of the piece were taken.
    Taken(u64),
    /// The sink failed, and counted it. Nothing was taken.
    Failed,
}

/// A sink failed. A prefix of the bytes was taken.
#[derive(Clone, Copy, Debug, PartialEq, Eq)]
pub struct SinkFault;

/// Where the tool prints. It may tell the bytes that it took so far; a real one doesn't. It counts the puts that failed, and
/// nothing else; the count ends at 2^64 - 1.
pub trait Sink {
    /// Whether it tells what it took. No call changes this.
    ghost is_told: { Self → Bool };
    /// The bytes taken so far.
    ghost taken: { Self → List ℕ };

    ghost faults: { Self → ℕ };

    /// Takes some bytes of the piece, from its begin. It takes no memory.
    fn put(&mut self, piece: &[u8]) -> Put
        ensures told { is_told self.new ≡ is_told self.old }
        ensures takes { PutTakes piece.now result }
        ensures gives { PutGives (is_told self.old) (taken self.old) (taken self.new) piece.now result }
        ensures counted { faults self.old ≤ faults self.new }
        ensures failed { PutFails (faults self.old) (faults self.new) result };
}

/// Puts all bytes, in as many pieces as the sink takes them. The first put that fails is the last one. It takes no memory.
pub fn put_all<O: Sink>(out: &mut O, bytes: &[u8]) -> Result<(), SinkFault>
    ensures told { O.is_told out.new ≡ O.is_told out.old }
    ensures ok { OnOk result (IsTrue (O.is_told out.old) → O.taken out.new ≡ O.taken out.old ++ bytes.now) }
    ensures err { OnErr result (TakesPrefix (O.is_told out.old) (O.taken out.old) (O.taken out.new) bytes.now) }
    ensures counted { O.faults out.old ≤ O.faults out.new }
    ensures none { OnOk result (O.faults out.new ≡ O.faults out.old) }
    ensures failed { OnErr result (O.faults out.new ≡ raised_count (O.faults out.old)) }
{
    let mut done = 0;
    while done < bytes.len() {
        match out.put(&bytes[done..]) {
            Put::Taken(count) => done += count as usize,
            Put::Failed => return Err(SinkFault),
        }
    }
    Ok(())
}

ghost use Rattle.std.specs.Prelude.{◌≡◌};
ghost use Rattle.vm_model.specs.Ends.{kind_of_end};

/// Why a thread ends a run (JVMS SE 8 §2.10). `Thrown` has the number of the class of the object that was thrown.
#[derive(Clone, Copy, Debug, PartialEq, Eq)]
pub enum FaultKind {
    NullPointer,
    Arithmetic,
    ArrayIndex,
    NegativeSize,
    MonitorState,
    ThreadState,
    Thrown(u32),
    StackOverflow,
    HeapFull,
    OutputFull,
    ThreadsFull,
}

/// A fault, and where it was met: the thread, the number of the method, and the number of the instruction in it, from 0.
#[derive(Clone, Copy, Debug, PartialEq, Eq)]
pub struct Fault {
    pub kind: FaultKind,
    pub thread: u32,
    pub method: u32,
    pub at: u32,
}

/// How a run ended: all threads that were started have ended; a fault; no thread can go on; all events of the budget
/// were made.
#[derive(Clone, Copy, Debug, PartialEq, Eq)]
pub enum End {
    Done,
    Fault(Fault),
    Stuck,
    Spent,
}

/// How a run ended, without the fault itself: what a log keeps of it.
#[derive(Clone, Copy, Debug, PartialEq, Eq)]
pub enum EndKind {
    Done,
    Fault,
    Stuck,
    Spent,
}

impl End {
    /// What a log keeps of the end.
    pub fn kind(&self) -> EndKind
        ensures { result ≡ kind_of_end self.now }
    {
        match self {
            End::Done => EndKind::Done,
            End::Fault(_) => EndKind::Fault,
            End::Stuck => EndKind::Stuck,
            End::Spent => EndKind::Spent,
        }
    }
}

//! Where the tool reads and stores files, and where it prints: the traits `Folder` and `Sink`, forms of them in memory that
//! tell what they hold, and the real ones, which don't.
#![tactic(auto)]

mod folder;
mod memory;
mod real;
mod sink;

pub use folder::{Folder, Load, Store};
pub use memory::{MemoryFolder, MemorySink};
pub use real::{DiskFolder, OutSink};
pub use sink::{Put, Sink, SinkFault, put_all};

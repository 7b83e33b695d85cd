//! The plain data that all other crates speak of: values, operations, replies, instructions, programs, and the limits of
//! programs and runs.
#![tactic(auto)]

mod ends;
mod instr;
mod limits;
mod memory;
mod name;
mod op;
mod plain;
mod program;
mod value;

pub use ends::{End, EndKind, Fault, FaultKind};
pub use instr::Instr;
pub use limits::{
    FIRST_USER_CLASS, MOST_CLASSES, MOST_DRILL_WORKERS, MOST_EVENTS, MOST_FIELDS, MOST_FRAMES,
    MOST_HEAP_WORDS, MOST_INSTRUCTIONS, MOST_LANES, MOST_LOCAL_STEPS, MOST_LOCALS, MOST_METHODS,
    MOST_OBJECTS, MOST_OPERANDS, MOST_OUTPUT_BYTES, MOST_PARAMETERS, MOST_STATICS, MOST_SWITCHES,
    MOST_TESTS, MOST_TEXT_BYTES, MOST_TEXT_CONSTANT_BYTES, MOST_THREADS, MOST_TRIES, MOST_WORKERS,
};
pub use memory::{Failure, NoMemory};
pub use name::Name;
pub use op::{Entry, Op, Piece, Reply};
pub use plain::Plain;
pub use program::{Class, Field, Method, Program, StaticSlot};
pub use value::{Kind, Lock, ObjRef, Value};

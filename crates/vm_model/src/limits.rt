// The numbers that bound programs and runs. Each stands here once, and code, contracts and definitions cite it.

/// The greatest number of events that a run may have.
pub const MOST_EVENTS: u64 = 1_048_576;

/// The greatest size of a program's text, in bytes. No list of a program that was read from a text is longer: neither its
/// methods, nor the instructions of one of them.
pub const MOST_TEXT_BYTES: usize = 1_048_576;

/// The greatest number of threads of a run, the first one too. A thread's number is below it.
pub const MOST_THREADS: u32 = 64;

/// How many instructions a thread does by itself after a reply before it asks for a `Tick`.
pub const MOST_LOCAL_STEPS: u32 = 4_096;

/// The greatest number of frames of a thread (JVMS SE 8 §2.5.2).
pub const MOST_FRAMES: usize = 256;

/// The greatest number of locals of a frame, which is also what a method without a limit has.
pub const MOST_LOCALS: u32 = 256;

/// The greatest number of operands of a frame, which is also what a method without a limit has.
pub const MOST_OPERANDS: u32 = 1_024;

/// The greatest number of instructions of a method.
pub const MOST_INSTRUCTIONS: u32 = 16_384;

/// The greatest number of methods of a program's text.
pub const MOST_METHODS: u32 = 1_024;

/// The greatest number of static fields of a program.
pub const MOST_STATICS: u32 = 1_024;

/// The greatest number of fields of an object that its class declares: a thread's hidden target doesn't count.
pub const MOST_FIELDS: u32 = 64;

/// The greatest number of user classes of a program.
pub const MOST_CLASSES: u32 = 256;

/// The greatest number of parameters of a method, the receiver not counted.
pub const MOST_PARAMETERS: usize = 16;

/// The greatest size of a text constant, in bytes, without the backslashes of its escapes.
pub const MOST_TEXT_CONSTANT_BYTES: usize = 200;

/// The greatest number of words that all objects and arrays of a run have together, their heads counted.
pub const MOST_HEAP_WORDS: u64 = 4_194_304;

/// The greatest number of objects and arrays of a run.
pub const MOST_OBJECTS: usize = 262_144;

/// The greatest number of bytes that a run prints.
pub const MOST_OUTPUT_BYTES: usize = 16_777_216;

/// The number of the first user class. Lower numbers are for built-in classes.
pub const FIRST_USER_CLASS: u32 = 32;

/// The greatest number of switch times of a schedule.
pub const MOST_SWITCHES: usize = 16_384;

/// The greatest number of schedules that one search tries.
pub const MOST_TRIES: u64 = 65_536;

/// The greatest number of tests that one search may be given.
pub const MOST_TESTS: u64 = 1_099_511_627_776;

/// The greatest number of lanes: threads of the tool that carry the threads of a run.
pub const MOST_LANES: u32 = 16;

/// The greatest number of workers: threads of the tool that test schedules side by side.
pub const MOST_WORKERS: u32 = 16;

/// The greatest number of workers of a drill. They are threads of its run, and with the first one fewer than `MOST_THREADS`.
pub const MOST_DRILL_WORKERS: u32 = 60;

// The numbers of the built-in classes: each is the class's place in the table, from 0.

/// `java/lang/Object`, which every class but String and PrintStream extends.
pub const OBJECT: u32 = 0;

/// `java/lang/Thread`: its objects, and those of the user classes that extend it, can be started.
pub const THREAD: u32 = 1;

/// `java/lang/Runnable`, an interface: it has no objects of its own.
pub const RUNNABLE: u32 = 2;

/// `java/lang/String`: its only values are the text constants and null.
pub const STRING: u32 = 3;

/// `java/io/PrintStream`: its only values are `System.out` and null.
pub const PRINT_STREAM: u32 = 4;

/// `java/lang/Throwable`, and after it the classes that extend it.
pub const THROWABLE: u32 = 5;

/// `java/lang/Exception`
pub const EXCEPTION: u32 = 6;

/// `java/lang/RuntimeException`
pub const RUNTIME_EXCEPTION: u32 = 7;

/// `java/lang/Error`
pub const ERROR: u32 = 8;

/// `java/lang/ArithmeticException`
pub const ARITHMETIC_EXCEPTION: u32 = 9;

/// `java/lang/NullPointerException`
pub const NULL_POINTER_EXCEPTION: u32 = 10;

/// `java/lang/IndexOutOfBoundsException`
pub const INDEX_OUT_OF_BOUNDS_EXCEPTION: u32 = 11;

/// `java/lang/ArrayIndexOutOfBoundsException`
pub const ARRAY_INDEX_OUT_OF_BOUNDS_EXCEPTION: u32 = 12;

/// `java/lang/NegativeArraySizeException`
pub const NEGATIVE_ARRAY_SIZE_EXCEPTION: u32 = 13;

/// `java/lang/IllegalArgumentException`
pub const ILLEGAL_ARGUMENT_EXCEPTION: u32 = 14;

/// `java/lang/IllegalMonitorStateException`
pub const ILLEGAL_MONITOR_STATE_EXCEPTION: u32 = 15;

/// `java/lang/IllegalThreadStateException`
pub const ILLEGAL_THREAD_STATE_EXCEPTION: u32 = 16;

/// `java/lang/IllegalStateException`
pub const ILLEGAL_STATE_EXCEPTION: u32 = 17;

/// `java/lang/InterruptedException`
pub const INTERRUPTED_EXCEPTION: u32 = 18;

/// `java/lang/VirtualMachineError`, which is abstract: it has no objects of its own.
pub const VIRTUAL_MACHINE_ERROR: u32 = 19;

/// `java/lang/StackOverflowError`
pub const STACK_OVERFLOW_ERROR: u32 = 20;

/// `java/lang/OutOfMemoryError`
pub const OUT_OF_MEMORY_ERROR: u32 = 21;

/// `java/lang/AssertionError`
pub const ASSERTION_ERROR: u32 = 22;

/// How many built-in classes there are. Their numbers are those below.
pub const BUILT_IN_COUNT: u32 = 23;

/// How many classes a class and its supers are at most, user classes too.
pub const LONGEST_CHAIN: u8 = 6;

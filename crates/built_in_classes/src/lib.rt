//! The built-in classes: one table of their numbers, names, supers and constructors.
#![tactic(auto)]

mod numbers;
mod table;
#[cfg(test)]
mod tests;

pub use numbers::{
    ARITHMETIC_EXCEPTION, ARRAY_INDEX_OUT_OF_BOUNDS_EXCEPTION, ASSERTION_ERROR, BUILT_IN_COUNT,
    ERROR, EXCEPTION, ILLEGAL_ARGUMENT_EXCEPTION, ILLEGAL_MONITOR_STATE_EXCEPTION,
    ILLEGAL_STATE_EXCEPTION, ILLEGAL_THREAD_STATE_EXCEPTION, INDEX_OUT_OF_BOUNDS_EXCEPTION,
    INTERRUPTED_EXCEPTION, LONGEST_CHAIN, NEGATIVE_ARRAY_SIZE_EXCEPTION, NULL_POINTER_EXCEPTION,
    OBJECT, OUT_OF_MEMORY_ERROR, PRINT_STREAM, RUNNABLE, RUNTIME_EXCEPTION, STACK_OVERFLOW_ERROR,
    STRING, THREAD, THROWABLE, VIRTUAL_MACHINE_ERROR,
};
pub use table::{
    Constructors, built_in_name, built_in_number, built_in_super, has_constructor, has_objects,
    has_text_constructor,
};

//! Laws of texts. Each function does nothing: its contract is the law.
#![tactic(auto)]

mod laws;

pub use laws::{
    canonical_text_reads_the_same, canonical_text_tells_classes_apart, forms_make_classes,
    lines_have_forms, lines_read_back, named_fault_is_least, named_line_is_first,
    numbers_read_back, strings_read_back, tokens_follow_the_bytes,
};

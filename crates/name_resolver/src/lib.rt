//! What the names of classes stand for: the numbers of what is declared, the types of descriptors, and the instructions of calls
//! and of fields.
#![tactic(auto)]

mod built_in;
mod calls;
mod descriptors;
mod fault;
mod index;
mod names;
mod words;

pub use built_in::{first_some, is_reserved};
pub use calls::{call, field};
pub use descriptors::{
    Signature, Typed, class_of, is_bad, is_outside, is_unknown, kind_of, method_signature, type_of,
};
pub use fault::LinkKind;
pub use index::Index;
pub use names::{Counts, Names, is_named, is_static, is_thread, names_of, next};
pub use words::{field_word, has, has_foreign_flag, method_key};

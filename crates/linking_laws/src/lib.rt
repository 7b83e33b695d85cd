//! Laws of linked programs: what linking gives. Each function does nothing: its contract is the law.
#![tactic(auto)]

mod laws;

pub use laws::{
    classes_have_one_program, instructions_out_of_profile, linked_methods_keep_limits,
    linked_program_is_of_its_classes, linked_program_is_small, linked_program_is_well_linked,
    linked_program_keeps_limits, linked_program_names_what_is_there, linking_is_by_the_rules,
    named_fault_is_first, read_classes_are_named,
};

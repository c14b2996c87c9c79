//! Laws of the passes: a module that a text can give stays one. The program calls none of it.
#![tactic(auto)]

mod laws;

pub use laws::{
    modules_with_codes_are_readable, modules_without_memories_are_readable,
    modules_without_rules_are_readable, optimized_modules_are_readable, steps_of_proc_are_readable,
};

//! Laws of scripts and of cold runs over modules that a text can give. The program calls none of it.
#![tactic(auto)]

mod laws;

pub use laws::{
    built_modules_are_readable, cold_runs_are_readable, cold_runs_are_well_formed,
    scripts_keep_readable_modules,
};

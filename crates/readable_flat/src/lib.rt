//! The law of `flatten` over modules that a text can give. The program calls none of it.
#![tactic(auto)]

mod laws;

pub use laws::flattened_modules_are_readable;

//! The law of `techmap` over modules that a text can give. The program calls none of it.
#![tactic(auto)]

mod laws;

pub use laws::gates_are_readable;

//! Where bits lead back through connections, while connections are added.
#![tactic(auto)]

mod aliases;
mod step_table;

pub use aliases::Aliases;

//! Laws of the step in which a memory becomes words, write chains and read trees.
#![tactic(auto)]

pub mod forming;
pub mod refining;

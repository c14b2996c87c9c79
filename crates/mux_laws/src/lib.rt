//! Laws of the last step of `proc`: trees of decisions become multiplexers.
#![tactic(auto)]

pub mod forming;
pub mod refining;

//! Laws of a step of `proc`: of two edges the reset's becomes a level.
#![tactic(auto)]

pub mod forming;
pub mod refining;

//! What the steps of `proc` rely on and promise, and the laws by which they go on from one to the next.
#![tactic(auto)]

pub mod laws;

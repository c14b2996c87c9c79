//! What passes rely on and promise, and the laws by which they keep it.
#![tactic(auto)]

pub mod laws;

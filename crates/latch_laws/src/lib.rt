//! Laws of the step of `proc` that puts latches in the place of bits that are always updated: it loses no known output
//! bit, and the module that it gives is well formed.
#![tactic(auto)]

pub mod forming;
pub mod refining;

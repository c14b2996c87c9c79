//! Laws of the pass `fsm`, in which the states of machines get the code with one bit for each state.
#![tactic(auto)]

pub mod choosing;
pub mod forming;
pub mod refining;

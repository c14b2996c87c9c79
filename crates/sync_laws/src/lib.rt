//! Laws of the step of `proc` in which rules become flip-flops and latches, and lines that write become write ports.
#![tactic(auto)]

pub mod accesses;
pub mod earlier;
pub mod forming;
pub mod refining;

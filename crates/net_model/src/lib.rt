//! What a design means: settling, runs, refinement. It is definitions and their laws; of them the
//! program names the order of time alone.
#![tactic(auto)]

pub mod laws;
mod order;

pub use order::Order;

//! Nets that divide words, bit by bit from the top down.
#![tactic(auto)]

mod division;
mod kinds;
mod rounding;
mod signs;
mod words;

pub use division::{Division, divided};
pub use kinds::divide;
pub use signs::{magnitude, negated_where, top_of};
pub use words::{drop_low, filled, joined, take_low};

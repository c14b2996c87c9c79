//! The values of combinational cells on words.
#![tactic(auto)]

mod arithmetic;
mod bitwise;
mod choice;
mod folds;
mod integer;
pub mod laws;
mod parts;
mod shift;
mod value;
mod words;

pub use shift::{Distance, below, read_distance};
pub use value::word_value;

//! What stays where input bits of cells are followed through connections. It is definitions and their
//! laws; the program calls none of it.
#![tactic(auto)]

mod laws;

pub use laws::{followed_bits_are_alike, inputs_may_be_followed};

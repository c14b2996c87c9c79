//! Generated designs, which the program is measured by: modules of an adder and a register.
#![tactic(auto)]

mod cells;
mod generate;
pub mod laws;
mod wires;

pub use generate::generated;

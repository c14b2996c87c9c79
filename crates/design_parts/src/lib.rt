//! A design may be cut at its modules: what a script makes of a module in a part is what it makes of it
//! in the whole. It is definitions and their laws; the program calls none of it.
#![tactic(auto)]

mod laws;

pub use laws::{parts_are_accepted, parts_give_the_outcomes, parts_make_the_netlist};

//! What the passes of `opt` leave of a netlist of gates.
#![tactic(auto)]

pub mod laws;

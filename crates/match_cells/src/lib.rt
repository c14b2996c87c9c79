//! Cells that match the cases of switches, and multiplexers that choose between the cases.
#![tactic(auto)]

mod cells;
mod levels;
mod nodes;
mod numbers;
mod trees;

pub use cells::{binary_params, bit_cell, mux_cell};
pub use levels::polarity_of;
pub use nodes::{behind, case_nodes};
pub use numbers::nodes_behind;
pub use trees::Trees;

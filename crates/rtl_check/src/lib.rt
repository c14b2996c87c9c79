//! Whether a design has a fault, and which is the first.
#![tactic(auto)]

mod answer;
mod bits;
mod cells;
mod checked;
mod design;
mod display;
mod due;
mod edit;
mod fault;
pub mod laws;
mod links;
mod module;
mod ports;
mod processes;
mod recursion;
mod removal;
mod stores;
mod tally;
mod wires;
mod words;

pub use answer::{Refused, check};
pub use checked::Checked;
pub use edit::{EditFault, RefusedEdit};
pub use fault::{CheckFault, Item, Spot, WireSpot};
pub use removal::RefusedRemoval;

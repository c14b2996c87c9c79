//! The flat netlist of a module with all its instances, in which each bit is a number.
#![tactic(auto)]

mod always;
mod builder;
mod cells;
mod choices;
mod ends;
mod fetches;
mod flat;
mod inputs;
mod leaves;
mod line_ports;
mod links;
mod logic;
mod memories;
mod memory;
mod modules;
mod net;
mod places;
mod processes;
mod races;
mod reads;
mod registers;
mod resets;
mod rooted;
mod rules;
mod scope;
mod signals;
mod sources;
mod starts;
mod stores;
mod titled;
mod tree;
mod tree_bits;
mod trees;
mod words;

pub use choices::{Assign, Branch, Choice, Tree};
pub use flat::{flatten, flatten_titled};
pub use leaves::{Held, HeldBit, Raced, Source};
pub use memory::{Fetched, ReadPort, Remembered, WordBit, WritePort};
pub use net::{Join, Logic, Net, Output, Part, Point, Storage, StoreBit, StorePins};
pub use titled::Titled;

//! Whether memories, their cells and the lines that write them are as they have to be.
#![tactic(auto)]

mod clocks;
mod memories;
mod ports;
mod starts;
mod stores;

pub use memories::Memories;
pub use stores::is_bad_store;

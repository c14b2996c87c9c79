//! The values of combinational gates, and of one bit of a storage cell.
#![tactic(auto)]

mod control;
mod gate;
pub mod laws;
mod pins;
mod storage;
mod store;

pub use control::{active, clock_before, edge, pick};
pub use gate::gate_value;
pub use pins::Pins;
pub use storage::store_bit;
pub use store::{reset_at, storage_kind};

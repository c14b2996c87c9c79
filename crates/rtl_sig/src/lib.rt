//! Names and their numbers, and signals: lists of bits of wires and constants.
#![tactic(auto)]

mod fault;
mod names;
mod sig;
mod sought;

pub use fault::SigFault;
pub use names::{NameId, Names};
pub use sig::{SigBit, SigSpec, WireBit, extended, fill_of, fixed};

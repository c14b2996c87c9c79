//! The trees of decisions of processes: switches by their rules, the bits that a tree drives and what leaves their
//! values may come to, which switches test the bit of an event, and the rules that act.
#![tactic(auto)]

mod acting;
mod assigned;
mod by_rules;
mod edge;
mod inputs;
mod leaves;
mod level;
mod numbers;
mod reaching;
mod reading;
mod round;
mod steps;
mod summary;
mod tables;
mod tested;
mod values;
mod walk;

pub use acting::{Acting, acting_rules, acts, is_init, writes};
pub use assigned::tree_bits;
pub use by_rules::ruled;
pub use edge::{EdgeBit, edge_bit};
pub use leaves::Leaves;
pub use level::{Level, at_level};
pub use numbers::{Numbers, numbers_of};
pub use reaching::Reaching;
pub use summary::Summary;
pub use tables::EventTests;

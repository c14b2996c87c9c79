//! The evaluator: the outputs of a module of a design for one input vector after another.
#![tactic(auto)]

mod agenda;
mod cell;
mod clocked;
mod expand;
mod fetched;
mod first;
mod held;
pub mod laws;
mod matching;
mod moment;
mod race;
mod raced;
mod readers;
mod reads;
mod released;
mod remembered;
mod settle;
mod sim;
mod store;
mod tree;
mod values;
mod walk;
mod written;

pub use sim::Sim;

//! The reader of texts: the design of a text, or its first fault.
#![tactic(auto)]

mod act;
mod attributes;
mod constant;
mod draft;
mod few_names;
mod fitted;
mod laws;
mod open_cell;
mod open_module;
mod open_process;
mod options;
mod part;
mod read_fault;
mod reader;
mod signal;
mod stack;
mod tree;

pub use laws::one_answer;
pub use read_fault::ReadFault;
pub use reader::read;

//! The top call: a text is synthesised, or the commands of a session are answered, from a source and into a sink.
#![tactic(auto)]

mod aims;
mod desks;
mod generate;
pub mod laws;
mod lines;
mod options;
mod program;
mod routes;
mod session;
mod synth;
mod values;
mod words;

pub use program::{Status, run};
pub use words::{Mode, Plan, WordFault, read_words};

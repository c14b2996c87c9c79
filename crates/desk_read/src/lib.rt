//! The commands of a session, from its lines.
#![tactic(auto)]

mod command;
mod head;
pub mod laws;
mod reader;
mod words;

pub use command::{Command, SimAsk};
pub use reader::CommandReader;
pub use words::first_words;

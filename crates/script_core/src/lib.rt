//! Scripts of passes, the keys under which their results are kept, and builds.
#![tactic(auto)]

mod building;
mod built;
mod fold;
mod key;
mod key_table;
pub mod laws;
mod outcome;
mod parse;
mod script;
mod word;

pub use building::{build, build_by};
pub use built::Built;
pub use key::{Key, below_text, key_by, key_of};
pub use key_table::KeyTable;
pub use outcome::Outcome;
pub use parse::{ScriptFault, parse_script};
pub use script::{Script, default_script};
pub use word::Word;

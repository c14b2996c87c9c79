//! The grammar of texts, by cases on tokens.
#![tactic(auto)]

mod expect;
mod grammar;

pub use expect::Expect;
pub use grammar::after;

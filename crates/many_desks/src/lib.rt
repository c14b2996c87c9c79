//! Several desks that answer lists of commands beside each other, over one cache.
#![tactic(auto)]

mod desks;
mod serving;
mod table;

pub use serving::serve;
pub use table::{Answers, Commands, Table};

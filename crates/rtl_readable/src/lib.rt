//! Which designs a text can give, and what keeps a module one of them. The program calls none of it.
#![tactic(auto)]

mod laws;

pub use laws::readable_modules_may_change;

//! Laws of modules that a text can give: what steps that build leave of them. The program calls none of it.
#![tactic(auto)]

mod laws;

pub use laws::steps_may_add;

//! Laws of expansions: what is owed of the gates that a map adds to a module for a cell. The program
//! calls none of it.
#![tactic(auto)]

mod laws;

pub use laws::fresh_names_are_new;

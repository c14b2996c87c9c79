//! Laws of the definitions that the reader follows.
#![tactic(auto)]

mod laws;

pub use laws::{
    constants_agree, processes_by_parts, rules_by_parts, signals_by_parts, trees_by_parts,
};

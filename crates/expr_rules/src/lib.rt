//! The rules of `opt_expr`: what comes in the place of one combinational cell.
#![tactic(auto)]

mod change;
mod operands;
mod rules;
mod signals;

pub use change::{Change, NewCell};
pub use operands::{Inverters, Operands};
pub use rules::{RULES, Rule, first_fit};

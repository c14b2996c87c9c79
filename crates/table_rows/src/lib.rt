//! The rows of tables that programs are run over, and which of them do not hold.
#![tactic(auto)]

mod field;
mod tally;

pub use field::{bit_of, bits_of, letter, spelled, str_of};
pub use tally::{LINES, Parting, TEXTS, Tally, report};

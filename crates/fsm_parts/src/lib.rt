//! Signals and cells that machines are made of.
#![tactic(auto)]

mod cells;
mod forks;
mod kinds;
mod signal_table;
mod signals;

pub use cells::{at_pin, cell_at};
pub use forks::arms;
pub use kinds::{has_reset, is_compare, is_flop, is_fork};
pub use signal_table::SignalTable;
pub use signals::{followed, is_leaf, is_state_constant, whole_wire};

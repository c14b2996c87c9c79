//! Small nets of gates that the expansions of word cells are put together from.
#![tactic(auto)]

mod adder;
mod folding;
mod gate;
mod laws;
mod operand;
mod output;
mod words;

pub use adder::{Total, negate, sum};
pub use folding::fold;
pub use gate::{Gate, add_gate, gate_for, one};
pub use laws::{folds_join, inverses_invert, sums_add};
pub use operand::{greater_width, operand_of, pin_signal};
pub use output::give;
pub use words::{bitwise, invert, select};

//! Whether a process is one that can be taken.
#![tactic(auto)]

mod ends;
mod flaws;
mod lines;
mod process;
mod readings;
mod rules;
mod search;
mod self_reading;
mod starts;
mod two_edges;
mod updates;
mod values;

pub use ends::{ending_places, is_recursive};
pub use flaws::{gives_to_constant, has_uneven, is_too_wide};
pub use lines::{has_constant, is_uneven};
pub use process::is_bad_process;
pub use search::Graph;
pub use updates::updated_bits;

//! Simulations by texts: the stimulus that lines say, and the lines of the trace.
#![tactic(auto)]

mod stimulus;
mod trace;

pub use stimulus::{StimulusFault, stimulus_of};
pub use trace::{put_titled_trace, put_titled_trace_in, put_trace, put_trace_in};

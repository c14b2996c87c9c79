//! Lines of a stimulus, as input bits, and output bits as lines of a trace.
#![tactic(auto)]

mod digit;
mod laws;
mod line;
mod ports;
mod read;
mod step_fault;
mod write;

pub use laws::written_lines_are_read;
pub use read::read_step;
pub use step_fault::StepFault;
pub use write::write_step;

//! The outside: where the input comes from and where the replies go.
//!
//! A [`Source`] or a [`Sink`] may fail at each call. It counts its failures, so that whoever reads
//! or writes can say why there is no answer.
#![tactic(auto)]

mod calls;
mod input;
mod mem_sink;
mod mem_source;
mod output;
mod standard;
mod sure;
mod traits;

pub use input::{InputError, LIMIT, Next, read_input, read_next};
pub use mem_sink::MemSink;
pub use mem_source::MemSource;
pub use output::write_reply;
pub use standard::{StdSink, StdSource};
pub use sure::{SureSink, SureSource};
pub use traits::{Failed, Sink, Source};

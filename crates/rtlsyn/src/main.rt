//! The program: what the words of the command line ask for, over standard input and output or over files. Standard output
//! has the replies alone; what they mean is told on standard error.
#![tactic(auto)]

mod asked;
mod calls;
mod causes;
mod drivers;
mod files;
mod found;
mod kept;
mod memory_cause;
mod near;
mod options;
mod pick;
mod process_cause;
mod refusal;
mod say;
mod text_cause;
mod told;

use crate::calls::{answer_people, answer_standard};
use crate::say::say_usage;
pub use generated_design::generated;
use std::env;
use std::io::{ErrorKind, IsTerminal};
use std::marker::Sync;
use std::process::ExitCode;
use std::rt::Env;
use std::sync::Wait;
use std::thread::Threads;
pub use synth_run::{Mode, Plan, Status, WordFault, read_words, run};

/// The program's arguments without its own name. One that is no text has no meaning.
fn words_of(rt: &(impl Env + AllocGlobal)) -> Result<Vec<String>, Status> {
    let mut words = Vec::new(rt.alloc());
    let args = env::args(rt).map_err(|error| match error.kind() {
        ErrorKind::OutOfMemory => Status::Memory,
        _ => Status::Usage,
    })?;
    for word in args.skip(1) {
        words.push(word).map_err(|_| Status::Memory)?;
    }
    Ok(words)
}

/// Does what the words ask for: by the rule of words over standard input and output, else as the words of people. Without
/// words, a terminal is shown the usage.
fn answer<T: Threads + Wait + Sync>(threads: &T, rt: &HostRuntime, words: &[String]) -> Status {
    if words.is_empty() && rt.stdin().is_terminal() {
        return say_usage(rt);
    }
    match answer_standard(threads, rt, words) {
        Status::Usage => answer_people(threads, rt, words),
        status => status,
    }
}

/// Runs, and gives the exit status.
fn main(rt: HostRuntime) -> ExitCode {
    let status = match words_of(&rt) {
        Ok(words) => answer(&rt, &rt, words.as_slice()),
        Err(status) => status,
    };
    ExitCode::from(status.code())
}

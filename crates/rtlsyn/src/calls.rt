//! What is done with the words: a run over standard input and output, or over files.

use crate::asked::{Asked, is_synth, read_asked};
use crate::files::{open_input, write_whole};
use crate::kept::{Heard, Kept};
use crate::refusal::say_refusal;
use crate::say::{say_status, say_told};
use rtl_bits::Steps;
use std::io::{self, Read, Write};
use std::marker::Sync;
use std::sync::Wait;
use std::thread::Threads;
use synth_io::{StdSink, StdSource};
use synth_run::{Status, run};
use work_crew::NoGate;

/// The name of the counter of builds.
struct Builds;

/// Runs by the words over a reader and a writer. `threads` starts the workers.
fn run_over<T: Threads + Wait + Sync, R: Read, W: Write>(
    threads: &T,
    rt: &HostRuntime,
    words: &[String],
    reader: &mut Kept<R>,
    writer: &mut Heard<W>,
) -> Status {
    let mut meter = Steps::make(&Builds);
    let status = run(
        threads,
        rt.alloc(),
        words,
        &mut StdSource::make(reader),
        &mut StdSink::make(writer),
        &NoGate,
        &mut meter,
    );
    meter.end(&Builds);
    status
}

/// Runs by the words over a reader and a writer, and tells on standard error what the reply means. `name` is what the
/// input is called.
pub(crate) fn run_told<T: Threads + Wait + Sync, R: Read + Drop, W: Write + Drop>(
    threads: &T,
    rt: &HostRuntime,
    words: &[String],
    name: &str,
    reader: R,
    writer: W,
) -> Status {
    let synth = is_synth(words);
    let mut reader = Kept::make(rt.alloc(), reader, synth);
    let mut writer = Heard::make(rt.alloc(), writer);
    let status = run_over(threads, rt, words, &mut reader, &mut writer);
    say_status(rt, status);
    if let Some(text) = reader.held() {
        say_told(rt, name, status, text, writer.first());
    }
    status
}

/// Runs by the words over standard input and output. `Usage` says that they have no meaning, and nothing else was done.
pub(crate) fn answer_standard<T: Threads + Wait + Sync>(
    threads: &T,
    rt: &HostRuntime,
    words: &[String],
) -> Status {
    run_told(threads, rt, words, "<stdin>", rt.reader(), io::writer(rt))
}

/// Does what words without meaning to the rule of words ask for: help, or a run over files; else tells what is wrong.
pub(crate) fn answer_people<T: Threads + Wait + Sync>(
    threads: &T,
    rt: &HostRuntime,
    words: &[String],
) -> Status {
    match read_asked(rt.alloc(), words) {
        Ok(asked) => {
            if asked.has_files() {
                answer_files(threads, rt, &asked)
            } else {
                say_refusal(rt, asked.words.as_slice())
            }
        }
        Err(error) => {
            let _shown = error.print(rt);
            if error.use_stderr() {
                Status::Usage
            } else {
                Status::Done
            }
        }
    }
}

/// Runs over a file, or standard input where none was named.
fn answer_files<T: Threads + Wait + Sync>(threads: &T, rt: &HostRuntime, asked: &Asked) -> Status {
    match asked.input {
        None => answer_into(threads, rt, asked, "<stdin>", rt.reader()),
        Some(path) => match open_input(rt, path) {
            Ok(file) => answer_into(threads, rt, asked, path, file),
            Err(status) => status,
        },
    }
}

/// Runs into a file, or standard output where none was named.
fn answer_into<T: Threads + Wait + Sync, R: Read + Drop>(
    threads: &T,
    rt: &HostRuntime,
    asked: &Asked,
    name: &str,
    reader: R,
) -> Status {
    let words = asked.words.as_slice();
    let status = match asked.output {
        None => run_told(threads, rt, words, name, reader, io::writer(rt)),
        Some(path) => write_whole(threads, rt, words, name, reader, path),
    };
    match status {
        Status::Usage => say_refusal(rt, words),
        status => status,
    }
}

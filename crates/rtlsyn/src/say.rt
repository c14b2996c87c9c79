//! Standard error, the place for people.

use crate::options::people_command;
use crate::told::{told_empty, told_error};
use rtl_bits::{Memory, Text};
use std::alloc::Global;
use std::io::{self, Write};
use synth_run::Status;

/// Writes the text to standard error. Where that fails, nobody is to be told.
pub(crate) fn say(rt: &HostRuntime, text: &[u8]) {
    let _told = rt.stderr().write_all(text);
}

/// Shows the usage on standard error.
pub(crate) fn say_usage(rt: &HostRuntime) -> Status {
    match usage(rt.alloc()) {
        Ok(text) => {
            say(rt, text.as_slice());
            Status::Usage
        }
        Err(Memory) => Status::Memory,
    }
}

/// The help of `-h`.
fn usage(alloc: Global) -> Result<Text, Memory> {
    let help = people_command(alloc)?.render_help()?;
    Text::from_slice(alloc, help.as_bytes())
}

/// Tells in a line that reading or writing failed, or memory was wanting.
pub(crate) fn say_status(rt: &HostRuntime, status: Status) {
    match status {
        Status::Done | Status::Refused | Status::Usage => {}
        Status::ReadFault => say(rt, b"rtlsyn: the input could not be read\n"),
        Status::WriteFault => say(rt, b"rtlsyn: the output could not be written\n"),
        Status::Memory => say(rt, b"rtlsyn: out of memory\n"),
    }
}

/// Tells what happened at a file.
pub(crate) fn say_file(rt: &HostRuntime, what: &str, path: &str, error: &io::Error) {
    let _told = eprintln!(rt; "rtlsyn: {what} {path}: {error}");
}

/// Tells what an error of a text means, with a hint; and of an empty text that it is one.
pub(crate) fn say_told(rt: &HostRuntime, name: &str, status: Status, text: &[u8], reply: &[u8]) {
    let told = match status {
        Status::Refused => told_error(rt.alloc(), name, text, reply),
        Status::Done => told_empty(rt.alloc(), text),
        _ => return,
    };
    if let Ok(lines) = told {
        say(rt, lines.as_slice());
    }
}

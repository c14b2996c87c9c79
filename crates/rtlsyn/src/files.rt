//! Files in the place of standard input and output.

use crate::calls::run_told;
use crate::say::{say, say_file};
use std::fs::{self, File};
use std::io::{self, Read, Write};
use std::marker::Sync;
use std::process;
use std::sync::Wait;
use std::thread::Threads;
use synth_run::Status;

/// The file of a design. A path that cannot be opened has no meaning.
pub(crate) fn open_input(rt: &HostRuntime, path: &str) -> Result<File, Status> {
    match fs::open(rt, path) {
        Ok(file) => Ok(file),
        Err(error) => {
            say_file(rt, "cannot open", path, &error);
            Err(Status::Usage)
        }
    }
}

/// Runs into a file, which is there whole or is as it was before: what is written stands beside it until it is whole. What
/// is no regular file, as a device, is written to as it is.
pub(crate) fn write_whole<T: Threads + Wait + Sync, R: Read + Drop>(
    threads: &T,
    rt: &HostRuntime,
    words: &[String],
    name: &str,
    reader: R,
    path: &str,
) -> Status {
    if is_special(rt, path) {
        return write_to(threads, rt, words, name, reader, path);
    }
    let id = process::id(rt.process());
    let Ok(part) = format!(in rt.alloc(); "{path}.{id}.part") else {
        return Status::Memory;
    };
    let status = write_to(threads, rt, words, name, reader, part.as_str());
    finish(rt, status, part.as_str(), path)
}

/// Whether something stands there that is no regular file.
fn is_special(rt: &HostRuntime, path: &str) -> bool {
    match fs::metadata(rt, path) {
        Ok(metadata) => !metadata.is_file(),
        Err(_) => false,
    }
}

/// Runs into the file at the path.
fn write_to<T: Threads + Wait + Sync, R: Read + Drop>(
    threads: &T,
    rt: &HostRuntime,
    words: &[String],
    name: &str,
    reader: R,
    path: &str,
) -> Status {
    match fs::create(rt, path) {
        Ok(file) => run_told(threads, rt, words, name, reader, file),
        Err(error) => {
            say_file(rt, "cannot write", path, &error);
            Status::WriteFault
        }
    }
}

/// Puts what was written in its place, where the run was done. An error's line goes to standard output.
fn finish(rt: &HostRuntime, status: Status, part: &str, path: &str) -> Status {
    if status == Status::Done {
        if let Err(error) = fs::rename(rt, part, path) {
            say_file(rt, "cannot write", path, &error);
            let _gone = fs::remove_file(rt, part);
            return Status::WriteFault;
        }
        return Status::Done;
    }
    let shown = match status {
        Status::Refused => show(rt, part),
        _ => Ok(()),
    };
    let _gone = fs::remove_file(rt, part);
    if shown.is_err() {
        say(rt, b"rtlsyn: the output could not be written\n");
        return Status::WriteFault;
    }
    status
}

/// Writes the bytes of the file to standard output.
fn show(rt: &HostRuntime, part: &str) -> io::Result<()> {
    let bytes = fs::read(rt, part)?;
    rt.stdout().write_all(bytes.as_slice())
}

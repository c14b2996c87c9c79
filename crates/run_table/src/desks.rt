//! Inputs of several desks.

use crate::calls::{Call, make_call};
use crate::crews::{held_first, plain_modules};
use rtl_bits::Memory;
use std::alloc::{AllocError, Global};
use std::marker::Sync;
use std::sync::Wait;
use std::thread::Threads;
use synth_run::Status;

/// How many desks there are, and how many modules each loads.
const DESKS: u32 = 16;

const MODULES: u32 = 200;

/// The lines of a session that loads modules of which no two have one key, and prints their netlist.
fn session_of(alloc: Global) -> Result<String, AllocError> {
    let mut lines = String::from_str(alloc, "load\n")?;
    let modules = plain_modules(alloc, MODULES)?;
    lines.push_str(modules.as_str())?;
    lines.push_str(".\nrun\nprint\n")?;
    Ok(lines)
}

/// These bytes for each desk, each time after the line of its number that begins so.
fn for_each_desk(alloc: Global, start: &str, bytes: &[u8]) -> Result<Vec<u8>, AllocError> {
    let mut all = Vec::new(alloc);
    for desk in 1..=DESKS {
        let line = format!(in alloc; "{start} {desk}\n")?;
        all.extend_from_slice(line.as_bytes())?;
        all.extend_from_slice(bytes)?;
    }
    Ok(all)
}

/// A call with these words over these bytes.
fn call_of<'a>(words: &'a [u8], input: &'a [u8]) -> Call<'a> {
    Call {
        words,
        read: b"",
        write: b"",
        input,
    }
}

/// Whether 16 desks that load the same 200 modules answer what as many sessions do, and each key is built once.
pub fn are_as_sessions<R: Threads + Wait + Sync>(rt: &R, alloc: Global) -> Result<bool, Memory> {
    let lines = session_of(alloc)?;
    let lines = lines.as_bytes();
    let builds = u64::from(MODULES);
    let alone = make_call(rt, alloc, call_of(b"--session", lines))?;
    let input = for_each_desk(alloc, "desk", lines)?;
    let wanted = for_each_desk(alloc, "ok desk", alone.sink.bytes())?;
    let beside = make_call(rt, alloc, call_of(b"--session --desks 16", &input))?;
    Ok(alone.status == Status::Done && alone.builds == builds && beside.ends_with(builds, &wanted))
}

/// Whether two desks answer beside each other: the first waits until the second is through.
pub fn are_at_once<R: Threads + Wait + Sync>(rt: &R, alloc: Global) -> Result<bool, Memory> {
    let input = b"run\ndesk 2\nrun\n".as_slice();
    let wanted = b"ok built 0 reused 0\nok desk 2\nok built 0 reused 0\n".as_slice();
    let ended = held_first(rt, alloc, b"--session --desks 2", input, 1)?;
    Ok(ended.is_some_and(|ended| ended.ends_with(0, wanted)))
}

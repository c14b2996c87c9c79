//! Devices that fail in mid-stream.

use crate::calls::{Call, has_code, make_call};
use rtl_bits::Memory;
use std::alloc::{AllocError, Global};
use std::marker::Sync;
use std::sync::Wait;
use std::thread::Threads;
use table_rows::str_of;

/// A module of so many wires, whose canonical text it is.
pub fn wires_text(alloc: Global, count: u32) -> Result<String, AllocError> {
    let mut text = String::from_str(alloc, "module \\m\n")?;
    for at in 0..count {
        let port = at.saturating_add(1);
        let wire = format!(in alloc; "  wire input {port} \\w{at}\n")?;
        text.push_str(wire.as_str())?;
    }
    text.push_str("end\n")?;
    Ok(text)
}

/// Whether a call whose read or write of this number fails ends with a status, and has written so many bytes of the
/// text.
pub fn is_answered<R: Threads + Wait + Sync>(
    rt: &R,
    alloc: Global,
    text: &[u8],
    fields: &[&[u8]],
) -> Result<bool, Memory> {
    let [_, read, write, code, held] = fields else {
        return Ok(false);
    };
    let call = Call {
        words: b"",
        read,
        write,
        input: text,
    };
    let ended = make_call(rt, alloc, call)?;
    let held = str_of(held).parse::<usize>().unwrap_or(usize::MAX);
    Ok(has_code(ended.status, code) && Some(ended.sink.bytes()) == text.get(..held))
}

//! What sinks hold, and writes that fail.

use crate::base::sources::bytes_of;
use rtl_bits::Memory;
use std::alloc::Global;
use synth_io::{Failed, MemSink, Sink, StdSink, SureSink, write_reply};
use table_rows::str_of;

/// Whether a writer of std gets the reply.
fn is_written(alloc: Global, reply: &[u8]) -> bool {
    let mut written = Vec::new(alloc);
    let mut standard = StdSink::make(&mut written);
    let is_done = write_reply(&mut standard, reply).is_ok();
    is_done && written.as_slice() == reply
}

/// Whether each kind of sink takes a reply of so many bytes.
fn all_hold(alloc: Global, count: usize) -> Result<bool, Memory> {
    let reply = bytes_of(alloc, count)?;
    let reply = reply.as_slice();
    let mut sink = MemSink::make(alloc, 10_000, Vec::new(alloc))?;
    let is_done = write_reply(&mut sink, reply).is_ok();
    let is_taken = write_reply(&mut SureSink::make(), reply).is_ok();
    Ok(is_done && sink.bytes() == reply && is_taken && is_written(alloc, reply))
}

/// Whether each kind of sink takes a reply of so many bytes.
pub fn hold(alloc: Global, fields: &[&[u8]]) -> Result<bool, Memory> {
    let [_, count] = fields else {
        return Ok(false);
    };
    match str_of(count).parse::<usize>() {
        Ok(count) => all_hold(alloc, count),
        Err(_) => Ok(false),
    }
}

/// Whether a reply of 10,000 bytes is written or not into the sink, which holds so many of them then.
fn ends(alloc: Global, sink: &mut MemSink, is_done: bool, held: usize) -> Result<bool, Memory> {
    let reply = bytes_of(alloc, 10_000)?;
    let is_as_told = write_reply(sink, reply.as_slice()).is_ok() == is_done;
    Ok(is_as_told && Some(sink.bytes()) == reply.as_slice().get(..held))
}

/// Whether a write that is listed or passes the room leaves whole pieces before it.
pub fn is_refused(alloc: Global, fields: &[&[u8]]) -> Result<bool, Memory> {
    let [_, room, number, answer, held] = fields else {
        return Ok(false);
    };
    let (Ok(room), Ok(number), Ok(held)) = (
        str_of(room).parse::<u32>(),
        str_of(number).parse::<u64>(),
        str_of(held).parse::<usize>(),
    ) else {
        return Ok(false);
    };
    let mut sink = MemSink::make(alloc, room, Vec::from_slice(alloc, &[number])?)?;
    ends(alloc, &mut sink, *answer == b"written".as_slice(), held)
}

/// Whether a writer of five bytes takes no more.
pub fn is_full() -> bool {
    let mut room = [0u8; 5];
    let mut sink = StdSink::make(room.as_mut_slice());
    sink.write(b"abc") == Ok(3)
        && sink.write(b"def") == Ok(2)
        && sink.write(b"f") == Err(Failed)
        && sink.write(b"") == Ok(0)
        && write_reply(&mut sink, b"f") == Err(Failed)
}

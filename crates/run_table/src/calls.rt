//! Calls over memory.

use rtl_bits::{Memory, Steps, Text};
use std::alloc::Global;
use std::marker::Sync;
use std::sync::Wait;
use std::thread::Threads;
use synth_io::{MemSink, MemSource, Sink, Source};
use synth_run::{Status, run};
use table_rows::str_of;
use work_crew::NoGate;

/// The name of the counter of builds.
pub struct Builds;

/// The most bytes that a call may write.
pub const ROOM: u32 = 8_000_000;

/// What a call is given: its words, parted by blanks, the numbers of the read and the write that fail, or none, and
/// its input.
#[derive(Clone, Copy)]
pub struct Call<'a> {
    pub words: &'a [u8],
    pub read: &'a [u8],
    pub write: &'a [u8],
    pub input: &'a [u8],
}

/// How a call ended: its status, how many builds it counted, and what was written.
#[derive(Drop)]
pub struct Ended {
    pub status: Status,
    pub builds: u64,
    pub sink: MemSink,
}

impl Ended {
    /// Whether it is done, with so many builds, and wrote these bytes.
    pub fn ends_with(&self, builds: u64, bytes: &[u8]) -> bool {
        self.status == Status::Done && self.builds == builds && self.sink.bytes() == bytes
    }
}

/// The list of the number in a field, or of none.
pub fn numbers_of(alloc: Global, field: &[u8]) -> Result<Vec<u64>, Memory> {
    let mut numbers = Vec::new(alloc);
    if let Ok(number) = str_of(field).parse::<u64>() {
        numbers.push(number)?;
    }
    Ok(numbers)
}

/// The words in a field.
pub fn words_of(alloc: Global, field: &[u8]) -> Result<Vec<String>, Memory> {
    let mut words = Vec::new(alloc);
    for word in str_of(field).split(' ') {
        if !word.is_empty() {
            words.push(String::from_str(alloc, word)?)?;
        }
    }
    Ok(words)
}

/// Makes a call over a source and a sink, and gives how it ended and how many builds it counted.
pub fn count_builds<R: Threads + Wait + Sync, S: Source, K: Sink>(
    rt: &R,
    alloc: Global,
    words: &[String],
    source: &mut S,
    sink: &mut K,
) -> (Status, u64) {
    let mut meter = Steps::make(&Builds);
    let status = run(rt, alloc, words, source, sink, &NoGate, &mut meter);
    (status, meter.end(&Builds))
}

/// Makes the call over memory.
pub fn make_call<R: Threads + Wait + Sync>(
    rt: &R,
    alloc: Global,
    call: Call<'_>,
) -> Result<Ended, Memory> {
    let words = words_of(alloc, call.words)?;
    let input = Text::from_slice(alloc, call.input)?;
    let mut source = MemSource::make(input, numbers_of(alloc, call.read)?);
    let mut sink = MemSink::make(alloc, ROOM, numbers_of(alloc, call.write)?)?;
    let (status, builds) = count_builds(rt, alloc, words.as_slice(), &mut source, &mut sink);
    Ok(Ended {
        status,
        builds,
        sink,
    })
}

/// Whether the status has this number.
pub fn has_code(status: Status, code: &[u8]) -> bool {
    str_of(code).parse::<u8>().ok() == Some(status.code())
}

//! Calls over inputs that come in pieces.

use crate::calls::{ROOM, count_builds, has_code, numbers_of};
use crate::pieces::Pieces;
use rtl_bits::{Memory, Text};
use std::alloc::Global;
use std::marker::Sync;
use std::sync::Wait;
use std::thread::Threads;
use synth_io::MemSink;
use table_rows::str_of;

/// A row: its words, a line each, the numbers of the read and the write that fail, the builds, the status, the input
/// and what is written.
#[derive(Clone, Copy)]
struct Row<'a> {
    words: &'a [u8],
    read: &'a [u8],
    write: &'a [u8],
    builds: &'a [u8],
    code: &'a [u8],
    input: &'a [u8],
    output: &'a [u8],
}

/// The words in a field, each of which is ended by LF.
fn words_of(alloc: Global, field: &[u8]) -> Result<Vec<String>, Memory> {
    let mut words = Vec::new(alloc);
    let Some(lines) = str_of(field).strip_suffix('\n') else {
        return Ok(words);
    };
    for word in lines.split('\n') {
        words.push(String::from_str(alloc, word)?)?;
    }
    Ok(words)
}

/// Whether the row holds where a read gives at most so many bytes.
fn holds_in<R: Threads + Wait + Sync>(
    rt: &R,
    alloc: Global,
    row: Row<'_>,
    most: usize,
) -> Result<bool, Memory> {
    let words = words_of(alloc, row.words)?;
    let input = Text::from_slice(alloc, row.input)?;
    let mut source = Pieces::make(input, numbers_of(alloc, row.read)?, most);
    let mut sink = MemSink::make(alloc, ROOM, numbers_of(alloc, row.write)?)?;
    let (status, builds) = count_builds(rt, alloc, words.as_slice(), &mut source, &mut sink);
    let is_told = row.builds.is_empty() || str_of(row.builds).parse::<u64>().ok() == Some(builds);
    Ok(is_told && has_code(status, row.code) && sink.bytes() == row.output)
}

/// Whether a call ends with a status, writes these bytes and counts so many builds, in whichever of these sizes the
/// pieces of its input come.
pub fn is_answered<R: Threads + Wait + Sync>(
    rt: &R,
    alloc: Global,
    fields: &[&[u8]],
) -> Result<bool, Memory> {
    let [_, sizes, words, read, write, builds, code, input, output] = fields else {
        return Ok(false);
    };
    let row = Row {
        words,
        read,
        write,
        builds,
        code,
        input,
        output,
    };
    for size in str_of(sizes).split(' ') {
        let Ok(most) = size.parse::<usize>() else {
            return Ok(false);
        };
        if !holds_in(rt, alloc, row, most)? {
            return Ok(false);
        }
    }
    Ok(true)
}

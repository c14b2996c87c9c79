//! What sources give, and reads that fail.

use rtl_bits::{Memory, Text};
use std::alloc::Global;
use synth_io::{InputError, MemSource, Source, StdSource, SureSource, read_input};
use table_rows::str_of;

/// So many bytes, of which no two pieces are alike.
pub fn bytes_of(alloc: Global, count: usize) -> Result<Text, Memory> {
    let bytes = (0..count).map(|at| (at % 251) as u8).collect(alloc)?;
    Text::from_vec(bytes)
}

/// Whether the source gives these bytes, and then none.
fn gives<S: Source>(alloc: Global, source: &mut S, bytes: &[u8]) -> Result<bool, Memory> {
    for wanted in [bytes, [].as_slice()] {
        match read_input(alloc, source) {
            Ok(text) if text.as_slice() == wanted => {}
            Err(InputError::Memory) => return Err(Memory),
            _ => return Ok(false),
        }
    }
    Ok(true)
}

/// Whether a source that never fails gives these bytes.
fn sure_gives(alloc: Global, bytes: &[u8]) -> Result<bool, Memory> {
    let mut source = SureSource::make(Text::from_slice(alloc, bytes)?);
    gives(alloc, &mut source, bytes)
}

/// Whether a source over memory gives these bytes.
fn listed_gives(alloc: Global, bytes: &[u8]) -> Result<bool, Memory> {
    let mut source = MemSource::make(Text::from_slice(alloc, bytes)?, Vec::new(alloc));
    gives(alloc, &mut source, bytes)
}

/// Whether a source over a reader gives these bytes.
fn standard_gives(alloc: Global, bytes: &[u8]) -> Result<bool, Memory> {
    let mut source = StdSource::make(bytes);
    gives(alloc, &mut source, bytes)
}

/// Whether each kind of source gives so many bytes.
fn all_give(alloc: Global, count: usize) -> Result<bool, Memory> {
    let bytes = bytes_of(alloc, count)?;
    let bytes = bytes.as_slice();
    Ok(sure_gives(alloc, bytes)? && listed_gives(alloc, bytes)? && standard_gives(alloc, bytes)?)
}

/// Whether each kind of source gives so many bytes.
pub fn give(alloc: Global, fields: &[&[u8]]) -> Result<bool, Memory> {
    let [_, count] = fields else {
        return Ok(false);
    };
    match str_of(count).parse::<usize>() {
        Ok(count) => all_give(alloc, count),
        Err(_) => Ok(false),
    }
}

/// Whether a source whose read of this number fails gives what was not taken before it.
fn fails_at(alloc: Global, number: u64, taken: usize) -> Result<bool, Memory> {
    let bytes = bytes_of(alloc, 150_000)?;
    let fails = Vec::from_slice(alloc, &[number])?;
    let mut source = MemSource::make(Text::from_slice(alloc, bytes.as_slice())?, fails);
    match (
        read_input(alloc, &mut source),
        bytes.as_slice().get(taken..),
    ) {
        (Err(InputError::Failed), Some(left)) => gives(alloc, &mut source, left),
        _ => Ok(false),
    }
}

/// Whether a read fails after so many bytes were taken.
pub fn fails(alloc: Global, fields: &[&[u8]]) -> Result<bool, Memory> {
    let [_, number, taken] = fields else {
        return Ok(false);
    };
    match (
        str_of(number).parse::<u64>(),
        str_of(taken).parse::<usize>(),
    ) {
        (Ok(number), Ok(taken)) => fails_at(alloc, number, taken),
        _ => Ok(false),
    }
}

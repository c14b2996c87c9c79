//! Generated designs, and what is written of them.

use generated_design::generated;
use rtl_bits::Memory;
use rtl_write::write;
use std::alloc::Global;
use table_rows::str_of;

/// Whether the generated design of so many modules has a text of so many bytes, and the text that is told, if any.
pub fn is_written(alloc: Global, fields: &[&[u8]]) -> Result<bool, Memory> {
    let [count, bytes, told @ ..] = fields else {
        return Ok(false);
    };
    let Ok(count) = str_of(count).parse::<u32>() else {
        return Ok(false);
    };
    let design = generated(alloc, count)?;
    let text = write(alloc, &design)?;
    let is_long = str_of(bytes).parse::<usize>() == Ok(text.as_slice().len());
    let is_told = told.first().is_none_or(|told| *told == text.as_slice());
    Ok(is_long && is_told)
}

//! Whole texts of designs that have a fault.

use crate::texts::answer::{rewritten, verdict};
use rtl_bits::Memory;
use std::alloc::Global;

/// Whether what is written of the text's design is read as a design of which the same is written.
fn is_kept(alloc: Global, text: &[u8]) -> Result<bool, Memory> {
    let once = rewritten(alloc, text)?;
    let again = rewritten(alloc, once.as_slice())?;
    Ok(verdict(alloc, text)?.as_str() == "read" && again.as_slice() == once.as_slice())
}

/// Whether a text is a design that is kept, and this is written of it; nothing stands for any design.
pub fn is_written(alloc: Global, fields: &[&[u8]]) -> Result<bool, Memory> {
    let [text, wanted] = fields else {
        return Ok(false);
    };
    let is_as_told = wanted.is_empty() || rewritten(alloc, text)?.as_slice() == *wanted;
    Ok(is_as_told && is_kept(alloc, text)?)
}

//! What a text is answered, as words.

use rtl_bits::{Copied, Memory, Text};
use rtl_read::read;
use rtl_write::write;
use std::alloc::Global;

/// `read`, or the words of the text's first fault.
pub fn verdict(alloc: Global, text: &[u8]) -> Result<String, Memory> {
    match read(alloc, text) {
        Ok(_) => Ok("read".to_string(alloc)?),
        Err(fault) => Ok(fault.to_string(alloc)?),
    }
}

/// The canonical text of a copy of the text's design, or the words of its first fault.
pub fn rewritten(alloc: Global, text: &[u8]) -> Result<Text, Memory> {
    match read(alloc, text) {
        Ok(design) => write(alloc, &design.copy()?),
        Err(fault) => Text::from_slice(alloc, fault.to_string(alloc)?.as_bytes()),
    }
}

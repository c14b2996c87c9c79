//! Tables of ports that are written and read again.

use crate::fields::design_of;
use rtl_bits::{Memory, Text};
use rtl_ir::{Design, port_table};
use rtl_write::{ports_text, read_ports};
use std::alloc::Global;

/// The text of the ports of the modules that the second module instantiates.
fn ports_of_second(alloc: Global, design: &Design) -> Result<Text, Memory> {
    if design.modules.as_slice().len() < 2 {
        return Ok(Text::make(alloc));
    }
    let table = port_table(alloc, design, 1)?;
    ports_text(alloc, &table)
}

/// Whether the text of the ports of the second module is as wanted.
fn is_written(alloc: Global, text: &[u8], wanted: &[u8]) -> Result<bool, Memory> {
    match design_of(alloc, text)? {
        Some(design) => Ok(ports_of_second(alloc, &design)?.as_slice() == wanted),
        None => Ok(false),
    }
}

/// Whether the ports that the second module of a text instantiates have this text, and are read from it.
pub fn is_kept(alloc: Global, fields: &[&[u8]]) -> Result<bool, Memory> {
    let [text, wanted] = fields else {
        return Ok(false);
    };
    let table = read_ports(alloc, wanted)?;
    let again = ports_text(alloc, &table)?;
    Ok(is_written(alloc, text, wanted)? && again.as_slice() == *wanted)
}

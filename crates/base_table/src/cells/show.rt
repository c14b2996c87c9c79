//! What the shapes of cells hold.

use crate::cells::cell::{Cell, cell_of};
use cell_types::{Level, Levels, Shape, shape_of};
use rtl_bits::{Bit, Memory};
use std::alloc::{AllocError, Global};
use table_rows::letter;

/// A shape in a line: the widths of A, B, S and Y, the signs, the offset, the width of what is
/// kept, the letters of the levels of CLK EN ARST SRST ALOAD SET CLR, the reset values, and of a
/// port its address width, clock, number, mask, words and priority.
fn shown(alloc: Global, shape: &Shape) -> Result<String, Memory> {
    let widths = shape.widths;
    let mut text = format!(in alloc; "{} {} {} {} ", widths.a, widths.b, widths.s, widths.y)?;
    let a = u8::from(shape.signs.a);
    let b = u8::from(shape.signs.b);
    write!(
        text,
        "signed {a} {b} from {} keeps {} ",
        shape.offset, shape.width
    )?;
    put_levels(&mut text, shape.levels)?;
    text.push_str(" resets ")?;
    put_bits(&mut text, shape.resets.arst.as_slice())?;
    text.push('/')?;
    put_bits(&mut text, shape.resets.srst.as_slice())?;
    put_port(&mut text, shape)?;
    Ok(text)
}

/// Puts the fields of a port of a memory last.
fn put_port(text: &mut String, shape: &Shape) -> Result<(), Memory> {
    let port = &shape.port;
    let clocked = u8::from(port.clocked);
    write!(text, " port {} {clocked} {} ", port.address, port.number)?;
    put_bits(text, port.mask.as_slice())?;
    write!(text, " {} ", port.words)?;
    put_bits(text, port.priority.as_slice())
}

/// Puts the letters of the levels last.
fn put_levels(text: &mut String, levels: Levels) -> Result<(), AllocError> {
    for level in [
        levels.clk,
        levels.en,
        levels.arst,
        levels.srst,
        levels.aload,
        levels.set,
        levels.clr,
    ] {
        text.push(match level {
            Level::Low => 'N',
            Level::High => 'P',
        })?;
    }
    Ok(())
}

/// Puts the letters of bits last, behind a `'`.
fn put_bits(text: &mut String, bits: &[Bit]) -> Result<(), Memory> {
    text.push('\'')?;
    for bit in bits.iter().rev() {
        text.push(char::from(letter(*bit)))?;
    }
    Ok(())
}

/// Whether the cell has this shape.
fn is_shaped(alloc: Global, cell: &Cell, wanted: &[u8]) -> Result<bool, Memory> {
    let (params, pins) = (cell.params.as_slice(), cell.pins.as_slice());
    match shape_of(alloc, cell.kind, params, pins) {
        Ok(shape) => { Ok(shape.kind == cell.kind && shown(alloc, &shape)?.as_bytes() == wanted) }
        Err(_) => Ok(false),
    }
}

/// Whether the cell of a line has this shape.
pub fn has_shape(alloc: Global, fields: &[&[u8]]) -> Result<bool, Memory> {
    let [line, wanted] = fields else {
        return Ok(false);
    };
    match cell_of(alloc, line)? {
        Some(cell) => is_shaped(alloc, &cell, wanted),
        None => Ok(false),
    }
}

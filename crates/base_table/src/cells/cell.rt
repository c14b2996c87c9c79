//! Cells written in a line: the name, parameters `P=V`, or `P~V` where any bits will do, and pins
//! `P:W`, or `P?W` where the pin may be missing. A value is a number of 32 bits, or `'` and bits
//! with the most significant first.

use crate::fields::number_of;
use cell_types::{CellKind, Param, PinWidth, kind_of};
use rtl_bits::{Bit, Bits, Memory, Text};
use std::alloc::Global;
use table_rows::bits_of;

/// What is done to an item of a line.
#[derive(Clone, Copy, PartialEq, Eq)]
pub enum Change {
    Nothing,
    Skip,
    Twice,
    Unknown,
    Wider,
}

impl Change {
    /// How often the item stands.
    fn times(self) -> u32 {
        match self {
            Change::Skip => 0,
            Change::Twice => 2,
            _ => 1,
        }
    }
}

/// A cell as it is given to `shape_of`.
#[derive(Drop)]
pub struct Cell {
    pub kind: CellKind,
    pub params: Vec<Param>,
    pub pins: Vec<PinWidth>,
}

/// A part of a line.
#[derive(Clone, Copy)]
pub struct Item<'a> {
    pub name: &'a [u8],
    pub mark: u8,
    pub value: &'a [u8],
}

/// The item's name, its mark and what is behind it.
pub fn item_of(text: &[u8]) -> Option<Item<'_>> {
    for (at, byte) in text.iter().enumerate() {
        if matches!(*byte, b'=' | b'~' | b':' | b'?') {
            return Some(Item {
                name: &text[..at],
                mark: *byte,
                value: &text[at + 1..],
            });
        }
    }
    None
}

/// The bits of a value.
fn value_of(alloc: Global, text: &[u8]) -> Result<Bits, Memory> {
    match text.split_first() {
        Some((b'\'', digits)) => bits_of(alloc, digits),
        _ => Bits::from_number(alloc, u128::from(number_of(text)), 32),
    }
}

/// The bits of a value, the lowest one unknown where that is asked.
fn changed_value(alloc: Global, text: &[u8], change: Change) -> Result<Bits, Memory> {
    let mut bits = value_of(alloc, text)?.into_vec();
    if change == Change::Unknown
        && let Some(low) = bits.first_mut()
    {
        *low = Bit::X;
    }
    Ok(Bits::from_vec(bits))
}

/// The name of a parameter or a pin.
fn given_name(alloc: Global, name: &[u8]) -> Result<Text, Memory> {
    let mut text = Text::from_slice(alloc, b"\\")?;
    text.extend(name)?;
    Ok(text)
}

/// Puts an item last.
fn put_item(alloc: Global, cell: &mut Cell, item: Item<'_>, change: Change) -> Result<(), Memory> {
    let name = given_name(alloc, item.name)?;
    if matches!(item.mark, b'=' | b'~') {
        let value = changed_value(alloc, item.value, change)?;
        cell.params.push(Param { name, value })?;
    } else {
        let more = u32::from(change == Change::Wider);
        let width = number_of(item.value).saturating_add(more);
        cell.pins.push(PinWidth { name, width })?;
    }
    Ok(())
}

/// The cell of a line, where this is done to the item at a place, the name being at 0.
pub fn changed_cell(
    alloc: Global,
    line: &[u8],
    place: usize,
    change: Change,
) -> Result<Option<Cell>, Memory> {
    let name = line.split(|byte| *byte == b' ').next().unwrap_or(line);
    let Some(kind) = kind_of(name) else {
        return Ok(None);
    };
    let mut cell = Cell {
        kind,
        params: Vec::new(alloc),
        pins: Vec::new(alloc),
    };
    for (at, text) in line.split(|byte| *byte == b' ').enumerate().skip(1) {
        let Some(item) = item_of(text) else {
            return Ok(None);
        };
        let change = if at == place { change } else { Change::Nothing };
        for _ in 0..change.times() {
            put_item(alloc, &mut cell, item, change)?;
        }
    }
    Ok(Some(cell))
}

/// The cell of a line.
pub fn cell_of(alloc: Global, line: &[u8]) -> Result<Option<Cell>, Memory> {
    changed_cell(alloc, line, 0, Change::Nothing)
}

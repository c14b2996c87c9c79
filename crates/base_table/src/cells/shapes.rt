//! Which cells have a shape, and the faults of the others.

use crate::cells::cell::{Cell, Change, cell_of, changed_cell, item_of};
use cell_types::{CellFault, params_of, pins_of, shape_of};
use rtl_bits::Memory;
use std::alloc::Global;

/// The word for what `shape_of` answers for the cell.
fn answer_of(alloc: Global, cell: &Cell) -> Result<&'static [u8], Memory> {
    let (params, pins) = (cell.params.as_slice(), cell.pins.as_slice());
    match shape_of(alloc, cell.kind, params, pins) {
        Ok(_) => Ok(b"ok"),
        Err(CellFault::Bad) => Ok(b"bad"),
        Err(CellFault::Wide) => Ok(b"wide"),
        Err(CellFault::Width) => Ok(b"width"),
        Err(CellFault::Memory) => Err(Memory),
    }
}

/// Whether the cell of a line is answered so.
pub fn is_answered(alloc: Global, fields: &[&[u8]]) -> Result<bool, Memory> {
    let [line, wanted] = fields else {
        return Ok(false);
    };
    match cell_of(alloc, line)? {
        Some(cell) => Ok(answer_of(alloc, &cell)? == *wanted),
        None => Ok(false),
    }
}

/// Whether the parameters and pins of the cell have the names that a new cell is given, in order.
fn is_as_written(cell: &Cell) -> bool {
    let params = params_of(cell.kind);
    let pins = pins_of(cell.kind);
    let mut given_params = cell.params.iter().zip(params);
    let mut given_pins = cell.pins.iter().zip(pins);
    cell.params.len() == params.len()
        && cell.pins.len() == pins.len()
        && given_params.all(|(given, name)| given.name.as_slice() == name.text())
        && given_pins.all(|(given, name)| given.name.as_slice() == name.text())
}

/// Whether the cell of a line has its parameters and pins in the order in which new cells write them.
pub fn is_in_order(alloc: Global, fields: &[&[u8]]) -> Result<bool, Memory> {
    let [line] = fields else {
        return Ok(false);
    };
    match cell_of(alloc, line)? {
        Some(cell) => Ok(is_as_written(&cell)),
        None => Ok(false),
    }
}

/// What a cell is answered where this is done to an item with this mark.
fn changed_answer(mark: u8, change: Change) -> &'static [u8] {
    match (change, mark) {
        (Change::Skip, b'?') => b"ok",
        (Change::Skip | Change::Twice, _) => b"bad",
        (Change::Unknown, b'=') => b"bad",
        (Change::Wider, b':' | b'?') => b"width",
        _ => b"ok",
    }
}

/// Whether the cell is answered as it should be where each change is made to the item of this place.
fn is_place_answered(alloc: Global, line: &[u8], place: usize, mark: u8) -> Result<bool, Memory> {
    for change in [
        Change::Nothing,
        Change::Skip,
        Change::Twice,
        Change::Unknown,
        Change::Wider,
    ] {
        let Some(cell) = changed_cell(alloc, line, place, change)? else {
            return Ok(false);
        };
        if answer_of(alloc, &cell)? != changed_answer(mark, change) {
            return Ok(false);
        }
    }
    Ok(true)
}

/// Whether the cell of a line has a shape, and without one of its items, or with one twice, unknown or wider, is
/// answered as the item's mark says.
pub fn is_answered_changed(alloc: Global, fields: &[&[u8]]) -> Result<bool, Memory> {
    let [line] = fields else {
        return Ok(false);
    };
    for (place, text) in line.split(|byte| *byte == b' ').enumerate().skip(1) {
        let Some(item) = item_of(text) else {
            return Ok(false);
        };
        if !is_place_answered(alloc, line, place, item.mark)? {
            return Ok(false);
        }
    }
    Ok(true)
}

//! Items that are added to modules, up to the limits and once more.

use crate::fields::{module_of, number_of};
use cell_types::{CellKind, GateKind};
use net_index::{Builder, PassFault};
use rtl_bits::{Bit, Memory, Text};
use rtl_ir::Pin;
use rtl_sig::{SigBit, SigSpec};
use std::alloc::Global;
use table_rows::str_of;

/// A pin with one constant bit.
fn pin(alloc: Global, name: &[u8]) -> Result<Pin, Memory> {
    Ok(Pin {
        name: Text::from_slice(alloc, name)?,
        sig: SigSpec::from_slice(alloc, &[SigBit::Fixed(Bit::S0)])?,
    })
}

/// Adds a fresh wire of this width, a cell, or a cell with such a wire at its output. The answer is whether it fits.
fn fits(builder: &mut Builder, item: &str, width: u32, pins: &[Pin]) -> Result<bool, Memory> {
    let not = CellKind::Gate(GateKind::Not);
    let added = match item {
        "wire" => builder.fresh_wire(width),
        "cell" => builder.add_cell(not, &[], pins),
        _ => builder.add_driver(not, &[], pins, b"\\Y", width),
    };
    match added {
        Ok(_place) => Ok(true),
        Err(PassFault::Over) => Ok(false),
        Err(PassFault::Memory) => Err(Memory),
    }
}

/// Whether a step goes as it is told: an item, its width, how often it is added, and whether it fits each time.
fn goes(alloc: Global, builder: &mut Builder, step: &[u8], pins: &[Pin]) -> Result<bool, Memory> {
    let words: Vec<&[u8]> = step.split(|byte| *byte == b' ').collect(alloc)?;
    let [item, width, times, answer] = words.as_slice() else {
        return Ok(false);
    };
    let wanted = *answer == b"fits".as_slice();
    let mut good = true;
    for _ in 0..number_of(times) {
        good = good && fits(builder, str_of(item), number_of(width), pins)? == wanted;
    }
    Ok(good)
}

/// Whether each step of adding to the module of a text goes as it is told.
pub fn hold(alloc: Global, fields: &[&[u8]]) -> Result<bool, Memory> {
    let [_, text, steps @ ..] = fields else {
        return Ok(false);
    };
    let Some(module) = module_of(alloc, text)? else {
        return Ok(false);
    };
    let mut builder = Builder::of(alloc, module)?;
    let pins = [pin(alloc, b"\\A")?];
    for step in steps {
        if !goes(alloc, &mut builder, step, pins.as_slice())? {
            return Ok(false);
        }
    }
    Ok(true)
}

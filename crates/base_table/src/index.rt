//! Rows that ask the index of a module what number a bit has, what drives it, what reads it, and where connections
//! lead from it, and that add to modules up to the limits, and one item more.

mod limits;

use crate::fields::design_of;
use net_index::{CellPin, Driver, Index, Reader};
use rtl_bits::{Bit, Memory, Text};
use rtl_ir::{Module, port_table};
use rtl_sig::{SigBit, WireBit};
use std::alloc::Global;
use table_rows::{TEXTS, Tally, letter};

/// A bit as the rows write it: a wire's name and a place, or a constant.
fn bit_text(alloc: Global, module: &Module, bit: SigBit) -> Result<Text, Memory> {
    let mut text = Text::make(alloc);
    match bit {
        SigBit::Fixed(constant) => {
            text.extend(b"1'".as_slice())?;
            text.push(letter(constant))?;
        }
        SigBit::Wire(bit) => {
            if let Some(wire) = module.wires.as_slice().get(bit.wire as usize) {
                text.extend(wire.name.as_slice())?;
            }
            let place = format!(in alloc; " [{}]", bit.at)?;
            text.extend(place.as_bytes())?;
        }
    }
    Ok(text)
}

/// A driver as the rows write it.
fn driver_text(alloc: Global, module: &Module, driver: Driver) -> Result<Text, Memory> {
    let words = match driver {
        Driver::Nothing => format!(in alloc; "nothing")?,
        Driver::Port => format!(in alloc; "port")?,
        Driver::Cell(CellPin { cell, pin, at }) => format!(in alloc; "cell {cell} {pin} {at}")?,
        Driver::Link(_) => format!(in alloc; "link ")?,
        Driver::Tree(process) => format!(in alloc; "tree {process}")?,
        Driver::Sync(process) => format!(in alloc; "sync {process}")?,
    };
    let mut text = Text::from_slice(alloc, words.as_bytes())?;
    if let Driver::Link(bit) = driver {
        text.extend(bit_text(alloc, module, bit)?.as_slice())?;
    }
    Ok(text)
}

/// Readers as the rows write them.
fn readers_text(alloc: Global, readers: &[Reader]) -> Result<Text, Memory> {
    let mut text = Text::from_slice(alloc, b"read by".as_slice())?;
    for reader in readers {
        let words = match reader {
            Reader::Cell(CellPin { cell, pin, at }) => format!(in alloc;
                " cell {cell} {pin} {at}"
            )?,
            Reader::Link(link) => format!(in alloc; " link {link}")?,
        };
        text.extend(words.as_bytes())?;
    }
    Ok(text)
}

/// Whether this is what the index of the module says of a bit: its number, what drives it, or what reads it.
fn is_said(
    alloc: Global,
    module: &Module,
    index: &Index,
    bit: WireBit,
    wanted: &[u8],
) -> Result<bool, Memory> {
    let number = format!(in alloc; "number {}", index.number(bit))?;
    let driver = driver_text(alloc, module, index.driver(bit))?;
    let readers = readers_text(alloc, index.readers(bit))?;
    Ok(number.as_bytes() == wanted || driver.as_slice() == wanted || readers.as_slice() == wanted)
}

/// Whether this is where connections lead from the bit.
fn is_led(
    alloc: Global,
    module: &Module,
    index: &Index,
    bit: SigBit,
    wanted: &[u8],
) -> Result<bool, Memory> {
    let mut leads = Text::from_slice(alloc, b"leads ".as_slice())?;
    leads.extend(bit_text(alloc, module, index.follow(bit))?.as_slice())?;
    Ok(leads.as_slice() == wanted)
}

/// The bit of the module that is written so.
fn bit_of(alloc: Global, module: &Module, asked: &[u8]) -> Result<Option<SigBit>, Memory> {
    for wire in 0..4u32 {
        for at in 0..10u32 {
            let bit = SigBit::Wire(WireBit { wire, at });
            if bit_text(alloc, module, bit)?.as_slice() == asked {
                return Ok(Some(bit));
            }
        }
    }
    for constant in [Bit::S0, Bit::S1, Bit::M, Bit::Dash] {
        let bit = SigBit::Fixed(constant);
        if bit_text(alloc, module, bit)?.as_slice() == asked {
            return Ok(Some(bit));
        }
    }
    Ok(None)
}

/// Whether the bit that is written so has this answer.
fn is_answered(
    alloc: Global,
    module: &Module,
    index: &Index,
    asked: &[u8],
    wanted: &[u8],
) -> Result<bool, Memory> {
    let Some(bit) = bit_of(alloc, module, asked)? else {
        return Ok(false);
    };
    match bit {
        SigBit::Wire(place) if is_said(alloc, module, index, place, wanted)? => Ok(true),
        _ => is_led(alloc, module, index, bit, wanted),
    }
}

/// Whether a row holds: its name, a design whose second module is asked, a bit, and its answer.
fn holds(alloc: Global, fields: &[&[u8]]) -> Result<bool, Memory> {
    let [_, text, asked, wanted] = fields else {
        return Ok(false);
    };
    let Some(design) = design_of(alloc, text)? else {
        return Ok(false);
    };
    if design.modules.as_slice().len() < 2 {
        return Ok(false);
    }
    let ports = port_table(alloc, &design, 1)?;
    let module = &design.modules.as_slice()[1];
    let index = Index::of(alloc, module, &ports)?;
    is_answered(alloc, module, &index, asked, wanted)
}

/// Counts the rows of the files.
pub(crate) fn count(rt: &HostRuntime, tally: &mut Tally) -> Result<(), Memory> {
    tally.file(rt, "index/bits", TEXTS, holds)?;
    tally.file(rt, "index/limits", TEXTS, limits::hold)
}

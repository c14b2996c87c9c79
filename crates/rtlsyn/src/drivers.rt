//! What drives a bit of a module.

use crate::found::link_numbered;
use net_index::{CellType, Types, drives_pin};
use process_trees::tree_bits;
use rtl_bits::{Bit, Memory};
use rtl_ir::{Cell, Link, Module, Pin, Process, is_all_constant, same_bit, signal_at};
use rtl_sig::{SigBit, WireBit};
use std::alloc::Global;

/// A driver of a bit.
#[derive(Clone, Copy)]
pub(crate) enum Driver<'a> {
    Cell(&'a Cell),
    Process(&'a Process),
    /// A connection, by its number from 1.
    Connection(usize),
}

/// The drivers of the bit, those that are connections first.
pub(crate) fn drivers_of<'a>(
    alloc: Global,
    types: &Types,
    module: &'a Module,
    bit: WireBit,
) -> Result<Vec<Driver<'a>>, Memory> {
    let mut drivers = Vec::new(alloc);
    let mut number = 0usize;
    for link in module.links.as_slice() {
        number = number.saturating_add(1);
        if holds(link.left.as_slice(), bit) {
            drivers.push(Driver::Connection(number))?;
        }
    }
    for cell in module.cells.as_slice() {
        if drives(
            &types.find(cell.kind_name.as_slice()),
            cell.pins.as_slice(),
            bit,
        ) {
            drivers.push(Driver::Cell(cell))?;
        }
    }
    for process in module.processes.as_slice() {
        if gives(alloc, process, bit)? {
            drivers.push(Driver::Process(process))?;
        }
    }
    Ok(drivers)
}

/// Whether the signal holds the bit.
fn holds(signal: &[SigBit], bit: WireBit) -> bool {
    signal.iter().any(|place| match place {
        SigBit::Wire(held) => same_bit(*held, bit),
        SigBit::Fixed(_) => false,
    })
}

/// Whether a cell of the type drives the bit by one of these pins.
fn drives(cell_type: &CellType, pins: &[Pin], bit: WireBit) -> bool {
    for pin in pins {
        if drives_pin(cell_type, pin.name.as_slice()) && holds(pin.sig.as_slice(), bit) {
            return true;
        }
    }
    false
}

/// Whether the process assigns or updates the bit.
fn gives(alloc: Global, process: &Process, bit: WireBit) -> Result<bool, Memory> {
    for rule in process.syncs.as_slice() {
        for line in rule.updates.as_slice() {
            if holds(line.left.as_slice(), bit) {
                return Ok(true);
            }
        }
    }
    let bits = tree_bits(alloc, &process.root)?;
    Ok(bits.iter().any(|given| same_bit(*given, bit)))
}

/// Whether all are processes.
pub(crate) fn are_processes(drivers: &[Driver]) -> bool {
    drivers
        .iter()
        .all(|driver| matches!(driver, Driver::Process(_)))
}

/// Whether each is a tri-state driver: a selection between a signal and z, which Yosys may have written as x.
pub(crate) fn are_tristate(
    types: &Types,
    module: &Module,
    bit: WireBit,
    drivers: &[Driver],
) -> bool {
    for driver in drivers {
        if !is_tristate(types, module, bit, *driver) {
            return false;
        }
    }
    true
}

/// Whether it is a tri-state driver of the bit.
fn is_tristate(types: &Types, module: &Module, bit: WireBit, driver: Driver) -> bool {
    match driver {
        Driver::Cell(cell) => selects_open(cell),
        Driver::Connection(number) => match link_numbered(module, number) {
            Some(link) => leads_to_open(types, module, bit, link),
            None => false,
        },
        Driver::Process(_) => false,
    }
}

/// Whether the cell selects between a signal and an unknown constant.
fn selects_open(cell: &Cell) -> bool {
    let pins = cell.pins.as_slice();
    cell.kind_name.as_slice() == b"$mux".as_slice()
        && (is_open(signal_at(pins, b"\\A")) || is_open(signal_at(pins, b"\\B")))
}

/// Whether the signal is of z or x alone.
fn is_open(signal: &[SigBit]) -> bool {
    is_all_constant(signal) && signal.iter().all(|bit| is_unknown(*bit))
}

/// Whether the bit is a constant z or x.
fn is_unknown(bit: SigBit) -> bool {
    matches!(bit, SigBit::Fixed(Bit::X | Bit::Z))
}

/// Whether the connection leads the bit to a cell that selects between a signal and an unknown constant.
fn leads_to_open(types: &Types, module: &Module, bit: WireBit, link: &Link) -> bool {
    let pairs = link
        .left
        .as_slice()
        .iter()
        .zip(link.right.as_slice().iter());
    for (left, right) in pairs {
        if let (SigBit::Wire(held), SigBit::Wire(source)) = (left, right) {
            if same_bit(*held, bit) && is_open_source(types, module, *source) {
                return true;
            }
        }
    }
    false
}

/// Whether a cell that selects between a signal and an unknown constant drives the bit.
fn is_open_source(types: &Types, module: &Module, bit: WireBit) -> bool {
    for cell in module.cells.as_slice() {
        if selects_open(cell)
            && drives(
                &types.find(cell.kind_name.as_slice()),
                cell.pins.as_slice(),
                bit,
            )
        {
            return true;
        }
    }
    false
}

//! Why a memory, or what reads and writes it, is not taken (error 15).

use crate::found::store_named;
use cell_types::{CellKind, MemoryKind, ParamName, PinName};
use rtl_bits::Memory;
use rtl_ir::limits::{MAX_ADDRESS, MAX_PORT};
use rtl_ir::{
    Cell, Module, Process, Store, WriteLine, cell_kind, is_all_constant, memory_name, number_in,
    pin_signal,
};
use std::alloc::Global;

/// The name of the cause, of a memory.
pub(crate) fn store_cause(store: &Store) -> &'static str {
    if store.size < 1 || store.offset < 0 {
        "no-words"
    } else {
        "large-memory"
    }
}

/// The name of the cause, of a cell.
pub(crate) fn memory_cell_cause(
    alloc: Global,
    module: &Module,
    cell: &Cell,
) -> Result<&'static str, Memory> {
    let Some(store) = store_of(module, cell) else {
        return Ok("unknown-memory");
    };
    let width = number_in(alloc, cell.params.as_slice(), ParamName::Width)?;
    let address = pin_signal(cell.pins.as_slice(), PinName::Addr).len();
    if width != Some(u64::from(store.width)) || !is_address(address) {
        return Ok("word-width");
    }
    match cell_kind(cell) {
        Some(CellKind::Memory(kind)) => access_cause(alloc, module, cell, kind),
        _ => Ok("memory"),
    }
}

/// Whether an address may have so many bits.
fn is_address(width: usize) -> bool {
    0 < width && width <= MAX_ADDRESS
}

/// The memory that a cell belongs to.
fn store_of<'a>(module: &'a Module, cell: &Cell) -> Option<&'a Store> {
    store_named(module, memory_name(cell.params.as_slice())?)
}

/// The name of the cause, of a cell of this kind that fits its memory.
fn access_cause(
    alloc: Global,
    module: &Module,
    cell: &Cell,
    kind: MemoryKind,
) -> Result<&'static str, Memory> {
    match kind {
        MemoryKind::Memrd | MemoryKind::MemrdV2 => Ok("clocked-read"),
        MemoryKind::MemwrV2 => write_cause(alloc, module, cell),
        MemoryKind::Meminit | MemoryKind::MeminitV2 => Ok(start_cause(cell)),
    }
}

/// The name of the cause, of a cell with start words.
fn start_cause(cell: &Cell) -> &'static str {
    let pins = cell.pins.as_slice();
    for pin in [PinName::Addr, PinName::Data, PinName::En] {
        if !is_all_constant(pin_signal(pins, pin)) {
            return "start-words";
        }
    }
    "outside-words"
}

/// The name of the cause, of a write port.
fn write_cause(alloc: Global, module: &Module, cell: &Cell) -> Result<&'static str, Memory> {
    let params = cell.params.as_slice();
    if number_in(alloc, params, ParamName::ClkEnable)? == Some(0) {
        return Ok("open-write");
    }
    let number = number_in(alloc, params, ParamName::Portid)?;
    if is_past(number) || is_taken(alloc, module, cell, number)? {
        return Ok("port-numbers");
    }
    Ok("two-clocks")
}

/// Whether the number of a port is past the greatest.
fn is_past(number: Option<u64>) -> bool {
    match number {
        Some(number) => number > u64::from(MAX_PORT),
        None => true,
    }
}

/// Whether an earlier write port of the memory has the number.
fn is_taken(
    alloc: Global,
    module: &Module,
    cell: &Cell,
    number: Option<u64>,
) -> Result<bool, Memory> {
    let store = memory_name(cell.params.as_slice());
    for earlier in module.cells.as_slice() {
        if earlier.name.as_slice() == cell.name.as_slice() {
            return Ok(false);
        }
        let params = earlier.params.as_slice();
        if earlier.kind_name.as_slice() == cell.kind_name.as_slice()
            && memory_name(params) == store
            && number_in(alloc, params, ParamName::Portid)? == number
        {
            return Ok(true);
        }
    }
    Ok(false)
}

/// The name of the cause, of a process.
pub(crate) fn line_cause(module: &Module, process: &Process) -> &'static str {
    for rule in process.syncs.as_slice() {
        for line in rule.writes.as_slice() {
            match misfit(module, line) {
                Some(cause) => return cause,
                None => {}
            }
        }
    }
    "two-clocks"
}

/// What is wrong with a line that does not fit a memory.
fn misfit(module: &Module, line: &WriteLine) -> Option<&'static str> {
    let Some(store) = store_named(module, line.memory.as_slice()) else {
        return Some("unknown-memory");
    };
    let value = line.value.as_slice().len() as u64;
    if value != u64::from(store.width) || !is_address(line.address.as_slice().len()) {
        return Some("word-width");
    }
    None
}

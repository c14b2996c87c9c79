//! The names of items, in order.

ghost use Rattle.std.specs.Prelude.{◌≡◌, IfOk, map};

use rtl_bits::Memory;
use rtl_ir::{Cell, Pin, Process, Store, Wire};
use std::alloc::Global;

/// The names of wires.
pub(crate) fn wire_names<'a>(alloc: Global, wires: &'a [Wire]) -> Result<Vec<&'a [u8]>, Memory>
    ensures value { IfOk result (λ names. map (λ n. n.now) names.items ≡ map (λ w. w.name) wires.now) }
{
    let mut names = Vec::with_capacity(alloc, wires.len())?;
    for wire in wires {
        names.push(wire.name.as_slice())?;
    }
    Ok(names)
}

/// The names of memories.
pub(crate) fn store_names<'a>(alloc: Global, stores: &'a [Store]) -> Result<Vec<&'a [u8]>, Memory>
    ensures value { IfOk result (λ names. map (λ n. n.now) names.items ≡ map (λ s. s.name) stores.now) }
{
    let mut names = Vec::with_capacity(alloc, stores.len())?;
    for store in stores {
        names.push(store.name.as_slice())?;
    }
    Ok(names)
}

/// The names of cells.
pub(crate) fn cell_names<'a>(alloc: Global, cells: &'a [Cell]) -> Result<Vec<&'a [u8]>, Memory>
    ensures value { IfOk result (λ names. map (λ n. n.now) names.items ≡ map (λ c. c.name) cells.now) }
{
    let mut names = Vec::with_capacity(alloc, cells.len())?;
    for cell in cells {
        names.push(cell.name.as_slice())?;
    }
    Ok(names)
}

/// The names of processes.
pub(crate) fn process_names<'a>(
    alloc: Global,
    processes: &'a [Process],
) -> Result<Vec<&'a [u8]>, Memory>
    ensures value { IfOk result (λ names. map (λ n. n.now) names.items ≡ map (λ p. p.name) processes.now) }
{
    let mut names = Vec::with_capacity(alloc, processes.len())?;
    for process in processes {
        names.push(process.name.as_slice())?;
    }
    Ok(names)
}

/// The names of pins.
pub(crate) fn pin_names<'a>(alloc: Global, pins: &'a [Pin]) -> Result<Vec<&'a [u8]>, Memory>
    ensures value { IfOk result (λ names. map (λ n. n.now) names.items ≡ map (λ p. p.name) pins.now) }
{
    let mut names = Vec::with_capacity(alloc, pins.len())?;
    for pin in pins {
        names.push(pin.name.as_slice())?;
    }
    Ok(names)
}

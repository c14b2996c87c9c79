//! The write ports of a memory.

ghost use Rattle.std.specs.Prelude.{◌≡◌, ◌<◌, ◌^◌, IfOk};
ghost use Rattle.rtl_ir.specs.WritePorts.{clock_level, is_of_memory, is_write_cell, is_write_port, port_number};

use crate::cell::{Cell, CellParam};
use crate::parameters::{memory_name, number_in};
use cell_types::{CellKind, Level, MemoryKind, ParamName, kind_of};
use rtl_bits::Memory;
use std::alloc::Global;

/// Whether a cell of this type is a write port.
#[tactic(auto, unfolding(crate::specs::WritePorts::is_write_cell))]
pub fn is_write_cell(kind: &[u8]) -> bool
    ensures value { result ≡ is_write_cell kind.now }
{
    matches!(kind_of(kind), Some(CellKind::Memory(MemoryKind::MemwrV2)))
}

/// Whether the cell belongs to the memory of this name.
pub fn is_of_memory(name: &[u8], cell: &Cell) -> bool
    ensures value { result ≡ is_of_memory name.now cell.now }
{
    match memory_name(cell.params.as_slice()) {
        Some(memory) => name == memory,
        None => false,
    }
}

/// Whether the cell is a write port of the memory of this name.
#[tactic(auto, using(crate::proofs::Asking::asked_first))]
pub fn is_write_port(name: &[u8], cell: &Cell) -> bool
    ensures value { result ≡ is_write_port name.now cell.now }
{
    // Few cells have a memory's name, so it is asked first.
    is_of_memory(name, cell) && is_write_cell(cell.kind_name.as_slice())
}

/// The number of a write port. A module has no port of a number above 65,535, so memory alone can be missing; a number
/// of 2^31 or more is answered with `Memory` too.
pub fn port_number(alloc: Global, params: &[CellParam]) -> Result<u32, Memory>
    ensures value { IfOk result (λ number. number ≡ port_number params.now) }
    ensures small { IfOk result (λ number. number < 2 ^ 31) }
{
    match number_in(alloc, params, ParamName::Portid)? {
        Some(number) if number < 1 << 31 => Ok(number as u32),
        _ => Err(Memory),
    }
}

/// The level after a clock's edge.
pub fn clock_level(alloc: Global, params: &[CellParam]) -> Result<Level, Memory>
    ensures value { IfOk result (λ level. level ≡ clock_level params.now) }
{
    match number_in(alloc, params, ParamName::ClkPolarity)? {
        Some(0) => Ok(Level::Low),
        _ => Ok(Level::High),
    }
}

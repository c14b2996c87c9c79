//! The read ports of a memory.

ghost use Rattle.std.specs.Prelude.{◌≡◌, ◌&&◌, IfOk};
ghost use Rattle.rtl_ir.specs.Flat.Cell.{cell_kind};
ghost use Rattle.rtl_ir.specs.Flat.Memory.{is_read_kind};
ghost use Rattle.rtl_ir.specs.WritePorts.{is_of_memory};
ghost use Rattle.net_model.specs.Mem.Gather.{read_port, read_ports};

use cell_types::{CellKind, MemoryKind, PinName, kind_of};
use rtl_bits::{Memory, Seq};
use rtl_ir::{Cell, ReadPort, is_of_memory, pin_signal};
use rtl_sig::SigSpec;
use std::alloc::Global;

/// Whether a cell of this type reads a memory.
fn is_read_kind(kind: Option<CellKind>) -> bool
    ensures value { result ≡ is_read_kind kind }
{
    matches!(
        kind,
        Some(CellKind::Memory(MemoryKind::Memrd | MemoryKind::MemrdV2))
    )
}

/// Whether the cell is a read port of the memory of this name.
#[tactic(auto, using(rtl_ir::proofs::Asking::asked_first), unfolding(rtl_ir::specs::Flat::Cell::cell_kind))]
fn is_read_port(name: &[u8], cell: &Cell) -> bool
    ensures value { result ≡ (is_read_kind (cell_kind cell.now) && is_of_memory name.now cell.now) }
{
    // Few cells have a memory's name, so it is asked first.
    is_of_memory(name, cell) && is_read_kind(kind_of(cell.kind_name.as_slice()))
}

/// The read port of a cell at this place of the list.
fn read_port(alloc: Global, at: u32, cell: &Cell) -> Result<ReadPort, Memory>
    ensures value { IfOk result (λ port. port ≡ read_port at cell.now) }
{
    let pins = cell.pins.as_slice();
    Ok(ReadPort {
        cell: at,
        address: SigSpec::from_slice(alloc, pin_signal(pins, PinName::Addr))?,
        data: SigSpec::from_slice(alloc, pin_signal(pins, PinName::Data))?,
    })
}

/// The read ports of the memory of this name, in the order of their cells. More than 2^32 cells are taken for want
/// of memory.
pub(crate) fn read_ports(
    alloc: Global,
    name: &[u8],
    cells: &[Cell],
) -> Result<Seq<ReadPort>, Memory>
    ensures value { IfOk result (λ ports. ports ≡ read_ports name.now 0 cells.now) }
{
    let mut ports = Seq::make(alloc);
    for at in 0..cells.len() {
        if is_read_port(name, &cells[at]) {
            let place = u32::try_from(at).ok().ok_or(Memory)?;
            ports.push(read_port(alloc, place, &cells[at])?)?;
        }
    }
    Ok(ports)
}

//! The module without a memory and its cells.

ghost use Rattle.std.specs.Prelude.{◌≡◌, ◌+◌, ◌++◌, IfOk, not, ◌&&◌, false, filter, length, take, drop};
ghost use Rattle.rtl_ir.specs.Flat.Cell.{cell_kind};
ghost use Rattle.rtl_ir.specs.WritePorts.{is_of_memory};
ghost use Rattle.rtl_ir.specs.declared.cell.Cell.{Cell};
ghost use Rattle.rtl_ir.specs.declared.store.Store.{Store};
ghost use Rattle.net_model.specs.Mem.Expand.{is_memory_kind, without_memory};
ghost use Rattle.net_model.specs.Within.{Each};

use cell_types::{CellKind, kind_of};
use rtl_bits::{Memory, Seq};
use rtl_ir::{Cell, Module, Store, is_of_memory};
use std::alloc::Global;

/// Whether a cell of this type is one of a memory.
fn is_memory_kind(kind: Option<CellKind>) -> bool
    ensures value { result ≡ is_memory_kind kind }
{
    matches!(kind, Some(CellKind::Memory(_)))
}

/// Whether the cell is none of this memory.
#[tactic(auto, using(rtl_ir::proofs::Asking::asked_first), unfolding(rtl_ir::specs::Flat::Cell::cell_kind))]
fn stays(name: &[u8], cell: &Cell) -> bool
    ensures value { result ≡ not (is_memory_kind (cell_kind cell.now) && is_of_memory name.now cell.now) }
{
    // Few cells have a memory's name, so it is asked first.
    !(is_of_memory(name, cell) && is_memory_kind(kind_of(cell.kind_name.as_slice())))
}

/// How many of these cells are none of this memory.
pub fn staying(name: &[u8], cells: &[Cell]) -> usize
    ensures value { result ≡ length
        (filter (λ (c : Cell). not (is_memory_kind (cell_kind c) && is_of_memory name.now c)) cells.now) }
{
    let mut count: usize = 0;
    for cell in cells {
        if stays(name, cell) {
            count += 1;
        }
    }
    count
}

/// The cells that are none of this memory, where no cell after the first `count` cells is one of a memory.
fn other_cells(
    alloc: Global,
    name: &[u8],
    cells: Seq<Cell>,
    count: usize,
) -> Result<Seq<Cell>, Memory>
    requires first { Each (λ (c : Cell). is_memory_kind (cell_kind c) ≡ false) (drop count cells) }
    ensures value { IfOk result (λ others. others ≡
        filter (λ (c : Cell). not (is_memory_kind (cell_kind c) && is_of_memory name.now c)) cells) }
{
    let mut others = Vec::with_capacity(alloc, cells.as_slice().len())?;
    let mut left = count;
    for cell in cells.into_vec() {
        // The cells after the first ones are moved without a look.
        let is_kept = left == 0 || stays(name, &cell);
        left = left.saturating_sub(1);
        if is_kept {
            others.push(cell)?;
        }
    }
    Ok(Seq::from_vec(others))
}

/// The memories but the one at this place.
fn other_memories(at: usize, memories: Seq<Store>) -> Seq<Store>
    ensures value { result ≡ take at memories ++ drop (at + 1) memories }
{
    let mut others = memories.into_vec();
    if at < others.len() {
        others.remove(at);
    }
    Seq::from_vec(others)
}

/// The module without the memory at this place, which has this name, and its cells, where no cell after the first
/// `count` cells is one of a memory.
pub(crate) fn without_memory(
    alloc: Global,
    at: usize,
    name: &[u8],
    module: Module,
    count: usize,
) -> Result<Module, Memory>
    requires first { Each (λ (c : Cell). is_memory_kind (cell_kind c) ≡ false) (drop count «module».cells) }
    ensures value { (s : Store) → s.name ≡ name.now → IfOk result (λ after. after ≡ without_memory at s «module») }
{
    let memories = other_memories(at, module.memories);
    let cells = other_cells(alloc, name, module.cells, count)?;
    Ok(Module {
        memories,
        cells,
        ..module
    })
}

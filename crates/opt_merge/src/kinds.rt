//! Which cells may be merged.

ghost use Rattle.std.specs.Prelude.{◌≡◌, IfOk, Some};
ghost use Rattle.rtl_ir.specs.Flat.Cell.{cell_kind};
ghost use Rattle.opt_merge.specs.Traits.{logic_kind, merging_kind};

use cell_types::{CellKind, kind_of};
use rtl_bits::Memory;
use rtl_ir::{Cell, is_kept};
use std::alloc::Global;

/// The kind of a cell that may be merged: a combinational or storage cell without a nonzero `\keep`.
pub(crate) fn merging_kind(alloc: Global, cell: &Cell) -> Result<Option<CellKind>, Memory>
    ensures value { IfOk result (λ kind. kind ≡ merging_kind cell.now) }
{
    if is_kept(alloc, cell.attributes.as_slice())? {
        return Ok(None);
    }
    Ok(logic_kind(cell))
}

/// The kind of a combinational or storage cell.
#[tactic(auto, unfolding(rtl_ir::specs::Flat::Cell::cell_kind))]
fn logic_kind(cell: &Cell) -> Option<CellKind>
    ensures value { result ≡ logic_kind (cell_kind cell.now) }
{
    match kind_of(cell.kind_name.as_slice()) {
        Some(CellKind::Memory(_)) => None,
        kind => kind,
    }
}

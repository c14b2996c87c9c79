//! Kinds of registers.

ghost use Rattle.std.specs.Prelude.{◌≡◌, None, Some, IfOk, if◌then◌else◌};
ghost use Rattle.cell_gate.specs.Store.{storage_kind};
ghost use Rattle.rtl_ir.specs.Flat.Cell.{cell_kind};
ghost use Rattle.opt_more.specs.Dff.{has_reset, is_plain, register_kind, register_of};

use cell_gate::storage_kind;
use cell_types::{CellKind, StorageKind, kind_of};
use rtl_bits::Memory;
use rtl_ir::{Cell, is_kept};
use std::alloc::Global;

/// The kind of a register without a nonzero `\keep` that has no controls but a clock, an enable and a reset to a value.
pub(crate) fn register_of(alloc: Global, cell: &Cell) -> Result<Option<CellKind>, Memory>
    ensures value { IfOk result (λ kind. kind ≡ register_of cell.now) }
{
    if is_kept(alloc, cell.attributes.as_slice())? {
        return Ok(None);
    }
    Ok(register_kind(cell))
}

/// The kind of a register with such controls alone.
#[tactic(auto, unfolding(rtl_ir::specs::Flat::Cell::cell_kind))]
fn register_kind(cell: &Cell) -> Option<CellKind>
    ensures value { result ≡ register_kind (cell_kind cell.now) }
{
    match kind_of(cell.kind_name.as_slice()) {
        Some(kind @ (CellKind::Storage(_) | CellKind::StorageGate(_))) => plain_kind(kind),
        _ => None,
    }
}

/// The kind of a cell, where what it stores has such controls alone.
fn plain_kind(kind: CellKind) -> Option<CellKind>
    ensures value { result ≡ (if is_plain (storage_kind kind) then Some kind else None) }
{
    if is_plain(storage_kind(kind)) {
        Some(kind)
    } else {
        None
    }
}

/// Whether the kind has no controls but a clock, an enable and a reset to a value.
fn is_plain(kind: StorageKind) -> bool
    ensures value { result ≡ is_plain kind }
{
    match kind {
        StorageKind::Ff => true,
        StorageKind::Dff => true,
        StorageKind::Dffe => true,
        StorageKind::Sdff => true,
        StorageKind::Sdffe => true,
        StorageKind::Sdffce => true,
        StorageKind::Adff => true,
        StorageKind::Adffe => true,
        _ => false,
    }
}

/// Whether the kind has a reset to a value.
pub(crate) fn has_reset(kind: StorageKind) -> bool
    ensures value { result ≡ has_reset kind }
{
    match kind {
        StorageKind::Sdff => true,
        StorageKind::Sdffe => true,
        StorageKind::Sdffce => true,
        StorageKind::Adff => true,
        StorageKind::Adffe => true,
        _ => false,
    }
}

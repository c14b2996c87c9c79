//! The cells that become gates.

ghost use Rattle.std.specs.Prelude.{◌≡◌};
ghost use Rattle.tech_map.specs.Techmap.{is_taken, taken_kind};

use cell_types::{CellKind, kind_of};
use rtl_ir::Cell;

/// Whether cells of this kind become gates.
pub(crate) fn is_taken(kind: CellKind) -> bool
    ensures value { result ≡ is_taken kind }
{
    matches!(kind, CellKind::Word(_) | CellKind::Storage(_))
}

/// The kind of a cell that becomes gates.
#[tactic(auto, unfolding(rtl_ir::specs::Flat::Cell::cell_kind))]
pub(crate) fn taken_kind(cell: &Cell) -> Option<CellKind>
    ensures value { result ≡ taken_kind cell.now }
{
    match kind_of(cell.kind_name.as_slice()) {
        Some(kind) if is_taken(kind) => Some(kind),
        _ => None,
    }
}

//! The gates of a cell, by its kind.

ghost use Rattle.std.specs.Prelude.{◌≡◌, Err, OnOk};
ghost use Rattle.net_index.specs.Builder.{IsInLimits, PassesLimit};
ghost use Rattle.tech_map.specs.Techmap.{expand_by_kind};

use cell_types::{ArithKind, CellKind, UnaryKind, WordKind};
use net_index::{Builder, PassFault};
use rtl_ir::{Cell, fitting_shape};
use std::alloc::Global;

/// The gates of a cell of this kind go last, by the map of the kind. After an error the builder holds some
/// of them.
pub(crate) fn expand_by_kind(
    alloc: Global,
    kind: CellKind,
    cell: &Cell,
    builder: &mut Builder,
) -> Result<(), PassFault>
    ensures exact { OnOk result (builder.new ≡ expand_by_kind kind cell.now builder.old) }
    ensures over { result ≡ Err PassFault.Over → PassesLimit (expand_by_kind kind cell.now builder.old) }
    ensures within { IsInLimits builder.old → OnOk result (IsInLimits builder.new) }
{
    let shape = fitting_shape(alloc, kind, cell)?;
    match kind {
        CellKind::Word(WordKind::Unary(UnaryKind::Neg)) => {
            map_add::expand(alloc, cell, &shape, builder)
        }
        CellKind::Word(WordKind::Arith(ArithKind::Mul) | WordKind::Division(_)) => {
            map_mul::expand(alloc, cell, &shape, builder)
        }
        CellKind::Word(WordKind::Arith(_) | WordKind::Order(_)) => {
            map_add::expand(alloc, cell, &shape, builder)
        }
        CellKind::Word(WordKind::Shift(_)) => map_shift::expand(alloc, cell, &shape, builder),
        CellKind::Storage(_) => map_flop::expand(alloc, cell, &shape, builder),
        _ => map_gates::expand(alloc, cell, &shape, builder),
    }
}

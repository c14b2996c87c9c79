//! Gates for the word cells that move a word by a number of places.
#![tactic(auto)]

mod moves;
mod shift;
mod value;

ghost use Rattle.std.specs.Prelude.{◌≡◌, Err, OnOk};
ghost use Rattle.net_index.specs.Builder.{IsInLimits, PassesLimit};
ghost use Rattle.map_laws.specs.Expansion.{ExpandsMapped, StandsForMapped};
ghost use Rattle.map_shift.specs.Expand.{is_mapped, map_of};

use crate::value::{is_mapped, value};
use cell_types::{PinName, Shape};
use gate_nets::{give, pin_signal};
use net_index::{Builder, PassFault};
use rtl_ir::Cell;
use std::alloc::Global;

/// Adds the gates that stand for the cell, and connects its output to their result. A cell of another kind
/// adds nothing. After an error the builder holds some of the gates, and is to be given up. The cells are
/// those of the Yosys manual's section on shifts: `$shl`, `$sshl`, `$shr`, `$sshr`, `$shift`, `$shiftx`.
pub fn expand(
    alloc: Global,
    cell: &Cell,
    shape: &Shape,
    builder: &mut Builder,
) -> Result<(), PassFault>
    ensures exact { OnOk result (builder.new ≡ map_of shape.now cell.now builder.old) }
    ensures over { result ≡ Err PassFault.Over → PassesLimit (map_of shape.now cell.now builder.old) }
    ensures within { IsInLimits builder.old → OnOk result (IsInLimits builder.new) }
    ensures expansion { OnOk result (ExpandsMapped is_mapped shape.now cell.now builder.old builder.new) }
    ensures refines { OnOk result (StandsForMapped is_mapped shape.now cell.now builder.old builder.new) }
{
    add_gates(alloc, cell, shape, builder)
}

/// The gates by the kind of the cell.
fn add_gates(
    alloc: Global,
    cell: &Cell,
    shape: &Shape,
    builder: &mut Builder,
) -> Result<(), PassFault>
    ensures exact { OnOk result (builder.new ≡ map_of shape.now cell.now builder.old) }
    ensures over { result ≡ Err PassFault.Over → PassesLimit (map_of shape.now cell.now builder.old) }
    ensures within { IsInLimits builder.old → OnOk result (IsInLimits builder.new) }
{
    if is_mapped(shape.kind) {
        let bits = value(alloc, cell, shape, builder)?;
        give(
            alloc,
            pin_signal(cell, PinName::Y),
            bits.as_slice(),
            builder,
        )?;
    }
    Ok(())
}

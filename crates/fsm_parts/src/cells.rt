//! The pins of cells, and the values that forks choose from.

ghost use Rattle.std.specs.Prelude.{◌≡◌, option_map, slice_get};
ghost use Rattle.rtl_ir.specs.Parameters.{signal_at};
ghost use Rattle.net_model.specs.Fsm.Find.{at_pin};

use cell_types::PinName;
use rtl_ir::{Cell, signal_at};
use rtl_sig::SigBit;

/// The signal at a pin of a cell, no bits where there is none.
pub fn at_pin(cell: &Cell, pin: PinName) -> &[SigBit]
    ensures value { result.now ≡ at_pin cell.now pin }
{
    signal_at(cell.pins.as_slice(), pin.text())
}

/// The cell at a place of the list, where there is one.
pub fn cell_at(cells: &[Cell], at: usize) -> Option<&Cell>
    ensures value { option_map (λ cell. cell.now) result ≡ slice_get cells.now at }
{
    cells.get(at)
}

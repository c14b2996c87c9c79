//! The operands of cells.

ghost use Rattle.std.specs.Prelude.{◌≡◌, IfOk};
ghost use Rattle.rtl_sig.specs.Signal.{extended};
ghost use Rattle.map_laws.specs.Operand.{pin_signal};
ghost use Rattle.gate_nets.specs.Operand.{greater_width, operand_of};

use cell_types::PinName;
use rtl_bits::Memory;
use rtl_ir::Cell;
use rtl_sig::{SigBit, SigSpec, extended};
use std::alloc::Global;

/// The signal at a pin of a cell, no bits where there is none.
pub fn pin_signal(cell: &Cell, pin: PinName) -> &[SigBit]
    ensures value { result.now ≡ pin_signal cell.now pin }
{
    rtl_ir::pin_signal(cell.pins.as_slice(), pin)
}

/// An operand of a cell, cut or filled up to a width.
pub fn operand_of(
    alloc: Global,
    cell: &Cell,
    pin: PinName,
    width: usize,
    signed: bool,
) -> Result<SigSpec, Memory>
    ensures value { IfOk result (λ bits. bits ≡ operand_of cell.now pin width signed) }
{
    extended(alloc, pin_signal(cell, pin), width, signed)
}

/// The greater width of the operands A and B: to it the operands of the cells that compare words are
/// extended.
pub fn greater_width(cell: &Cell) -> usize
    ensures value { result ≡ greater_width cell.now }
{
    let a = pin_signal(cell, PinName::A).len();
    let b = pin_signal(cell, PinName::B).len();
    a.max(b)
}

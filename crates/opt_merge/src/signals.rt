//! The signals at the pins of cells.

ghost use Rattle.std.specs.Prelude.{◌≡◌};
ghost use Rattle.rtl_ir.specs.Parameters.{signal_at};
ghost use Rattle.opt_merge.specs.Traits.{input_pins, output_of};

use cell_types::{CellKind, PinName};
use rtl_ir::{Cell, output_pin, signal_at};
use rtl_sig::SigBit;

/// The signal at the output of a cell of a kind.
pub(crate) fn output_of(kind: CellKind, cell: &Cell) -> &[SigBit]
    ensures value { result.now ≡ output_of kind cell.now }
{
    match output_pin(kind) {
        Some(pin) => signal_at(cell.pins.as_slice(), pin.text()),
        None => &[],
    }
}

/// The pins that a cell of a kind may read.
pub(crate) fn input_pins(kind: CellKind) -> &'static [PinName]
    ensures value { result.now ≡ input_pins kind }
{
    match kind {
        CellKind::Word(_) | CellKind::Gate(_) => &[PinName::A, PinName::B, PinName::S],
        CellKind::Storage(_) => &[
            PinName::Clk,
            PinName::En,
            PinName::Arst,
            PinName::Srst,
            PinName::Aload,
            PinName::Set,
            PinName::Clr,
            PinName::Ad,
            PinName::D,
        ],
        CellKind::StorageGate(_) => &[
            PinName::C,
            PinName::E,
            PinName::R,
            PinName::L,
            PinName::Ad,
            PinName::S,
            PinName::D,
        ],
        CellKind::Memory(_) => &[],
    }
}

//! The operands of a cell, bit by bit.

ghost use Rattle.std.specs.Prelude.{◌≡◌};
ghost use Rattle.map_gates.specs.Gates.{bit_at};

use rtl_sig::{SigBit, fill_of};

/// The bit of an operand at any place: past its end its top bit where it is signed, else 0.
pub(crate) fn bit_at(signed: bool, bits: &[SigBit], at: usize) -> SigBit
    ensures value { result ≡ bit_at signed bits.now at }
{
    match bits.get(at) {
        Some(bit) => *bit,
        None => fill_of(bits, signed),
    }
}

//! What lines name.

ghost use Rattle.std.specs.Prelude.{◌≡◌, ◌++◌, IfOk, OnOk};
ghost use Rattle.rtl_ir.specs.Assigns.{left_bits};
ghost use Rattle.rtl_ir.specs.Signals.{wire_bits};

use crate::module::Link;
use rtl_bits::Memory;
use rtl_sig::{SigBit, WireBit};
use std::alloc::Global;

/// The bits on the left sides of lines, in order.
pub fn left_bits(alloc: Global, lines: &[Link]) -> Result<Vec<WireBit>, Memory>
    ensures value { IfOk result (λ bits. bits.items ≡ left_bits lines.now) }
{
    let mut bits = Vec::new(alloc);
    add_left_bits(&mut bits, lines)?;
    Ok(bits)
}

/// Appends the bits on the left sides of lines, in order.
pub fn add_left_bits(bits: &mut Vec<WireBit>, lines: &[Link]) -> Result<(), Memory>
    ensures ok { OnOk result (bits.new.items ≡ bits.old.items ++ left_bits lines.now) }
{
    for line in lines {
        add_wire_bits(bits, line.left.as_slice())?;
    }
    Ok(())
}

/// Appends the bits of wires in the signal, in its order.
pub fn add_wire_bits(bits: &mut Vec<WireBit>, signal: &[SigBit]) -> Result<(), Memory>
    ensures ok { OnOk result (bits.new.items ≡ bits.old.items ++ wire_bits signal.now) }
{
    for bit in signal {
        if let SigBit::Wire(bit) = bit {
            bits.push(*bit)?;
        }
    }
    Ok(())
}

//! The start values of bits, by the attributes of wires.

ghost use Rattle.std.specs.Prelude.{◌≡◌, List, [], IfOk, slice_index_or};
ghost use Rattle.rtl_bits.specs.declared.bit.Bit.TheVariants.{X};
ghost use Rattle.rtl_ir.specs.declared.wire.Wire.{Wire};
ghost use Rattle.rtl_ir.specs.Flat.Start.{start_of};
ghost use Rattle.rtl_ir.specs.Attributes.{attribute_bits};
ghost use Rattle.rtl_ir.specs.Starts.{AreInits, inits_of};

use crate::attributes::attribute_bits;
use crate::wire::Wire;
use rtl_bits::{Bit, Bits, Memory};
use rtl_sig::SigBit;
use std::alloc::Global;

/// The bits of the attribute `\init` of each wire, none where it has no such attribute.
pub fn inits(alloc: Global, wires: &[Wire]) -> Result<Vec<Bits>, Memory>
    ensures value { IfOk result (λ inits. inits.items ≡ inits_of wires.now) }
{
    let mut inits = Vec::with_capacity(alloc, wires.len())?;
    for wire in wires {
        inits.push(attribute_bits(alloc, wire.attributes.as_slice(), b"\\init")?)?;
    }
    Ok(inits)
}

/// The start value of a bit, where no process gives one.
pub fn start(inits: &[Bits], bit: SigBit) -> Bit
    ensures value { (wires : List Wire) → AreInits inits.now wires → result ≡ start_of wires [] bit }
{
    match bit {
        SigBit::Fixed(_) => Bit::X,
        SigBit::Wire(bit) => match inits.get(bit.wire as usize) {
            Some(bits) => bit_at(bits.as_slice(), bit.at).seen(),
            None => Bit::X,
        },
    }
}

/// The bit at a place, past the end x.
fn bit_at(bits: &[Bit], at: u32) -> Bit
    ensures value { result ≡ slice_index_or bits.now at X }
{
    match bits.get(at as usize) {
        Some(bit) => *bit,
        None => Bit::X,
    }
}

//! Constants in signals, and whether signals are one.

ghost use Rattle.std.specs.Prelude.{◌≡◌, IfOk, map};
ghost use Rattle.rtl_ir.specs.Signals.{
  constant_of,
  is_all_constant,
  is_constant,
  same_bit,
  same_place,
  same_signal,
  same_value,
};

use rtl_bits::{Bit, Bits, Memory};
use rtl_sig::{SigBit, WireBit};
use std::alloc::Global;

/// Whether two bits of wires are one: the bit at one place of one wire.
pub fn same_bit(a: WireBit, b: WireBit) -> bool
    ensures value { result ≡ same_bit a b }
{
    a.wire == b.wire && a.at == b.at
}

/// Whether two of the six values are one.
pub fn same_value(a: Bit, b: Bit) -> bool
    ensures value { result ≡ same_value a b }
{
    match (a, b) {
        (Bit::S0, Bit::S0) => true,
        (Bit::S1, Bit::S1) => true,
        (Bit::X, Bit::X) => true,
        (Bit::Z, Bit::Z) => true,
        (Bit::M, Bit::M) => true,
        (Bit::Dash, Bit::Dash) => true,
        _ => false,
    }
}

/// Whether two bits are one: one bit of a wire, or one constant, where x and z differ.
pub fn same_place(a: SigBit, b: SigBit) -> bool
    ensures value { result ≡ same_place a b }
{
    match (a, b) {
        (SigBit::Fixed(a), SigBit::Fixed(b)) => same_value(a, b),
        (SigBit::Wire(a), SigBit::Wire(b)) => same_bit(a, b),
        _ => false,
    }
}

/// Whether two signals are one, place by place.
pub fn same_signal(a: &[SigBit], b: &[SigBit]) -> bool
    ensures value { result ≡ same_signal a.now b.now }
{
    if a.len() != b.len() {
        return false;
    }
    for at in 0..a.len() {
        if !same_place(a[at], b[at]) {
            return false;
        }
    }
    true
}

/// A constant as the value that it is, any other bit as x.
pub fn constant_of(bit: SigBit) -> Bit
    ensures value { result ≡ constant_of bit }
{
    match bit {
        SigBit::Fixed(value) => value,
        SigBit::Wire(_) => Bit::X,
    }
}

/// The values of a signal, of those places that are not constant x.
pub fn constants_of(alloc: Global, signal: &[SigBit]) -> Result<Bits, Memory>
    ensures value { IfOk result (λ bits. bits ≡ map constant_of signal.now) }
{
    let mut bits = Bits::make(alloc);
    for bit in signal {
        bits.push(constant_of(*bit))?;
    }
    Ok(bits)
}

/// Whether the bit is constant.
pub fn is_constant(bit: SigBit) -> bool
    ensures value { result ≡ is_constant bit }
{
    match bit {
        SigBit::Fixed(_) => true,
        SigBit::Wire(_) => false,
    }
}

/// Whether all places of a signal are constant.
pub fn is_all_constant(signal: &[SigBit]) -> bool
    ensures value { result ≡ is_all_constant signal.now }
{
    signal.iter().all(|bit| is_constant(*bit))
}

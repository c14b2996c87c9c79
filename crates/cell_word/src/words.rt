//! Words: lists of bits, the least significant first.

ghost use Rattle.std.specs.Prelude.{◌≡◌, ◌<◌, IfOk, slice_index_or};
ghost use Rattle.cell_word.specs.Words.{fill_of, one_bit_of, unknown_of};

use rtl_bits::{Bit, Bits, Memory, top_of};
use std::alloc::Global;

/// The word whose bits are all x.
pub(crate) fn unknown(alloc: Global, width: u32) -> Result<Bits, Memory>
    ensures value { IfOk result (λ bits. bits ≡ unknown_of width) }
{
    Bits::filled(alloc, Bit::X, width)
}

/// The word of a width whose lowest bit is this one, and whose other bits are 0.
pub(crate) fn one_bit(alloc: Global, bit: Bit, width: u32) -> Result<Bits, Memory>
    ensures value { IfOk result (λ bits. bits ≡ one_bit_of bit width) }
{
    let mut bits = Bits::make(alloc);
    bits.push(bit)?;
    for _ in 0..width.saturating_sub(1) {
        bits.push(Bit::S0)?;
    }
    Ok(bits)
}

/// What a word is filled up with.
pub(crate) fn fill(signed: bool, bits: &[Bit]) -> Bit
    ensures value { result ≡ fill_of signed bits.now }
{
    if signed { top_of(bits) } else { Bit::S0 }
}

/// The bit at a place, the fill past the end.
pub(crate) fn at_or(bits: &[Bit], at: usize, fill: Bit) -> Bit
    ensures value { result ≡ slice_index_or bits.now at fill }
{
    if at < bits.len() { bits[at] } else { fill }
}

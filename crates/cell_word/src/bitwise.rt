//! The cells that work bit by bit.

ghost use Rattle.std.specs.Prelude.{◌≡◌, IfOk};
ghost use Rattle.cell_word.specs.Bitwise.{bit_by, bitwise_of, inverse_of, itself_of};

use crate::words::{at_or, fill};
use cell_types::BitwiseKind;
use rtl_bits::{Bit, Bits, Memory, bit_and, bit_not, bit_or, bit_xor};
use std::alloc::Global;

/// The inverse of each bit of the extended word.
#[tactic(auto, using(crate::proofs::Places::word_of_more))]
pub(crate) fn inverse(alloc: Global, signed: bool, a: &[Bit], width: u32) -> Result<Bits, Memory>
    ensures value { IfOk result (λ bits. bits ≡ inverse_of signed a.now width) }
{
    let fill = fill(signed, a);
    let mut bits = Bits::make(alloc);
    for at in 0..width {
        bits.push(bit_not(at_or(a, at as usize, fill)))?;
    }
    Ok(bits)
}

/// The extended word.
#[tactic(auto, using(crate::proofs::Places::word_of_more))]
pub(crate) fn itself(alloc: Global, signed: bool, a: &[Bit], width: u32) -> Result<Bits, Memory>
    ensures value { IfOk result (λ bits. bits ≡ itself_of signed a.now width) }
{
    let fill = fill(signed, a);
    let mut bits = Bits::make(alloc);
    for at in 0..width {
        bits.push(at_or(a, at as usize, fill).seen())?;
    }
    Ok(bits)
}

fn bit_by(kind: BitwiseKind, a: Bit, b: Bit) -> Bit
    ensures value { result ≡ bit_by kind a b }
{
    match kind {
        BitwiseKind::And => bit_and(a, b),
        BitwiseKind::Or => bit_or(a, b),
        BitwiseKind::Xor => bit_xor(a, b),
        BitwiseKind::Xnor => bit_not(bit_xor(a, b)),
    }
}

/// What the kind makes of the two extended words, bit by bit.
#[tactic(auto, using(crate::proofs::Places::word_of_more))]
pub(crate) fn bitwise(
    alloc: Global,
    kind: BitwiseKind,
    signed: bool,
    a: &[Bit],
    b: &[Bit],
    width: u32,
) -> Result<Bits, Memory>
    ensures value { IfOk result (λ bits. bits ≡ bitwise_of kind signed a.now b.now width) }
{
    let a_fill = fill(signed, a);
    let b_fill = fill(signed, b);
    let mut bits = Bits::make(alloc);
    for at in 0..width {
        let at = at as usize;
        bits.push(bit_by(kind, at_or(a, at, a_fill), at_or(b, at, b_fill)))?;
    }
    Ok(bits)
}

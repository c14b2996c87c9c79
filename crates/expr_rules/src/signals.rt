//! Words of constants and of bits of wires, and the tests that the rules make.

ghost use Rattle.std.specs.Prelude.{◌≡◌, ◌<◌, ◌^◌, ◌++◌, IfOk, slice_index_or};
ghost use Rattle.rtl_bits.specs.declared.bit.Bit.TheVariants.{X};
ghost use Rattle.std.specs.List.{list_all};
ghost use Rattle.rtl_sig.specs.declared.sig.SigBit.TheVariants.{Fixed};
ghost use Rattle.expr_rules.specs.Signals.{filled, first_bit, is_bit, is_known_constant, is_one};
ghost use Rattle.expr_rules.specs.Signals.{is_unknown_constant, is_zero, part_of};

use rtl_bits::{Bit, Copied, Memory};
use rtl_ir::same_signal;
use rtl_sig::{SigBit, SigSpec};
use std::alloc::Global;

/// Whether the bit is the constant 0.
pub(crate) fn is_zero(bit: SigBit) -> bool
    ensures value { result ≡ is_zero bit }
{
    match bit {
        SigBit::Fixed(Bit::S0) => true,
        _ => false,
    }
}

/// Whether all bits are the constant 0.
pub(crate) fn are_zero(word: &[SigBit]) -> bool
    ensures value { result ≡ list_all is_zero word.now }
{
    word.iter().all(|bit| is_zero(*bit))
}

/// Whether the bit is the constant 1.
pub(crate) fn is_one(bit: SigBit) -> bool
    ensures value { result ≡ is_one bit }
{
    match bit {
        SigBit::Fixed(Bit::S1) => true,
        _ => false,
    }
}

/// Whether all bits are the constant 1.
pub(crate) fn are_one(word: &[SigBit]) -> bool
    ensures value { result ≡ list_all is_one word.now }
{
    word.iter().all(|bit| is_one(*bit))
}

/// Whether the bit is the constant 0 or 1.
fn is_known_constant(bit: SigBit) -> bool
    ensures value { result ≡ is_known_constant bit }
{
    match bit {
        SigBit::Fixed(value) => value.known(),
        SigBit::Wire(_) => false,
    }
}

/// Whether each bit is the constant 0 or 1.
pub(crate) fn are_known(word: &[SigBit]) -> bool
    ensures value { result ≡ list_all is_known_constant word.now }
{
    word.iter().all(|bit| is_known_constant(*bit))
}

/// Whether the bit is a constant that is neither.
fn is_unknown_constant(bit: SigBit) -> bool
    ensures value { result ≡ is_unknown_constant bit }
{
    match bit {
        SigBit::Fixed(Bit::S0) | SigBit::Fixed(Bit::S1) => false,
        SigBit::Fixed(_) => true,
        SigBit::Wire(_) => false,
    }
}

/// Whether each bit is a constant that is neither 0 nor 1.
pub(crate) fn are_unknown(word: &[SigBit]) -> bool
    ensures value { result ≡ list_all is_unknown_constant word.now }
{
    word.iter().all(|bit| is_unknown_constant(*bit))
}

/// Whether the word is this one constant.
pub(crate) fn is_bit(bit: Bit, word: &[SigBit]) -> bool
    ensures value { result ≡ is_bit bit word.now }
{
    same_signal(word, &[SigBit::Fixed(bit)])
}

/// The lowest bit of a word.
pub(crate) fn first_bit(word: &[SigBit]) -> SigBit
    ensures value { result ≡ first_bit word.now }
{
    bit_at(word, 0)
}

/// The bit of a word at a place, x past its end.
pub(crate) fn bit_at(word: &[SigBit], at: usize) -> SigBit
    ensures value { result ≡ slice_index_or word.now at (Fixed X) }
{
    if at < word.len() {
        word[at]
    } else {
        SigBit::Fixed(Bit::X)
    }
}

/// A word of one constant.
pub(crate) fn filled(alloc: Global, width: usize, bit: Bit) -> Result<SigSpec, Memory>
    ensures value { IfOk result (λ word. word ≡ filled width bit) }
{
    let mut word = Vec::new(alloc);
    word.resize(width, SigBit::Fixed(bit))?;
    SigSpec::from_vec(word)
}

/// The bits of a word from a place on.
#[tactic(auto, using(crate::proofs::Words::part_more))]
pub(crate) fn part(
    alloc: Global,
    word: &[SigBit],
    offset: usize,
    width: u32,
) -> Result<SigSpec, Memory>
    requires room { offset < 2 ^ 63 }
    ensures value { IfOk result (λ part. part ≡ part_of word.now offset width) }
{
    let mut part = SigSpec::make(alloc);
    for at in 0..width {
        part.push(bit_at(word, offset + at as usize))?;
    }
    Ok(part)
}

/// The signal with another one on top of it.
pub(crate) fn joined(below: &SigSpec, above: &SigSpec) -> Result<SigSpec, Memory>
    ensures value { IfOk result (λ whole. whole ≡ below.now ++ above.now) }
{
    let mut bits = below.copy()?.into_vec()?;
    bits.extend_from_slice(above.as_slice())?;
    SigSpec::from_vec(bits)
}

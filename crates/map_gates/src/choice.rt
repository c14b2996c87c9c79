//! One of several words, and parts of words.

ghost use Rattle.std.specs.Prelude.{◌≡◌, ◌<◌, ◌≤◌, ◌^◌, ◌*◌, ◌/◌, Err, IfOk, OnOk, drop, length, take};
ghost use Rattle.std.specs.Prelude.{slice_index_or};
ghost use Rattle.rtl_bits.specs.declared.bit.Bit.TheVariants.{X};
ghost use Rattle.rtl_sig.specs.declared.sig.SigBit.TheVariants.{Fixed};
ghost use Rattle.net_index.specs.Builder.{IsInLimits, PassesLimit};
ghost use Rattle.map_gates.specs.Choice.{chosen_of, half_of, halve_of, halved_of, place_of};

use gate_nets::select;
use net_index::{Builder, PassFault};
use rtl_bits::{Bit, Memory};
use rtl_sig::{SigBit, SigSpec};
use std::alloc::Global;

/// The bits below a place, all where the word ends before it.
pub(crate) fn below(bits: &[SigBit], place: usize) -> &[SigBit]
    ensures value { result.now ≡ take place bits.now }
{
    &bits[..place.min(bits.len())]
}

/// The bits from a place on, none where the word ends before it.
pub(crate) fn above(bits: &[SigBit], place: usize) -> &[SigBit]
    ensures value { result.now ≡ drop place bits.now }
{
    &bits[place.min(bits.len())..]
}

/// `a`, or the part of `b` that the one set bit of `selects` chooses: for each of its bits, rising, the word
/// so far where the bit is 0, and the next part, as wide as `a`, where it is 1.
pub(crate) fn chosen(
    alloc: Global,
    a: &[SigBit],
    b: &[SigBit],
    selects: &[SigBit],
    builder: &mut Builder,
) -> Result<SigSpec, PassFault>
    ensures exact { IfOk result (λ word. (word, builder.new) ≡
        chosen_of (length a.now) a.now b.now selects.now builder.old) }
    ensures over { result ≡ Err PassFault.Over →
        PassesLimit (chosen_of (length a.now) a.now b.now selects.now builder.old).1 }
    ensures within { IsInLimits builder.old → OnOk result (IsInLimits builder.new) }
{
    let width = a.len();
    let mut word = SigSpec::from_slice(alloc, a)?;
    let mut parts = b;
    for bit in selects {
        word = select(alloc, word.as_slice(), below(parts, width), *bit, builder)?;
        parts = above(parts, width);
    }
    Ok(word)
}

/// How many bits the whole parts below a place have.
#[tactic(auto, using(crate::proofs::Halves::parts_low, crate::proofs::Halves::no_parts))]
fn parts_below(width: usize, at: usize) -> usize
    ensures value { result ≡ at / width * width }
    ensures low { result ≤ at }
{
    if width == 0 { 0 } else { at / width * width }
}

/// The place, in a word of parts of a width, of a bit of the parts of even number, or of those of odd number.
fn place(odd: bool, width: u32, at: usize) -> usize
    requires near { at < 2 ^ 62 }
    ensures value { result ≡ place_of odd width at }
{
    let below = parts_below(width as usize, at);
    if odd {
        at + below + width as usize
    } else {
        at + below
    }
}

/// The parts of even number, or those of odd number, one after another.
#[tactic(auto, using(crate::proofs::Halves::half_more))]
fn half(alloc: Global, odd: bool, width: u32, word: &[SigBit]) -> Result<SigSpec, Memory>
    ensures value { IfOk result (λ half. half ≡ half_of odd width word.now) }
{
    let mut half = SigSpec::make(alloc);
    for at in 0..word.len() / 2 {
        half.push(bit_or_x(word, place(odd, width, at)))?;
    }
    Ok(half)
}

/// The bit of a word at a place, x past its end.
fn bit_or_x(word: &[SigBit], at: usize) -> SigBit
    ensures value { result ≡ slice_index_or word.now at (Fixed X) }
{
    if at < word.len() {
        word[at]
    } else {
        SigBit::Fixed(Bit::X)
    }
}

/// Each two parts of a word become the one that a bit selects.
fn halve(
    alloc: Global,
    width: u32,
    word: &[SigBit],
    bit: SigBit,
    builder: &mut Builder,
) -> Result<SigSpec, PassFault>
    ensures exact { IfOk result (λ parts. (parts, builder.new) ≡ halve_of width word.now bit builder.old) }
    ensures over { result ≡ Err PassFault.Over → PassesLimit (halve_of width word.now bit builder.old).1 }
    ensures within { IsInLimits builder.old → OnOk result (IsInLimits builder.new) }
{
    let even = half(alloc, false, width, word)?;
    let odd = half(alloc, true, width, word)?;
    select(alloc, even.as_slice(), odd.as_slice(), bit, builder)
}

/// The part of a word whose number the select bits are: for each of them, rising, each two parts become the one that
/// it selects.
pub(crate) fn halved(
    alloc: Global,
    width: u32,
    word: &[SigBit],
    selects: &[SigBit],
    builder: &mut Builder,
) -> Result<SigSpec, PassFault>
    ensures exact { IfOk result (λ part. (part, builder.new) ≡ halved_of width word.now selects.now builder.old) }
    ensures over { result ≡ Err PassFault.Over → PassesLimit (halved_of width word.now selects.now builder.old).1 }
    ensures within { IsInLimits builder.old → OnOk result (IsInLimits builder.new) }
{
    let mut parts = SigSpec::from_slice(alloc, word)?;
    for bit in selects {
        parts = halve(alloc, width, parts.as_slice(), *bit, builder)?;
    }
    Ok(parts)
}

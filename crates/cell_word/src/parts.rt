//! The cells that choose a part of a word by its number, or that put a word at a part.

ghost use Rattle.std.specs.Prelude.{◌≡◌, ◌<◌, ◌≤◌, ◌^◌, IfOk, OnOk, length, ◌++◌, map};
ghost use Rattle.cell_word.specs.Parts.{bmuxed_bit, bmuxed_of, demuxed_of, may_be, may_be_digit, merged_with};
ghost use Rattle.cell_word.specs.Parts.{placed_bit};

use crate::words::at_or;
use rtl_bits::{Bit, Bits, Memory, all_known, bit_and, merge};
use std::alloc::Global;

/// Whether the bit may be the digit, 0 or 1.
fn may_be_digit(bit: Bit, digit: usize) -> bool
    ensures value { result ≡ may_be_digit bit digit }
{
    match bit {
        Bit::S0 => digit == 0,
        Bit::S1 => digit == 1,
        _ => true,
    }
}

/// Whether no known bit differs from that of the number.
fn may_be(bits: &[Bit], number: usize) -> bool
    ensures value { result ≡ may_be bits.now number }
{
    let mut rest = number;
    for bit in bits {
        if !may_be_digit(*bit, rest % 2) {
            return false;
        }
        rest /= 2;
    }
    true
}

/// How many numbers so many bits have.
fn numbers_of(bits: &[Bit]) -> usize
    requires few { length bits.now ≤ 12 }
    ensures value { result ≡ 2 ^ length bits.now }
    ensures few { result ≤ 4096 }
{
    1 << bits.len()
}

/// What the bit has in common with those before it, where there are some.
fn merged_with(before: Option<Bit>, bit: Bit) -> Bit
    ensures value { result ≡ merged_with before bit }
{
    match before {
        None => bit.seen(),
        Some(before) => merge(before, bit),
    }
}

/// What this bit of all parts of A has in common whose numbers S may be.
#[tactic(auto, using(crate::proofs::Numbered::merge_where_more))]
fn bmuxed_bit(a: &[Bit], s: &[Bit], width: u32, at: u32) -> Bit
    requires few { length s.now ≤ 12 }
    ensures value { result ≡ bmuxed_bit a.now s.now width at }
{
    let mut common = None;
    for part in 0..numbers_of(s) {
        if may_be(s, part) {
            let place = part * width as usize + at as usize;
            common = Some(merged_with(common, at_or(a, place, Bit::X)));
        }
    }
    common.unwrap_or(Bit::X)
}

/// The part of A whose number S is; where bits of S are unknown, what the parts that are left have in common.
#[tactic(auto, using(crate::proofs::Places::word_of_more))]
pub(crate) fn bmuxed(alloc: Global, a: &[Bit], s: &[Bit], width: u32) -> Result<Bits, Memory>
    requires few { length s.now ≤ 12 }
    ensures value { IfOk result (λ bits. bits ≡ bmuxed_of a.now s.now width) }
{
    let mut bits = Bits::make(alloc);
    for at in 0..width {
        bits.push(bmuxed_bit(a, s, width, at))?;
    }
    Ok(bits)
}

/// A bit of A in the part of this number.
fn placed_bit(s: &[Bit], part: usize, bit: Bit) -> Bit
    ensures value { result ≡ placed_bit s.now part bit }
{
    if !may_be(s, part) {
        Bit::S0
    } else if all_known(s) {
        bit.seen()
    } else {
        bit_and(Bit::X, bit)
    }
}

/// Appends the part of this number.
fn push_part(bits: &mut Bits, a: &[Bit], s: &[Bit], part: usize) -> Result<(), Memory>
    ensures value { OnOk result (bits.new ≡ bits.old ++ map (placed_bit s.now part) a.now) }
{
    for bit in a {
        bits.push(placed_bit(s, part, *bit))?;
    }
    Ok(())
}

/// A at the part whose number S is, and 0 at the others; where bits of S are unknown, at the parts that are left 0
/// where A is 0, and x.
#[tactic(auto, using(crate::proofs::Numbered::placed_parts_more))]
pub(crate) fn demuxed(alloc: Global, a: &[Bit], s: &[Bit]) -> Result<Bits, Memory>
    requires few { length s.now ≤ 12 }
    ensures value { IfOk result (λ bits. bits ≡ demuxed_of a.now s.now) }
{
    let mut bits = Bits::make(alloc);
    for part in 0..numbers_of(s) {
        push_part(&mut bits, a, s, part)?;
    }
    Ok(bits)
}

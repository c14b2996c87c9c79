//! The cells that choose or join words.

ghost use Rattle.std.specs.Prelude.{◌≡◌, ◌<◌, ◌≤◌, ◌^◌, IfOk, IfSome, OnOk, length, ◌++◌, map, position};
ghost use Rattle.rtl_bits.specs.Numbers.{is_one};
ghost use Rattle.rtl_bits.specs.Tables.{seen_of};
ghost use Rattle.cell_word.specs.Choice.{bwmuxed_of, joined_of, muxed_of, part_of, picked_of, place_of, selected_of};

use crate::words::{at_or, unknown};
use rtl_bits::{Bit, Bits, Memory, all_known, bit_mux, is_one};
use std::alloc::Global;

/// A where S is 0, B where it is 1, else what the two have in common, bit by bit.
#[tactic(auto, using(crate::proofs::Places::word_of_more))]
pub(crate) fn muxed(alloc: Global, a: &[Bit], b: &[Bit], s: Bit, width: u32) -> Result<Bits, Memory>
    ensures value { IfOk result (λ bits. bits ≡ muxed_of a.now b.now s width) }
{
    let mut bits = Bits::make(alloc);
    for at in 0..width {
        let at = at as usize;
        bits.push(bit_mux(at_or(a, at, Bit::X), at_or(b, at, Bit::X), s))?;
    }
    Ok(bits)
}

/// Bit by bit, A where S is 0, B where it is 1, else what the two have in common.
#[tactic(auto, using(crate::proofs::Places::word_of_more))]
pub(crate) fn bwmuxed(
    alloc: Global,
    a: &[Bit],
    b: &[Bit],
    s: &[Bit],
    width: u32,
) -> Result<Bits, Memory>
    ensures value { IfOk result (λ bits. bits ≡ bwmuxed_of a.now b.now s.now width) }
{
    let mut bits = Bits::make(alloc);
    for at in 0..width {
        let at = at as usize;
        bits.push(bit_mux(
            at_or(a, at, Bit::X),
            at_or(b, at, Bit::X),
            at_or(s, at, Bit::X),
        ))?;
    }
    Ok(bits)
}

/// The part of a word from a place on, as wide as the width says.
#[tactic(auto, using(crate::proofs::Places::word_of_more))]
pub(crate) fn part(alloc: Global, a: &[Bit], offset: usize, width: u32) -> Result<Bits, Memory>
    requires room { offset < 2 ^ 63 }
    ensures value { IfOk result (λ bits. bits ≡ part_of a.now offset width) }
{
    let mut bits = Bits::make(alloc);
    for at in 0..width {
        bits.push(at_or(a, offset + at as usize, Bit::X).seen())?;
    }
    Ok(bits)
}

/// A below B.
pub(crate) fn joined(alloc: Global, a: &[Bit], b: &[Bit]) -> Result<Bits, Memory>
    ensures value { IfOk result (λ bits. bits ≡ joined_of a.now b.now) }
{
    let mut bits = Bits::make(alloc);
    push_seen(&mut bits, a)?;
    push_seen(&mut bits, b)?;
    Ok(bits)
}

/// Puts the bits last, as a cell reads them.
fn push_seen(bits: &mut Bits, more: &[Bit]) -> Result<(), Memory>
    ensures value { OnOk result (bits.new ≡ bits.old ++ map seen_of more.now) }
{
    for bit in more {
        bits.push(bit.seen())?;
    }
    Ok(())
}

/// A where no bit of S is 1, the part of B at the one that is, else all x.
pub(crate) fn picked(
    alloc: Global,
    a: &[Bit],
    b: &[Bit],
    s: &[Bit],
    width: u32,
) -> Result<Bits, Memory>
    requires room { length s.now < 2 ^ 31 }
    ensures value { IfOk result (λ bits. bits ≡ picked_of a.now b.now s.now width) }
{
    if all_known(s) {
        selected(alloc, a, b, s, width)
    } else {
        unknown(alloc, width)
    }
}

fn selected(alloc: Global, a: &[Bit], b: &[Bit], s: &[Bit], width: u32) -> Result<Bits, Memory>
    requires room { length s.now < 2 ^ 31 }
    ensures value { IfOk result (λ bits. bits ≡ selected_of a.now b.now s.now width) }
{
    match s.iter().filter(|bit| is_one(**bit)).count() {
        0 => part(alloc, a, 0, width),
        1 => part(alloc, b, place(s) * width as usize, width),
        _ => unknown(alloc, width),
    }
}

/// The place of the lowest bit that is 1, 0 where there is none.
fn place(s: &[Bit]) -> usize
    ensures value { result ≡ place_of s.now }
    ensures within { result ≤ length s.now }
{
    first_one(s).unwrap_or(0)
}

fn first_one(s: &[Bit]) -> Option<usize>
    ensures value { result ≡ position is_one s.now }
    ensures within { IfSome result (λ at. at < length s.now) }
{
    s.iter().position(|bit| is_one(*bit))
}

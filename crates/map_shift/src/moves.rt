//! Words that are moved as they are.

ghost use Rattle.std.specs.Prelude.{◌≡◌, ◌^◌, IfOk, min};
ghost use Rattle.map_shift.specs.Moves.{moved_left, moved_of, moved_right};

use rtl_bits::Memory;
use rtl_sig::{SigBit, SigSpec};
use std::alloc::Global;

/// Where a word is moved.
#[derive(Clone, Copy, Debug, PartialEq, Eq)]
pub(crate) enum Way {
    /// To the top: the lowest places are filled.
    Left,
    /// To the lowest place: the top places are filled.
    Right,
}

/// A word moved by so many places to the top, with the fill below.
fn moved_left(alloc: Global, fill: SigBit, by: usize, bits: &[SigBit]) -> Result<SigSpec, Memory>
    ensures value { IfOk result (λ word. word ≡ moved_left fill by bits.now) }
{
    let count = by.min(bits.len());
    let mut word = vec![in alloc; fill; count]?;
    word.extend_from_slice(&bits[..bits.len() - count])?;
    SigSpec::from_vec(word)
}

/// A word moved by so many places to the lowest one, with the fill on top.
fn moved_right(alloc: Global, fill: SigBit, by: usize, bits: &[SigBit]) -> Result<SigSpec, Memory>
    ensures value { IfOk result (λ word. word ≡ moved_right fill by bits.now) }
{
    let count = by.min(bits.len());
    let mut word = Vec::from_slice(alloc, &bits[count..])?;
    word.resize(bits.len(), fill)?;
    SigSpec::from_vec(word)
}

/// A word moved by so many places, as wide as it is.
fn moved_by(
    alloc: Global,
    way: Way,
    fill: SigBit,
    by: usize,
    bits: &[SigBit],
) -> Result<SigSpec, Memory>
    ensures value { IfOk result (λ word. word ≡ moved_of way fill by bits.now) }
{
    match way {
        Way::Left => moved_left(alloc, fill, by, bits),
        Way::Right => moved_right(alloc, fill, by, bits),
    }
}

/// How far the bit of a distance at a place moves: 2 to the place, or all of a width.
#[tactic(auto, using(crate::proofs::Reaching::reach_all))]
fn reach(place: usize, width: usize) -> usize
    ensures value { result ≡ min (2 ^ place) width }
{
    if place < 64 {
        (1usize << place).min(width)
    } else {
        width
    }
}

/// A word moved by what the bit of a distance at a place stands for.
#[tactic(auto, using(crate::proofs::Reaching::moved_cut))]
pub(crate) fn moved(
    alloc: Global,
    way: Way,
    fill: SigBit,
    place: usize,
    bits: &[SigBit],
) -> Result<SigSpec, Memory>
    ensures value { IfOk result (λ word. word ≡ moved_of way fill (2 ^ place) bits.now) }
{
    moved_by(alloc, way, fill, reach(place, bits.len()), bits)
}

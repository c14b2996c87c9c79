//! The cells that move a word by a number of places.

ghost use Rattle.std.specs.Prelude.{◌≡◌, ◌<◌, ◌≤◌, ◌+◌, ◌^◌, true, IfOk, length, max};
ghost use Rattle.rtl_bits.specs.Knowledge.{all_known};
ghost use Rattle.cell_word.specs.Integers.{integer_in};
ghost use Rattle.cell_word.specs.Words.{word_of};
ghost use Rattle.cell_word.specs.Shifts.{below_of, distance_of, read_at, shifted_of};
ghost use Rattle.cell_word.specs.Distances.{IsDistance, far_of, flipped, read_by};

use crate::words::{at_or, fill, unknown};
use cell_types::{ShiftKind, Signs};
use rtl_bits::{Bit, Bits, Memory, all_known, bit_not, digit_of};
use std::alloc::Global;

/// Where a distance is cut off, past each width.
const FAR: u64 = 1 << 32;

/// How far the places that are read lie above those that are written, or below them; a distance past 2^32 places is cut
/// to that, which is past each width.
#[derive(Clone, Copy, Debug, PartialEq, Eq)]
pub struct Distance {
    /// Whether the places that are read lie below.
    pub below: bool,
    /// How many places apart they are.
    pub size: u64,
}

/// The moved word, all x where a bit of B is unknown.
#[tactic(auto, using(crate::proofs::Distances::moved_by))]
pub(crate) fn shifted(
    alloc: Global,
    kind: ShiftKind,
    signs: Signs,
    a: &[Bit],
    b: &[Bit],
    width: u32,
) -> Result<Bits, Memory>
    requires room { length a.now < 2 ^ 32 }
    ensures value { IfOk result (λ bits. bits ≡ shifted_of kind signs.a signs.b a.now b.now width) }
{
    if all_known(b) {
        moved(
            alloc,
            kind,
            signs.a,
            a,
            read_distance(kind, signs.b, b),
            width,
        )
    } else {
        unknown(alloc, width)
    }
}

#[tactic(auto, using(crate::proofs::Places::word_of_more))]
fn moved(
    alloc: Global,
    kind: ShiftKind,
    signed: bool,
    a: &[Bit],
    distance: Distance,
    width: u32,
) -> Result<Bits, Memory>
    requires room { length a.now < 2 ^ 32 }
    requires far { distance.size ≤ 2 ^ 32 }
    ensures value { IfOk result
        (λ bits. bits ≡ word_of (read_by kind signed a.now (max (length a.now) width) distance) width) }
{
    let read = a.len().max(width as usize);
    let mut bits = Bits::make(alloc);
    for at in 0..width {
        bits.push(read_by(kind, signed, a, read, distance, at as usize))?;
    }
    Ok(bits)
}

/// What the kind reads for a place at a distance.
fn read_by(
    kind: ShiftKind,
    signed: bool,
    a: &[Bit],
    width: usize,
    distance: Distance,
    at: usize,
) -> Bit
    requires near { at < 2 ^ 32 }
    requires far { distance.size ≤ 2 ^ 32 }
    ensures value { result ≡ read_by kind signed a.now width distance at }
{
    let size = distance.size as usize;
    if !distance.below {
        read_at(kind, signed, a, width, at + size).seen()
    } else if size <= at {
        read_at(kind, signed, a, width, at - size).seen()
    } else {
        below(kind)
    }
}

/// What the kind reads at a place of the operand extended to a width.
fn read_at(kind: ShiftKind, signed: bool, a: &[Bit], width: usize, at: usize) -> Bit
    ensures value { result ≡ read_at kind signed a.now width at }
{
    match kind {
        ShiftKind::Sshr => at_or(a, at, fill(signed, a)),
        ShiftKind::Shiftx => at_or(a, at, Bit::X),
        _ => {
            if at < width {
                at_or(a, at, fill(signed, a))
            } else {
                Bit::S0
            }
        }
    }
}

/// What a shift of this kind reads below place 0 of its operand: x for `$shiftx`, else 0.
pub fn below(kind: ShiftKind) -> Bit
    ensures value { result ≡ below_of kind }
{
    match kind {
        ShiftKind::Shiftx => Bit::X,
        _ => Bit::S0,
    }
}

/// The distance that the known bits of B say for a shift of this kind: `$shl` and `$sshl` read below, `$shr` and
/// `$sshr` above, `$shift` and `$shiftx` above by a number that may be signed. In the Yosys manual, the section "Shift
/// cells".
#[tactic(auto, using(crate::proofs::Distances::distance_down, crate::proofs::Distances::distance_up))]
pub fn read_distance(kind: ShiftKind, signed: bool, b: &[Bit]) -> Distance
    requires known { all_known b.now ≡ true }
    ensures value { IsDistance result (distance_of kind signed b.now) }
{
    match kind {
        ShiftKind::Shl | ShiftKind::Sshl => Distance {
            below: true,
            size: far(false, b),
        },
        ShiftKind::Shr | ShiftKind::Sshr => Distance {
            below: false,
            size: far(false, b),
        },
        ShiftKind::Shift | ShiftKind::Shiftx => signed_distance(signed, b),
    }
}

#[tactic(auto, using(crate::proofs::Distances::distance_negative, crate::proofs::Distances::distance_positive))]
fn signed_distance(signed: bool, b: &[Bit]) -> Distance
    requires known { all_known b.now ≡ true }
    ensures value { IsDistance result (integer_in signed b.now) }
{
    if fill(signed, b) == Bit::S1 {
        Distance {
            below: true,
            size: (far(true, b) + 1).min(FAR),
        }
    } else {
        Distance {
            below: false,
            size: far(false, b),
        }
    }
}

/// The number of the bits or of their inverses, cut off.
#[tactic(auto, using(crate::proofs::Distances::far_here))]
fn far(inverse: bool, bits: &[Bit]) -> u64
    ensures value { result ≡ far_of inverse bits.now }
    ensures cut { result ≤ 2 ^ 32 }
{
    let mut number = 0;
    for at in (0..bits.len()).rev() {
        number = (2 * number + u64::from(digit_of(flipped(inverse, bits[at])))).min(FAR);
    }
    number
}

/// The bit, or its inverse.
fn flipped(inverse: bool, bit: Bit) -> Bit
    ensures value { result ≡ flipped inverse bit }
{
    if inverse { bit_not(bit) } else { bit }
}

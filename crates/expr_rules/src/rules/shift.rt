//! The rule for shifts.

ghost use Rattle.std.specs.Prelude.{◌≡◌, ◌<◌, ◌≤◌, ◌^◌, IfOk, Some, length, map, max, slice_index_or};
ghost use Rattle.std.specs.List.{range_with_len};
ghost use Rattle.expr_rules.specs.Distances.{signal_by};
ghost use Rattle.expr_rules.specs.Laws.{IsComputed};
ghost use Rattle.expr_rules.specs.Operands.{counted_as};
ghost use Rattle.expr_rules.specs.Rules.Shift.{known_shift, signal_at};

use crate::change::Change;
use crate::operands::Operands;
use crate::signals::are_known;
use cell_types::{Shape, ShiftKind, WordKind};
use cell_word::{Distance, below, read_distance};
use rtl_bits::{Bit, Memory};
use rtl_ir::constants_of;
use rtl_sig::{SigBit, SigSpec, fill_of};
use std::alloc::Global;

/// A shift cell, B known: gives its bits.
#[tactic(auto, using(crate::proofs::Distances::signals_moved, crate::proofs::Distances::shift_room, crate::proofs::Distances::known_constants))]
pub(crate) fn known_shift(
    alloc: Global,
    kind: WordKind,
    shape: &Shape,
    o: &Operands,
) -> Result<Option<Change>, Memory>
    requires counted { counted_as shape.now.kind ≡ Some kind }
    requires computed { IsComputed shape.now.kind shape.now o.now }
    ensures value { IfOk result (λ change. change ≡ known_shift kind shape.now o.now) }
{
    match kind {
        WordKind::Shift(kind) if are_known(o.b.as_slice()) => {
            let b = constants_of(alloc, o.b.as_slice())?;
            let distance = read_distance(kind, shape.signs.b, b.as_slice());
            let signed = shape.signs.a;
            let bits = moved(
                alloc,
                kind,
                signed,
                o.a.as_slice(),
                distance,
                shape.widths.y,
            )?;
            Ok(Some(Change::Gives(bits)))
        }
        _ => Ok(None),
    }
}

/// The bits that are read at a distance.
#[tactic(auto, using(crate::proofs::Distances::signals_more))]
fn moved(
    alloc: Global,
    kind: ShiftKind,
    signed: bool,
    a: &[SigBit],
    distance: Distance,
    width: u32,
) -> Result<SigSpec, Memory>
    requires room { length a.now < 2 ^ 32 }
    requires far { distance.size ≤ 2 ^ 32 }
    ensures value { IfOk result
        (λ bits. bits ≡
        map (signal_by kind signed a.now (max (length a.now) width) distance) (range_with_len 0 width)) }
{
    let read = a.len().max(width as usize);
    let mut bits = SigSpec::make(alloc);
    for at in 0..width {
        bits.push(signal_by(kind, signed, a, read, distance, at as usize))?;
    }
    Ok(bits)
}

/// The bit that the kind reads for a place at a distance.
fn signal_by(
    kind: ShiftKind,
    signed: bool,
    a: &[SigBit],
    width: usize,
    distance: Distance,
    at: usize,
) -> SigBit
    requires near { at < 2 ^ 32 }
    requires far { distance.size ≤ 2 ^ 32 }
    ensures value { result ≡ signal_by kind signed a.now width distance at }
{
    let size = distance.size as usize;
    if !distance.below {
        signal_at(kind, signed, a, width, at + size)
    } else if size <= at {
        signal_at(kind, signed, a, width, at - size)
    } else {
        SigBit::Fixed(below(kind))
    }
}

/// The bit that the kind reads at a place of the operand extended to a width.
fn signal_at(kind: ShiftKind, signed: bool, a: &[SigBit], width: usize, at: usize) -> SigBit
    ensures value { result ≡ signal_at kind signed a.now width at }
{
    match kind {
        ShiftKind::Sshr => bit_or(a, at, fill_of(a, signed)),
        ShiftKind::Shiftx => bit_or(a, at, SigBit::Fixed(Bit::X)),
        _ => {
            if at < width {
                bit_or(a, at, fill_of(a, signed))
            } else {
                SigBit::Fixed(Bit::S0)
            }
        }
    }
}

/// The bit of a word at a place, the fill past its end.
fn bit_or(word: &[SigBit], at: usize, fill: SigBit) -> SigBit
    ensures value { result ≡ slice_index_or word.now at fill }
{
    if at < word.len() { word[at] } else { fill }
}

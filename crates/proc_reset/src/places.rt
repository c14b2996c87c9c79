//! The places of update lines that a reset sets, and those that it holds.

ghost use Rattle.std.specs.Prelude.{◌≡◌, ◌++◌, [], ◌∷◌, List, IfOk, OnOk};
ghost use Rattle.std.specs.List.{list_any};
ghost use Rattle.rtl_sig.specs.declared.sig.WireBit.{WireBit};
ghost use Rattle.rtl_ir.specs.Follow.{all_joins, joins};
ghost use Rattle.rtl_ir.specs.Tree.{CaseView};
ghost use Rattle.net_model.specs.Proc.Reset.{line_of_places, reset_places};
ghost use Rattle.process_trees.specs.Rounds.{AreLeaves};
ghost use Rattle.proc_reset.specs.Places.{
  is_held,
  joins_of,
  leaves_at,
  left_side,
  one_constant,
  reset_line,
  right_side,
};

use process_trees::Leaves;
use rtl_bits::Memory;
use rtl_ir::Link;
use rtl_sig::{SigBit, SigSpec, WireBit};
use std::alloc::Global;

/// One place of a line: a bit of a wire, and what is given to it.
#[derive(Clone, Copy)]
pub(crate) struct Place {
    pub(crate) bit: WireBit,
    pub(crate) source: SigBit,
}

/// Puts a line last of the places of the line that are given one constant, where there are any.
pub(crate) fn put_line(
    alloc: Global,
    updates: &mut Vec<Link>,
    leaves: &Leaves,
    line: &Link,
) -> Result<(), Memory>
    ensures ok { OnOk result ((root : CaseView) (bits : List WireBit) → AreLeaves leaves.now root bits →
        updates.new.items ≡ updates.old.items ++ reset_line root bits line.now) }
{
    let places = places_of(alloc, leaves, line.left.as_slice(), line.right.as_slice())?;
    put_places(alloc, updates, places.as_slice())
}

/// Puts the places last as a line, where there are any.
fn put_places(alloc: Global, updates: &mut Vec<Link>, places: &[Place]) -> Result<(), Memory>
    ensures ok { OnOk result (updates.new.items ≡ updates.old.items ++ line_of_places (joins_of places.now)) }
{
    if places.is_empty() {
        return Ok(());
    }
    let line = Link {
        left: SigSpec::from_vec(left_side(alloc, places)?)?,
        right: SigSpec::from_vec(right_side(alloc, places)?)?,
    };
    updates.push(line)?;
    Ok(())
}

/// The left side of places.
fn left_side(alloc: Global, places: &[Place]) -> Result<Vec<SigBit>, Memory>
    ensures value { IfOk result (λ bits. bits.items ≡ left_side (joins_of places.now)) }
{
    let mut bits = Vec::with_capacity(alloc, places.len())?;
    for place in places {
        bits.push(SigBit::Wire(place.bit))?;
    }
    Ok(bits)
}

/// The right side of places.
fn right_side(alloc: Global, places: &[Place]) -> Result<Vec<SigBit>, Memory>
    ensures value { IfOk result (λ bits. bits.items ≡ right_side (joins_of places.now)) }
{
    let mut bits = Vec::with_capacity(alloc, places.len())?;
    for place in places {
        bits.push(place.source)?;
    }
    Ok(bits)
}

/// The places that both sides have, where the left is a bit of a wire that is given one constant, with the constant.
fn places_of(
    alloc: Global,
    leaves: &Leaves,
    left: &[SigBit],
    right: &[SigBit],
) -> Result<Vec<Place>, Memory>
    ensures value { IfOk result (λ places. (root : CaseView) (bits : List WireBit) → AreLeaves leaves.now root bits →
        joins_of places.items ≡ reset_places (leaves_at root bits) (joins left.now right.now)) }
{
    let mut places = Vec::new(alloc);
    for at in 0..left.len().min(right.len()) {
        put_place(&mut places, leaves, left[at], right[at])?;
    }
    Ok(places)
}

/// Puts a place last, where its left is a bit of a wire that is given one constant.
fn put_place(
    places: &mut Vec<Place>,
    leaves: &Leaves,
    left: SigBit,
    source: SigBit,
) -> Result<(), Memory>
    ensures ok { OnOk result ((root : CaseView) (bits : List WireBit) → AreLeaves leaves.now root bits →
        joins_of places.new.items ≡
        joins_of places.old.items ++ reset_places (leaves_at root bits) (joins (left ∷ []) (source ∷ []))) }
{
    match left {
        SigBit::Fixed(_) => Ok(()),
        SigBit::Wire(bit) => put_bit(places, leaves, bit, source),
    }
}

/// Puts the bit last, where it is given one constant.
fn put_bit(
    places: &mut Vec<Place>,
    leaves: &Leaves,
    bit: WireBit,
    source: SigBit,
) -> Result<(), Memory>
    ensures ok { OnOk result ((root : CaseView) (bits : List WireBit) → AreLeaves leaves.now root bits →
        joins_of places.new.items ≡
        joins_of places.old.items ++ reset_places (leaves_at root bits) (record { bit = bit; source = source } ∷ [])) }
{
    let summary = leaves.of_source(source);
    if let Some(constant) = one_constant(summary.only) {
        places.push(Place {
            bit,
            source: constant,
        })?;
    }
    Ok(())
}

/// The constant, where what all leaves are is one.
fn one_constant(only: Option<SigBit>) -> Option<SigBit>
    ensures value { result ≡ one_constant only }
{
    match only {
        Some(SigBit::Fixed(value)) => Some(SigBit::Fixed(value)),
        _ => None,
    }
}

/// Whether a bit on the left of the lines keeps its value.
pub(crate) fn lines_hold(leaves: &Leaves, lines: &[Link]) -> bool
    ensures value { (root : CaseView) (bits : List WireBit) → AreLeaves leaves.now root bits →
        result ≡ list_any (is_held root bits) (all_joins lines.now) }
{
    for line in lines {
        if line_holds(leaves, line.left.as_slice(), line.right.as_slice()) {
            return true;
        }
    }
    false
}

/// Whether a bit on the left side of a line keeps its value.
fn line_holds(leaves: &Leaves, left: &[SigBit], right: &[SigBit]) -> bool
    ensures value { (root : CaseView) (bits : List WireBit) → AreLeaves leaves.now root bits →
        result ≡ list_any (is_held root bits) (joins left.now right.now) }
{
    for at in 0..left.len().min(right.len()) {
        if place_holds(leaves, left[at], right[at]) {
            return true;
        }
    }
    false
}

/// Whether the bit on the left of a place of a line keeps its value.
fn place_holds(leaves: &Leaves, left: SigBit, source: SigBit) -> bool
    ensures value { (root : CaseView) (bits : List WireBit) → AreLeaves leaves.now root bits →
        result ≡ list_any (is_held root bits) (joins (left ∷ []) (source ∷ [])) }
{
    match left {
        SigBit::Fixed(_) => false,
        SigBit::Wire(bit) => is_held(leaves, bit, source),
    }
}

/// Whether a bit that is given this source keeps its value.
fn is_held(leaves: &Leaves, bit: WireBit, source: SigBit) -> bool
    ensures value { (root : CaseView) (bits : List WireBit) → AreLeaves leaves.now root bits →
        result ≡ is_held root bits (record { bit = bit; source = source }) }
{
    leaves.of_source(source).are_all(bit)
}

//! Rules for multiplexers.

ghost use Rattle.std.specs.Prelude.{◌≡◌, IfOk, map};
ghost use Rattle.std.specs.List.{range_with_len};
ghost use Rattle.expr_rules.specs.Rules.Mux.{arm_bit, arm_of, equal_arms, equal_words, inverted_select, known_select};
ghost use Rattle.expr_rules.specs.Rules.Mux.{known_selects, select_inverse, select_itself, unknown_arm};

use crate::change::{Change, chooser, inverter};
use crate::operands::Operands;
use crate::signals::{are_known, are_unknown, bit_at, first_bit, is_bit, is_one};
use cell_types::{CellKind, Shape, WordKind};
use rtl_bits::{Bit, Copied, Memory};
use rtl_ir::same_signal;
use rtl_sig::{SigBit, SigSpec};
use std::alloc::Global;

/// The arm that a known bit chooses.
fn arm_of(s: SigBit, a: &SigSpec, b: &SigSpec) -> Result<Option<Change>, Memory>
    ensures value { IfOk result (λ change. change ≡ arm_of s a.now b.now) }
{
    match s {
        SigBit::Fixed(Bit::S0) => Ok(Some(Change::Gives(a.copy()?))),
        SigBit::Fixed(Bit::S1) => Ok(Some(Change::Gives(b.copy()?))),
        _ => Ok(None),
    }
}

/// S known: gives the arm.
pub(crate) fn known_select(kind: WordKind, o: &Operands) -> Result<Option<Change>, Memory>
    ensures value { IfOk result (λ change. change ≡ known_select kind o.now) }
{
    match kind {
        WordKind::Mux => arm_of(first_bit(o.s.as_slice()), &o.a, &o.b),
        _ => Ok(None),
    }
}

/// A equals B: gives A.
pub(crate) fn equal_arms(kind: WordKind, o: &Operands) -> Result<Option<Change>, Memory>
    ensures value { IfOk result (λ change. change ≡ equal_arms kind o.now) }
{
    match kind {
        WordKind::Mux if same_signal(o.a.as_slice(), o.b.as_slice()) => {
            Ok(Some(Change::Gives(o.a.copy()?)))
        }
        _ => Ok(None),
    }
}

/// An arm all unknown constants, A before B: gives the other arm.
pub(crate) fn unknown_arm(kind: WordKind, o: &Operands) -> Result<Option<Change>, Memory>
    ensures value { IfOk result (λ change. change ≡ unknown_arm kind o.now) }
{
    match kind {
        WordKind::Mux if are_unknown(o.a.as_slice()) => Ok(Some(Change::Gives(o.b.copy()?))),
        WordKind::Mux if are_unknown(o.b.as_slice()) => Ok(Some(Change::Gives(o.a.copy()?))),
        _ => Ok(None),
    }
}

/// One bit, A 0, B 1: gives S.
pub(crate) fn select_itself(kind: WordKind, o: &Operands) -> Result<Option<Change>, Memory>
    ensures value { IfOk result (λ change. change ≡ select_itself kind o.now) }
{
    match kind {
        WordKind::Mux if is_bit(Bit::S0, o.a.as_slice()) && is_bit(Bit::S1, o.b.as_slice()) => {
            Ok(Some(Change::Gives(o.s.copy()?)))
        }
        _ => Ok(None),
    }
}

/// One bit, A 1, B 0: becomes an inverter of S.
pub(crate) fn select_inverse(
    alloc: Global,
    kind: WordKind,
    own: CellKind,
    o: &Operands,
) -> Result<Option<Change>, Memory>
    ensures value { IfOk result (λ change. change ≡ select_inverse kind own o.now) }
{
    match kind {
        WordKind::Mux if is_bit(Bit::S1, o.a.as_slice()) && is_bit(Bit::S0, o.b.as_slice()) => {
            Ok(Some(inverter(alloc, own, o.s.copy()?)))
        }
        _ => Ok(None),
    }
}

/// S from an inverter of one bit: its A chooses, the arms change places.
pub(crate) fn inverted_select(
    alloc: Global,
    kind: WordKind,
    own: CellKind,
    o: &Operands,
) -> Result<Option<Change>, Memory>
    ensures value { IfOk result (λ change. change ≡ inverted_select kind own o.now) }
{
    match (kind, o.inverted) {
        (WordKind::Mux, Some(s)) => {
            let s = SigSpec::from_slice(alloc, &[s])?;
            Ok(Some(chooser(own, o.b.copy()?, o.a.copy()?, s)))
        }
        _ => Ok(None),
    }
}

/// The bit of the arm that a bit of S chooses.
fn arm_bit(o: &Operands, at: usize) -> SigBit
    ensures value { result ≡ arm_bit o.now at }
{
    if is_one(bit_at(o.s.as_slice(), at)) {
        bit_at(o.b.as_slice(), at)
    } else {
        bit_at(o.a.as_slice(), at)
    }
}

/// The bits of the arms that the bits of S choose.
#[tactic(auto, using(crate::proofs::Distances::signals_more))]
fn arm_bits(alloc: Global, o: &Operands, width: u32) -> Result<SigSpec, Memory>
    ensures value { IfOk result (λ bits. bits ≡ map (arm_bit o.now) (range_with_len 0 width)) }
{
    let mut bits = SigSpec::make(alloc);
    for at in 0..width {
        bits.push(arm_bit(o, at as usize))?;
    }
    Ok(bits)
}

/// `$bwmux`, all bits of S known: gives per bit the arm's bit.
pub(crate) fn known_selects(
    alloc: Global,
    kind: WordKind,
    shape: &Shape,
    o: &Operands,
) -> Result<Option<Change>, Memory>
    ensures value { IfOk result (λ change. change ≡ known_selects kind shape.now o.now) }
{
    match kind {
        WordKind::Bwmux if are_known(o.s.as_slice()) => {
            Ok(Some(Change::Gives(arm_bits(alloc, o, shape.widths.y)?)))
        }
        _ => Ok(None),
    }
}

/// `$bwmux`, A equals B: gives A.
pub(crate) fn equal_words(kind: WordKind, o: &Operands) -> Result<Option<Change>, Memory>
    ensures value { IfOk result (λ change. change ≡ equal_words kind o.now) }
{
    match kind {
        WordKind::Bwmux if same_signal(o.a.as_slice(), o.b.as_slice()) => {
            Ok(Some(Change::Gives(o.a.copy()?)))
        }
        _ => Ok(None),
    }
}

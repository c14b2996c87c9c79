//! Rules for sums, products and quotients.

ghost use Rattle.std.specs.Prelude.{◌≡◌, IfOk};
ghost use Rattle.cell_types.specs.declared.word.ArithKind.TheVariants.{Mul};
ghost use Rattle.cell_types.specs.declared.word.WordKind.TheVariants.{Arith};
ghost use Rattle.expr_rules.specs.declared.change.Change.TheVariants.{Gives};
ghost use Rattle.expr_rules.specs.Rules.Arith.{add_zero, divide_by_power, equal_difference, moved_up, mul_by_bit};
ghost use Rattle.expr_rules.specs.Rules.Arith.{mul_by_power, power_of, quotient_by, times_small};

use crate::change::{Change, gives};
use crate::operands::Operands;
use crate::rules::logic::{beside_zeros, constant_if_equal};
use crate::signals::{are_zero, filled, is_one, is_zero};
use cell_types::{ArithKind, DivisionKind, Shape, WordKind};
use rtl_bits::{Bit, Copied, Memory};
use rtl_sig::{SigBit, SigSpec};
use std::alloc::Global;

/// `$add` with a zero operand, `$sub` with B zero: gives the other.
pub(crate) fn add_zero(kind: WordKind, o: &Operands) -> Result<Option<Change>, Memory>
    ensures value { IfOk result (λ change. change ≡ add_zero kind o.now) }
{
    match kind {
        WordKind::Arith(ArithKind::Add) => Ok(gives(beside_zeros(o)?)),
        WordKind::Arith(ArithKind::Sub) if are_zero(o.right.as_slice()) => {
            Ok(Some(Change::Gives(o.left.copy()?)))
        }
        _ => Ok(None),
    }
}

/// `$sub`, equal operands: gives 0.
pub(crate) fn equal_difference(
    alloc: Global,
    kind: WordKind,
    shape: &Shape,
    o: &Operands,
) -> Result<Option<Change>, Memory>
    ensures value { IfOk result (λ change. change ≡ equal_difference kind shape.now o.now) }
{
    match kind {
        WordKind::Arith(ArithKind::Sub) => constant_if_equal(alloc, Bit::S0, shape, o),
        _ => Ok(None),
    }
}

/// The place of the one bit that is 1 in a word of constants, where all others are 0.
fn power_of(word: &[SigBit]) -> Option<usize>
    ensures value { result ≡ power_of word.now }
{
    for at in 0..word.len() {
        if is_one(word[at]) {
            return if are_zero(&word[at + 1..]) {
                Some(at)
            } else {
                None
            };
        }
        if !is_zero(word[at]) {
            return None;
        }
    }
    None
}

/// A product with a factor of 0 or 1.
fn times_small(
    alloc: Global,
    shape: &Shape,
    factor: &SigSpec,
    other: &SigSpec,
) -> Result<Option<Change>, Memory>
    ensures value { IfOk result (λ change. change ≡ times_small shape.now factor.now (power_of factor.now) other.now) }
{
    match power_of(factor.as_slice()) {
        Some(0) => Ok(Some(Change::Gives(other.copy()?))),
        _ if are_zero(factor.as_slice()) => {
            let zeros = filled(alloc, shape.widths.y as usize, Bit::S0)?;
            Ok(Some(Change::Gives(zeros)))
        }
        _ => Ok(None),
    }
}

/// `$mul` by 0 or 1: gives 0 or the other.
pub(crate) fn mul_by_bit(
    alloc: Global,
    kind: WordKind,
    shape: &Shape,
    o: &Operands,
) -> Result<Option<Change>, Memory>
    ensures value { IfOk result (λ change. change ≡ mul_by_bit kind shape.now o.now) }
{
    match kind {
        WordKind::Arith(ArithKind::Mul) => match times_small(alloc, shape, &o.right, &o.left)? {
            Some(change) => Ok(Some(change)),
            None => times_small(alloc, shape, &o.left, &o.right),
        },
        _ => Ok(None),
    }
}

/// A word moved up by a number of places.
fn moved_up(alloc: Global, places: usize, word: &SigSpec) -> Result<Change, Memory>
    ensures value { IfOk result (λ change. change ≡ Gives (moved_up places word.now)) }
{
    let mut bits = filled(alloc, places, Bit::S0)?.into_vec()?;
    bits.extend_from_slice(word.as_slice())?;
    Ok(Change::Gives(SigSpec::from_vec(bits)?))
}

/// `$mul` by a power of two: gives the other moved up.
pub(crate) fn mul_by_power(
    alloc: Global,
    kind: WordKind,
    o: &Operands,
) -> Result<Option<Change>, Memory>
    ensures value { IfOk result (λ change. change ≡ mul_by_power kind o.now) }
{
    match kind {
        WordKind::Arith(ArithKind::Mul) => product_by_power(alloc, o),
        _ => Ok(None),
    }
}

fn product_by_power(alloc: Global, o: &Operands) -> Result<Option<Change>, Memory>
    ensures value { IfOk result (λ change. change ≡ mul_by_power (Arith Mul) o.now) }
{
    if let Some(places) = power_of(o.right.as_slice()) {
        return Ok(Some(moved_up(alloc, places, &o.left)?));
    }
    if let Some(places) = power_of(o.left.as_slice()) {
        return Ok(Some(moved_up(alloc, places, &o.right)?));
    }
    Ok(None)
}

/// The quotient or the remainder by a power of two: the upper or the lower bits.
fn quotient_by(
    alloc: Global,
    kind: DivisionKind,
    word: &SigSpec,
    places: usize,
) -> Result<Change, Memory>
    ensures value { IfOk result (λ change. change ≡ Gives (quotient_by kind word.now places)) }
{
    let bits = word.as_slice();
    let places = places.min(bits.len());
    let part = match kind {
        DivisionKind::Div | DivisionKind::DivFloor => &bits[places..],
        DivisionKind::Mod | DivisionKind::ModFloor => &bits[..places],
    };
    Ok(Change::Gives(SigSpec::from_slice(alloc, part)?))
}

/// The division cells, not both signed, B a constant power of two: gives the upper or lower bits of A.
pub(crate) fn divide_by_power(
    alloc: Global,
    kind: WordKind,
    shape: &Shape,
    o: &Operands,
) -> Result<Option<Change>, Memory>
    ensures value { IfOk result (λ change. change ≡ divide_by_power kind shape.now o.now) }
{
    match kind {
        WordKind::Division(kind) if !(shape.signs.a && shape.signs.b) => {
            match power_of(o.right.as_slice()) {
                Some(places) => Ok(Some(quotient_by(alloc, kind, &o.left, places)?)),
                None => Ok(None),
            }
        }
        _ => Ok(None),
    }
}

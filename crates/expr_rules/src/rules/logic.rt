//! Rules for cells that work bit by bit.

ghost use Rattle.std.specs.Prelude.{◌≡◌, IfOk};
ghost use Rattle.expr_rules.specs.Change.{when};
ghost use Rattle.rtl_ir.specs.Signals.{same_signal};
ghost use Rattle.expr_rules.specs.Signals.{filled};
ghost use Rattle.expr_rules.specs.declared.change.Change.TheVariants.{Gives};
ghost use Rattle.expr_rules.specs.Rules.Logic.{and_with_ones, beside_ones, beside_zeros, double_not, equal_operands};
ghost use Rattle.expr_rules.specs.Rules.Logic.{equal_parity, or_with_zeros, xor_with_ones};

use crate::change::{Change, gives, inverter};
use crate::operands::Operands;
use crate::signals::{are_one, are_zero, filled};
use cell_types::{BitwiseKind, CellKind, Shape, UnaryKind, WordKind};
use rtl_bits::{Bit, Copied, Memory};
use rtl_ir::same_signal;
use rtl_sig::SigSpec;
use std::alloc::Global;

/// The operand beside one that is all 1.
fn beside_ones(o: &Operands) -> Result<Option<SigSpec>, Memory>
    ensures value { IfOk result (λ word. word ≡ beside_ones o.now) }
{
    if are_one(o.right.as_slice()) {
        Ok(Some(o.left.copy()?))
    } else if are_one(o.left.as_slice()) {
        Ok(Some(o.right.copy()?))
    } else {
        Ok(None)
    }
}

/// The operand beside one that is all 0.
pub(crate) fn beside_zeros(o: &Operands) -> Result<Option<SigSpec>, Memory>
    ensures value { IfOk result (λ word. word ≡ beside_zeros o.now) }
{
    if are_zero(o.right.as_slice()) {
        Ok(Some(o.left.copy()?))
    } else if are_zero(o.left.as_slice()) {
        Ok(Some(o.right.copy()?))
    } else {
        Ok(None)
    }
}

/// `$and`, one operand all 1: gives the other.
pub(crate) fn and_with_ones(kind: WordKind, o: &Operands) -> Result<Option<Change>, Memory>
    ensures value { IfOk result (λ change. change ≡ and_with_ones kind o.now) }
{
    match kind {
        WordKind::Bitwise(BitwiseKind::And) => Ok(gives(beside_ones(o)?)),
        _ => Ok(None),
    }
}

/// `$or`, `$xor`, one operand all 0: gives the other.
pub(crate) fn or_with_zeros(kind: WordKind, o: &Operands) -> Result<Option<Change>, Memory>
    ensures value { IfOk result (λ change. change ≡ or_with_zeros kind o.now) }
{
    match kind {
        WordKind::Bitwise(BitwiseKind::Or) => Ok(gives(beside_zeros(o)?)),
        WordKind::Bitwise(BitwiseKind::Xor) => Ok(gives(beside_zeros(o)?)),
        _ => Ok(None),
    }
}

/// `$and`, `$or`, equal operands: gives it.
pub(crate) fn equal_operands(kind: WordKind, o: &Operands) -> Result<Option<Change>, Memory>
    ensures value { IfOk result (λ change. change ≡ equal_operands kind o.now) }
{
    match kind {
        WordKind::Bitwise(BitwiseKind::And) => left_if_equal(o),
        WordKind::Bitwise(BitwiseKind::Or) => left_if_equal(o),
        _ => Ok(None),
    }
}

/// The left operand where it equals the right one.
fn left_if_equal(o: &Operands) -> Result<Option<Change>, Memory>
    ensures value { IfOk result (λ change. change ≡ when (same_signal o.now.left o.now.right) (Gives o.now.left)) }
{
    if same_signal(o.left.as_slice(), o.right.as_slice()) {
        Ok(Some(Change::Gives(o.left.copy()?)))
    } else {
        Ok(None)
    }
}

/// `$xor`, `$xnor`, equal operands: gives all 0, all 1.
pub(crate) fn equal_parity(
    alloc: Global,
    kind: WordKind,
    shape: &Shape,
    o: &Operands,
) -> Result<Option<Change>, Memory>
    ensures value { IfOk result (λ change. change ≡ equal_parity kind shape.now o.now) }
{
    match kind {
        WordKind::Bitwise(BitwiseKind::Xor) => constant_if_equal(alloc, Bit::S0, shape, o),
        WordKind::Bitwise(BitwiseKind::Xnor) => constant_if_equal(alloc, Bit::S1, shape, o),
        _ => Ok(None),
    }
}

/// Where the operands are equal, a word of one constant.
pub(crate) fn constant_if_equal(
    alloc: Global,
    bit: Bit,
    shape: &Shape,
    o: &Operands,
) -> Result<Option<Change>, Memory>
    ensures value { IfOk result (λ change.
        change ≡ when (same_signal o.now.left o.now.right) (Gives (filled shape.now.widths.y bit))) }
{
    if same_signal(o.left.as_slice(), o.right.as_slice()) {
        Ok(Some(Change::Gives(filled(alloc, shape.widths.y as usize, bit)?)))
    } else {
        Ok(None)
    }
}

/// `$xor`, one operand all 1: becomes an inverter of the other.
pub(crate) fn xor_with_ones(
    alloc: Global,
    kind: WordKind,
    own: CellKind,
    o: &Operands,
) -> Result<Option<Change>, Memory>
    ensures value { IfOk result (λ change. change ≡ xor_with_ones kind own o.now) }
{
    match kind {
        WordKind::Bitwise(BitwiseKind::Xor) => match beside_ones(o)? {
            Some(word) => Ok(Some(inverter(alloc, own, word))),
            None => Ok(None),
        },
        _ => Ok(None),
    }
}

/// `$not` of the whole Y of a `$not`, all widths equal: gives the inner A.
pub(crate) fn double_not(
    kind: WordKind,
    shape: &Shape,
    o: &Operands,
) -> Result<Option<Change>, Memory>
    ensures value { IfOk result (λ change. change ≡ double_not kind shape.now o.now) }
{
    let width = shape.widths.y as usize;
    match (kind, &o.inner) {
        (WordKind::Unary(UnaryKind::Not), Some(inner)) => {
            if o.a.as_slice().len() == width && inner.as_slice().len() == width {
                Ok(Some(Change::Gives(inner.copy()?)))
            } else {
                Ok(None)
            }
        }
        _ => Ok(None),
    }
}

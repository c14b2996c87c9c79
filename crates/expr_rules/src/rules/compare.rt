//! The rule for compares.

ghost use Rattle.std.specs.Prelude.{◌≡◌, IfOk, ◌∷◌, []};
ghost use Rattle.rtl_sig.specs.declared.sig.SigBit.TheVariants.{Fixed};
ghost use Rattle.rtl_ir.specs.Signals.{same_signal};
ghost use Rattle.expr_rules.specs.Rules.Compare.{beside_bit, compare, of_equals, one_bit_compare, passing, turning};
ghost use Rattle.expr_rules.specs.declared.change.Change.TheVariants.{Gives};

use crate::change::{Change, inverter};
use crate::operands::Operands;
use crate::signals::is_bit;
use cell_types::{EqualKind, OrderKind, Shape, WordKind};
use rtl_bits::{Bit, Copied, Memory};
use rtl_ir::same_signal;
use rtl_sig::{SigBit, SigSpec};
use std::alloc::Global;

/// What an order says of equal operands.
fn of_equals(kind: OrderKind) -> Bit
    ensures value { result ≡ of_equals kind }
{
    match kind {
        OrderKind::Lt | OrderKind::Gt => Bit::S0,
        OrderKind::Le | OrderKind::Ge => Bit::S1,
    }
}

/// What a compare says of equal operands, and the constant beside which it passes one bit on.
fn passing(kind: EqualKind) -> Bit
    ensures value { result ≡ passing kind }
{
    match kind {
        EqualKind::Eq => Bit::S1,
        EqualKind::Ne => Bit::S0,
    }
}

/// The constant beside which a compare inverts one bit.
fn turning(kind: EqualKind) -> Bit
    ensures value { result ≡ turning kind }
{
    match kind {
        EqualKind::Eq => Bit::S0,
        EqualKind::Ne => Bit::S1,
    }
}

/// A signal of one constant.
fn constant(alloc: Global, bit: Bit) -> Result<Change, Memory>
    ensures value { IfOk result (λ change. change ≡ Gives (Fixed bit ∷ [])) }
{
    let word = SigSpec::from_slice(alloc, &[SigBit::Fixed(bit)])?;
    Ok(Change::Gives(word))
}

/// A compare of two bits of which one may be a constant.
fn beside_bit(
    alloc: Global,
    kind: EqualKind,
    shape: &Shape,
    constant: &SigSpec,
    other: &SigSpec,
) -> Result<Option<Change>, Memory>
    ensures value { IfOk result (λ change.
        change ≡ beside_bit kind shape.now.kind shape.now.widths.y constant.now other.now) }
{
    if is_bit(passing(kind), constant.as_slice()) {
        Ok(Some(Change::Gives(other.copy()?)))
    } else if is_bit(turning(kind), constant.as_slice()) && shape.widths.y == 1 {
        Ok(Some(inverter(alloc, shape.kind, other.copy()?)))
    } else {
        Ok(None)
    }
}

/// Operands of one bit, one of them a known constant.
fn one_bit_compare(
    alloc: Global,
    kind: EqualKind,
    shape: &Shape,
    o: &Operands,
) -> Result<Option<Change>, Memory>
    ensures value { IfOk result (λ change. change ≡ one_bit_compare kind shape.now.kind shape.now o.now) }
{
    if o.left.as_slice().len() != 1 || o.right.as_slice().len() != 1 {
        return Ok(None);
    }
    match beside_bit(alloc, kind, shape, &o.right, &o.left)? {
        Some(change) => Ok(Some(change)),
        None => beside_bit(alloc, kind, shape, &o.left, &o.right),
    }
}

/// `$eq $le $ge`, or `$ne $lt $gt`, equal operands: gives 1 or 0. `$eq`, `$ne` of one bit with a known constant: gives
/// the other operand, or, with one bit of Y, becomes its inverse.
pub(crate) fn compare(
    alloc: Global,
    kind: WordKind,
    shape: &Shape,
    o: &Operands,
) -> Result<Option<Change>, Memory>
    ensures value { IfOk result (λ change. change ≡ compare kind shape.now.kind shape.now o.now) }
{
    match kind {
        WordKind::Equal(kind) => {
            if same_signal(o.left.as_slice(), o.right.as_slice()) {
                Ok(Some(constant(alloc, passing(kind))?))
            } else {
                one_bit_compare(alloc, kind, shape, o)
            }
        }
        WordKind::Order(kind) if same_signal(o.left.as_slice(), o.right.as_slice()) => {
            Ok(Some(constant(alloc, of_equals(kind))?))
        }
        _ => Ok(None),
    }
}

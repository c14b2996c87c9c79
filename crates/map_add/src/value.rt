//! The net of the value of a cell, by its kind.

ghost use Rattle.std.specs.Prelude.{◌≡◌, Err, IfOk, OnOk};
ghost use Rattle.net_index.specs.Builder.{IsInLimits, PassesLimit};
ghost use Rattle.map_add.specs.Expand.{arithmetic_of, is_mapped, negated_of, ordered_of, value_of};

use crate::order::order;
use crate::sums::arith;
use cell_types::{ArithKind, CellKind, OrderKind, PinName, Shape, UnaryKind, WordKind};
use gate_nets::{greater_width, negate, operand_of};
use net_index::{Builder, PassFault};
use rtl_ir::Cell;
use rtl_sig::SigSpec;
use std::alloc::Global;

/// A kind becomes gates here.
pub(crate) fn is_mapped(kind: CellKind) -> bool
    ensures value { result ≡ is_mapped kind }
{
    matches!(
        kind,
        CellKind::Word(
            WordKind::Unary(UnaryKind::Neg)
                | WordKind::Arith(ArithKind::Add | ArithKind::Sub)
                | WordKind::Order(_)
        )
    )
}

/// The bit of an order cell.
#[tactic(auto, unfolding(gate_nets::specs::Gate::after))]
fn ordered(
    alloc: Global,
    kind: OrderKind,
    cell: &Cell,
    shape: &Shape,
    builder: &mut Builder,
) -> Result<SigSpec, PassFault>
    ensures exact { IfOk result (λ bits. (bits, builder.new) ≡ ordered_of kind shape.now cell.now builder.old) }
    ensures over { result ≡ Err PassFault.Over → PassesLimit (ordered_of kind shape.now cell.now builder.old).1 }
    ensures within { IsInLimits builder.old → OnOk result (IsInLimits builder.new) }
{
    let signed = shape.signs.a && shape.signs.b;
    let width = greater_width(cell);
    let a = operand_of(alloc, cell, PinName::A, width, signed)?;
    let b = operand_of(alloc, cell, PinName::B, width, signed)?;
    let bit = order(alloc, kind, signed, a.as_slice(), b.as_slice(), builder)?;
    Ok(SigSpec::from_slice(alloc, &[bit])?)
}

/// The sum or the difference of the operands, of the width of Y.
fn arithmetic(
    alloc: Global,
    kind: ArithKind,
    cell: &Cell,
    shape: &Shape,
    builder: &mut Builder,
) -> Result<SigSpec, PassFault>
    ensures exact { IfOk result (λ bits. (bits, builder.new) ≡ arithmetic_of kind shape.now cell.now builder.old) }
    ensures over { result ≡ Err PassFault.Over → PassesLimit (arithmetic_of kind shape.now cell.now builder.old).1 }
    ensures within { IsInLimits builder.old → OnOk result (IsInLimits builder.new) }
{
    let signed = shape.signs.a && shape.signs.b;
    let width = shape.widths.y as usize;
    let a = operand_of(alloc, cell, PinName::A, width, signed)?;
    let b = operand_of(alloc, cell, PinName::B, width, signed)?;
    arith(alloc, kind, a.as_slice(), b.as_slice(), builder)
}

/// The negative of the operand, of the width of Y.
fn negated(
    alloc: Global,
    cell: &Cell,
    shape: &Shape,
    builder: &mut Builder,
) -> Result<SigSpec, PassFault>
    ensures exact { IfOk result (λ bits. (bits, builder.new) ≡ negated_of shape.now cell.now builder.old) }
    ensures over { result ≡ Err PassFault.Over → PassesLimit (negated_of shape.now cell.now builder.old).1 }
    ensures within { IsInLimits builder.old → OnOk result (IsInLimits builder.new) }
{
    let width = shape.widths.y as usize;
    let a = operand_of(alloc, cell, PinName::A, width, shape.signs.a)?;
    negate(alloc, a.as_slice(), builder)
}

/// The net of the value of a cell, by its kind.
pub(crate) fn value(
    alloc: Global,
    cell: &Cell,
    shape: &Shape,
    builder: &mut Builder,
) -> Result<SigSpec, PassFault>
    ensures exact { IfOk result (λ bits. (bits, builder.new) ≡ value_of shape.now.kind shape.now cell.now builder.old) }
    ensures over { result ≡ Err PassFault.Over →
        PassesLimit (value_of shape.now.kind shape.now cell.now builder.old).1 }
    ensures within { IsInLimits builder.old → OnOk result (IsInLimits builder.new) }
{
    match shape.kind {
        CellKind::Word(WordKind::Unary(UnaryKind::Neg)) => negated(alloc, cell, shape, builder),
        CellKind::Word(WordKind::Arith(kind)) => arithmetic(alloc, kind, cell, shape, builder),
        CellKind::Word(WordKind::Order(kind)) => ordered(alloc, kind, cell, shape, builder),
        _ => Ok(SigSpec::make(alloc)),
    }
}

//! The net of the value of a cell, by its kind.

ghost use Rattle.std.specs.Prelude.{◌≡◌, Err, IfOk, OnOk};
ghost use Rattle.net_index.specs.Builder.{IsInLimits, PassesLimit};
ghost use Rattle.cell_word.specs.Values.{both_signed};
ghost use Rattle.map_mul.specs.Expand.{divided_of, greatest_width, is_mapped, multiplied_of, operand_of, value_of};

use crate::product::product;
use cell_types::{ArithKind, CellKind, DivisionKind, PinName, Shape, WordKind};
use gate_divide::divide;
use gate_nets::pin_signal;
use net_index::{Builder, PassFault};
use rtl_bits::Memory;
use rtl_ir::Cell;
use rtl_sig::{SigSpec, extended};
use std::alloc::Global;

/// A kind becomes gates here.
pub(crate) fn is_mapped(kind: CellKind) -> bool
    ensures value { result ≡ is_mapped kind }
{
    matches!(
        kind,
        CellKind::Word(WordKind::Arith(ArithKind::Mul) | WordKind::Division(_))
    )
}

/// Both operands are signed.
fn both_signed(shape: &Shape) -> bool
    ensures value { result ≡ both_signed shape.now }
{
    shape.signs.a && shape.signs.b
}

/// An operand, cut or filled up to a width, as signed where both operands are.
fn operand(
    alloc: Global,
    cell: &Cell,
    shape: &Shape,
    pin: PinName,
    width: usize,
) -> Result<SigSpec, Memory>
    ensures value { IfOk result (λ bits. bits ≡ operand_of shape.now cell.now pin width) }
{
    extended(alloc, pin_signal(cell, pin), width, both_signed(shape))
}

/// The product of the operands, of the width of Y.
fn multiplied(
    alloc: Global,
    cell: &Cell,
    shape: &Shape,
    builder: &mut Builder,
) -> Result<SigSpec, PassFault>
    ensures exact { IfOk result (λ bits. (bits, builder.new) ≡ multiplied_of shape.now cell.now builder.old) }
    ensures over { result ≡ Err PassFault.Over → PassesLimit (multiplied_of shape.now cell.now builder.old).1 }
    ensures within { IsInLimits builder.old → OnOk result (IsInLimits builder.new) }
{
    let width = shape.widths.y as usize;
    let a = operand(alloc, cell, shape, PinName::A, width)?;
    let b = operand(alloc, cell, shape, PinName::B, width)?;
    product(alloc, a.as_slice(), b.as_slice(), builder)
}

/// The width to which the operands of a division are extended.
fn greatest_width(cell: &Cell, shape: &Shape) -> usize
    ensures value { result ≡ greatest_width shape.now cell.now }
{
    let a = pin_signal(cell, PinName::A).len();
    let b = pin_signal(cell, PinName::B).len();
    a.max(b).max(shape.widths.y as usize)
}

/// The quotient or the remainder of the operands, of their greatest width.
fn divided(
    alloc: Global,
    kind: DivisionKind,
    cell: &Cell,
    shape: &Shape,
    builder: &mut Builder,
) -> Result<SigSpec, PassFault>
    ensures exact { IfOk result (λ bits. (bits, builder.new) ≡ divided_of kind shape.now cell.now builder.old) }
    ensures over { result ≡ Err PassFault.Over → PassesLimit (divided_of kind shape.now cell.now builder.old).1 }
    ensures within { IsInLimits builder.old → OnOk result (IsInLimits builder.new) }
{
    let width = greatest_width(cell, shape);
    let a = operand(alloc, cell, shape, PinName::A, width)?;
    let b = operand(alloc, cell, shape, PinName::B, width)?;
    divide(
        alloc,
        kind,
        both_signed(shape),
        a.as_slice(),
        b.as_slice(),
        builder,
    )
}

/// The net of the value of a cell, by its kind.
pub(crate) fn value(
    alloc: Global,
    cell: &Cell,
    shape: &Shape,
    builder: &mut Builder,
) -> Result<SigSpec, PassFault>
    ensures exact { IfOk result (λ bits. (bits, builder.new) ≡ value_of shape.now.kind shape.now cell.now builder.old) }
    ensures over { result ≡ Err PassFault.Over →
        PassesLimit (value_of shape.now.kind shape.now cell.now builder.old).1 }
    ensures within { IsInLimits builder.old → OnOk result (IsInLimits builder.new) }
{
    match shape.kind {
        CellKind::Word(WordKind::Arith(ArithKind::Mul)) => multiplied(alloc, cell, shape, builder),
        CellKind::Word(WordKind::Division(kind)) => divided(alloc, kind, cell, shape, builder),
        _ => Ok(SigSpec::make(alloc)),
    }
}

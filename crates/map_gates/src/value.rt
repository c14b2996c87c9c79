//! The net of the value of a cell, by its kind.

ghost use Rattle.std.specs.Prelude.{◌≡◌, [], ◌∷◌, ◌++◌, Err, IfOk, OnOk};
ghost use Rattle.net_index.specs.Builder.{IsInLimits, PassesLimit};
ghost use Rattle.map_gates.specs.Expand.{compared_of, is_given, value_of};

use crate::choice::{above, chosen, halved};
use crate::folds::{equality, folded, logic};
use cell_types::{EqualKind, PinName, Shape, UnaryKind, WordKind};
use gate_nets::{greater_width, operand_of, pin_signal};
use net_index::{Builder, PassFault};
use rtl_bits::Memory;
use rtl_ir::Cell;
use rtl_sig::{SigBit, SigSpec};
use std::alloc::Global;

/// The value of a kind is made by a net, whose result is given to Y.
pub(crate) fn is_given(kind: WordKind) -> bool
    ensures value { result ≡ is_given kind }
{
    matches!(
        kind,
        WordKind::Unary(UnaryKind::Pos)
            | WordKind::Fold(_)
            | WordKind::Logic(_)
            | WordKind::Equal(_)
            | WordKind::Pmux
            | WordKind::Slice
            | WordKind::Concat
            | WordKind::Buf
            | WordKind::Bmux
    )
}

/// A word of one bit.
fn one_bit(alloc: Global, bit: SigBit) -> Result<SigSpec, Memory>
    ensures value { IfOk result (λ word. word ≡ bit ∷ []) }
{
    SigSpec::from_slice(alloc, &[bit])
}

/// One word below another.
fn concat(alloc: Global, a: &[SigBit], b: &[SigBit]) -> Result<SigSpec, Memory>
    ensures value { IfOk result (λ word. word ≡ a.now ++ b.now) }
{
    let mut word = Vec::from_slice(alloc, a)?;
    word.extend_from_slice(b)?;
    SigSpec::from_vec(word)
}

/// The bit of `$eq` or `$ne`, of the operands at the greater width.
fn compared(
    alloc: Global,
    kind: EqualKind,
    cell: &Cell,
    shape: &Shape,
    builder: &mut Builder,
) -> Result<SigBit, PassFault>
    ensures exact { IfOk result (λ bit. (bit, builder.new) ≡ compared_of kind shape.now cell.now builder.old) }
    ensures over { result ≡ Err PassFault.Over → PassesLimit (compared_of kind shape.now cell.now builder.old).1 }
    ensures within { IsInLimits builder.old → OnOk result (IsInLimits builder.new) }
{
    let signed = shape.signs.a && shape.signs.b;
    let width = greater_width(cell);
    let a = operand_of(alloc, cell, PinName::A, width, signed)?;
    let b = operand_of(alloc, cell, PinName::B, width, signed)?;
    equality(alloc, kind, a.as_slice(), b.as_slice(), builder)
}

/// The net of the value of a cell, by its kind.
#[tactic(auto, unfolding(gate_nets::specs::Gate::after))]
pub(crate) fn value(
    alloc: Global,
    kind: WordKind,
    cell: &Cell,
    shape: &Shape,
    builder: &mut Builder,
) -> Result<SigSpec, PassFault>
    ensures exact { IfOk result (λ bits. (bits, builder.new) ≡ value_of kind shape.now cell.now builder.old) }
    ensures over { result ≡ Err PassFault.Over → PassesLimit (value_of kind shape.now cell.now builder.old).1 }
    ensures within { IsInLimits builder.old → OnOk result (IsInLimits builder.new) }
{
    let a = pin_signal(cell, PinName::A);
    let b = pin_signal(cell, PinName::B);
    let s = pin_signal(cell, PinName::S);
    let width = shape.widths.y as usize;
    match kind {
        WordKind::Unary(UnaryKind::Pos) => {
            Ok(operand_of(alloc, cell, PinName::A, width, shape.signs.a)?)
        }
        WordKind::Fold(kind) => {
            let bit = folded(alloc, kind, a, builder)?;
            Ok(one_bit(alloc, bit)?)
        }
        WordKind::Logic(kind) => {
            let bit = logic(alloc, kind, a, b, builder)?;
            Ok(one_bit(alloc, bit)?)
        }
        WordKind::Equal(kind) => {
            let bit = compared(alloc, kind, cell, shape, builder)?;
            Ok(one_bit(alloc, bit)?)
        }
        WordKind::Pmux => chosen(alloc, a, b, s, builder),
        WordKind::Slice => Ok(SigSpec::from_slice(alloc, above(a, shape.offset as usize))?),
        WordKind::Concat => Ok(concat(alloc, a, b)?),
        WordKind::Buf => Ok(operand_of(alloc, cell, PinName::A, width, false)?),
        WordKind::Bmux => halved(alloc, shape.widths.y, a, s, builder),
        _ => Ok(SigSpec::make(alloc)),
    }
}

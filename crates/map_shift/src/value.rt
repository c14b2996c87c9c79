//! The net of the value of a cell, by its kind.

ghost use Rattle.std.specs.Prelude.{◌≡◌, Err, IfOk, OnOk};
ghost use Rattle.net_index.specs.Builder.{IsInLimits, PassesLimit};
ghost use Rattle.cell_types.specs.declared.pin_name.PinName.TheVariants.{A, B};
ghost use Rattle.map_laws.specs.Operand.{pin_signal};
ghost use Rattle.map_shift.specs.Expand.{fill_by, is_mapped, moved_by, shift_by, value_of};

use crate::moves::Way;
use crate::shift::{shifted, shifted_either_way};
use cell_types::{CellKind, PinName, Shape, ShiftKind, WordKind};
use gate_nets::{operand_of, pin_signal};
use net_index::{Builder, PassFault};
use rtl_bits::Bit;
use rtl_ir::Cell;
use rtl_sig::{SigBit, SigSpec, fill_of};
use std::alloc::Global;

/// A kind becomes gates here.
pub(crate) fn is_mapped(kind: CellKind) -> bool
    ensures value { result ≡ is_mapped kind }
{
    matches!(kind, CellKind::Word(WordKind::Shift(_)))
}

/// What the kind moves into the places that are left.
fn fill_by(kind: ShiftKind, signed: bool, a: &[SigBit]) -> SigBit
    ensures value { result ≡ fill_by kind signed a.now }
{
    match kind {
        ShiftKind::Sshr => fill_of(a, signed),
        ShiftKind::Shiftx => SigBit::Fixed(Bit::X),
        _ => SigBit::Fixed(Bit::S0),
    }
}

/// The bits of the first operand moved as the kind does by the second one, signed or not.
fn moved_by(
    alloc: Global,
    kind: ShiftKind,
    cell: &Cell,
    shape: &Shape,
    bits: &[SigBit],
    builder: &mut Builder,
) -> Result<SigSpec, PassFault>
    ensures exact { IfOk result (λ word. (word, builder.new) ≡
        moved_by kind shape.now.signs.b (fill_by kind shape.now.signs.a (pin_signal cell.now A)) bits.now
        (pin_signal cell.now B) builder.old) }
    ensures over { result ≡ Err PassFault.Over →
        PassesLimit (moved_by kind shape.now.signs.b (fill_by kind shape.now.signs.a (pin_signal cell.now A)) bits.now
        (pin_signal cell.now B) builder.old).1 }
    ensures within { IsInLimits builder.old → OnOk result (IsInLimits builder.new) }
{
    let fill = fill_by(kind, shape.signs.a, pin_signal(cell, PinName::A));
    let distance = pin_signal(cell, PinName::B);
    match kind {
        ShiftKind::Shl | ShiftKind::Sshl => {
            shifted(alloc, Way::Left, fill, bits, distance, builder)
        }
        ShiftKind::Shift | ShiftKind::Shiftx if shape.signs.b => {
            shifted_either_way(alloc, fill, bits, distance, builder)
        }
        _ => shifted(alloc, Way::Right, fill, bits, distance, builder),
    }
}

/// The first operand, at the greater of its width and that of Y, moved by the second one.
fn shift(
    alloc: Global,
    kind: ShiftKind,
    cell: &Cell,
    shape: &Shape,
    builder: &mut Builder,
) -> Result<SigSpec, PassFault>
    ensures exact { IfOk result (λ bits. (bits, builder.new) ≡ shift_by kind shape.now cell.now builder.old) }
    ensures over { result ≡ Err PassFault.Over → PassesLimit (shift_by kind shape.now cell.now builder.old).1 }
    ensures within { IsInLimits builder.old → OnOk result (IsInLimits builder.new) }
{
    let a = pin_signal(cell, PinName::A);
    let width = a.len().max(shape.widths.y as usize);
    let bits = operand_of(alloc, cell, PinName::A, width, shape.signs.a)?;
    moved_by(alloc, kind, cell, shape, bits.as_slice(), builder)
}

/// The net of the value of a cell, by its kind.
pub(crate) fn value(
    alloc: Global,
    cell: &Cell,
    shape: &Shape,
    builder: &mut Builder,
) -> Result<SigSpec, PassFault>
    ensures exact { IfOk result (λ bits. (bits, builder.new) ≡ value_of shape.now.kind shape.now cell.now builder.old) }
    ensures over { result ≡ Err PassFault.Over →
        PassesLimit (value_of shape.now.kind shape.now cell.now builder.old).1 }
    ensures within { IsInLimits builder.old → OnOk result (IsInLimits builder.new) }
{
    match shape.kind {
        CellKind::Word(WordKind::Shift(kind)) => shift(alloc, kind, cell, shape, builder),
        _ => Ok(SigSpec::make(alloc)),
    }
}

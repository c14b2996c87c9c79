//! Bits of processes that are always updated and may hold.

ghost use Rattle.std.specs.Prelude.{◌≡◌, List, [], ◌∷◌, IfOk, length, map};
ghost use Rattle.std.specs.List.{AllByRecursion};
ghost use Rattle.rtl_ir.specs.Flat.Place.{Place};
ghost use Rattle.net_model.specs.Picked.{held_of};
ghost use Rattle.net_model.specs.Value.{value_of};
ghost use Rattle.flat_net.specs.Parts.{held_row};
ghost use Rattle.flat_net.specs.Within.{IsHeldBitWithin, IsHeldWithin, IsTreeWithin};
ghost use Rattle.sim_eval.specs.Advance.{Advances, AreFewer};
ghost use Rattle.sim_eval.specs.Moment.{IsBoard, time_of};
ghost use Rattle.sim_eval.specs.Shown.{shown};

use crate::expand::source_value;
use crate::moment::Moment;
use crate::values::{bit_at, has_value, put, read};
use crate::walk::Leaves;
use flat_net::{Held, HeldBit, Tree};
use rtl_bits::{Bit, Memory};
use std::alloc::Global;

/// Gives the bits that may hold their values, where they had none so far. Answers whether one of them got one.
pub(crate) fn update_held(
    alloc: Global,
    moment: &Moment,
    held: &Held,
    now: &mut [Bit],
) -> Result<bool, Memory>
    ensures fewer { IfOk result (AreFewer now.old now.new) }
    ensures advances { IfOk result (λ changed. (ps : List Place) → IsBoard ps moment.now now.old →
        IsHeldWithin (length ps) held.now →
        Advances ps (time_of ps moment.now) (map (held_row ps held.now.tree) held.now.bits) now.old now.new changed) }
{
    update_held_bits(alloc, moment, &held.tree, held.bits.as_slice(), now)
}

/// Gives bits that lead through this tree their values. Answers whether one of them got one.
fn update_held_bits(
    alloc: Global,
    moment: &Moment,
    tree: &Tree,
    bits: &[HeldBit],
    now: &mut [Bit],
) -> Result<bool, Memory>
    ensures fewer { IfOk result (AreFewer now.old now.new) }
    ensures advances { IfOk result (λ changed. (ps : List Place) → IsBoard ps moment.now now.old →
        IsTreeWithin (length ps) tree.now → AllByRecursion (IsHeldBitWithin (length ps) tree.now.width) bits.now →
        Advances ps (time_of ps moment.now) (map (held_row ps tree.now) bits.now) now.old now.new changed) }
{
    let mut changed = false;
    for bit in bits {
        changed |= update_held_bit(alloc, moment, tree, bit, now)?;
    }
    Ok(changed)
}

/// Gives a bit that leads through this tree its value. Answers whether it got one.
fn update_held_bit(
    alloc: Global,
    moment: &Moment,
    tree: &Tree,
    bit: &HeldBit,
    now: &mut [Bit],
) -> Result<bool, Memory>
    ensures fewer { IfOk result (AreFewer now.old now.new) }
    ensures advances { IfOk result (λ changed. (ps : List Place) → IsBoard ps moment.now now.old →
        IsTreeWithin (length ps) tree.now → IsHeldBitWithin (length ps) tree.now.width bit.now →
        Advances ps (time_of ps moment.now) (held_row ps tree.now bit.now ∷ []) now.old now.new changed) }
{
    if has_value(now, bit.number) {
        return Ok(false);
    }
    let value = held(alloc, moment, tree, bit, now)?;
    Ok(put(now, bit.number, value))
}

/// What a bit that may hold has: its old value where its value comes to the bit itself, its new value where it does
/// not.
fn held(
    alloc: Global,
    moment: &Moment,
    tree: &Tree,
    bit: &HeldBit,
    now: &[Bit],
) -> Result<Bit, Memory>
    ensures value { IfOk result (λ value. (ps : List Place) → IsBoard ps moment.now now.now →
        IsTreeWithin (length ps) tree.now → IsHeldBitWithin (length ps) tree.now.width bit.now →
        value_of (held_row ps tree.now bit.now).driver (time_of ps moment.now) (shown ps now.now) ≡ value) }
{
    match moment {
        Moment::Start => Ok(bit.start),
        Moment::Step { before, .. } => {
            let holds = source_value(
                alloc,
                now,
                Bit::X,
                Leaves::Marks(bit.number),
                tree,
                bit.source,
            )?;
            let old = bit_at(before, bit.number);
            let new = read(now, bit.source.from);
            Ok(kept(holds, old, new))
        }
    }
}

/// The old value where a bit holds, the new one where it does not, else x.
fn kept(holds: Bit, old: Bit, new: Bit) -> Bit
    ensures value { result ≡ held_of holds old new }
{
    match holds {
        Bit::S1 => old.seen(),
        Bit::S0 => new.seen(),
        _ => Bit::X,
    }
}

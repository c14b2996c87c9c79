//! Bits of processes with two edges whose clock acts before the reset.

ghost use Rattle.std.specs.Prelude.{◌≡◌, List, Bool, IfOk, length, map};
ghost use Rattle.std.specs.List.{AllByRecursion};
ghost use Rattle.rtl_bits.specs.declared.bit.Bit.{Bit};
ghost use Rattle.rtl_ir.specs.Flat.Place.{Place};
ghost use Rattle.flat_net.specs.Points.{AreApart};
ghost use Rattle.flat_net.specs.Within.{IsHeldBitWithin, IsRacedWithin, IsTreeWithin};
ghost use Rattle.sim_eval.specs.Advance.{AreFewer, Takes};
ghost use Rattle.sim_eval.specs.Race.{IsClocked, raced_fact};

use crate::expand::{expanded_bits, source_bit, source_value};
use crate::raced::{edge_at, level_bit};
use crate::values::{bit_at, put, read};
use crate::walk::Leaves;
use cell_gate::{active, clock_before, pick};
use flat_net::{HeldBit, Raced};
use net_model::Order;
use rtl_bits::{Bit, Memory};
use std::alloc::Global;

/// A clock that acts before a reset: its edge, whether the reset is active now, and what the tree bits came to in the
/// step before with the reset as it was.
#[derive(Drop)]
pub(crate) struct Clocked {
    edge: Bit,
    active: Bit,
    was: Vec<Bit>,
}

/// Gives the bits what the clock and then the reset make of them. Answers whether one of them got a value.
pub(crate) fn update_clocked(
    alloc: Global,
    before: &[Bit],
    first: bool,
    raced: &Raced,
    now: &mut [Bit],
) -> Result<bool, Memory>
    ensures fewer { IfOk result (AreFewer now.old now.new) }
    ensures takes { IfOk result (λ changed. (ps : List Place) → AreApart ps → length ps ≡ length before.now →
        length ps ≡ length now.old → IsRacedWithin (length ps) raced.now →
        Takes ps (map (raced_fact ps before.now Order.Released first raced.now now.old) raced.now.bits) now.old now.new
        changed) }
{
    let clocked = new_clocked(alloc, before, first, raced, now)?;
    put_clocked(alloc, &clocked, before, raced, raced.bits.as_slice(), now)
}

/// Gives these bits what the clock and then the reset make of them. Answers whether one of them got a value.
fn put_clocked(
    alloc: Global,
    clocked: &Clocked,
    before: &[Bit],
    raced: &Raced,
    bits: &[HeldBit],
    now: &mut [Bit],
) -> Result<bool, Memory>
    ensures fewer { IfOk result (AreFewer now.old now.new) }
    ensures takes { IfOk result (λ changed. (ps : List Place) (first : Bool) (was : List Bit) → AreApart ps →
        length ps ≡ length before.now → length ps ≡ length now.old →
        IsClocked ps before.now first raced.now was clocked.now → IsTreeWithin (length ps) raced.now.tree →
        AllByRecursion (IsHeldBitWithin (length ps) raced.now.tree.width) bits.now →
        Takes ps (map (raced_fact ps before.now Order.Released first raced.now was) bits.now) now.old now.new changed) }
{
    let mut changed = false;
    for bit in bits {
        let value = clocked_bit(alloc, clocked, before, raced, bit)?;
        changed |= put(now, bit.number, value);
    }
    Ok(changed)
}

/// What the clock and then the reset make of a bit: while the reset is active it has its value under the active reset,
/// in which the bit itself has what the clock made of it.
fn clocked_bit(
    alloc: Global,
    clocked: &Clocked,
    before: &[Bit],
    raced: &Raced,
    bit: &HeldBit,
) -> Result<Bit, Memory>
    ensures value { IfOk result (λ value. (ps : List Place) (first : Bool) (was : List Bit) → AreApart ps →
        length ps ≡ length before.now → IsClocked ps before.now first raced.now was clocked.now →
        IsTreeWithin (length ps) raced.now.tree → IsHeldBitWithin (length ps) raced.now.tree.width bit.now →
        value ≡ (raced_fact ps before.now Order.Released first raced.now was bit.now).value) }
{
    let new = source_bit(before, Leaves::Values, clocked.was.as_slice(), bit.source);
    let taken = pick(clocked.edge, new, bit_at(before, bit.number));
    if clocked.active == Bit::S0 {
        return Ok(pick(clocked.active, taken, taken));
    }
    let under = source_value(
        alloc,
        before,
        level_bit(raced.reset_level),
        Leaves::Owned(bit.number, taken),
        &raced.tree,
        bit.source,
    )?;
    Ok(pick(clocked.active, under, taken))
}

/// The clock and the reset from the step before to now.
fn new_clocked(
    alloc: Global,
    before: &[Bit],
    first: bool,
    raced: &Raced,
    now: &[Bit],
) -> Result<Clocked, Memory>
    ensures value { IfOk result (λ clocked. (ps : List Place) → AreApart ps → length ps ≡ length before.now →
        length ps ≡ length now.now → IsRacedWithin (length ps) raced.now →
        IsClocked ps before.now first raced.now now.now clocked) }
{
    let reset = clock_before(first, read(before, raced.reset));
    Ok(Clocked {
        edge: edge_at(before, now, first, raced.clock, raced.clock_level),
        active: active(raced.reset_level, read(now, raced.reset)),
        was: expanded_bits(alloc, before, reset, Leaves::Values, &raced.tree)?,
    })
}

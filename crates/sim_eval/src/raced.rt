//! Bits of processes with two edges.

ghost use Rattle.std.specs.Prelude.{◌≡◌, ◌<◌, List, Bool, IfOk, length, map};
ghost use Rattle.std.specs.List.{AllByRecursion, list_all};
ghost use Rattle.rtl_bits.specs.declared.bit.Bit.{Bit};
ghost use Rattle.rtl_ir.specs.Flat.Place.{Place};
ghost use Rattle.net_model.specs.Value.{edge_at, level_bit};
ghost use Rattle.flat_net.specs.Parts.{raced_row};
ghost use Rattle.flat_net.specs.Points.{AreApart, point_of};
ghost use Rattle.flat_net.specs.Within.{IsHeldBitWithin, IsPointWithin, IsRacedWithin};
ghost use Rattle.sim_eval.specs.Advance.{Advances, AreFewer, Takes};
ghost use Rattle.sim_eval.specs.Moment.{IsBoard, time_of};
ghost use Rattle.sim_eval.specs.Race.{IsRace, held_has, raced_fact, start_fact};
ghost use Rattle.sim_eval.specs.Shown.{shown};

use crate::clocked::update_clocked;
use crate::expand::{expanded_bits, source_bit};
use crate::moment::Moment;
use crate::race::raced_of;
use crate::values::{bit_at, has_value, put, read};
use crate::walk::Leaves;
use cell_gate::{active, clock_before, edge};
use cell_types::Level;
use flat_net::{HeldBit, Point, Raced};
use net_model::Order;
use rtl_bits::{Bit, Memory};
use std::alloc::Global;

/// The race of a clock and a reset: their edges, and what the tree bits came to in the step before with the reset as it
/// was, as it is, and active.
#[derive(Drop)]
pub(crate) struct Race {
    clock_edge: Bit,
    reset_edge: Bit,
    was: Vec<Bit>,
    is: Vec<Bit>,
    active: Vec<Bit>,
}

/// Gives the bits their values, where they had none so far. Answers whether one of them got one.
pub(crate) fn update_raced(
    alloc: Global,
    moment: &Moment,
    raced: &Raced,
    now: &mut [Bit],
) -> Result<bool, Memory>
    ensures fewer { IfOk result (AreFewer now.old now.new) }
    ensures advances { IfOk result (λ changed. (ps : List Place) → IsBoard ps moment.now now.old →
        IsRacedWithin (length ps) raced.now →
        Advances ps (time_of ps moment.now) (map (raced_row ps raced.now) raced.now.bits) now.old now.new changed) }
{
    if have_values(raced.bits.as_slice(), now) {
        return Ok(false);
    }
    match moment {
        Moment::Start => Ok(put_starts(raced.bits.as_slice(), now)),
        Moment::Step {
            before,
            first,
            order,
            ..
        } => update_step(alloc, *order, before, *first, raced, now),
    }
}

/// Gives the bits what a step makes of them in an order of time. Answers whether one of them got a value.
fn update_step(
    alloc: Global,
    order: Order,
    before: &[Bit],
    first: bool,
    raced: &Raced,
    now: &mut [Bit],
) -> Result<bool, Memory>
    ensures fewer { IfOk result (AreFewer now.old now.new) }
    ensures takes { IfOk result (λ changed. (ps : List Place) → AreApart ps → length ps ≡ length before.now →
        length ps ≡ length now.old → IsRacedWithin (length ps) raced.now →
        Takes ps (map (raced_fact ps before.now order first raced.now now.old) raced.now.bits) now.old now.new changed) }
{
    match order {
        Order::Together => update_together(alloc, before, first, raced, now),
        Order::Released => update_clocked(alloc, before, first, raced, now),
    }
}

/// Gives the bits what the race of the clock and the reset makes of them. Answers whether one of them got a value.
fn update_together(
    alloc: Global,
    before: &[Bit],
    first: bool,
    raced: &Raced,
    now: &mut [Bit],
) -> Result<bool, Memory>
    ensures fewer { IfOk result (AreFewer now.old now.new) }
    ensures takes { IfOk result (λ changed. (ps : List Place) → AreApart ps → length ps ≡ length before.now →
        length ps ≡ length now.old → IsRacedWithin (length ps) raced.now →
        Takes ps (map (raced_fact ps before.now Order.Together first raced.now now.old) raced.now.bits) now.old now.new
        changed) }
{
    let race = new_race(alloc, before, first, raced, now)?;
    Ok(put_raced(&race, before, raced.bits.as_slice(), now))
}

/// Whether each of the bits has a value.
fn have_values(bits: &[HeldBit], now: &[Bit]) -> bool
    ensures value { result ≡ list_all (held_has now.now) bits.now }
{
    for bit in bits {
        if !has_value(now, bit.number) {
            return false;
        }
    }
    true
}

/// Gives the bits their start values. Answers whether one of them got one.
fn put_starts(bits: &[HeldBit], now: &mut [Bit]) -> bool
    ensures fewer { AreFewer now.old now.new result }
    ensures takes { (ps : List Place) → AreApart ps → length ps ≡ length now.old →
        AllByRecursion (λ (b : HeldBit). b.number < length ps) bits.now →
        Takes ps (map (start_fact ps) bits.now) now.old now.new result }
{
    let mut changed = false;
    for bit in bits {
        changed |= put(now, bit.number, bit.start);
    }
    changed
}

/// Gives the bits what the race makes of them. Answers whether one of them got a value.
fn put_raced(race: &Race, before: &[Bit], bits: &[HeldBit], now: &mut [Bit]) -> bool
    ensures fewer { AreFewer now.old now.new result }
    ensures takes { (ps : List Place) (first : Bool) (raced : Raced) (was : List Bit) → AreApart ps →
        length ps ≡ length before.now → length ps ≡ length now.old → IsRace ps before.now first raced was race.now →
        AllByRecursion (IsHeldBitWithin (length ps) raced.tree.width) bits.now →
        Takes ps (map (raced_fact ps before.now Order.Together first raced was) bits.now) now.old now.new result }
{
    let mut changed = false;
    for bit in bits {
        changed |= put(now, bit.number, raced_bit(race, before, bit));
    }
    changed
}

/// What the race makes of a bit.
fn raced_bit(race: &Race, before: &[Bit], bit: &HeldBit) -> Bit
    ensures value { (ps : List Place) (first : Bool) (raced : Raced) (was : List Bit) → AreApart ps →
        length ps ≡ length before.now → IsRace ps before.now first raced was race.now →
        IsHeldBitWithin (length ps) raced.tree.width bit.now →
        result ≡ (raced_fact ps before.now Order.Together first raced was bit.now).value }
{
    let was = source_bit(before, Leaves::Values, race.was.as_slice(), bit.source);
    let is = source_bit(before, Leaves::Values, race.is.as_slice(), bit.source);
    let active = source_bit(before, Leaves::Values, race.active.as_slice(), bit.source);
    let old = bit_at(before, bit.number);
    raced_of(race.clock_edge, race.reset_edge, was, is, active, old)
}

/// The race from the step before to now.
fn new_race(
    alloc: Global,
    before: &[Bit],
    first: bool,
    raced: &Raced,
    now: &[Bit],
) -> Result<Race, Memory>
    ensures value { IfOk result (λ race. (ps : List Place) → AreApart ps → length ps ≡ length before.now →
        length ps ≡ length now.now → IsRacedWithin (length ps) raced.now →
        IsRace ps before.now first raced.now now.now race) }
{
    let reset_before = clock_before(first, read(before, raced.reset));
    let reset_now = read(now, raced.reset);
    let reset_active = level_bit(raced.reset_level);
    Ok(Race {
        clock_edge: edge_at(before, now, first, raced.clock, raced.clock_level),
        reset_edge: edge_at(before, now, first, raced.reset, raced.reset_level),
        was: expanded_bits(alloc, before, reset_before, Leaves::Values, &raced.tree)?,
        is: expanded_bits(alloc, before, reset_now, Leaves::Values, &raced.tree)?,
        active: expanded_bits(alloc, before, reset_active, Leaves::Values, &raced.tree)?,
    })
}

/// The edge of a point to a level, from the step before to now. Before the first step all points count as unknown.
pub(crate) fn edge_at(before: &[Bit], now: &[Bit], first: bool, point: Point, level: Level) -> Bit
    ensures value { (ps : List Place) → AreApart ps → length ps ≡ length before.now → length ps ≡ length now.now →
        IsPointWithin (length ps) point →
        result ≡ edge_at (shown ps before.now) (shown ps now.now) first (point_of ps point) level }
{
    let was = clock_before(first, read(before, point));
    edge(active(level, was), active(level, read(now, point)))
}

/// The bit of a level.
pub(crate) fn level_bit(level: Level) -> Bit
    ensures value { result ≡ level_bit level }
{
    match level {
        Level::Low => Bit::S0,
        Level::High => Bit::S1,
    }
}

//! The words of memories.

ghost use Rattle.std.specs.Prelude.{◌≡◌, ◌<◌, List, [], ◌∷◌, IfOk, length, map, slice_index_or};
ghost use Rattle.std.specs.List.{AllByRecursion};
ghost use Rattle.cell_gate.specs.Control.{pick_of};
ghost use Rattle.rtl_ir.specs.Flat.Place.{Place};
ghost use Rattle.net_model.specs.Value.{value_of};
ghost use Rattle.net_model.specs.Words.{after_ports};
ghost use Rattle.flat_net.specs.Points.{AreApart};
ghost use Rattle.flat_net.specs.Within.{IsRememberedWithin, IsWritePortWithin};
ghost use Rattle.flat_net.specs.Words.{ported_of, ports_at, word_row};
ghost use Rattle.flat_net.specs.declared.memory.WordBit.{WordBit};
ghost use Rattle.sim_eval.specs.Advance.{Advances, AreFewer};
ghost use Rattle.sim_eval.specs.Moment.{IsBoard, time_of};
ghost use Rattle.sim_eval.specs.Shown.{shown};

use crate::moment::Moment;
use crate::raced::edge_at;
use crate::values::{bit_at, has_value, put};
use crate::written::written;
use cell_gate::pick;
use flat_net::{Remembered, WordBit, WritePort};
use rtl_bits::{Bit, Memory};
use std::alloc::Global;

/// Gives the bits of the words their values, where they had none so far. Answers whether one of them got one.
pub(crate) fn update_remembered(
    alloc: Global,
    moment: &Moment,
    words: &Remembered,
    now: &mut [Bit],
) -> Result<bool, Memory>
    ensures fewer { IfOk result (AreFewer now.old now.new) }
    ensures advances { IfOk result (λ changed. (ps : List Place) → IsBoard ps moment.now now.old →
        IsRememberedWithin (length ps) words.now →
        Advances ps (time_of ps moment.now) (map (word_row ps words.now) words.now.bits) now.old now.new changed) }
{
    update_words(alloc, moment, words, words.bits.as_slice(), now)
}

/// Gives these bits of the words their values. Answers whether one of them got one.
fn update_words(
    alloc: Global,
    moment: &Moment,
    words: &Remembered,
    bits: &[WordBit],
    now: &mut [Bit],
) -> Result<bool, Memory>
    ensures fewer { IfOk result (AreFewer now.old now.new) }
    ensures advances { IfOk result (λ changed. (ps : List Place) → IsBoard ps moment.now now.old →
        IsRememberedWithin (length ps) words.now → AllByRecursion (λ (b : WordBit). b.number < length ps) bits.now →
        Advances ps (time_of ps moment.now) (map (word_row ps words.now) bits.now) now.old now.new changed) }
{
    let mut changed = false;
    for bit in bits {
        changed |= update_word_bit(alloc, moment, words, bit, now)?;
    }
    Ok(changed)
}

/// Gives a bit of a word its value, where it had none so far. Answers whether it got one.
fn update_word_bit(
    alloc: Global,
    moment: &Moment,
    words: &Remembered,
    bit: &WordBit,
    now: &mut [Bit],
) -> Result<bool, Memory>
    ensures fewer { IfOk result (AreFewer now.old now.new) }
    ensures advances { IfOk result (λ changed. (ps : List Place) → IsBoard ps moment.now now.old →
        IsRememberedWithin (length ps) words.now → bit.now.number < length ps →
        Advances ps (time_of ps moment.now) (word_row ps words.now bit.now ∷ []) now.old now.new changed) }
{
    if has_value(now, bit.number) {
        return Ok(false);
    }
    let value = remembered(alloc, moment, words, bit, now)?;
    Ok(put(now, bit.number, value))
}

/// What a bit of a word has: before the first step its start value, else what the ports make of it at their clock's
/// edge.
fn remembered(
    alloc: Global,
    moment: &Moment,
    words: &Remembered,
    bit: &WordBit,
    now: &[Bit],
) -> Result<Bit, Memory>
    ensures value { IfOk result (λ value. (ps : List Place) → IsBoard ps moment.now now.now →
        IsRememberedWithin (length ps) words.now → bit.now.number < length ps →
        value_of (word_row ps words.now bit.now).driver (time_of ps moment.now) (shown ps now.now) ≡ value) }
{
    match moment {
        Moment::Start => Ok(bit.start),
        Moment::Step { before, first, .. } => {
            let edge = edge_at(before, now, *first, words.clock, words.level);
            at_edge(alloc, edge, before, words.ports.as_slice(), bit)
        }
    }
}

/// What the ports make of a bit at an edge. Where it is impossible nothing is written.
fn at_edge(
    alloc: Global,
    edge: Bit,
    before: &[Bit],
    ports: &[WritePort],
    bit: &WordBit,
) -> Result<Bit, Memory>
    ensures value { IfOk result (λ value. (ps : List Place) → AreApart ps → length ps ≡ length before.now →
        AllByRecursion (IsWritePortWithin (length ps)) ports.now →
        value ≡ pick_of edge (after_ports (shown ps before.now) bit.now.address []
        (ports_at bit.now.at [] (map (ported_of ps) ports.now)) (slice_index_or before.now bit.now.number Bit.X))
        (slice_index_or before.now bit.now.number Bit.X)) }
{
    let old = bit_at(before, bit.number);
    if edge == Bit::S0 {
        return Ok(pick(edge, old, old));
    }
    let new = written(alloc, before, ports, bit, old)?;
    Ok(pick(edge, new, old))
}

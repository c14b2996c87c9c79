//! Storage cells.

ghost use Rattle.std.specs.Prelude.{◌≡◌, List, [], ◌∷◌, ◌||◌, IsTrue, length, map};
ghost use Rattle.std.specs.List.{AllByRecursion};
ghost use Rattle.cell_gate.specs.Store.{IsStorage};
ghost use Rattle.rtl_ir.specs.Flat.Place.{Place};
ghost use Rattle.flat_net.specs.Parts.{store_row};
ghost use Rattle.flat_net.specs.Within.{IsStoreWithin};
ghost use Rattle.sim_eval.specs.Advance.{Advances, AreFewer};
ghost use Rattle.sim_eval.specs.Limits.{is_empty, is_storage, keeps_bits};
ghost use Rattle.sim_eval.specs.Moment.{IsBoard, time_of};
ghost use Rattle.sim_eval.specs.Numbers.{kept_of, number_pins};

use crate::moment::Moment;
use crate::released::next_bit;
use crate::values::{bit_at, put, read};
use cell_gate::Pins;
use cell_types::Shape;
use flat_net::{Storage, StoreBit, StorePins};
use rtl_bits::Bit;

/// Gives the bits that the cell keeps their values, where they had none so far. Answers whether one of them got one.
pub(crate) fn update_storage(moment: &Moment, cell: &Storage, now: &mut [Bit]) -> bool
    requires storage { IsTrue (keeps_bits cell.now) }
    ensures fewer { AreFewer now.old now.new result }
    ensures advances { (ps : List Place) → IsBoard ps moment.now now.old →
        AllByRecursion (IsStoreWithin (length ps)) cell.now.bits →
        Advances ps (time_of ps moment.now) (map (store_row ps cell.now.shape) cell.now.bits) now.old now.new result }
{
    update_bits(moment, &cell.shape, cell.bits.as_slice(), now)
}

/// Gives the bits of a cell of this shape their values. Answers whether one of them got one.
fn update_bits(moment: &Moment, shape: &Shape, bits: &[StoreBit], now: &mut [Bit]) -> bool
    requires storage { IsTrue (is_empty bits.now || is_storage shape.now.kind) }
    ensures fewer { AreFewer now.old now.new result }
    ensures advances { (ps : List Place) → IsBoard ps moment.now now.old →
        AllByRecursion (IsStoreWithin (length ps)) bits.now →
        Advances ps (time_of ps moment.now) (map (store_row ps shape.now) bits.now) now.old now.new result }
{
    let mut changed = false;
    for bit in bits {
        changed |= update_bit(moment, shape, bit, now);
    }
    changed
}

/// Gives a bit of a cell of this shape its value. Answers whether it got one.
fn update_bit(moment: &Moment, shape: &Shape, bit: &StoreBit, now: &mut [Bit]) -> bool
    requires storage { IsStorage shape.now.kind }
    ensures fewer { AreFewer now.old now.new result }
    ensures advances { (ps : List Place) → IsBoard ps moment.now now.old → IsStoreWithin (length ps) bit.now →
        Advances ps (time_of ps moment.now) (store_row ps shape.now bit.now ∷ []) now.old now.new result }
{
    let value = kept(moment, shape, bit, now);
    put(now, bit.number, value)
}

/// What a bit of a cell of this shape keeps.
fn kept(moment: &Moment, shape: &Shape, bit: &StoreBit, now: &[Bit]) -> Bit
    requires storage { IsStorage shape.now.kind }
    ensures value { result ≡ kept_of moment.now shape.now bit.now now.now }
{
    match moment {
        Moment::Start => bit.start,
        Moment::Step {
            before,
            first,
            order,
            ..
        } => {
            let before = pins_of(before, &bit.pins, bit.number);
            let now = pins_of(now, &bit.pins, bit.number);
            next_bit(*order, shape, bit.at, &before, &now, *first)
        }
    }
}

/// What a storage bit of this number has at its pins.
fn pins_of(values: &[Bit], pins: &StorePins, number: u32) -> Pins
    ensures value { result ≡ number_pins values.now pins.now number }
{
    Pins {
        clk: read(values, pins.clk),
        en: read(values, pins.en),
        arst: read(values, pins.arst),
        srst: read(values, pins.srst),
        aload: read(values, pins.aload),
        ad: read(values, pins.ad),
        set: read(values, pins.set),
        clr: read(values, pins.clr),
        d: read(values, pins.d),
        q: bit_at(values, number),
    }
}

//! One bit of a storage cell.

ghost use Rattle.std.specs.Prelude.{◌≡◌};
ghost use Rattle.cell_gate.specs.Storage.{acting_of, clocked_of, enabled_of, enabled_register_of, latch_of, next_of};
ghost use Rattle.cell_gate.specs.Storage.{register_of, set_or_cleared_of, store_bit_of, stored_of};
ghost use Rattle.cell_gate.specs.Store.{IsStorage};

use crate::control::{active, clock_before, edge, pick};
use crate::pins::Pins;
use crate::store::{Store, store_of};
use cell_types::{Levels, Shape, StorageKind};
use rtl_bits::Bit;

/// The output of a storage cell at a place, of that bit's pins in the step before and now; `first`
/// says that the step is the first. In the Yosys manual, "Word-level cells", the section
/// "Registers", and "Gate-level cells", the sections "Flip-flop cells" and "Latch cells".
///
/// An edge of the clock is certain, impossible or open, as the two steps say; in the first step the
/// clock of the step before is not known. Where a control or an edge is open, the bit is what its
/// two outcomes have in common. A place past the width has x for the value of a reset.
pub fn store_bit(shape: &Shape, at: u32, before: &Pins, now: &Pins, first: bool) -> Bit
    requires storage { IsStorage shape.now.kind }
    ensures value { result ≡ store_bit_of shape.now at before.now now.now first }
{
    stored(store_of(shape, at as usize), before, now, first)
}

/// What the bit holds, of its pins in the step before and now.
fn stored(store: Store, before: &Pins, now: &Pins, first: bool) -> Bit
    ensures value { result ≡ stored_of store before.now now.now first }
{
    let clk = clock_before(first, before.clk);
    let before = acting(store.levels, Pins { clk, ..*before });
    let now = acting(store.levels, *now);
    next(store.kind, store.value, before, now)
}

/// The pins, with each control as whether it is active.
fn acting(levels: Levels, pins: Pins) -> Pins
    ensures value { result ≡ acting_of levels pins }
{
    Pins {
        clk: active(levels.clk, pins.clk),
        en: active(levels.en, pins.en),
        arst: active(levels.arst, pins.arst),
        srst: active(levels.srst, pins.srst),
        aload: active(levels.aload, pins.aload),
        set: active(levels.set, pins.set),
        clr: active(levels.clr, pins.clr),
        ..pins
    }
}

/// The data at the clock edge, else the old output.
fn clocked(before: Pins, now: Pins, new: Bit) -> Bit
    ensures value { result ≡ clocked_of before now new }
{
    pick(edge(before.clk, now.clk), new, before.q)
}

/// The data where the enable is active, else the old output.
fn enabled(pins: Pins, new: Bit) -> Bit
    ensures value { result ≡ enabled_of pins new }
{
    pick(pins.en, new, pins.q)
}

/// 0 where the clear is active, 1 where the set is, else the other bit.
fn set_or_cleared(now: Pins, other: Bit) -> Bit
    ensures value { result ≡ set_or_cleared_of now other }
{
    pick(now.clr, Bit::S0, pick(now.set, Bit::S1, other))
}

fn register(before: Pins, now: Pins) -> Bit
    ensures value { result ≡ register_of before now }
{
    clocked(before, now, before.d)
}

fn enabled_register(before: Pins, now: Pins) -> Bit
    ensures value { result ≡ enabled_register_of before now }
{
    clocked(before, now, enabled(before, before.d))
}

fn latch(before: Pins, now: Pins) -> Bit
    ensures value { result ≡ latch_of before now }
{
    pick(now.en, now.d, before.q)
}

/// What the kind holds, of its acting pins and of the value that its reset gives.
fn next(kind: StorageKind, value: Bit, before: Pins, now: Pins) -> Bit
    ensures value { result ≡ next_of kind value before now }
{
    match kind {
        StorageKind::Ff => before.d.seen(),
        StorageKind::Dff => register(before, now),
        StorageKind::Dffe => enabled_register(before, now),
        StorageKind::Sdff => clocked(before, now, pick(before.srst, value, before.d)),
        StorageKind::Sdffe => {
            clocked(
                before,
                now,
                pick(before.srst, value, enabled(before, before.d)),
            )
        }
        StorageKind::Sdffce => {
            clocked(
                before,
                now,
                enabled(before, pick(before.srst, value, before.d)),
            )
        }
        StorageKind::Adff => pick(now.arst, value, register(before, now)),
        StorageKind::Adffe => pick(now.arst, value, enabled_register(before, now)),
        StorageKind::Aldff => pick(now.aload, now.ad, register(before, now)),
        StorageKind::Aldffe => pick(now.aload, now.ad, enabled_register(before, now)),
        StorageKind::Dffsr => set_or_cleared(now, register(before, now)),
        StorageKind::Dffsre => set_or_cleared(now, enabled_register(before, now)),
        StorageKind::Dlatch => latch(before, now),
        StorageKind::Adlatch => pick(now.arst, value, latch(before, now)),
        StorageKind::Dlatchsr => set_or_cleared(now, latch(before, now)),
        StorageKind::Sr => set_or_cleared(now, before.q),
    }
}

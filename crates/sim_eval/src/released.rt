//! Storage cells whose clock acts before their asynchronous controls.

ghost use Rattle.std.specs.Prelude.{◌≡◌};
ghost use Rattle.cell_gate.specs.Storage.{acting_of, enabled_of, set_or_cleared_of};
ghost use Rattle.cell_gate.specs.Store.{IsStorage, reset_at, storage_kind};
ghost use Rattle.net_model.specs.Order.{next_bit_of, released_of, taken_of, were_of};

use cell_gate::{Pins, active, clock_before, edge, pick, reset_at, storage_kind, store_bit};
use cell_types::{Levels, Shape, StorageKind};
use net_model::Order;
use rtl_bits::Bit;

/// The output of a storage cell at a place in an order of time, of that bit's pins in the step before and now; `first`
/// says that the step is the first.
pub(crate) fn next_bit(
    order: Order,
    shape: &Shape,
    at: u32,
    before: &Pins,
    now: &Pins,
    first: bool,
) -> Bit
    requires storage { IsStorage shape.now.kind }
    ensures value { result ≡ next_bit_of (record { first = first; order = order }) shape.now at before.now now.now }
{
    let together = store_bit(shape, at, before, now, first);
    match order {
        Order::Together => together,
        Order::Released => released_bit(shape, at, before, now, first, together),
    }
}

/// The output where the clock acts before the controls, of what it is in the other order.
fn released_bit(
    shape: &Shape,
    at: u32,
    before: &Pins,
    now: &Pins,
    first: bool,
    together: Bit,
) -> Bit
    ensures value { result ≡ released_of (storage_kind shape.now.kind)
        (reset_at (storage_kind shape.now.kind) shape.now.resets at) (acting_of shape.now.levels (were_of first before.now))
        (acting_of shape.now.levels now.now) together }
{
    let kind = storage_kind(shape.kind);
    let value = reset_at(kind, &shape.resets, at as usize);
    let before = acting(shape.levels, were(first, *before));
    let now = acting(shape.levels, *now);
    released(kind, value, before, now, together)
}

/// The pins of the step before, of which the clock and the asynchronous controls are not known in the first step.
fn were(first: bool, pins: Pins) -> Pins
    ensures value { result ≡ were_of first pins }
{
    Pins {
        clk: clock_before(first, pins.clk),
        arst: clock_before(first, pins.arst),
        aload: clock_before(first, pins.aload),
        set: clock_before(first, pins.set),
        clr: clock_before(first, pins.clr),
        ..pins
    }
}

/// The pins, with each control as whether it is active.
fn acting(levels: Levels, pins: Pins) -> Pins
    ensures value { result ≡ acting_of levels pins }
{
    Pins {
        clk: active(levels.clk, pins.clk),
        en: active(levels.en, pins.en),
        arst: active(levels.arst, pins.arst),
        srst: active(levels.srst, pins.srst),
        aload: active(levels.aload, pins.aload),
        set: active(levels.set, pins.set),
        clr: active(levels.clr, pins.clr),
        ..pins
    }
}

/// What the kind holds, of its acting pins, of the value that its reset gives, and of what it holds in the other order:
/// the control as it is now acts on what the clock made of the bit.
fn released(kind: StorageKind, value: Bit, before: Pins, now: Pins, together: Bit) -> Bit
    ensures value { result ≡ released_of kind value before now together }
{
    let clocked = pick(
        edge(before.clk, now.clk),
        taken(kind, value, before),
        before.q,
    );
    match kind {
        StorageKind::Adff | StorageKind::Adffe => pick(now.arst, value, clocked),
        StorageKind::Aldff | StorageKind::Aldffe => pick(now.aload, now.ad, clocked),
        StorageKind::Dffsr | StorageKind::Dffsre => set_or_cleared(now, clocked),
        _ => together,
    }
}

/// What the edge of the clock takes, of the acting pins of the step before: the data, under the control as it was.
fn taken(kind: StorageKind, value: Bit, before: Pins) -> Bit
    ensures value { result ≡ taken_of kind value before }
{
    match kind {
        StorageKind::Adff => pick(before.arst, value, before.d),
        StorageKind::Adffe => pick(before.arst, value, enabled(before)),
        StorageKind::Aldff => pick(before.aload, before.ad, before.d),
        StorageKind::Aldffe => pick(before.aload, before.ad, enabled(before)),
        StorageKind::Dffsr => set_or_cleared(before, before.d),
        StorageKind::Dffsre => set_or_cleared(before, enabled(before)),
        _ => before.d,
    }
}

/// The data where the enable is active, else the output.
fn enabled(pins: Pins) -> Bit
    ensures value { result ≡ enabled_of pins pins.d }
{
    pick(pins.en, pins.d, pins.q)
}

/// 0 where the clear is active, 1 where the set is, else the other bit.
fn set_or_cleared(pins: Pins, other: Bit) -> Bit
    ensures value { result ≡ set_or_cleared_of pins other }
{
    pick(pins.clr, Bit::S0, pick(pins.set, Bit::S1, other))
}

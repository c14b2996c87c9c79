//! The pins of the gate of a bit.

ghost use Rattle.std.specs.Prelude.{◌≡◌, IfOk};
ghost use Rattle.map_flop.specs.Pins.{gate_bit, gate_pin, gate_pins, pin_bit, reset_bit};

use cell_types::{CellKind, PinName, StorageGate, StorageKind, pins_of};
use gate_nets::pin_signal;
use rtl_bits::{Bit, Memory, Seq, Text};
use rtl_ir::{Cell, Pin};
use rtl_sig::{SigBit, SigSpec};
use std::alloc::Global;

/// The pins of the gate of the bit at a place: D, AD, the pins in the order of their letters, and Q, which
/// is the cell's own bit.
pub(crate) fn gate_pins(
    alloc: Global,
    kind: StorageKind,
    gate: StorageGate,
    cell: &Cell,
    at: usize,
    q: SigBit,
) -> Result<Seq<Pin>, Memory>
    ensures value { IfOk result (λ pins. pins ≡ gate_pins kind gate cell.now at q) }
{
    let names = pins_of(CellKind::StorageGate(gate));
    let mut pins = Vec::with_capacity(alloc, names.len())?;
    for name in names {
        let bit = gate_bit(kind, cell, at, q, *name);
        pins.push(gate_pin(alloc, *name, bit)?)?;
    }
    Ok(Seq::from_vec(pins))
}

/// A pin of one bit.
fn gate_pin(alloc: Global, name: PinName, bit: SigBit) -> Result<Pin, Memory>
    ensures value { IfOk result (λ pin. pin ≡ gate_pin name bit) }
{
    Ok(Pin {
        name: Text::from_slice(alloc, name.text())?,
        sig: SigSpec::from_slice(alloc, &[bit])?,
    })
}

/// The bit at this pin of the gate of the bit at a place.
fn gate_bit(kind: StorageKind, cell: &Cell, at: usize, q: SigBit, pin: PinName) -> SigBit
    ensures value { result ≡ gate_bit kind cell.now at q pin }
{
    match pin {
        PinName::C => pin_bit(cell, PinName::Clk, 0),
        PinName::E => pin_bit(cell, PinName::En, 0),
        PinName::L => pin_bit(cell, PinName::Aload, 0),
        PinName::S => pin_bit(cell, PinName::Set, at),
        PinName::R => reset_bit(kind, cell, at),
        PinName::Q => q,
        _ => pin_bit(cell, pin, at),
    }
}

/// The reset of the kind, or its clear of the bit.
fn reset_bit(kind: StorageKind, cell: &Cell, at: usize) -> SigBit
    ensures value { result ≡ reset_bit kind cell.now at }
{
    match kind {
        StorageKind::Adff | StorageKind::Adffe | StorageKind::Adlatch => {
            pin_bit(cell, PinName::Arst, 0)
        }
        StorageKind::Sdff | StorageKind::Sdffe | StorageKind::Sdffce => {
            pin_bit(cell, PinName::Srst, 0)
        }
        _ => pin_bit(cell, PinName::Clr, at),
    }
}

/// The bit at a place of a pin, x past its end.
fn pin_bit(cell: &Cell, name: PinName, at: usize) -> SigBit
    ensures value { result ≡ pin_bit cell.now name at }
{
    match pin_signal(cell, name).get(at) {
        Some(bit) => *bit,
        None => SigBit::Fixed(Bit::X),
    }
}

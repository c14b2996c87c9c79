//! Which pins each cell has.

ghost use Rattle.std.specs.Prelude.{◌≡◌};
ghost use Rattle.cell_types.specs.Pins.{pins_of, word_pins, gate_pins, storage_pins, storage_gate_pins, memory_pins};

use crate::gate::GateKind;
use crate::kind::CellKind;
use crate::memory::MemoryKind;
use crate::pin_name::PinName;
use crate::storage::StorageKind;
use crate::storage_gate::StorageGate;
use crate::word::WordKind;
use PinName::{A, Ad, Addr, Aload, Arst, B, C, Clk, Clr, D, Data, E, En, L, Q, R, S, Set, Srst, Y};

/// The pins of a cell, in the order in which new cells write them.
pub fn pins_of(kind: CellKind) -> &'static [PinName]
    ensures value { result.now ≡ pins_of kind }
{
    match kind {
        CellKind::Word(kind) => word_pins(kind),
        CellKind::Gate(kind) => gate_pins(kind),
        CellKind::Storage(kind) => storage_pins(kind),
        CellKind::StorageGate(gate) => storage_gate_pins(gate),
        CellKind::Memory(kind) => memory_pins(kind),
    }
}

#[rattlefmt::skip]
fn word_pins(kind: WordKind) -> &'static [PinName]
    ensures value { result.now ≡ word_pins kind }
{
    match kind {
        WordKind::Unary(_) | WordKind::Fold(_) => &[A, Y],
        WordKind::Mux => &[A, B, S, Y],
        WordKind::Pmux => &[A, B, S, Y],
        WordKind::Slice => &[A, Y],
        WordKind::Buf => &[A, Y],
        WordKind::Bwmux => &[A, B, S, Y],
        WordKind::Bmux => &[A, S, Y],
        WordKind::Demux => &[A, S, Y],
        WordKind::Concat => &[A, B, Y],
        _ => &[A, B, Y],
    }
}

#[rattlefmt::skip]
fn gate_pins(kind: GateKind) -> &'static [PinName]
    ensures value { result.now ≡ gate_pins kind }
{
    match kind {
        GateKind::Buf | GateKind::Not => &[A, Y],
        GateKind::Mux | GateKind::Nmux => &[A, B, S, Y],
        _ => &[A, B, Y],
    }
}

#[rattlefmt::skip]
fn storage_pins(kind: StorageKind) -> &'static [PinName]
    ensures value { result.now ≡ storage_pins kind }
{
    match kind {
        StorageKind::Ff => &[D, Q],
        StorageKind::Dff => &[Clk, D, Q],
        StorageKind::Dffe => &[Clk, En, D, Q],
        StorageKind::Sdff => &[Clk, Srst, D, Q],
        StorageKind::Sdffe => &[Clk, En, Srst, D, Q],
        StorageKind::Sdffce => &[Clk, En, Srst, D, Q],
        StorageKind::Adff => &[Clk, Arst, D, Q],
        StorageKind::Adffe => &[Clk, En, Arst, D, Q],
        StorageKind::Aldff => &[Clk, Aload, Ad, D, Q],
        StorageKind::Aldffe => &[Clk, En, Aload, Ad, D, Q],
        StorageKind::Dffsr => &[Clk, Set, Clr, D, Q],
        StorageKind::Dffsre => &[Clk, En, Set, Clr, D, Q],
        StorageKind::Dlatch => &[En, D, Q],
        StorageKind::Adlatch => &[En, Arst, D, Q],
        StorageKind::Dlatchsr => &[En, Set, Clr, D, Q],
        StorageKind::Sr => &[Set, Clr, Q],
    }
}

#[rattlefmt::skip]
fn storage_gate_pins(gate: StorageGate) -> &'static [PinName]
    ensures value { result.now ≡ storage_gate_pins gate }
{
    match gate {
        StorageGate::Ff => &[D, Q],
        StorageGate::Dff { .. } => &[D, C, Q],
        StorageGate::Dffe { .. } => &[D, C, E, Q],
        StorageGate::Adff { .. } => &[D, C, R, Q],
        StorageGate::Adffe { .. } => &[D, C, R, E, Q],
        StorageGate::Sdff { .. } => &[D, C, R, Q],
        StorageGate::Sdffe { .. } => &[D, C, R, E, Q],
        StorageGate::Sdffce { .. } => &[D, C, R, E, Q],
        StorageGate::Dffsr { .. } => &[D, C, S, R, Q],
        StorageGate::Dffsre { .. } => &[D, C, S, R, E, Q],
        StorageGate::Aldff { .. } => &[D, Ad, C, L, Q],
        StorageGate::Aldffe { .. } => &[D, Ad, C, L, E, Q],
        StorageGate::Dlatch { .. } => &[D, E, Q],
        StorageGate::Adlatch { .. } => &[D, E, R, Q],
        StorageGate::Dlatchsr { .. } => &[D, E, S, R, Q],
        StorageGate::Sr { .. } => &[S, R, Q],
    }
}

#[rattlefmt::skip]
fn memory_pins(kind: MemoryKind) -> &'static [PinName]
    ensures value { result.now ≡ memory_pins kind }
{
    match kind {
        MemoryKind::Memrd => &[Clk, En, Addr, Data],
        MemoryKind::MemrdV2 => &[Clk, En, Arst, Srst, Addr, Data],
        MemoryKind::MemwrV2 => &[Clk, En, Addr, Data],
        MemoryKind::Meminit => &[Addr, Data],
        MemoryKind::MeminitV2 => &[Addr, Data, En],
    }
}

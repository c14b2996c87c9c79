//! The gate that keeps a bit of a storage cell.

ghost use Rattle.std.specs.Prelude.{◌≡◌};
ghost use Rattle.map_flop.specs.Gate.{bit_gate, gate_for, is_one};

use cell_gate::reset_at;
use cell_types::{Levels, Shape, StorageGate, StorageKind};
use rtl_bits::Bit;

/// The gate of the bit at a place of a storage cell of this kind.
pub(crate) fn bit_gate(kind: StorageKind, shape: &Shape, at: usize) -> StorageGate
    ensures value { result ≡ bit_gate kind shape.now at }
{
    let value = reset_at(kind, &shape.resets, at);
    gate_for(kind, shape.levels, is_one(value))
}

/// The gate of one bit with the meaning of the kind, these levels, and this value at a reset.
#[rattlefmt::skip]
fn gate_for(kind: StorageKind, levels: Levels, value: bool) -> StorageGate
    ensures value { result ≡ gate_for kind levels value }
{
    let Levels { clk, en, arst, srst, aload, set, clr } = levels;
    match kind {
        StorageKind::Ff => StorageGate::Ff,
        StorageKind::Dff => StorageGate::Dff { clk },
        StorageKind::Dffe => StorageGate::Dffe { clk, en },
        StorageKind::Sdff => StorageGate::Sdff { clk, srst, value },
        StorageKind::Sdffe => StorageGate::Sdffe { clk, srst, value, en },
        StorageKind::Sdffce => StorageGate::Sdffce { clk, srst, value, en },
        StorageKind::Adff => StorageGate::Adff { clk, arst, value },
        StorageKind::Adffe => StorageGate::Adffe { clk, arst, value, en },
        StorageKind::Aldff => StorageGate::Aldff { clk, aload },
        StorageKind::Aldffe => StorageGate::Aldffe { clk, aload, en },
        StorageKind::Dffsr => StorageGate::Dffsr { clk, set, clr },
        StorageKind::Dffsre => StorageGate::Dffsre { clk, set, clr, en },
        StorageKind::Dlatch => StorageGate::Dlatch { en },
        StorageKind::Adlatch => StorageGate::Adlatch { en, arst, value },
        StorageKind::Dlatchsr => StorageGate::Dlatchsr { en, set, clr },
        StorageKind::Sr => StorageGate::Sr { set, clr },
    }
}

/// Whether the bit is 1. A bit that is not known counts as 0.
fn is_one(bit: Bit) -> bool
    ensures value { result ≡ is_one bit }
{
    match bit {
        Bit::S1 => true,
        _ => false,
    }
}

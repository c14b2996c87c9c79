//! Gates for storage cells.
#![tactic(auto)]

mod gate;
mod pins;

ghost use Rattle.std.specs.Prelude.{◌≡◌, Err, OnOk};
ghost use Rattle.net_index.specs.Builder.{IsInLimits, PassesLimit};
ghost use Rattle.map_laws.specs.Expansion.{ExpandsMapped, StandsForMapped};
ghost use Rattle.map_flop.specs.Expand.{is_mapped, map_of, storage_gate, storage_gates};

use crate::gate::bit_gate;
use crate::pins::gate_pins;
use cell_types::{CellKind, PinName, Shape, StorageGate, StorageKind};
use gate_nets::pin_signal;
use net_index::{Builder, PassFault};
use rtl_ir::Cell;
use rtl_sig::SigBit;
use std::alloc::Global;

/// Adds the gates that stand for the cell, where it is a storage cell on words: one for each bit, bits
/// rising, which drives that bit of Q itself. A reset value that is not known becomes 0. A cell of
/// another kind adds nothing. After an error the builder holds some of the gates, and is to be given up.
/// In the Yosys manual, "Gate-level cells", the sections "Flip-flop cells" and "Latch cells".
pub fn expand(
    alloc: Global,
    cell: &Cell,
    shape: &Shape,
    builder: &mut Builder,
) -> Result<(), PassFault>
    ensures exact { OnOk result (builder.new ≡ map_of shape.now cell.now builder.old) }
    ensures over { result ≡ Err PassFault.Over → PassesLimit (map_of shape.now cell.now builder.old) }
    ensures within { IsInLimits builder.old → OnOk result (IsInLimits builder.new) }
    ensures expansion { OnOk result (ExpandsMapped is_mapped shape.now cell.now builder.old builder.new) }
    ensures refines { OnOk result (StandsForMapped is_mapped shape.now cell.now builder.old builder.new) }
{
    add_gates(alloc, cell, shape, builder)
}

/// The gates by the kind of the cell.
fn add_gates(
    alloc: Global,
    cell: &Cell,
    shape: &Shape,
    builder: &mut Builder,
) -> Result<(), PassFault>
    ensures exact { OnOk result (builder.new ≡ map_of shape.now cell.now builder.old) }
    ensures over { result ≡ Err PassFault.Over → PassesLimit (map_of shape.now cell.now builder.old) }
    ensures within { IsInLimits builder.old → OnOk result (IsInLimits builder.new) }
{
    match shape.kind {
        CellKind::Storage(kind) => storage_gates(alloc, kind, shape, cell, builder),
        _ => Ok(()),
    }
}

/// A gate for each bit of Q.
fn storage_gates(
    alloc: Global,
    kind: StorageKind,
    shape: &Shape,
    cell: &Cell,
    builder: &mut Builder,
) -> Result<(), PassFault>
    ensures exact { OnOk result (builder.new ≡ storage_gates kind shape.now cell.now builder.old) }
    ensures over { result ≡ Err PassFault.Over → PassesLimit (storage_gates kind shape.now cell.now builder.old) }
    ensures within { IsInLimits builder.old → OnOk result (IsInLimits builder.new) }
{
    let qs = pin_signal(cell, PinName::Q);
    for (at, q) in qs.iter().enumerate() {
        let gate = bit_gate(kind, shape, at);
        storage_gate(alloc, kind, gate, cell, OutputBit { at, q: *q }, builder)?;
    }
    Ok(())
}

/// A bit of Q: its place, and the bit itself.
#[derive(Clone, Copy)]
struct OutputBit {
    at: usize,
    q: SigBit,
}

/// The gate of a bit, which drives this bit of Q.
fn storage_gate(
    alloc: Global,
    kind: StorageKind,
    gate: StorageGate,
    cell: &Cell,
    output: OutputBit,
    builder: &mut Builder,
) -> Result<(), PassFault>
    ensures exact { OnOk result (builder.new ≡ storage_gate kind gate cell.now output.at output.q builder.old) }
    ensures over { result ≡ Err PassFault.Over →
        PassesLimit (storage_gate kind gate cell.now output.at output.q builder.old) }
    ensures within { OnOk result (IsInLimits builder.new) }
{
    let pins = gate_pins(alloc, kind, gate, cell, output.at, output.q)?;
    builder.add_cell(CellKind::StorageGate(gate), &[], pins.as_slice())?;
    Ok(())
}

//! Gates of one bit.

ghost use Rattle.std.specs.Prelude.{◌≡◌, Err, OnOk};
ghost use Rattle.net_index.specs.Builder.{IsInLimits, PassesLimit};
ghost use Rattle.map_gates.specs.Gates.{binary_gate, mux_gate, unary_gate};

use cell_types::{CellKind, GateKind, PinName};
use gate_nets::one;
use net_index::{Builder, PassFault};
use rtl_sig::SigBit;
use std::alloc::Global;

/// A gate of one input, which drives this bit.
pub(crate) fn unary_gate(
    alloc: Global,
    kind: GateKind,
    a: SigBit,
    y: SigBit,
    builder: &mut Builder,
) -> Result<(), PassFault>
    ensures exact { OnOk result (builder.new ≡ unary_gate kind a y builder.old) }
    ensures over { result ≡ Err PassFault.Over → PassesLimit (unary_gate kind a y builder.old) }
    ensures within { OnOk result (IsInLimits builder.new) }
{
    let pins = [one(alloc, PinName::A, a)?, one(alloc, PinName::Y, y)?];
    builder.add_cell(CellKind::Gate(kind), &[], &pins)?;
    Ok(())
}

/// A gate of two inputs, which drives this bit.
pub(crate) fn binary_gate(
    alloc: Global,
    kind: GateKind,
    a: SigBit,
    b: SigBit,
    y: SigBit,
    builder: &mut Builder,
) -> Result<(), PassFault>
    ensures exact { OnOk result (builder.new ≡ binary_gate kind a b y builder.old) }
    ensures over { result ≡ Err PassFault.Over → PassesLimit (binary_gate kind a b y builder.old) }
    ensures within { OnOk result (IsInLimits builder.new) }
{
    let pins = [
        one(alloc, PinName::A, a)?,
        one(alloc, PinName::B, b)?,
        one(alloc, PinName::Y, y)?,
    ];
    builder.add_cell(CellKind::Gate(kind), &[], &pins)?;
    Ok(())
}

/// A multiplexer of one bit, which drives this bit.
pub(crate) fn mux_gate(
    alloc: Global,
    a: SigBit,
    b: SigBit,
    s: SigBit,
    y: SigBit,
    builder: &mut Builder,
) -> Result<(), PassFault>
    ensures exact { OnOk result (builder.new ≡ mux_gate a b s y builder.old) }
    ensures over { result ≡ Err PassFault.Over → PassesLimit (mux_gate a b s y builder.old) }
    ensures within { OnOk result (IsInLimits builder.new) }
{
    let pins = [
        one(alloc, PinName::A, a)?,
        one(alloc, PinName::B, b)?,
        one(alloc, PinName::S, s)?,
        one(alloc, PinName::Y, y)?,
    ];
    builder.add_cell(CellKind::Gate(GateKind::Mux), &[], &pins)?;
    Ok(())
}

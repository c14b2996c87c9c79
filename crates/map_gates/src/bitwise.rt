//! The gates of the cells that work bit by bit: each drives its bit of Y.

ghost use Rattle.std.specs.Prelude.{◌≡◌, Err, OnOk};
ghost use Rattle.net_index.specs.Builder.{IsInLimits, PassesLimit};
ghost use Rattle.map_gates.specs.Bitwise.{binary_gates, bwmux_gates, mux_gates, unary_gates};

use crate::gate::{binary_gate, mux_gate, unary_gate};
use crate::operand::bit_at;
use cell_types::GateKind;
use net_index::{Builder, PassFault};
use rtl_sig::SigBit;
use std::alloc::Global;

/// A gate of one input for each bit of Y.
pub(crate) fn unary_gates(
    alloc: Global,
    kind: GateKind,
    signed: bool,
    a: &[SigBit],
    y: &[SigBit],
    builder: &mut Builder,
) -> Result<(), PassFault>
    ensures exact { OnOk result (builder.new ≡ unary_gates kind signed a.now y.now builder.old) }
    ensures over { result ≡ Err PassFault.Over → PassesLimit (unary_gates kind signed a.now y.now builder.old) }
    ensures within { IsInLimits builder.old → OnOk result (IsInLimits builder.new) }
{
    for (at, bit) in y.iter().enumerate() {
        unary_gate(alloc, kind, bit_at(signed, a, at), *bit, builder)?;
    }
    Ok(())
}

/// A gate of two inputs for each bit of Y.
pub(crate) fn binary_gates(
    kind: GateKind,
    signed: bool,
    a: &[SigBit],
    b: &[SigBit],
    y: &[SigBit],
    builder: &mut Builder,
) -> Result<(), PassFault>
    ensures exact { OnOk result (builder.new ≡ binary_gates kind signed a.now b.now y.now builder.old) }
    ensures over { result ≡ Err PassFault.Over → PassesLimit (binary_gates kind signed a.now b.now y.now builder.old) }
    ensures within { IsInLimits builder.old → OnOk result (IsInLimits builder.new) }
{
    let alloc = builder.allocator();
    for (at, bit) in y.iter().enumerate() {
        let left = bit_at(signed, a, at);
        let right = bit_at(signed, b, at);
        binary_gate(alloc, kind, left, right, *bit, builder)?;
    }
    Ok(())
}

/// A multiplexer of one bit for each bit of Y.
pub(crate) fn mux_gates(
    alloc: Global,
    a: &[SigBit],
    b: &[SigBit],
    s: SigBit,
    y: &[SigBit],
    builder: &mut Builder,
) -> Result<(), PassFault>
    ensures exact { OnOk result (builder.new ≡ mux_gates a.now b.now s y.now builder.old) }
    ensures over { result ≡ Err PassFault.Over → PassesLimit (mux_gates a.now b.now s y.now builder.old) }
    ensures within { IsInLimits builder.old → OnOk result (IsInLimits builder.new) }
{
    for (at, bit) in y.iter().enumerate() {
        let low = bit_at(false, a, at);
        let high = bit_at(false, b, at);
        mux_gate(alloc, low, high, s, *bit, builder)?;
    }
    Ok(())
}

/// A multiplexer of one bit for each bit of Y, each with its own bit of S.
pub(crate) fn bwmux_gates(
    alloc: Global,
    a: &[SigBit],
    b: &[SigBit],
    s: &[SigBit],
    y: &[SigBit],
    builder: &mut Builder,
) -> Result<(), PassFault>
    ensures exact { OnOk result (builder.new ≡ bwmux_gates a.now b.now s.now y.now builder.old) }
    ensures over { result ≡ Err PassFault.Over → PassesLimit (bwmux_gates a.now b.now s.now y.now builder.old) }
    ensures within { IsInLimits builder.old → OnOk result (IsInLimits builder.new) }
{
    for (at, bit) in y.iter().enumerate() {
        let low = bit_at(false, a, at);
        let high = bit_at(false, b, at);
        let select = bit_at(false, s, at);
        mux_gate(alloc, low, high, select, *bit, builder)?;
    }
    Ok(())
}

//! One gate with a fresh wire at its output.

ghost use Rattle.std.specs.Prelude.{◌≡◌, Err, IfOk, OnOk};
ghost use Rattle.net_index.specs.Builder.{IsInLimits, PassesLimit};
ghost use Rattle.gate_nets.specs.Gate.{gate_for, gate_of, inputs_of, kind_of, one};

use cell_types::{BitwiseKind, CellKind, GateKind, PinName};
use net_index::{Builder, PassFault};
use rtl_bits::{Memory, Text};
use rtl_ir::Pin;
use rtl_sig::{SigBit, SigSpec, WireBit};
use std::alloc::Global;

/// A gate of one bit, with its inputs.
#[derive(Clone, Copy, Debug, PartialEq, Eq)]
pub enum Gate {
    /// The inverse of a bit.
    Not(SigBit),
    /// What the kind makes of two bits.
    Bitwise(BitwiseKind, SigBit, SigBit),
    /// The first bit where the third is 0, the second where it is 1.
    Mux(SigBit, SigBit, SigBit),
}

/// The gate that does with bits what the kind does with words.
pub fn gate_for(kind: BitwiseKind) -> GateKind
    ensures value { result ≡ gate_for kind }
{
    match kind {
        BitwiseKind::And => GateKind::And,
        BitwiseKind::Or => GateKind::Or,
        BitwiseKind::Xor => GateKind::Xor,
        BitwiseKind::Xnor => GateKind::Xnor,
    }
}

/// A pin of one bit.
pub fn one(alloc: Global, name: PinName, bit: SigBit) -> Result<Pin, Memory>
    ensures value { IfOk result (λ pin. pin ≡ one name bit) }
{
    Ok(Pin {
        name: Text::from_slice(alloc, name.text())?,
        sig: SigSpec::from_slice(alloc, &[bit])?,
    })
}

/// The kind of the gate.
fn kind_of(gate: Gate) -> GateKind
    ensures value { result ≡ kind_of gate }
{
    match gate {
        Gate::Not(_) => GateKind::Not,
        Gate::Bitwise(kind, _, _) => gate_for(kind),
        Gate::Mux(_, _, _) => GateKind::Mux,
    }
}

/// The pins at which the gate has its inputs.
fn inputs_of(alloc: Global, gate: Gate) -> Result<Vec<Pin>, Memory>
    ensures value { IfOk result (λ pins. pins.items ≡ inputs_of gate) }
{
    let mut pins = Vec::new(alloc);
    match gate {
        Gate::Not(a) => pins.push(one(alloc, PinName::A, a)?)?,
        Gate::Bitwise(_, a, b) => {
            pins.push(one(alloc, PinName::A, a)?)?;
            pins.push(one(alloc, PinName::B, b)?)?;
        }
        Gate::Mux(a, b, s) => {
            pins.push(one(alloc, PinName::A, a)?)?;
            pins.push(one(alloc, PinName::B, b)?)?;
            pins.push(one(alloc, PinName::S, s)?)?;
        }
    }
    Ok(pins)
}

/// Puts the gate last, under the next fresh name, and a fresh wire of one bit at its output Y, under the
/// name behind it. The answer is the wire's bit. `Over` comes where the module would pass a limit.
#[tactic(auto, unfolding(crate::specs::Gate::gate_of))]
pub fn add_gate(alloc: Global, gate: Gate, builder: &mut Builder) -> Result<SigBit, PassFault>
    ensures exact { IfOk result (λ bit. (bit, builder.new) ≡ gate_of gate builder.old) }
    ensures over { result ≡ Err PassFault.Over → PassesLimit (gate_of gate builder.old).1 }
    ensures within { OnOk result (IsInLimits builder.new) }
{
    let pins = inputs_of(alloc, gate)?;
    let kind = CellKind::Gate(kind_of(gate));
    let wire = builder.add_driver(kind, &[], pins.as_slice(), PinName::Y.text(), 1)?;
    Ok(SigBit::Wire(WireBit { wire, at: 0 }))
}

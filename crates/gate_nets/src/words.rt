//! Nets that work on words bit by bit.

ghost use Rattle.std.specs.Prelude.{◌≡◌, Err, IfOk, OnOk};
ghost use Rattle.net_index.specs.Builder.{IsInLimits, PassesLimit};
ghost use Rattle.gate_nets.specs.Words.{bitwise_of, inverse_of, select_of};

use crate::gate::{Gate, add_gate};
use cell_types::BitwiseKind;
use net_index::{Builder, PassFault};
use rtl_sig::{SigBit, SigSpec};
use std::alloc::Global;

/// The inverse of each bit.
pub fn invert(alloc: Global, bits: &[SigBit], builder: &mut Builder) -> Result<SigSpec, PassFault>
    ensures exact { IfOk result (λ inverse. (inverse, builder.new) ≡ inverse_of bits.now builder.old) }
    ensures over { result ≡ Err PassFault.Over → PassesLimit (inverse_of bits.now builder.old).1 }
    ensures within { IsInLimits builder.old → OnOk result (IsInLimits builder.new) }
{
    let mut made = SigSpec::make(alloc);
    for bit in bits {
        made.push(add_gate(alloc, Gate::Not(*bit), builder)?)?;
    }
    Ok(made)
}

/// What the kind makes of each two bits of two words, as far as both go.
pub fn bitwise(
    alloc: Global,
    kind: BitwiseKind,
    a: &[SigBit],
    b: &[SigBit],
    builder: &mut Builder,
) -> Result<SigSpec, PassFault>
    ensures exact { IfOk result (λ word. (word, builder.new) ≡ bitwise_of kind a.now b.now builder.old) }
    ensures over { result ≡ Err PassFault.Over → PassesLimit (bitwise_of kind a.now b.now builder.old).1 }
    ensures within { IsInLimits builder.old → OnOk result (IsInLimits builder.new) }
{
    let mut made = SigSpec::make(alloc);
    for at in 0..a.len().min(b.len()) {
        made.push(add_gate(alloc, Gate::Bitwise(kind, a[at], b[at]), builder)?)?;
    }
    Ok(made)
}

/// The bits of `a` where `s` is 0, those of `b` where it is 1, as far as both go.
pub fn select(
    alloc: Global,
    a: &[SigBit],
    b: &[SigBit],
    s: SigBit,
    builder: &mut Builder,
) -> Result<SigSpec, PassFault>
    ensures exact { IfOk result (λ word. (word, builder.new) ≡ select_of a.now b.now s builder.old) }
    ensures over { result ≡ Err PassFault.Over → PassesLimit (select_of a.now b.now s builder.old).1 }
    ensures within { IsInLimits builder.old → OnOk result (IsInLimits builder.new) }
{
    let mut made = SigSpec::make(alloc);
    for at in 0..a.len().min(b.len()) {
        made.push(add_gate(alloc, Gate::Mux(a[at], b[at], s), builder)?)?;
    }
    Ok(made)
}

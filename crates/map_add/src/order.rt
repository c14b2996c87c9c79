//! The order of two words of one width.

ghost use Rattle.std.specs.Prelude.{◌≡◌, Err, IfOk, OnOk};
ghost use Rattle.net_index.specs.Builder.{IsInLimits, PassesLimit};
ghost use Rattle.map_add.specs.Order.{less_of, not_less_of, order_of, ranked_of, top_inverted};

use crate::sums::difference;
use cell_types::OrderKind;
use gate_nets::{Gate, add_gate};
use net_index::{Builder, PassFault};
use rtl_sig::{SigBit, SigSpec};
use std::alloc::Global;

/// A word with its top bit inverted.
fn top_inverted(alloc: Global, bits: &[SigBit], builder: &mut Builder) -> Result<SigSpec, PassFault>
    ensures exact { IfOk result (λ word. (word, builder.new) ≡ top_inverted bits.now builder.old) }
    ensures over { result ≡ Err PassFault.Over → PassesLimit (top_inverted bits.now builder.old).1 }
    ensures within { IsInLimits builder.old → OnOk result (IsInLimits builder.new) }
{
    let Some((top, below)) = bits.split_last() else {
        return Ok(SigSpec::make(alloc));
    };
    let inverse = add_gate(alloc, Gate::Not(*top), builder)?;
    let mut word = SigSpec::from_slice(alloc, below)?;
    word.push(inverse)?;
    Ok(word)
}

/// A word as numbers are compared: of a signed one the top bit is inverted, so that negative numbers come
/// first.
fn ranked(
    alloc: Global,
    signed: bool,
    bits: &[SigBit],
    builder: &mut Builder,
) -> Result<SigSpec, PassFault>
    ensures exact { IfOk result (λ word. (word, builder.new) ≡ ranked_of signed bits.now builder.old) }
    ensures over { result ≡ Err PassFault.Over → PassesLimit (ranked_of signed bits.now builder.old).1 }
    ensures within { IsInLimits builder.old → OnOk result (IsInLimits builder.new) }
{
    if signed {
        top_inverted(alloc, bits, builder)
    } else {
        Ok(SigSpec::from_slice(alloc, bits)?)
    }
}

/// Whether `a` is less than `b`: the difference has no carry.
#[tactic(auto, using(crate::proofs::Limits::ranked_limits, crate::proofs::Limits::difference_limits, gate_nets::proofs::Added::one_limits), unfolding(gate_nets::specs::Gate::after))]
fn less(
    alloc: Global,
    signed: bool,
    a: &[SigBit],
    b: &[SigBit],
    builder: &mut Builder,
) -> Result<SigBit, PassFault>
    ensures exact { IfOk result (λ bit. (bit, builder.new) ≡ less_of signed a.now b.now builder.old) }
    ensures over { result ≡ Err PassFault.Over → PassesLimit (less_of signed a.now b.now builder.old).1 }
    ensures within { OnOk result (IsInLimits builder.new) }
{
    let x = ranked(alloc, signed, a, builder)?;
    let y = ranked(alloc, signed, b, builder)?;
    let total = difference(alloc, x.as_slice(), y.as_slice(), builder)?;
    add_gate(alloc, Gate::Not(total.carry), builder)
}

/// Whether `a` is not less than `b`.
#[tactic(auto, using(gate_nets::proofs::Added::one_limits), unfolding(gate_nets::specs::Gate::after))]
fn not_less(
    alloc: Global,
    signed: bool,
    a: &[SigBit],
    b: &[SigBit],
    builder: &mut Builder,
) -> Result<SigBit, PassFault>
    ensures exact { IfOk result (λ bit. (bit, builder.new) ≡ not_less_of signed a.now b.now builder.old) }
    ensures over { result ≡ Err PassFault.Over → PassesLimit (not_less_of signed a.now b.now builder.old).1 }
    ensures within { OnOk result (IsInLimits builder.new) }
{
    let bit = less(alloc, signed, a, b, builder)?;
    add_gate(alloc, Gate::Not(bit), builder)
}

/// Whether two words stand in the order of the kind.
pub(crate) fn order(
    alloc: Global,
    kind: OrderKind,
    signed: bool,
    a: &[SigBit],
    b: &[SigBit],
    builder: &mut Builder,
) -> Result<SigBit, PassFault>
    ensures exact { IfOk result (λ bit. (bit, builder.new) ≡ order_of kind signed a.now b.now builder.old) }
    ensures over { result ≡ Err PassFault.Over → PassesLimit (order_of kind signed a.now b.now builder.old).1 }
    ensures within { OnOk result (IsInLimits builder.new) }
{
    match kind {
        OrderKind::Lt => less(alloc, signed, a, b, builder),
        OrderKind::Le => not_less(alloc, signed, b, a, builder),
        OrderKind::Ge => not_less(alloc, signed, a, b, builder),
        OrderKind::Gt => less(alloc, signed, b, a, builder),
    }
}

//! Words in two's complement by sign and size.

ghost use Rattle.std.specs.Prelude.{◌≡◌, Err, IfOk, OnOk};
ghost use Rattle.net_index.specs.Builder.{IsInLimits, PassesLimit};
ghost use Rattle.gate_divide.specs.Signs.{magnitude_of, negated_where, top_of};

use gate_nets::{negate, select};
use net_index::{Builder, PassFault};
use rtl_bits::Bit;
use rtl_sig::{SigBit, SigSpec};
use std::alloc::Global;

/// The top bit of a word, which is its sign in two's complement. Of no bits it is 0.
pub fn top_of(bits: &[SigBit]) -> SigBit
    ensures value { result ≡ top_of bits.now }
{
    match bits.last() {
        Some(top) => *top,
        None => SigBit::Fixed(Bit::S0),
    }
}

/// The two's complement of a word where a bit is 1, else the word.
#[tactic(auto, using(crate::proofs::Limits::select_limits), unfolding(gate_nets::specs::Gate::after, crate::specs::Signs::negated_where))]
pub fn negated_where(
    alloc: Global,
    bits: &[SigBit],
    negative: SigBit,
    builder: &mut Builder,
) -> Result<SigSpec, PassFault>
    ensures exact { IfOk result (λ word. (word, builder.new) ≡ negated_where bits.now negative builder.old) }
    ensures over { result ≡ Err PassFault.Over → PassesLimit (negated_where bits.now negative builder.old).1 }
    ensures within { IsInLimits builder.old → OnOk result (IsInLimits builder.new) }
{
    let complement = negate(alloc, bits, builder)?;
    select(alloc, bits, complement.as_slice(), negative, builder)
}

/// How far a word in two's complement is from 0.
pub fn magnitude(
    alloc: Global,
    bits: &[SigBit],
    builder: &mut Builder,
) -> Result<SigSpec, PassFault>
    ensures exact { IfOk result (λ word. (word, builder.new) ≡ magnitude_of bits.now builder.old) }
    ensures over { result ≡ Err PassFault.Over → PassesLimit (magnitude_of bits.now builder.old).1 }
    ensures within { IsInLimits builder.old → OnOk result (IsInLimits builder.new) }
{
    negated_where(alloc, bits, top_of(bits), builder)
}

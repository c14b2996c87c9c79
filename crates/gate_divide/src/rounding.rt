//! Quotients and remainders of integers, rounded toward zero or down, from those of their magnitudes.

ghost use Rattle.std.specs.Prelude.{◌≡◌, Err, IfOk, OnOk};
ghost use Rattle.net_index.specs.Builder.{IsInLimits, PassesLimit};
ghost use Rattle.gate_divide.specs.Rounding.{
  floor_quotient_of,
  floor_remainder_of,
  is_rounded_of,
  lowered_of,
  lowered_where,
  remainder_of,
  signs_differ,
  truncated_of,
};

use crate::signs::{negated_where, top_of};
use crate::words::filled;
use cell_types::BitwiseKind;
use gate_nets::{Gate, add_gate, fold, select, sum};
use net_index::{Builder, PassFault};
use rtl_bits::Bit;
use rtl_sig::{SigBit, SigSpec};
use std::alloc::Global;

/// Whether one of two integers is negative and the other is not.
fn signs_differ(
    alloc: Global,
    a: &[SigBit],
    b: &[SigBit],
    builder: &mut Builder,
) -> Result<SigBit, PassFault>
    ensures exact { IfOk result (λ bit. (bit, builder.new) ≡ signs_differ a.now b.now builder.old) }
    ensures over { result ≡ Err PassFault.Over → PassesLimit (signs_differ a.now b.now builder.old).1 }
    ensures within { OnOk result (IsInLimits builder.new) }
{
    let gate = Gate::Bitwise(BitwiseKind::Xor, top_of(a), top_of(b));
    add_gate(alloc, gate, builder)
}

/// The quotient rounded toward zero: it is negative where the signs of `a` and `b` differ.
#[tactic(auto, using(crate::proofs::Limits::negated_limits), unfolding(gate_nets::specs::Gate::after, crate::specs::Rounding::truncated_of))]
pub(crate) fn truncated(
    alloc: Global,
    a: &[SigBit],
    b: &[SigBit],
    quotient: &[SigBit],
    builder: &mut Builder,
) -> Result<SigSpec, PassFault>
    ensures exact { IfOk result (λ word. (word, builder.new) ≡ truncated_of a.now b.now quotient.now builder.old) }
    ensures over { result ≡ Err PassFault.Over → PassesLimit (truncated_of a.now b.now quotient.now builder.old).1 }
    ensures within { OnOk result (IsInLimits builder.new) }
{
    let differ = signs_differ(alloc, a, b, builder)?;
    negated_where(alloc, quotient, differ, builder)
}

/// Its remainder: it has the sign of `a`.
#[tactic(auto, unfolding(gate_nets::specs::Gate::after, crate::specs::Rounding::remainder_of))]
pub(crate) fn remainder(
    alloc: Global,
    a: &[SigBit],
    rest: &[SigBit],
    builder: &mut Builder,
) -> Result<SigSpec, PassFault>
    ensures exact { IfOk result (λ word. (word, builder.new) ≡ remainder_of a.now rest.now builder.old) }
    ensures over { result ≡ Err PassFault.Over → PassesLimit (remainder_of a.now rest.now builder.old).1 }
    ensures within { IsInLimits builder.old → OnOk result (IsInLimits builder.new) }
{
    negated_where(alloc, rest, top_of(a), builder)
}

/// Whether the quotient rounded toward zero lies above the exact one: something remains, and the signs
/// differ.
#[tactic(auto, using(gate_nets::proofs::Added::one_limits), unfolding(gate_nets::specs::Gate::after, crate::specs::Rounding::is_rounded_of))]
fn is_rounded(
    alloc: Global,
    remainder: &[SigBit],
    differ: SigBit,
    builder: &mut Builder,
) -> Result<SigBit, PassFault>
    ensures exact { IfOk result (λ bit. (bit, builder.new) ≡ is_rounded_of remainder.now differ builder.old) }
    ensures over { result ≡ Err PassFault.Over → PassesLimit (is_rounded_of remainder.now differ builder.old).1 }
    ensures within { OnOk result (IsInLimits builder.new) }
{
    let some = fold(alloc, BitwiseKind::Or, remainder, builder)?;
    add_gate(
        alloc,
        Gate::Bitwise(BitwiseKind::And, some, differ),
        builder,
    )
}

/// A word, or one less where a bit is 1.
#[tactic(auto, using(crate::proofs::Limits::select_limits), unfolding(gate_nets::specs::Gate::after, crate::specs::Rounding::lowered_where))]
fn lowered_where(
    alloc: Global,
    whole: &[SigBit],
    rounded: SigBit,
    builder: &mut Builder,
) -> Result<SigSpec, PassFault>
    ensures exact { IfOk result (λ word. (word, builder.new) ≡ lowered_where whole.now rounded builder.old) }
    ensures over { result ≡ Err PassFault.Over → PassesLimit (lowered_where whole.now rounded builder.old).1 }
    ensures within { IsInLimits builder.old → OnOk result (IsInLimits builder.new) }
{
    let ones = filled(alloc, Bit::S1, whole.len())?;
    let zero = SigBit::Fixed(Bit::S0);
    let less = sum(alloc, whole, ones.as_slice(), zero, builder)?;
    select(alloc, whole, less.bits.as_slice(), rounded, builder)
}

/// The quotient rounded down, by whether the signs differ: one less where the one rounded toward zero lies
/// above the exact one.
#[tactic(auto, using(crate::proofs::Limits::remainder_limits, crate::proofs::Limits::rounded_limits, crate::proofs::Limits::lowered_limits), unfolding(gate_nets::specs::Gate::after, crate::specs::Rounding::lowered_of))]
fn lowered(
    alloc: Global,
    a: &[SigBit],
    differ: SigBit,
    quotient: &[SigBit],
    rest: &[SigBit],
    builder: &mut Builder,
) -> Result<SigSpec, PassFault>
    ensures exact { IfOk result (λ word. (word, builder.new) ≡
        lowered_of a.now differ quotient.now rest.now builder.old) }
    ensures over { result ≡ Err PassFault.Over →
        PassesLimit (lowered_of a.now differ quotient.now rest.now builder.old).1 }
    ensures within { IsInLimits builder.old → OnOk result (IsInLimits builder.new) }
{
    let whole = negated_where(alloc, quotient, differ, builder)?;
    let left = remainder(alloc, a, rest, builder)?;
    let rounded = is_rounded(alloc, left.as_slice(), differ, builder)?;
    lowered_where(alloc, whole.as_slice(), rounded, builder)
}

/// The quotient rounded down.
#[tactic(auto, using(crate::proofs::Limits::down_limits), unfolding(gate_nets::specs::Gate::after, crate::specs::Rounding::floor_quotient_of))]
pub(crate) fn floor_quotient(
    alloc: Global,
    a: &[SigBit],
    b: &[SigBit],
    quotient: &[SigBit],
    rest: &[SigBit],
    builder: &mut Builder,
) -> Result<SigSpec, PassFault>
    ensures exact { IfOk result (λ word. (word, builder.new) ≡
        floor_quotient_of a.now b.now quotient.now rest.now builder.old) }
    ensures over { result ≡ Err PassFault.Over →
        PassesLimit (floor_quotient_of a.now b.now quotient.now rest.now builder.old).1 }
    ensures within { IsInLimits builder.old → OnOk result (IsInLimits builder.new) }
{
    let differ = signs_differ(alloc, a, b, builder)?;
    lowered(alloc, a, differ, quotient, rest, builder)
}

/// Its remainder: the divisor is added to the one with the sign of `a` in the same case.
#[tactic(auto, using(crate::proofs::Limits::remainder_limits, crate::proofs::Limits::rounded_limits, gate_nets::proofs::Limits::sum_limits, crate::proofs::Limits::select_limits), unfolding(gate_nets::specs::Gate::after, crate::specs::Rounding::floor_remainder_of))]
pub(crate) fn floor_remainder(
    alloc: Global,
    a: &[SigBit],
    b: &[SigBit],
    rest: &[SigBit],
    builder: &mut Builder,
) -> Result<SigSpec, PassFault>
    ensures exact { IfOk result (λ word. (word, builder.new) ≡ floor_remainder_of a.now b.now rest.now builder.old) }
    ensures over { result ≡ Err PassFault.Over → PassesLimit (floor_remainder_of a.now b.now rest.now builder.old).1 }
    ensures within { OnOk result (IsInLimits builder.new) }
{
    let differ = signs_differ(alloc, a, b, builder)?;
    let left = remainder(alloc, a, rest, builder)?;
    let rounded = is_rounded(alloc, left.as_slice(), differ, builder)?;
    let zero = SigBit::Fixed(Bit::S0);
    let more = sum(alloc, left.as_slice(), b, zero, builder)?;
    select(
        alloc,
        left.as_slice(),
        more.bits.as_slice(),
        rounded,
        builder,
    )
}

//! Sums and differences of words of one width.

ghost use Rattle.std.specs.Prelude.{◌≡◌, Err, IfOk, OnOk};
ghost use Rattle.net_index.specs.Builder.{IsInLimits, PassesLimit};
ghost use Rattle.map_add.specs.Sum.{arith_of, difference_of};

use cell_types::ArithKind;
use gate_nets::{Total, invert, sum};
use net_index::{Builder, PassFault};
use rtl_bits::Bit;
use rtl_sig::{SigBit, SigSpec};
use std::alloc::Global;

/// A word less another one: the sum with its inverse and 1. The carry is 1 where nothing is borrowed.
#[tactic(auto, using(gate_nets::proofs::Limits::sum_limits), unfolding(gate_nets::specs::Gate::after))]
pub(crate) fn difference(
    alloc: Global,
    a: &[SigBit],
    b: &[SigBit],
    builder: &mut Builder,
) -> Result<Total, PassFault>
    ensures exact { IfOk result (λ total. (total, builder.new) ≡ difference_of a.now b.now builder.old) }
    ensures over { result ≡ Err PassFault.Over → PassesLimit (difference_of a.now b.now builder.old).1 }
    ensures within { IsInLimits builder.old → OnOk result (IsInLimits builder.new) }
{
    let inverse = invert(alloc, b, builder)?;
    sum(
        alloc,
        a,
        inverse.as_slice(),
        SigBit::Fixed(Bit::S1),
        builder,
    )
}

/// The sum or the difference of two words. A product is not made here.
#[tactic(auto, unfolding(gate_nets::specs::Gate::after))]
pub(crate) fn arith(
    alloc: Global,
    kind: ArithKind,
    a: &[SigBit],
    b: &[SigBit],
    builder: &mut Builder,
) -> Result<SigSpec, PassFault>
    ensures exact { IfOk result (λ bits. (bits, builder.new) ≡ arith_of kind a.now b.now builder.old) }
    ensures over { result ≡ Err PassFault.Over → PassesLimit (arith_of kind a.now b.now builder.old).1 }
    ensures within { IsInLimits builder.old → OnOk result (IsInLimits builder.new) }
{
    match kind {
        ArithKind::Add => {
            let total = sum(alloc, a, b, SigBit::Fixed(Bit::S0), builder)?;
            Ok(total.bits)
        }
        ArithKind::Sub => {
            let total = difference(alloc, a, b, builder)?;
            Ok(total.bits)
        }
        ArithKind::Mul => Ok(SigSpec::make(alloc)),
    }
}

//! Quotients of plain numbers, bit by bit from the top down.

ghost use Rattle.std.specs.Prelude.{◌≡◌, Err, IfOk, OnOk};
ghost use Rattle.net_index.specs.Builder.{IsInLimits, PassesLimit};
ghost use Rattle.gate_divide.specs.Division.{digit_of, divided_of, less_of};

use crate::words::{filled, joined, take_low};
use gate_nets::{Total, invert, select, sum};
use net_index::{Builder, PassFault};
use rtl_bits::Bit;
use rtl_sig::{SigBit, SigSpec};
use std::alloc::Global;

/// A quotient, of the width of the dividend, and what is left, of the width of the divisor.
#[derive(Drop)]
pub struct Division {
    pub quotient: SigSpec,
    pub rest: SigSpec,
}

/// A word less the divisor with a 0 above it. The carry is 1 where the divisor is no greater.
#[tactic(auto, using(gate_nets::proofs::Limits::sum_limits), unfolding(gate_nets::specs::Gate::after, crate::specs::Division::less_of))]
fn less(
    alloc: Global,
    wide: &[SigBit],
    divisor: &[SigBit],
    builder: &mut Builder,
) -> Result<Total, PassFault>
    ensures exact { IfOk result (λ total. (total, builder.new) ≡ less_of wide.now divisor.now builder.old) }
    ensures over { result ≡ Err PassFault.Over → PassesLimit (less_of wide.now divisor.now builder.old).1 }
    ensures within { IsInLimits builder.old → OnOk result (IsInLimits builder.new) }
{
    let above = joined(alloc, divisor, &[SigBit::Fixed(Bit::S0)])?;
    let inverse = invert(alloc, above.as_slice(), builder)?;
    let one = SigBit::Fixed(Bit::S1);
    sum(alloc, wide, inverse.as_slice(), one, builder)
}

/// A bit of the quotient, and what is then left: the divisor is taken off where it is no greater than the
/// rest so far with the next bit of the dividend below it.
#[tactic(auto, using(crate::proofs::Limits::select_limits), unfolding(gate_nets::specs::Gate::after, crate::specs::Division::digit_of))]
fn digit(
    alloc: Global,
    bit: SigBit,
    rest: &[SigBit],
    divisor: &[SigBit],
    builder: &mut Builder,
) -> Result<(SigBit, SigSpec), PassFault>
    ensures exact { IfOk result (λ digit. (digit, builder.new) ≡ digit_of bit rest.now divisor.now builder.old) }
    ensures over { result ≡ Err PassFault.Over → PassesLimit (digit_of bit rest.now divisor.now builder.old).1 }
    ensures within { IsInLimits builder.old → OnOk result (IsInLimits builder.new) }
{
    let wide = joined(alloc, &[bit], rest)?;
    let total = less(alloc, wide.as_slice(), divisor, builder)?;
    let less = total.bits.as_slice();
    let chosen = select(alloc, wide.as_slice(), less, total.carry, builder)?;
    let low = take_low(chosen.as_slice(), divisor.len());
    Ok((total.carry, SigSpec::from_slice(alloc, low)?))
}

/// The quotient of two plain numbers, and what is left. By the divisor 0 each bit of the quotient is 1.
#[tactic(auto, using(crate::proofs::Steps::divided_step, crate::proofs::Steps::divided_over))]
pub fn divided(
    alloc: Global,
    dividend: &[SigBit],
    divisor: &[SigBit],
    builder: &mut Builder,
) -> Result<Division, PassFault>
    ensures exact { IfOk result (λ division. (division, builder.new) ≡
        divided_of dividend.now divisor.now builder.old) }
    ensures over { result ≡ Err PassFault.Over → PassesLimit (divided_of dividend.now divisor.now builder.old).1 }
    ensures within { IsInLimits builder.old → OnOk result (IsInLimits builder.new) }
{
    let mut quotient = SigSpec::make(alloc);
    let mut rest = filled(alloc, Bit::S0, divisor.len())?;
    for at in (0..dividend.len()).rev() {
        let (bit, left) = digit(alloc, dividend[at], rest.as_slice(), divisor, builder)?;
        quotient = joined(alloc, &[bit], quotient.as_slice())?;
        rest = left;
    }
    Ok(Division { quotient, rest })
}

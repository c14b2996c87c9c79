//! Sums of words, by a carry from bit to bit.

ghost use Rattle.std.specs.Prelude.{◌≡◌, Err, IfOk, OnOk, replicate};
ghost use Rattle.rtl_bits.specs.declared.bit.Bit.TheVariants.{S0};
ghost use Rattle.rtl_sig.specs.declared.sig.SigBit.TheVariants.{Fixed};
ghost use Rattle.net_index.specs.Builder.{IsInLimits, PassesLimit};
ghost use Rattle.gate_nets.specs.Sum.{adder_of, negative_of, sum_of};

use crate::gate::{Gate, add_gate};
use crate::words::invert;
use cell_types::BitwiseKind;
use net_index::{Builder, PassFault};
use rtl_bits::{Bit, Memory};
use rtl_sig::{SigBit, SigSpec};
use std::alloc::Global;

/// The bits of a sum, the lowest first, and the carry out of the top one.
#[derive(Drop)]
pub struct Total {
    pub bits: SigSpec,
    pub carry: SigBit,
}

/// A bit of a sum, and the carry.
#[tactic(auto, using(crate::proofs::Added::one_limits), unfolding(crate::specs::Gate::after))]
fn add_digit(
    alloc: Global,
    a: SigBit,
    b: SigBit,
    c: SigBit,
    builder: &mut Builder,
) -> Result<(SigBit, SigBit), PassFault>
    ensures exact { IfOk result (λ digit. (digit, builder.new) ≡ adder_of a b c builder.old) }
    ensures over { result ≡ Err PassFault.Over → PassesLimit (adder_of a b c builder.old).1 }
    ensures within { OnOk result (IsInLimits builder.new) }
{
    let p = add_gate(alloc, Gate::Bitwise(BitwiseKind::Xor, a, b), builder)?;
    let s = add_gate(alloc, Gate::Bitwise(BitwiseKind::Xor, p, c), builder)?;
    let g = add_gate(alloc, Gate::Bitwise(BitwiseKind::And, a, b), builder)?;
    let t = add_gate(alloc, Gate::Bitwise(BitwiseKind::And, p, c), builder)?;
    let carry = add_gate(alloc, Gate::Bitwise(BitwiseKind::Or, g, t), builder)?;
    Ok((s, carry))
}

/// The sum of two words and a carry, as far as both words go.
#[tactic(auto, using(crate::proofs::Limits::sum_over))]
pub fn sum(
    alloc: Global,
    a: &[SigBit],
    b: &[SigBit],
    carry: SigBit,
    builder: &mut Builder,
) -> Result<Total, PassFault>
    ensures exact { IfOk result (λ total. (total, builder.new) ≡ sum_of a.now b.now carry builder.old) }
    ensures over { result ≡ Err PassFault.Over → PassesLimit (sum_of a.now b.now carry builder.old).1 }
    ensures within { IsInLimits builder.old → OnOk result (IsInLimits builder.new) }
{
    let mut bits = SigSpec::make(alloc);
    let mut carried = carry;
    for at in 0..a.len().min(b.len()) {
        let (bit, next) = add_digit(alloc, a[at], b[at], carried, builder)?;
        bits.push(bit)?;
        carried = next;
    }
    Ok(Total {
        bits,
        carry: carried,
    })
}

/// So many constants 0.
fn zeros(alloc: Global, width: usize) -> Result<SigSpec, Memory>
    ensures value { IfOk result (λ zero. zero ≡ replicate width (Fixed S0)) }
{
    let bits = vec![in alloc; SigBit::Fixed(Bit::S0); width]?;
    SigSpec::from_vec(bits)
}

/// The two's complement of a word: the sum of its inverse and 1.
#[tactic(auto, using(crate::proofs::Limits::sum_limits), unfolding(crate::specs::Gate::after))]
pub fn negate(alloc: Global, bits: &[SigBit], builder: &mut Builder) -> Result<SigSpec, PassFault>
    ensures exact { IfOk result (λ word. (word, builder.new) ≡ negative_of bits.now builder.old) }
    ensures over { result ≡ Err PassFault.Over → PassesLimit (negative_of bits.now builder.old).1 }
    ensures within { IsInLimits builder.old → OnOk result (IsInLimits builder.new) }
{
    let inverse = invert(alloc, bits, builder)?;
    let zero = zeros(alloc, bits.len())?;
    let one = SigBit::Fixed(Bit::S1);
    let total = sum(alloc, zero.as_slice(), inverse.as_slice(), one, builder)?;
    Ok(total.bits)
}

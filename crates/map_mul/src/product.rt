//! Products of words of one width, a row of gates for each bit.

ghost use Rattle.std.specs.Prelude.{◌≡◌, Err, IfOk, OnOk};
ghost use Rattle.net_index.specs.Builder.{IsInLimits, PassesLimit};
ghost use Rattle.map_mul.specs.Product.{added_row, product_of, row_of};

use cell_types::BitwiseKind;
use gate_divide::{drop_low, filled, joined, take_low};
use gate_nets::{Gate, add_gate, sum};
use net_index::{Builder, PassFault};
use rtl_bits::Bit;
use rtl_sig::{SigBit, SigSpec};
use std::alloc::Global;

/// A word where a bit is 1, else 0.
fn row(
    alloc: Global,
    bits: &[SigBit],
    by: SigBit,
    builder: &mut Builder,
) -> Result<SigSpec, PassFault>
    ensures exact { IfOk result (λ word. (word, builder.new) ≡ row_of bits.now by builder.old) }
    ensures over { result ≡ Err PassFault.Over → PassesLimit (row_of bits.now by builder.old).1 }
    ensures within { IsInLimits builder.old → OnOk result (IsInLimits builder.new) }
{
    let mut made = SigSpec::make(alloc);
    for bit in bits {
        let gate = Gate::Bitwise(BitwiseKind::And, *bit, by);
        made.push(add_gate(alloc, gate, builder)?)?;
    }
    Ok(made)
}

/// The product so far with the row of the bit at a place: a word is added from this place on, where the bit
/// is 1.
#[tactic(auto, using(gate_nets::proofs::Limits::sum_limits), unfolding(gate_nets::specs::Gate::after, crate::specs::Product::added_row))]
fn add_row(
    alloc: Global,
    so_far: &[SigBit],
    a: &[SigBit],
    at: usize,
    by: SigBit,
    builder: &mut Builder,
) -> Result<SigSpec, PassFault>
    ensures exact { IfOk result (λ word. (word, builder.new) ≡ added_row so_far.now a.now at by builder.old) }
    ensures over { result ≡ Err PassFault.Over → PassesLimit (added_row so_far.now a.now at by builder.old).1 }
    ensures within { IsInLimits builder.old → OnOk result (IsInLimits builder.new) }
{
    let upper = drop_low(so_far, at);
    let bits = row(alloc, take_low(a, upper.len()), by, builder)?;
    let zero = SigBit::Fixed(Bit::S0);
    let total = sum(alloc, upper, bits.as_slice(), zero, builder)?;
    let more = joined(alloc, take_low(so_far, at), total.bits.as_slice())?;
    Ok(more)
}

/// The product of two words of one width, cut to it.
#[tactic(auto, using(crate::proofs::Steps::product_step, crate::proofs::Steps::product_over))]
pub(crate) fn product(
    alloc: Global,
    a: &[SigBit],
    b: &[SigBit],
    builder: &mut Builder,
) -> Result<SigSpec, PassFault>
    ensures exact { IfOk result (λ word. (word, builder.new) ≡ product_of a.now b.now builder.old) }
    ensures over { result ≡ Err PassFault.Over → PassesLimit (product_of a.now b.now builder.old).1 }
    ensures within { IsInLimits builder.old → OnOk result (IsInLimits builder.new) }
{
    let mut so_far = filled(alloc, Bit::S0, a.len())?;
    for (at, by) in b.iter().enumerate() {
        so_far = add_row(alloc, so_far.as_slice(), a, at, *by, builder)?;
    }
    Ok(so_far)
}

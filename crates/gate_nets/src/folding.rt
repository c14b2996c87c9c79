//! Folds: the bits of a word joined one after another.

ghost use Rattle.std.specs.Prelude.{◌≡◌, Err, IfOk, OnOk};
ghost use Rattle.net_index.specs.Builder.{IsInLimits, PassesLimit};
ghost use Rattle.gate_nets.specs.Words.{fold_from, fold_of, neutral_of};

use crate::gate::{Gate, add_gate};
use cell_types::BitwiseKind;
use net_index::{Builder, PassFault};
use rtl_bits::Bit;
use rtl_sig::SigBit;
use std::alloc::Global;

/// What the kind makes of no bits.
fn neutral(kind: BitwiseKind) -> SigBit
    ensures value { result ≡ neutral_of kind }
{
    match kind {
        BitwiseKind::And | BitwiseKind::Xnor => SigBit::Fixed(Bit::S1),
        BitwiseKind::Or | BitwiseKind::Xor => SigBit::Fixed(Bit::S0),
    }
}

/// The first bit joined with the others, from the lowest up.
#[tactic(auto, using(crate::proofs::Steps::fold_step, crate::proofs::Limits::fold_over))]
fn fold_from(
    alloc: Global,
    kind: BitwiseKind,
    first: SigBit,
    rest: &[SigBit],
    builder: &mut Builder,
) -> Result<SigBit, PassFault>
    ensures exact { IfOk result (λ bit. (bit, builder.new) ≡ fold_from kind first rest.now builder.old) }
    ensures over { result ≡ Err PassFault.Over → PassesLimit (fold_from kind first rest.now builder.old).1 }
    ensures within { IsInLimits builder.old → OnOk result (IsInLimits builder.new) }
{
    let mut joined = first;
    for bit in rest {
        joined = add_gate(alloc, Gate::Bitwise(kind, joined, *bit), builder)?;
    }
    Ok(joined)
}

/// The bits joined by gates of the kind, from the lowest up. Of one bit it is the bit, and of none 1 for AND
/// and XNOR, 0 for OR and XOR.
pub fn fold(
    alloc: Global,
    kind: BitwiseKind,
    bits: &[SigBit],
    builder: &mut Builder,
) -> Result<SigBit, PassFault>
    ensures exact { IfOk result (λ bit. (bit, builder.new) ≡ fold_of kind bits.now builder.old) }
    ensures over { result ≡ Err PassFault.Over → PassesLimit (fold_of kind bits.now builder.old).1 }
    ensures within { IsInLimits builder.old → OnOk result (IsInLimits builder.new) }
{
    match bits {
        [] => Ok(neutral(kind)),
        [first, rest @ ..] => fold_from(alloc, kind, *first, rest, builder),
    }
}

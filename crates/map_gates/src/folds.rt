//! The cells that make one bit of all bits of words.

ghost use Rattle.std.specs.Prelude.{◌≡◌, Err, IfOk, OnOk};
ghost use Rattle.net_index.specs.Builder.{IsInLimits, PassesLimit};
ghost use Rattle.map_gates.specs.Folds.{different_of, equal_of, equality_of, fold_inverted, folded_of, joining};
ghost use Rattle.map_gates.specs.Folds.{logic_of};

use cell_types::{BitwiseKind, EqualKind, FoldKind, LogicKind};
use gate_nets::{Gate, add_gate, bitwise, fold};
use net_index::{Builder, PassFault};
use rtl_sig::SigBit;
use std::alloc::Global;

/// The bits of a word joined by a kind, and the inverse of that.
#[tactic(auto, using(gate_nets::proofs::Added::one_limits), unfolding(gate_nets::specs::Gate::after))]
fn fold_inverted(
    alloc: Global,
    kind: BitwiseKind,
    bits: &[SigBit],
    builder: &mut Builder,
) -> Result<SigBit, PassFault>
    ensures exact { IfOk result (λ bit. (bit, builder.new) ≡ fold_inverted kind bits.now builder.old) }
    ensures over { result ≡ Err PassFault.Over → PassesLimit (fold_inverted kind bits.now builder.old).1 }
    ensures within { OnOk result (IsInLimits builder.new) }
{
    let joined = fold(alloc, kind, bits, builder)?;
    add_gate(alloc, Gate::Not(joined), builder)
}

/// The bit that a kind makes of a word.
pub(crate) fn folded(
    alloc: Global,
    kind: FoldKind,
    a: &[SigBit],
    builder: &mut Builder,
) -> Result<SigBit, PassFault>
    ensures exact { IfOk result (λ bit. (bit, builder.new) ≡ folded_of kind a.now builder.old) }
    ensures over { result ≡ Err PassFault.Over → PassesLimit (folded_of kind a.now builder.old).1 }
    ensures within { IsInLimits builder.old → OnOk result (IsInLimits builder.new) }
{
    match kind {
        FoldKind::And => fold(alloc, BitwiseKind::And, a, builder),
        FoldKind::Or => fold(alloc, BitwiseKind::Or, a, builder),
        FoldKind::Xor => fold(alloc, BitwiseKind::Xor, a, builder),
        FoldKind::Xnor => fold_inverted(alloc, BitwiseKind::Xor, a, builder),
        FoldKind::Bool => fold(alloc, BitwiseKind::Or, a, builder),
        FoldKind::LogicNot => fold_inverted(alloc, BitwiseKind::Or, a, builder),
    }
}

/// What joins two truths.
fn joining(kind: LogicKind) -> BitwiseKind
    ensures value { result ≡ joining kind }
{
    match kind {
        LogicKind::And => BitwiseKind::And,
        LogicKind::Or => BitwiseKind::Or,
    }
}

/// The bit that a kind makes of two words, each of which counts as true where one of its bits is 1.
#[tactic(auto, using(gate_nets::proofs::Added::one_limits, gate_nets::proofs::Limits::whole_fold_limits), unfolding(gate_nets::specs::Gate::after))]
pub(crate) fn logic(
    alloc: Global,
    kind: LogicKind,
    a: &[SigBit],
    b: &[SigBit],
    builder: &mut Builder,
) -> Result<SigBit, PassFault>
    ensures exact { IfOk result (λ bit. (bit, builder.new) ≡ logic_of kind a.now b.now builder.old) }
    ensures over { result ≡ Err PassFault.Over → PassesLimit (logic_of kind a.now b.now builder.old).1 }
    ensures within { OnOk result (IsInLimits builder.new) }
{
    let x = fold(alloc, BitwiseKind::Or, a, builder)?;
    let y = fold(alloc, BitwiseKind::Or, b, builder)?;
    add_gate(alloc, Gate::Bitwise(joining(kind), x, y), builder)
}

/// Whether two words of one width agree at all places.
#[tactic(auto, using(gate_nets::proofs::Limits::whole_fold_limits), unfolding(gate_nets::specs::Gate::after))]
fn equal(
    alloc: Global,
    a: &[SigBit],
    b: &[SigBit],
    builder: &mut Builder,
) -> Result<SigBit, PassFault>
    ensures exact { IfOk result (λ bit. (bit, builder.new) ≡ equal_of a.now b.now builder.old) }
    ensures over { result ≡ Err PassFault.Over → PassesLimit (equal_of a.now b.now builder.old).1 }
    ensures within { IsInLimits builder.old → OnOk result (IsInLimits builder.new) }
{
    let agreeing = bitwise(alloc, BitwiseKind::Xnor, a, b, builder)?;
    fold(alloc, BitwiseKind::And, agreeing.as_slice(), builder)
}

/// The inverse of that.
#[tactic(auto, using(gate_nets::proofs::Added::one_limits), unfolding(gate_nets::specs::Gate::after))]
fn different(
    alloc: Global,
    a: &[SigBit],
    b: &[SigBit],
    builder: &mut Builder,
) -> Result<SigBit, PassFault>
    ensures exact { IfOk result (λ bit. (bit, builder.new) ≡ different_of a.now b.now builder.old) }
    ensures over { result ≡ Err PassFault.Over → PassesLimit (different_of a.now b.now builder.old).1 }
    ensures within { OnOk result (IsInLimits builder.new) }
{
    let bit = equal(alloc, a, b, builder)?;
    add_gate(alloc, Gate::Not(bit), builder)
}

/// The bit of `$eq` or of `$ne`, of two words of one width.
pub(crate) fn equality(
    alloc: Global,
    kind: EqualKind,
    a: &[SigBit],
    b: &[SigBit],
    builder: &mut Builder,
) -> Result<SigBit, PassFault>
    ensures exact { IfOk result (λ bit. (bit, builder.new) ≡ equality_of kind a.now b.now builder.old) }
    ensures over { result ≡ Err PassFault.Over → PassesLimit (equality_of kind a.now b.now builder.old).1 }
    ensures within { IsInLimits builder.old → OnOk result (IsInLimits builder.new) }
{
    match kind {
        EqualKind::Eq => equal(alloc, a, b, builder),
        EqualKind::Ne => different(alloc, a, b, builder),
    }
}

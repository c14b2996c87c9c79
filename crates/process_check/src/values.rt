//! What the values of updated bits may be, whatever the decisions.

ghost use Rattle.std.specs.Prelude.{◌≡◌, [], ◌∷◌, List, IfOk};
ghost use Rattle.std.specs.List.{list_all};
ghost use Rattle.rtl_sig.specs.declared.sig.WireBit.{WireBit};
ghost use Rattle.rtl_ir.specs.Follow.{all_joins, joins};
ghost use Rattle.rtl_ir.specs.Tree.{CaseView};
ghost use Rattle.process_trees.specs.Rounds.{AreLeaves};
ghost use Rattle.process_check.specs.Values.{is_settled};

use process_trees::Leaves;
use rtl_bits::Memory;
use rtl_ir::{Case, Link};
use rtl_sig::{SigBit, WireBit};
use std::alloc::Global;

/// Whether each bit on the left of these lines is given one constant, or itself where that may be, below a root whose
/// switches are read by the rules and that drives these tree bits.
pub(crate) fn are_settled(
    alloc: Global,
    root: &Case,
    bits: &[WireBit],
    itself: bool,
    lines: &[Link],
) -> Result<bool, Memory>
    ensures value { IfOk result (λ settled. settled ≡
        list_all (is_settled root.now bits.now itself) (all_joins lines.now)) }
{
    if lines.is_empty() {
        return Ok(true);
    }
    let leaves = Leaves::of(alloc, root, bits, None)?;
    Ok(settle_lines(&leaves, itself, lines))
}

/// Whether each place of the lines is settled, by the leaves of the tree bits.
fn settle_lines(leaves: &Leaves, itself: bool, lines: &[Link]) -> bool
    ensures value { (root : CaseView) (bits : List WireBit) → AreLeaves leaves.now root bits →
        result ≡ list_all (is_settled root bits itself) (all_joins lines.now) }
{
    for line in lines {
        if !settle_line(leaves, itself, line.left.as_slice(), line.right.as_slice()) {
            return false;
        }
    }
    true
}

/// Whether each place of a line with these sides is settled.
fn settle_line(leaves: &Leaves, itself: bool, left: &[SigBit], right: &[SigBit]) -> bool
    ensures value { (root : CaseView) (bits : List WireBit) → AreLeaves leaves.now root bits →
        result ≡ list_all (is_settled root bits itself) (joins left.now right.now) }
{
    for at in 0..left.len().min(right.len()) {
        if !settle_place(leaves, itself, left[at], right[at]) {
            return false;
        }
    }
    true
}

/// Whether a place of a line is settled.
fn settle_place(leaves: &Leaves, itself: bool, left: SigBit, source: SigBit) -> bool
    ensures value { (root : CaseView) (bits : List WireBit) → AreLeaves leaves.now root bits →
        result ≡ list_all (is_settled root bits itself) (joins (left ∷ []) (source ∷ [])) }
{
    match left {
        SigBit::Fixed(_) => true,
        SigBit::Wire(bit) => is_settled(leaves, itself, bit, source),
    }
}

/// Whether a bit that is given this source is settled.
fn is_settled(leaves: &Leaves, itself: bool, bit: WireBit, source: SigBit) -> bool
    ensures value { (root : CaseView) (bits : List WireBit) → AreLeaves leaves.now root bits →
        result ≡ is_settled root bits itself (record { bit = bit; source = source }) }
{
    let summary = leaves.of_source(source);
    summary.is_one_constant() || (itself && summary.are_all(bit))
}

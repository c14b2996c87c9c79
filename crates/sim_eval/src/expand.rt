//! Values that lead through the tree bits of a process to their leaves.

ghost use Rattle.std.specs.Prelude.{◌≡◌, ◌<◌, ℕ, List, IfOk, Some, length};
ghost use Rattle.rtl_ir.specs.Flat.Place.{Place};
ghost use Rattle.flat_net.specs.Points.{AreApart};
ghost use Rattle.flat_net.specs.Within.{IsSourceWithin, IsTreeWithin};
ghost use Rattle.sim_eval.specs.Leaves.{AreExpanded, AreLeavesWithin, comes_to};
ghost use Rattle.sim_eval.specs.Trees.{bit_of, tree_value};
ghost use Rattle.sim_eval.specs.Walk.{followed, leaf_of};

use crate::walk::{Leaves, Walk, follow, tree_bits};
use flat_net::{Source, Tree};
use rtl_bits::{Bit, Memory};
use std::alloc::Global;

/// What the tree bits come to, expanded as often as there are tree bits: in the first round each source is a leaf, and
/// in
/// each further one a source that is a tree bit has what the round before gave it. A round that changes nothing ends
/// them.
pub(crate) fn expanded_bits(
    alloc: Global,
    values: &[Bit],
    reset: Bit,
    leaves: Leaves,
    tree: &Tree,
) -> Result<Vec<Bit>, Memory>
    ensures value { IfOk result (λ bits. (ps : List Place) → AreApart ps → length ps ≡ length values.now →
        AreLeavesWithin (length ps) leaves → IsTreeWithin (length ps) tree.now →
        AreExpanded ps values.now reset leaves tree.now.root tree.now.width tree.now.width bits.items) }
{
    let walk = Walk {
        values,
        reset,
        leaves,
        last: None,
    };
    let mut bits = tree_bits(alloc, &walk, tree)?;
    for _round in 1..tree.width {
        let next = next_bits(alloc, values, reset, leaves, bits.as_slice(), tree)?;
        if next == bits {
            return Ok(bits);
        }
        bits = next;
    }
    Ok(bits)
}

/// What one round makes of what the round before gave the tree bits.
fn next_bits(
    alloc: Global,
    values: &[Bit],
    reset: Bit,
    leaves: Leaves,
    last: &[Bit],
    tree: &Tree,
) -> Result<Vec<Bit>, Memory>
    ensures value { IfOk result (λ bits. (at : ℕ) → at < tree.now.width →
        bit_of bits.items at ≡ tree_value values.now reset (followed (leaf_of leaves values.now) (Some last.now)) at
        tree.now.root) }
{
    let last = Some(last);
    let walk = Walk {
        values,
        reset,
        leaves,
        last,
    };
    tree_bits(alloc, &walk, tree)
}

/// What a source comes to.
pub(crate) fn source_value(
    alloc: Global,
    values: &[Bit],
    reset: Bit,
    leaves: Leaves,
    tree: &Tree,
    source: Source,
) -> Result<Bit, Memory>
    ensures value { IfOk result (λ value. (ps : List Place) → AreApart ps → length ps ≡ length values.now →
        AreLeavesWithin (length ps) leaves → IsTreeWithin (length ps) tree.now →
        IsSourceWithin (length ps) tree.now.width source →
        value ≡ comes_to ps values.now reset leaves tree.now.root tree.now.width source) }
{
    let bits = expanded_bits(alloc, values, reset, leaves, tree)?;
    Ok(source_bit(values, leaves, bits.as_slice(), source))
}

/// What a source comes to where the tree bits come to these.
pub(crate) fn source_bit(values: &[Bit], leaves: Leaves, bits: &[Bit], source: Source) -> Bit
    ensures value { result ≡ followed (leaf_of leaves values.now) (Some bits.now) source }
{
    let last = Some(bits);
    let walk = Walk {
        values,
        reset: Bit::X,
        leaves,
        last,
    };
    follow(&walk, source)
}

//! The walk of the tree of a process: what its assigns and choices make of the tree bits.

ghost use Rattle.std.specs.Prelude.{◌≡◌, ◌<◌, ℕ, IfOk, OnOk, length, option_map};
ghost use Rattle.rtl_bits.specs.Tables.{merge_of};
ghost use Rattle.net_model.specs.Picked.{tested_of};
ghost use Rattle.sim_eval.specs.Trees.{Merges, bit_of, merged_with};
ghost use Rattle.sim_eval.specs.Walk.{leaf_of, number_mark, number_owned, walked, walked_assigns, walked_branch};
ghost use Rattle.sim_eval.specs.Walk.{walked_branches, walked_signal, walked_tree};

use crate::matching::branch_match;
use crate::values::{bit_at, bit_in, read, read_all};
use flat_net::{Assign, Branch, Choice, Point, Source, Tree};
use rtl_bits::{Bit, Bits, Memory, Seq, bit_not, merge};
use std::alloc::Global;

/// What a leaf of a tree has.
#[derive(Clone, Copy)]
pub(crate) enum Leaves {
    /// Its value.
    Values,
    /// 1 where it is the bit of this number, else 0.
    Marks(u32),
    /// Its value, but that of the bit of this number is this one.
    Owned(u32, Bit),
}

/// What a tree is walked with.
#[derive(Clone, Copy)]
pub(crate) struct Walk<'a> {
    /// The values of signals and of patterns.
    pub values: &'a [Bit],
    /// The value of the reset that choices may test.
    pub reset: Bit,
    /// What leaves have.
    pub leaves: Leaves,
    /// What the tree bits had in the round before: then a source that is a tree bit has that. Else it is a leaf.
    pub last: Option<&'a [Bit]>,
}

/// What a tree bit is before all assigns.
const UNASSIGNED: Source = Source {
    from: Point::Constant(Bit::X),
    tree: None,
};

/// What the bits of the tree have.
pub(crate) fn tree_bits(alloc: Global, walk: &Walk<'_>, tree: &Tree) -> Result<Vec<Bit>, Memory>
    ensures value { IfOk result (λ bits. (at : ℕ) → at < tree.now.width →
        bit_of bits.items at ≡ walked_tree walk.now at tree.now.root) }
{
    let mut bits = vec![in alloc; follow(walk, UNASSIGNED); tree.width as usize]?;
    take(alloc, walk, &tree.root, &mut bits)?;
    Ok(bits)
}

/// What the branch makes of these bits: its assigns act in order, and then its choices.
#[cycle(decide)]
fn take(alloc: Global, walk: &Walk<'_>, branch: &Branch, bits: &mut [Bit]) -> Result<(), Memory>
    ensures value { OnOk result ((at : ℕ) → at < length bits.old →
        bit_of bits.new at ≡ walked_branch walk.now at branch.now (bit_of bits.old at)) }
{
    assign(walk, branch.assigns.as_slice(), bits);
    for choice in &branch.choices {
        choose(alloc, walk, choice, bits)?;
    }
    Ok(())
}

/// What the choice makes of these bits: the first branch that matches acts. Where a branch may match, it has in common
/// with what is chosen behind it what is known in both.
#[cycle(decide)]
fn choose(alloc: Global, walk: &Walk<'_>, choice: &Choice, bits: &mut [Bit]) -> Result<(), Memory>
    ensures value { OnOk result ((at : ℕ) → at < length bits.old →
        bit_of bits.new at ≡ walked_branches walk.now at (walked_signal walk.now choice.now.signal choice.now.test)
        choice.now.branches (bit_of bits.old at)) }
{
    let signal = compare(alloc, walk, choice.signal.as_slice(), choice.test)?;
    let mut merged = None;
    for branch in &choice.branches {
        match branch_match(walk.values, signal.as_slice(), branch.patterns.as_slice()) {
            Bit::S0 => {}
            Bit::S1 => {
                take(alloc, walk, branch, bits)?;
                merge_open(bits, &merged);
                return Ok(());
            }
            _ => {
                let mut other = bits.to_vec(alloc)?;
                take(alloc, walk, branch, &mut other)?;
                put_open(&mut merged, other);
            }
        }
    }
    merge_open(bits, &merged);
    Ok(())
}

/// What a choice compares its patterns with: its signal, or its test of the reset.
fn compare(
    alloc: Global,
    walk: &Walk<'_>,
    signal: &[Point],
    test: Option<bool>,
) -> Result<Bits, Memory>
    ensures value { IfOk result (λ word. word ≡ walked_signal walk.now signal.now test) }
{
    match test {
        None => read_all(alloc, walk.values, signal),
        Some(inverse) => {
            let mut word = Seq::make(alloc);
            word.push(tested(inverse, walk.reset))?;
            Ok(word)
        }
    }
}

/// A test of the reset, or its inverse.
fn tested(inverse: bool, reset: Bit) -> Bit
    ensures value { result ≡ tested_of inverse reset }
{
    if inverse {
        bit_not(reset)
    } else {
        reset.seen()
    }
}

/// The assigns act in order.
fn assign(walk: &Walk<'_>, assigns: &[Assign], bits: &mut [Bit])
    ensures value { (at : ℕ) → at < length bits.old →
        bit_of bits.new at ≡ walked_assigns walk.now at assigns.now (bit_of bits.old at) }
{
    for assign in assigns {
        let at = assign.at as usize;
        if at < bits.len() {
            let source = Source {
                from: assign.from,
                tree: assign.tree,
            };
            bits[at] = follow(walk, source);
        }
    }
}

/// What a source has: what its tree bit had in the round before, else what it has as a leaf.
pub(crate) fn follow(walk: &Walk<'_>, source: Source) -> Bit
    ensures value { result ≡ walked walk.now source }
{
    match (walk.last, source.tree) {
        (Some(last), Some(at)) => bit_at(last, at),
        _ => leaf(walk.values, walk.leaves, source.from),
    }
}

/// What a point has as a leaf.
fn leaf(values: &[Bit], leaves: Leaves, from: Point) -> Bit
    ensures value { result ≡ leaf_of leaves values.now from }
{
    match leaves {
        Leaves::Values => read(values, from),
        Leaves::Marks(own) => mark(own, from),
        Leaves::Owned(own, bit) => owned(values, own, bit, from),
    }
}

/// 1 for the bit of this number, 0 for any other point.
fn mark(own: u32, from: Point) -> Bit
    ensures value { result ≡ number_mark own from }
{
    match from {
        Point::At(number) if number == own => Bit::S1,
        _ => Bit::S0,
    }
}

/// What a point has where the bit of this number has this value.
fn owned(values: &[Bit], own: u32, bit: Bit, from: Point) -> Bit
    ensures value { result ≡ number_owned own bit values.now from }
{
    match from {
        Point::At(number) if number == own => bit,
        _ => read(values, from),
    }
}

/// One more branch that may match gave these bits.
fn put_open(merged: &mut Option<Vec<Bit>>, bits: Vec<Bit>)
    ensures value { (at : ℕ) (b : Bit) →
        merged_with (option_map (λ v. v.items) merged.new) at b ≡ merged_with (option_map (λ v. v.items) merged.old)
        at (merge_of (bit_of bits.items at) b) }
{
    match merged {
        Some(merged) => merge_all(merged, bits.as_slice()),
        None => *merged = Some(bits),
    }
}

/// Merges these bits with what the branches gave that may match.
fn merge_open(bits: &mut [Bit], merged: &Option<Vec<Bit>>)
    ensures value { (at : ℕ) → at < length bits.old →
        bit_of bits.new at ≡ merged_with (option_map (λ v. v.items) merged.now) at (bit_of bits.old at) }
{
    if let Some(merged) = merged {
        merge_all(bits, merged.as_slice());
    }
}

/// Merges these bits with the others, place by place; past their end those are x.
fn merge_all(bits: &mut [Bit], others: &[Bit])
    ensures value { Merges others.now bits.old bits.new }
{
    for at in 0..bits.len() {
        bits[at] = merge(bit_in(others, at), bits[at]);
    }
}

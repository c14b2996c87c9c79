//! What the tree bits come to, by what they came to a round before.

ghost use Rattle.std.specs.Prelude.{◌≡◌, List, IfOk};
ghost use Rattle.rtl_sig.specs.declared.sig.WireBit.{WireBit};
ghost use Rattle.process_trees.specs.Leaves.{rows_summaries, sources_summary};
ghost use Rattle.process_trees.specs.Numbers.{AreNumbers};
ghost use Rattle.process_trees.specs.Rounds.{leaf_summary};

use crate::numbers::Numbers;
use crate::summary::Summary;
use rtl_bits::{Bit, Memory};
use rtl_sig::{SigBit, WireBit};
use std::alloc::Global;

/// The tree bits by the round before: their numbers and summaries, and the bit that is asked for.
#[derive(Drop)]
pub(crate) struct Round<'a> {
    pub(crate) numbers: &'a Numbers,
    pub(crate) summaries: &'a [Summary],
    pub(crate) asked: Option<WireBit>,
}

impl Round<'_> {
    /// What the leaf comes to.
    pub(crate) fn leaf(&self, source: SigBit) -> Summary
        ensures value { (bits : List WireBit) → AreNumbers self.now.numbers.now bits →
            result ≡ leaf_summary self.now.asked bits self.now.summaries.now source }
    {
        let own = Summary::of(self.asked, source);
        let SigBit::Wire(bit) = source else {
            return own;
        };
        match self.numbers.get(&bit) {
            Some(at) if *at < self.summaries.len() => self.summaries[*at],
            _ => own,
        }
    }

    /// What these sources come to together, the constant x where there are none.
    pub(crate) fn together(&self, sources: &[SigBit]) -> Summary
        ensures value { (bits : List WireBit) → AreNumbers self.now.numbers.now bits →
            result ≡ sources_summary (leaf_summary self.now.asked bits self.now.summaries.now) sources.now }
    {
        let Some(first) = sources.first() else {
            return self.leaf(SigBit::Fixed(Bit::X));
        };
        let mut value = self.leaf(*first);
        for at in 1..sources.len() {
            value = value.joined(self.leaf(sources[at]));
        }
        value
    }

    /// What each of these rows comes to.
    pub(crate) fn next(&self, alloc: Global, rows: &[Vec<SigBit>]) -> Result<Vec<Summary>, Memory>
        ensures value { IfOk result (λ next. (bits : List WireBit) → AreNumbers self.now.numbers.now bits →
            next.items ≡ rows_summaries (leaf_summary self.now.asked bits self.now.summaries.now) rows.now) }
    {
        let mut next = Vec::with_capacity(alloc, rows.len())?;
        for row in rows {
            next.push(self.together(row.as_slice()))?;
        }
        Ok(next)
    }
}

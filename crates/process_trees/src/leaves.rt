//! The leaves of the values of tree bits, round by round.

ghost use Rattle.std.specs.Prelude.{◌≡◌, IfOk, List, length};
ghost use Rattle.rtl_sig.specs.declared.sig.WireBit.{WireBit};
ghost use Rattle.rtl_ir.specs.Decisions.{expanded, leaves_of};
ghost use Rattle.rtl_ir.specs.Flat.Process as flat;
ghost use Rattle.rtl_ir.specs.Tree.{CaseView};
ghost use Rattle.process_trees.specs.Leaves.{summary_of};
ghost use Rattle.process_trees.specs.Reaching.{AreReaching};
ghost use Rattle.process_trees.specs.Rounds.{AreAfter, AreLeaves, first_summaries};

use crate::numbers::Numbers;
use crate::reaching::Reaching;
use crate::round::Round;
use crate::summary::{Summary, is_bit};
use rtl_bits::Memory;
use rtl_ir::Case;
use rtl_sig::{SigBit, WireBit};
use std::alloc::Global;

/// What the values of the tree bits of a process come to through its tree, whatever the decisions.
#[derive(Drop)]
pub struct Leaves {
    numbers: Numbers,
    summaries: Vec<Summary>,
    asked: Option<WireBit>,
}

impl Leaves {
    /// The leaves below a root whose switches are read by the rules, which assigns these bits. One bit may be asked
    /// for, whether it is among the leaves.
    pub fn of(
        alloc: Global,
        root: &Case,
        bits: &[WireBit],
        asked: Option<WireBit>,
    ) -> Result<Leaves, Memory>
        ensures value { IfOk result (λ leaves. AreLeaves leaves root.now bits.now) }
        ensures asked { IfOk result (λ leaves. leaves.asked ≡ asked) }
    {
        let table = Reaching::of(alloc, root, bits)?;
        let summaries = table.settled(alloc, bits, asked)?;
        Ok(Leaves {
            numbers: table.numbers,
            summaries,
            asked,
        })
    }

    /// What the leaves of a value come to: a constant and a bit that is no tree bit come to themselves.
    pub fn of_source(&self, source: SigBit) -> Summary
        ensures value { (root : CaseView) (bits : List WireBit) → AreLeaves self.now root bits →
            result ≡ summary_of self.now.asked (leaves_of (expanded root bits source)) }
    {
        let round = Round {
            numbers: &self.numbers,
            summaries: self.summaries.as_slice(),
            asked: self.asked,
        };
        round.leaf(source)
    }
}

impl Reaching {
    /// Whether a bit that is given a value may come to itself through the tree, of which these are the tree bits.
    pub fn may_hold(
        &self,
        alloc: Global,
        bits: &[WireBit],
        bit: WireBit,
        source: SigBit,
    ) -> Result<bool, Memory>
        ensures value { IfOk result (λ holds. (root : CaseView) → AreReaching self.now root bits.now →
            holds ≡ flat.may_hold root bits.now (record { bit = bit; source = source })) }
    {
        if !is_bit(bit, source) && !self.is_read(bit) {
            return Ok(false);
        }
        let summaries = self.settled(alloc, bits, Some(bit))?;
        let round = Round {
            numbers: &self.numbers,
            summaries: summaries.as_slice(),
            asked: Some(bit),
        };
        Ok(round.leaf(source).asked)
    }

    /// The summaries after as many rounds as there are tree bits. Where a round changes nothing, no later one does.
    fn settled(
        &self,
        alloc: Global,
        bits: &[WireBit],
        asked: Option<WireBit>,
    ) -> Result<Vec<Summary>, Memory>
        ensures value { IfOk result (λ summaries. (root : CaseView) → AreReaching self.now root bits.now →
            AreAfter asked root bits.now (length bits.now) summaries.items) }
    {
        let mut summaries = first(alloc, bits, asked)?;
        for _round in 0..bits.len() {
            let round = Round {
                numbers: &self.numbers,
                summaries: summaries.as_slice(),
                asked,
            };
            let next = round.next(alloc, self.sources.as_slice())?;
            if next == summaries {
                return Ok(summaries);
            }
            summaries = next;
        }
        Ok(summaries)
    }
}

/// The summaries of the tree bits by themselves.
fn first(alloc: Global, bits: &[WireBit], asked: Option<WireBit>) -> Result<Vec<Summary>, Memory>
    ensures value { IfOk result (λ summaries. summaries.items ≡ first_summaries asked bits.now) }
{
    let mut summaries = Vec::with_capacity(alloc, bits.len())?;
    for bit in bits {
        summaries.push(Summary::of(asked, SigBit::Wire(*bit)))?;
    }
    Ok(summaries)
}

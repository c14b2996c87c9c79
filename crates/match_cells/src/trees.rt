//! What is built of trees: the matches of cases, each made once, and multiplexers.

ghost use Rattle.std.specs.Prelude.{◌≡◌, [], Err, IfOk, OnOk, None, Some, replicate, zip};
ghost use Rattle.std.specs.List.{list_any};
ghost use Rattle.net_index.specs.Builder.{IsInLimits, PassesLimit};
ghost use Rattle.net_model.specs.Proc.Mux.{is_asked, is_default};
ghost use Rattle.match_cells.specs.Trees.{made_at, match_bit, new_match, seen, with_case, with_mux};

use crate::cells::{is_asked, joined_bits, mux_cell, pattern_bits};
use net_index::{Builder, PassFault};
use rtl_bits::Memory;
use rtl_sig::{SigBit, SigSpec};
use std::alloc::Global;

/// What is built, and of each case the match that is made for it.
#[derive(Drop)]
pub struct Trees {
    pub alloc: Global,
    pub builder: Builder,
    /// By the numbers of nodes.
    pub made: Vec<Option<SigBit>>,
}

impl Trees {
    /// No match is made yet, of a tree of so many nodes.
    pub fn of(alloc: Global, builder: Builder, nodes: usize) -> Result<Trees, Memory>
        ensures building { IfOk result (λ trees. trees.builder ≡ builder) }
        ensures made { IfOk result (λ trees. trees.made.items ≡ replicate nodes None) }
    {
        let made = vec![in alloc; None; nodes]?;
        Ok(Trees {
            alloc,
            builder,
            made,
        })
    }

    /// The match of the case at this node, where it is made.
    fn made_at(&self, node: usize) -> Option<SigBit>
        ensures value { result ≡ made_at self.now.made.items node }
    {
        match self.made.get(node) {
            Some(made) => *made,
            None => None,
        }
    }

    /// The match of the case at this node is made now.
    #[tactic(auto, unfolding(crate::specs::Trees::new_match))]
    fn new_match(
        &mut self,
        node: usize,
        signal: &[SigBit],
        patterns: &[SigSpec],
    ) -> Result<SigBit, PassFault>
        ensures exact { IfOk result (λ bit. (bit, seen self.new) ≡
            new_match node signal.now patterns.now (seen self.old)) }
        ensures over { result ≡ Err PassFault.Over →
            PassesLimit (new_match node signal.now patterns.now (seen self.old)).1.building }
        ensures within { IsInLimits self.old.builder → OnOk result (IsInLimits self.new.builder) }
    {
        let bits = pattern_bits(self.alloc, signal, patterns, &mut self.builder)?;
        let bit = joined_bits(self.alloc, bits.as_slice(), &mut self.builder)?;
        if let Some(made) = self.made.get_mut(node) {
            *made = Some(bit);
        }
        Ok(bit)
    }

    /// The match of the case at this node: it is made once.
    #[tactic(auto, unfolding(crate::specs::Trees::match_bit))]
    fn match_bit(
        &mut self,
        node: usize,
        signal: &[SigBit],
        patterns: &[SigSpec],
    ) -> Result<SigBit, PassFault>
        ensures exact { IfOk result (λ bit. (bit, seen self.new) ≡
            match_bit node signal.now patterns.now (seen self.old)) }
        ensures over { result ≡ Err PassFault.Over →
            PassesLimit (match_bit node signal.now patterns.now (seen self.old)).1.building }
        ensures within { IsInLimits self.old.builder → OnOk result (IsInLimits self.new.builder) }
    {
        match self.made_at(node) {
            Some(bit) => Ok(bit),
            None => self.new_match(node, signal, patterns),
        }
    }

    /// A multiplexer of what stands for the cases behind a case, and of the case's body.
    #[tactic(auto, using(crate::proofs::Steps::mux_over), unfolding(crate::specs::Trees::with_mux))]
    fn with_mux(
        &mut self,
        node: usize,
        signal: &[SigBit],
        patterns: &[SigSpec],
        body: &[SigBit],
        acc: &[SigBit],
    ) -> Result<SigSpec, PassFault>
        ensures exact { IfOk result (λ value. (value, seen self.new) ≡
            with_mux node signal.now patterns.now body.now acc.now (seen self.old)) }
        ensures over { result ≡ Err PassFault.Over →
            PassesLimit (with_mux node signal.now patterns.now body.now acc.now (seen self.old)).1.building }
        ensures within { IsInLimits self.old.builder → OnOk result (IsInLimits self.new.builder) }
    {
        let bit = self.match_bit(node, signal, patterns)?;
        mux_cell(self.alloc, acc, body, bit, &mut self.builder)
    }

    /// What the case at this node makes of what stands for the cases behind it. After an error the builder holds
    /// some of the cells. In the Yosys manual, the command `proc_mux`.
    #[tactic(auto, unfolding(crate::specs::Trees::with_case))]
    pub fn with_case(
        &mut self,
        node: usize,
        signal: &[SigBit],
        patterns: &[SigSpec],
        body: SigSpec,
        acc: SigSpec,
    ) -> Result<SigSpec, PassFault>
        ensures exact { IfOk result (λ value. (value, seen self.new) ≡
            with_case node signal.now patterns.now body acc (seen self.old)) }
        ensures over { result ≡ Err PassFault.Over →
            PassesLimit (with_case node signal.now patterns.now body acc (seen self.old)).1.building }
        ensures within { IsInLimits self.old.builder → OnOk result (IsInLimits self.new.builder) }
    {
        if is_default(signal, patterns) {
            return Ok(body);
        }
        if body.as_slice() == acc.as_slice() {
            return Ok(acc);
        }
        self.with_mux(node, signal, patterns, body.as_slice(), acc.as_slice())
    }
}

/// Whether the case matches whatever is there: it has no pattern, or one that asks nothing.
fn is_default(signal: &[SigBit], patterns: &[SigSpec]) -> bool
    ensures value { result ≡ is_default signal.now patterns.now }
{
    match patterns {
        [] => true,
        [pattern] => !asks(signal, pattern.as_slice()),
        _ => false,
    }
}

/// Whether a place of the pattern is asked.
fn asks(signal: &[SigBit], pattern: &[SigBit]) -> bool
    ensures value { result ≡ list_any is_asked (zip pattern.now signal.now) }
{
    let mut places = pattern.iter().copied().zip(signal.iter().copied());
    places.any(|place| is_asked(place))
}

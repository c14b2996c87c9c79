//! The chains of tree bits that stand for the data or for the enable of a latch.

ghost use Rattle.std.specs.Prelude.{◌≡◌, [], Err, IfOk, OnOk};
ghost use Rattle.net_index.specs.Builder.{IsInLimits, PassesLimit};
ghost use Rattle.net_model.specs.Proc.Mux.{lowest};
ghost use Rattle.proc_latch.specs.Chains.{chain_at, put_chain, seen, with_case_bit};

use indexmap::IndexMap;
use match_cells::Trees;
use net_index::PassFault;
use rtl_bits::{Bit, Memory};
use rtl_sig::{SigBit, SigSpec, WireBit};

/// What is built, and the tree bits whose chains are made, with their results.
#[derive(Drop)]
pub(crate) struct Chains {
    pub(crate) trees: Trees,
    pub(crate) chains: IndexMap<WireBit, SigBit>,
}

impl Chains {
    /// The chain of the bit, where it is made.
    pub(crate) fn chain_at(&self, bit: WireBit) -> Option<SigBit>
        ensures value { result ≡ chain_at self.now.chains.entries bit }
    {
        self.chains.get(&bit).copied()
    }

    /// The chain of the bit is this, where none is made yet: a chain that is made within another counts.
    #[tactic(auto, unfolding(crate::specs::Chains::put_chain))]
    pub(crate) fn put_chain(&mut self, bit: WireBit, value: SigBit) -> Result<(), Memory>
        ensures ok { OnOk result (seen self.new ≡ put_chain bit value (seen self.old)) }
        ensures trees { self.new.trees ≡ self.old.trees }
    {
        match self.chain_at(bit) {
            Some(_) => Ok(()),
            None => {
                self.chains.insert(bit, value)?;
                Ok(())
            }
        }
    }

    /// What the case at this node makes of what stands for the cases behind it, of one bit.
    #[tactic(auto, unfolding(crate::specs::Chains::with_case_bit))]
    pub(crate) fn with_case(
        &mut self,
        node: usize,
        signal: &[SigBit],
        patterns: &[SigSpec],
        body: SigBit,
        acc: SigBit,
    ) -> Result<SigBit, PassFault>
        ensures exact { IfOk result (λ bit. (bit, seen self.new) ≡
            with_case_bit node signal.now patterns.now body acc (seen self.old)) }
        ensures over { result ≡ Err PassFault.Over →
            PassesLimit (with_case_bit node signal.now patterns.now body acc (seen self.old)).1.trees.building }
        ensures within { IsInLimits self.old.trees.builder → OnOk result (IsInLimits self.new.trees.builder) }
    {
        let body = SigSpec::from_slice(self.trees.alloc, &[body])?;
        let acc = SigSpec::from_slice(self.trees.alloc, &[acc])?;
        let value = self.trees.with_case(node, signal, patterns, body, acc)?;
        Ok(lowest(value.as_slice()))
    }
}

/// The lowest bit of a signal.
fn lowest(signal: &[SigBit]) -> SigBit
    ensures value { result ≡ lowest signal.now }
{
    match signal {
        [] => SigBit::Fixed(Bit::X),
        [bit, ..] => *bit,
    }
}

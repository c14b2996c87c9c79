//! The tree bits of a process.

ghost use Rattle.std.specs.Prelude.{◌≡◌, ◌<◌, IfOk, Some, length, position, reverse, slice_get};
ghost use Rattle.rtl_ir.specs.Signals.{same_bit};
ghost use Rattle.flat_net.specs.Trees.{AreTreeBits, IsFound, place_in};

use crate::places::number_at;
use indexmap::IndexSet;
use net_index::assigned_bits;
use rtl_bits::Memory;
use rtl_ir::Case;
use rtl_sig::{SigBit, WireBit};
use std::alloc::Global;
use std::marker::Model;

/// The bits that the tree of a process gives values to, each at a place of its own, the last one first.
#[derive(Drop)]
pub(crate) struct TreeBits {
    bits: IndexSet<WireBit>,
}

impl Model for TreeBits {
    ghost use Rattle.std.specs.Prelude.{List};
    ghost use Rattle.std.specs.List.{IsDistinct};
    ghost use Rattle.rtl_sig.specs.declared.sig.WireBit.{WireBit};
    ghost use Rattle.rtl_ir.specs.Signals.{same_bit};

    ghost Value = { List WireBit };

    ghost view = { λ t. t.bits.keys };

    ghost invariant = { λ t. IsDistinct same_bit t.bits.keys };
}

impl TreeBits {
    /// The tree bits of the process with this root.
    pub(crate) fn of(alloc: Global, root: &Case) -> Result<TreeBits, Memory>
        ensures value { IfOk result (λ bits. AreTreeBits bits root.now) }
    {
        let assigned = assigned_bits(alloc, root)?;
        let mut bits = IndexSet::new(alloc);
        for at in (0..assigned.len()).rev() {
            bits.insert_full(assigned[at])?;
        }
        Ok(TreeBits { bits })
    }

    /// The place of a bit, where it is one of them.
    pub(crate) fn find(&self, bit: WireBit) -> Option<usize>
        ensures value { result ≡ position (same_bit bit) self.now }
        ensures found { IsFound self.now bit result }
    {
        self.bits.get_index_of(&bit)
    }

    /// The place of a bit or a constant, where it is one of them. More than 2^32 are taken for want of memory.
    pub(crate) fn place(&self, bit: SigBit) -> Result<Option<u32>, Memory>
        ensures value { IfOk result (λ place. place ≡ place_in self.now bit) }
    {
        match bit {
            SigBit::Fixed(_) => Ok(None),
            SigBit::Wire(bit) => match self.find(bit) {
                Some(at) => Ok(Some(number_at(at)?)),
                None => Ok(None),
            },
        }
    }

    /// The bit at a place.
    pub(crate) fn at(&self, at: usize) -> WireBit
        requires in_range { at < length self.now }
        ensures value { slice_get self.now at ≡ Some result }
    {
        match self.bits.get_index(at) {
            Some(bit) => *bit,
            None => unreachable!(),
        }
    }

    /// The bits in order.
    pub(crate) fn list(&self, alloc: Global) -> Result<Vec<WireBit>, Memory>
        ensures value { IfOk result (λ list. list.items ≡ reverse self.now) }
    {
        let mut list = Vec::with_capacity(alloc, self.len())?;
        for at in (0..self.len()).rev() {
            list.push(self.at(at))?;
        }
        Ok(list)
    }

    /// How many there are.
    pub(crate) fn len(&self) -> usize
        ensures value { result ≡ length self.now }
    {
        self.bits.len()
    }
}

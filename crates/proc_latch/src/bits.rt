//! The tree bits of a process.

ghost use Rattle.std.specs.Prelude.{◌≡◌, IfOk};
ghost use Rattle.std.specs.HashSet.{contains};
ghost use Rattle.rtl_sig.specs.declared.sig.WireBit.{WireBit};
ghost use Rattle.rtl_ir.specs.Assigns.{each_once, tree_bits};
ghost use Rattle.rtl_ir.specs.Signals.{has_bit};
ghost use Rattle.proc_latch.specs.Bits.{AreListed};

use net_index::assigned_bits;
use rtl_bits::Memory;
use rtl_ir::Case;
use rtl_sig::WireBit;
use std::alloc::Global;
use std::collections::HashSet;

/// The bits that the tree of a process gives values to, as a list in which each stands once, and as a table.
#[derive(Drop)]
pub(crate) struct TreeBits {
    pub(crate) list: Vec<WireBit>,
    pub(crate) table: HashSet<WireBit>,
}

impl TreeBits {
    /// Whether the bit is one of them.
    pub(crate) fn has(&self, bit: WireBit) -> bool
        requires listed { AreListed self.now }
        ensures value { result ≡ has_bit self.now.list.items bit }
    {
        self.table.contains(&bit)
    }
}

/// The tree bits of the process with this root.
pub(crate) fn tree_bits(alloc: Global, root: &Case) -> Result<TreeBits, Memory>
    ensures list { IfOk result (λ bits. bits.list.items ≡ tree_bits root.now) }
    ensures table { IfOk result AreListed }
{
    let bits = assigned_bits(alloc, root)?;
    each_once(alloc, bits.as_slice())
}

/// The bits without those that come again later.
fn each_once(alloc: Global, bits: &[WireBit]) -> Result<TreeBits, Memory>
    ensures list { IfOk result (λ once. once.list.items ≡ each_once bits.now) }
    ensures table { IfOk result AreListed }
{
    let mut table = HashSet::new(alloc);
    let mut list = Vec::new(alloc);
    for at in (0..bits.len()).rev() {
        if table.insert(bits[at])? {
            list.push(bits[at])?;
        }
    }
    list.reverse();
    Ok(TreeBits { list, table })
}

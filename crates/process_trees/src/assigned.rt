//! The bits that a tree drives.

ghost use Rattle.std.specs.Prelude.{◌≡◌, IfOk};
ghost use Rattle.rtl_ir.specs.Assigns.{each_once, tree_bits};

use net_index::assigned_bits;
use rtl_bits::Memory;
use rtl_ir::Case;
use rtl_sig::WireBit;
use std::alloc::Global;
use std::collections::HashSet;

/// The bits that the assigns of a tree name once the switches are read by the rules, each once.
pub fn tree_bits(alloc: Global, root: &Case) -> Result<Vec<WireBit>, Memory>
    ensures value { IfOk result (λ bits. bits.items ≡ tree_bits root.now) }
{
    let bits = assigned_bits(alloc, root)?;
    each_once(alloc, bits.as_slice())
}

/// The bits without those that come again later.
fn each_once(alloc: Global, bits: &[WireBit]) -> Result<Vec<WireBit>, Memory>
    ensures value { IfOk result (λ once. once.items ≡ each_once bits.now) }
{
    let mut seen = HashSet::new(alloc);
    let mut once = Vec::new(alloc);
    for at in (0..bits.len()).rev() {
        if seen.insert(bits[at])? {
            once.push(bits[at])?;
        }
    }
    once.reverse();
    Ok(once)
}

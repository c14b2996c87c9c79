//! What leaves are read by.

ghost use Rattle.std.specs.Prelude.{IfOk};
ghost use Rattle.proc_latch.specs.Chains.{AreTables};

use crate::bits::{TreeBits, tree_bits};
use crate::side::Side;
use crate::sources::Sources;
use match_cells::nodes_behind;
use process_trees::Reaching;
use rtl_bits::Memory;
use rtl_ir::Case;
use rtl_sig::WireBit;
use std::alloc::Global;

/// Tables of a tree.
#[derive(Drop)]
pub(crate) struct Tables {
    /// Of each node the first node behind it.
    pub(crate) nodes: Vec<usize>,
    pub(crate) bits: TreeBits,
    pub(crate) sources: Sources,
    /// What the tree bits may be given last.
    pub(crate) reaching: Reaching,
}

/// How leaves are read: of which tree, on which side, and for which bit of a latch.
#[derive(Clone, Copy)]
pub(crate) struct Reading<'a> {
    pub(crate) root: &'a Case,
    pub(crate) tables: &'a Tables,
    pub(crate) side: Side,
    pub(crate) own: WireBit,
}

/// The tables of the tree with this root.
pub(crate) fn tables_of(alloc: Global, root: &Case) -> Result<Tables, Memory>
    ensures tables { IfOk result (AreTables root.now) }
{
    let bits = tree_bits(alloc, root)?;
    let reaching = Reaching::of(alloc, root, bits.list.as_slice())?;
    Ok(Tables {
        nodes: nodes_behind(alloc, root)?,
        bits,
        sources: Sources::of(alloc, root)?,
        reaching,
    })
}

//! The trees of processes, as they are read.

ghost use Rattle.std.specs.Prelude.{◌≡◌, IfOk};
ghost use Rattle.rtl_ir.specs.SwitchRules.{root_by_rules};
ghost use Rattle.flat_net.specs.Trees.{AreTreeBits};

use crate::tree_bits::TreeBits;
use process_trees::ruled;
use rtl_bits::Memory;
use rtl_ir::Case;
use std::alloc::Global;

/// The tree of a process: its root with the switches read by the rules, and its tree bits.
#[derive(Drop)]
pub(crate) struct Rooted {
    pub(crate) root: Case,
    pub(crate) bits: TreeBits,
}

impl Rooted {
    /// The tree of a process with this root.
    pub(crate) fn of(alloc: Global, root: &Case) -> Result<Rooted, Memory>
        ensures root { IfOk result (λ tree. tree.root ≡ root_by_rules root.now) }
        ensures bits { IfOk result (λ tree. AreTreeBits tree.bits root.now) }
    {
        Ok(Rooted {
            root: ruled(alloc, root)?,
            bits: TreeBits::of(alloc, root)?,
        })
    }
}

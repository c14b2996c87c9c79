//! The trees of processes.

ghost use Rattle.std.specs.Prelude.{◌≡◌, List, IfOk, length, map};
ghost use Rattle.rtl_ir.specs.Flat.Place.{Place};
ghost use Rattle.net_model.specs.Run.{Time};
ghost use Rattle.flat_net.specs.Picks.{tree_row};
ghost use Rattle.flat_net.specs.Points.{AreApart};
ghost use Rattle.flat_net.specs.Within.{IsTreeWithin};
ghost use Rattle.sim_eval.specs.Advance.{Advances, AreFewer};

use crate::cell::{Worked, put_all};
use crate::walk::{Leaves, Walk, tree_bits};
use flat_net::Tree;
use rtl_bits::{Bit, Memory, Seq};
use std::alloc::Global;

/// Gives the bits that the tree drives their values, where they had none so far. Answers whether one of them got one.
pub(crate) fn update_tree(alloc: Global, tree: &Tree, now: &mut [Bit]) -> Result<bool, Memory>
    ensures fewer { IfOk result (AreFewer now.old now.new) }
    ensures advances { IfOk result (λ changed. (ps : List Place) → AreApart ps → length ps ≡ length now.old →
        IsTreeWithin (length ps) tree.now → (t : Time Place) →
        Advances ps t (map (tree_row ps tree.now.root) tree.now.outputs) now.old now.new changed) }
{
    let walk = Walk {
        values: now,
        reset: Bit::X,
        leaves: Leaves::Values,
        last: None,
    };
    let bits = tree_bits(alloc, &walk, tree)?;
    let worked = Worked::Word(Seq::from_vec(bits));
    Ok(put_all(tree.outputs.as_slice(), &worked, now))
}

//! The forks and the leaves that a tree reaches.

ghost use Rattle.std.specs.Prelude.{
  ◌≡◌,
  List,
  [],
  ◌∷◌,
  IfOk,
  MatchBool,
  MatchOption,
  OnOk,
  Some,
  true,
  false,
  length,
  slice_get,
};
ghost use Rattle.rtl_sig.specs.declared.sig.SigBit.{SigBit};
ghost use Rattle.rtl_ir.specs.declared.module.Module.{Module};
ghost use Rattle.rtl_ir.specs.Types.{Ports};
ghost use Rattle.net_model.specs.Lists.{In};
ghost use Rattle.fsm_find.specs.Trees.{HasNoTree, IsForkUnder, IsReach, IsUnder, IsWhole, Learns, Meets, Opens, Visits};
ghost use Rattle.fsm_find.specs.View.{IsView};

use crate::view::{Step, View};
use fsm_parts::{arms, is_state_constant};
use rtl_bits::{Bits, Memory};
use rtl_ir::{Module, constants_of};
use rtl_sig::{SigBit, SigSpec};
use std::alloc::Global;

/// A fork, by its place in the list of cells, and the forks that its arms lead to.
#[derive(Drop)]
pub(crate) struct Node {
    pub(crate) fork: usize,
    pub(crate) below: Vec<usize>,
}

/// What is found of a tree.
#[derive(Drop)]
pub(crate) struct Reach {
    /// Of each cell whether it is found.
    pub(crate) found: Vec<bool>,
    /// The forks that are found, each once, in that order.
    pub(crate) forks: Vec<usize>,
    /// The first of them, with what is below.
    pub(crate) nodes: Vec<Node>,
    /// The known constants among the leaves.
    pub(crate) known: Vec<Bits>,
}

impl Reach {
    /// Nothing is found.
    fn none(alloc: Global, module: &Module) -> Result<Reach, Memory>
        ensures value { IfOk result (λ reach. (state root : List SigBit) → IsReach «module».now state root reach) }
    {
        Ok(Reach {
            found: vec![in alloc; false; module.cells.as_slice().len()]?,
            forks: Vec::new(alloc),
            nodes: Vec::new(alloc),
            known: Vec::new(alloc),
        })
    }

    /// The fork at this place is found, if it was not. One past the cells is taken for want of memory.
    fn meet(&mut self, at: usize) -> Result<(), Memory>
        ensures ok { OnOk result ((m : Module) (state root : List SigBit) → IsReach m state root self.old →
            IsForkUnder m state root at → Meets m state root self.old self.new at) }
    {
        if at >= self.found.len() {
            return Err(Memory);
        }
        if self.found[at] {
            return Ok(());
        }
        self.forks.push(at)?;
        self.found[at] = true;
        Ok(())
    }

    /// The constant of a leaf is noted where it is known.
    fn learn(&mut self, alloc: Global, signal: &[SigBit]) -> Result<(), Memory>
        ensures ok { OnOk result (Learns self.old self.new signal.now) }
    {
        if is_state_constant(signal) {
            self.known.push(constants_of(alloc, signal)?)?;
        }
        Ok(())
    }

    /// A followed signal of the tree, and whether it may be there; `below` takes the fork that drives it.
    fn visit(
        &mut self,
        view: &View,
        signal: &[SigBit],
        below: &mut Vec<usize>,
    ) -> Result<bool, Memory>
        ensures ok { IfOk result (λ ok. (ports : Ports) (m : Module) (root : List SigBit) → IsView view.now ports m →
            IsReach m view.now.state root self.old → IsUnder m view.now.state root signal.now →
            MatchBool ok (Visits m view.now.state root
            (signal.now ∷ []) self.old self.new below.old.items below.new.items)
            (HasNoTree m view.now.state root)) }
    {
        match view.step(signal)? {
            Step::Leaf => {
                self.learn(view.alloc, signal)?;
                Ok(true)
            }
            Step::Fork(at) => {
                below.push(at)?;
                self.meet(at)?;
                Ok(true)
            }
            Step::Stray => Ok(false),
        }
    }

    /// Signals of the tree, and whether they may be there; `below` takes the forks that drive them.
    fn visit_all(
        &mut self,
        view: &View,
        signals: &[SigSpec],
        below: &mut Vec<usize>,
    ) -> Result<bool, Memory>
        ensures ok { IfOk result (λ ok. (ports : Ports) (m : Module) (root : List SigBit) → IsView view.now ports m →
            IsReach m view.now.state root self.old →
            ((s : List SigBit) → In s signals.now → IsUnder m view.now.state root s) →
            MatchBool ok (Visits m view.now.state root signals.now self.old self.new below.old.items below.new.items)
            (HasNoTree m view.now.state root)) }
    {
        for signal in signals {
            if !self.visit(view, signal.as_slice(), below)? {
                return Ok(false);
            }
        }
        Ok(true)
    }

    /// The arms of the next fork, and whether they may be there.
    fn open(&mut self, view: &View, module: &Module, at: usize) -> Result<bool, Memory>
        ensures ok { IfOk result (λ ok. (ports : Ports) (root : List SigBit) → IsView view.now ports «module».now →
            IsReach «module».now view.now.state root self.old →
            slice_get self.old.forks.items (length self.old.nodes.items) ≡ Some at →
            MatchBool ok (Opens «module».now view.now.state root self.old self.new)
            (HasNoTree «module».now view.now.state root)) }
    {
        let cells = module.cells.as_slice();
        if at >= cells.len() {
            return Err(Memory);
        }
        let arms = arms(view.alloc, view.index, &cells[at])?;
        let mut below = Vec::new(view.alloc);
        if !self.visit_all(view, arms.as_slice(), &mut below)? {
            return Ok(false);
        }
        self.nodes.push(Node { fork: at, below })?;
        Ok(true)
    }
}

/// All that the tree at a followed signal reaches, where each of its leaves may be there.
pub(crate) fn reached(
    view: &View,
    module: &Module,
    root: &[SigBit],
) -> Result<Option<Reach>, Memory>
    ensures found { IfOk result (λ reach. (ports : Ports) → IsView view.now ports «module».now →
        MatchOption reach (HasNoTree «module».now view.now.state root.now)
        (IsWhole «module».now view.now.state root.now)) }
{
    let mut reach = Reach::none(view.alloc, module)?;
    let mut below = Vec::new(view.alloc);
    if !reach.visit(view, root, &mut below)? {
        return Ok(None);
    }
    for _step in 0..u64::MAX {
        let at = reach.nodes.len();
        if at >= reach.forks.len() {
            return Ok(Some(reach));
        }
        let fork = reach.forks[at];
        if !reach.open(view, module, fork)? {
            return Ok(None);
        }
    }
    Err(Memory)
}

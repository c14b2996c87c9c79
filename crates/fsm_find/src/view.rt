//! What is known of a module where a tree is followed.

ghost use Rattle.std.specs.Prelude.{◌≡◌, IfOk};
ghost use Rattle.rtl_ir.specs.declared.module.Module.{Module};
ghost use Rattle.rtl_ir.specs.Types.{Ports};
ghost use Rattle.fsm_find.specs.View.{IsView, step_of};

use fsm_parts::{SignalTable, is_leaf};
use net_index::Drivers;
use rtl_bits::Memory;
use rtl_sig::{SigBit, SigSpec};
use std::alloc::Global;

/// Where the bits of a module lead, its forks, and a wire that may be a state.
#[derive(Drop)]
pub(crate) struct View<'a> {
    pub(crate) alloc: Global,
    pub(crate) index: &'a Drivers,
    pub(crate) forks: &'a SignalTable,
    pub(crate) state: SigSpec,
}

/// What a followed signal is in a tree.
#[derive(Clone, Copy)]
pub(crate) enum Step {
    /// A constant, or the state.
    Leaf,
    /// The output of the fork at this place of the list of cells.
    Fork(usize),
    /// Neither, so there is no tree.
    Stray,
}

impl<'a> View<'a> {
    /// What a followed signal is.
    pub(crate) fn step(&self, signal: &[SigBit]) -> Result<Step, Memory>
        ensures value { IfOk result (λ step. (ports : Ports) (m : Module) → IsView self.now ports m →
            step ≡ step_of m self.now.state signal.now) }
    {
        if is_leaf(self.state.as_slice(), signal) {
            return Ok(Step::Leaf);
        }
        match self.forks.find(self.alloc, signal)? {
            Some(at) => Ok(Step::Fork(at)),
            None => Ok(Step::Stray),
        }
    }
}

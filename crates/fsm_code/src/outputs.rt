//! The outputs of the cells of a tree, before and after.

ghost use Rattle.std.specs.Prelude.{◌≡◌, ◌++◌, ◌∷◌, [], IfOk, OnOk, option_map};
ghost use Rattle.net_model.specs.Fsm.Code.{output_code};
ghost use Rattle.fsm_code.specs.Outputs.{IsTabled, outputs_of};

use fsm_parts::SignalTable;
use rtl_bits::Memory;
use rtl_sig::{SigBit, SigSpec};
use std::alloc::Global;

/// The output of a cell of the tree: its old signal, and its fresh one.
#[derive(Drop)]
pub(crate) struct Output {
    pub(crate) before: SigSpec,
    pub(crate) after: SigSpec,
}

/// Outputs, with places in the list by their old signals.
#[derive(Drop)]
pub(crate) struct Outputs {
    pub(crate) table: SignalTable,
    pub(crate) list: Vec<Output>,
}

impl Outputs {
    /// No outputs.
    pub(crate) fn none(alloc: Global) -> Outputs
        ensures none { outputs_of result ≡ [] }
        ensures tabled { IsTabled result }
    {
        Outputs {
            table: SignalTable::none(alloc),
            list: Vec::new(alloc),
        }
    }

    /// An output goes last.
    pub(crate) fn push(
        &mut self,
        alloc: Global,
        before: SigSpec,
        after: SigSpec,
    ) -> Result<(), Memory>
        ensures ok { OnOk result (outputs_of self.new ≡ outputs_of self.old
            ++ record { before = before; after = after } ∷ []) }
        ensures tabled { OnOk result (IsTabled self.old → IsTabled self.new) }
    {
        let at = self.list.len();
        self.table.put_first(alloc, before.as_slice(), at)?;
        self.list.push(Output { before, after })?;
        Ok(())
    }

    /// The fresh output of an old one.
    pub(crate) fn find(&self, alloc: Global, signal: &[SigBit]) -> Result<Option<&SigSpec>, Memory>
        ensures value { IfOk result (λ after. IsTabled self.now →
            option_map (λ s. s.now) after ≡ output_code (outputs_of self.now) signal.now) }
    {
        match self.table.find(alloc, signal)? {
            Some(at) => match self.list.get(at) {
                Some(output) => Ok(Some(&output.after)),
                None => Ok(None),
            },
            None => Ok(None),
        }
    }
}

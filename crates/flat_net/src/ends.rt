//! The inputs and outputs of the module that is run.

ghost use Rattle.std.specs.Prelude.{◌≡◌, ◌<◌, Some, IfOk, OnOk, slice_get, []};
ghost use Rattle.flat_net.specs.Ends.{IsEnds};
ghost use Rattle.flat_net.specs.Known.{Extends};

use crate::places::Places;
use rtl_bits::{Memory, Seq};
use rtl_ir::{Module, Role, port_wires};
use std::alloc::Global;

/// The number of the path of the module that is run, and the numbers of its input and output bits.
#[derive(Drop)]
pub(crate) struct Ends {
    pub(crate) root: u32,
    pub(crate) inputs: Seq<u32>,
    pub(crate) outputs: Seq<u32>,
}

impl Places {
    /// The inputs and outputs of the module that is run, under this name.
    pub(crate) fn ends(&mut self, alloc: Global, id: &[u8], body: &Module) -> Result<Ends, Memory>
        requires outside { slice_get self.old.paths 0 ≡ Some [] }
        ensures grows { OnOk result (Extends self.old self.new) }
        ensures value { IfOk result (λ ends. IsEnds self.new ends (record body.now { id = id.now })) }
    {
        let found = port_wires(alloc, body.wires.as_slice())?;
        let ports = found.as_slice();
        let root = self.enter(0, &[], id)?;
        let inputs = self.role_numbers(alloc, root, ports, Role::Input)?;
        let outputs = self.role_numbers(alloc, root, ports, Role::Output)?;
        Ok(Ends {
            root,
            inputs,
            outputs,
        })
    }
}

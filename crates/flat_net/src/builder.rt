//! A flat netlist that is being built.

ghost use Rattle.std.specs.Prelude.{◌≡◌, ◌++◌, suc, Some, [], IfOk, length, slice_get};
ghost use Rattle.rtl_ir.specs.declared.module.Design.{Design};
ghost use Rattle.rtl_ir.specs.declared.wire.Role.TheVariants.{Input};
ghost use Rattle.rtl_ir.specs.Flat.Tree.{design_ports, given_rows, in_tree, output_places, places, role_points, root};
ghost use Rattle.rtl_ir.specs.Ports.{ports_of};
ghost use Rattle.flat_net.specs.Adds.{Adds};
ghost use Rattle.flat_net.specs.Known.{nothing};
ghost use Rattle.flat_net.specs.Points.{AreApart};
ghost use Rattle.flat_net.specs.Reads.{AreNumbers};
ghost use Rattle.flat_net.specs.Tables.{IsTable};
ghost use Rattle.rtl_ir.specs.Flat.Rows.{rows_of};

use crate::modules::Table;
use crate::net::{Net, Part};
use crate::places::Places;
use rtl_bits::{Memory, Seq};
use rtl_ir::Module;
use std::alloc::Global;

/// The bits that have a number, and the parts so far.
#[derive(Drop)]
pub(crate) struct Builder {
    pub(crate) places: Places,
    pub(crate) parts: Vec<Part>,
}

impl Builder {
    /// No parts. It takes no memory.
    pub(crate) fn make(alloc: Global) -> Builder
        ensures places { result.places ≡ nothing }
        ensures parts { result.parts.items ≡ [] }
    {
        Builder {
            places: Places::make(alloc),
            parts: Vec::new(alloc),
        }
    }

    /// The module that is run under this name with all its instances, so many levels deep. Answers the numbers of its
    /// output bits.
    pub(crate) fn add_all<'a>(
        &mut self,
        alloc: Global,
        table: &Table<'a>,
        id: &[u8],
        body: &'a Module,
        below: usize,
    ) -> Result<Seq<u32>, Memory>
        requires outside { slice_get self.old.places.paths 0 ≡ Some [] }
        ensures rows { (d : Design) → IsTable table.now d.modules →
            IfOk result (λ _. Adds self.old self.new
            (given_rows
            (places (role_points Input (root (record body.now { id = id.now })) (ports_of body.now.wires))) 0
            ++ in_tree d (rows_of (design_ports d)) (suc below) (root (record body.now { id = id.now })) body.now)) }
        ensures outputs { IfOk result (λ outputs.
            AreNumbers self.new.places.places outputs (output_places (record body.now { id = id.now }))) }
    {
        let ends = self.places.ends(alloc, id, body)?;
        self.give(ends.inputs.as_slice())?;
        self.add_tree(alloc, table, body, ends.root, below)?;
        Ok(ends.outputs)
    }

    /// The netlist with these outputs.
    pub(crate) fn finish(self, outputs: Seq<u32>) -> Result<Net, Memory>
        ensures apart { AreApart self.places.places }
        ensures count { IfOk result (λ net. length self.places.places ≡ net.count) }
        ensures parts { IfOk result (λ net. net.parts ≡ self.parts.items) }
        ensures outputs { IfOk result (λ net. net.outputs ≡ outputs) }
    {
        let Builder { places, parts } = self;
        let count = places.count()?;
        Ok(Net {
            parts: Seq::from_vec(parts),
            count,
            outputs,
        })
    }
}

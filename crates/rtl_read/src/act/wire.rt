//! Wires: options, and then a name.

ghost use Rattle.rtl_lex.specs.Items.{as_seen};
ghost use Rattle.rtl_read.specs.Gives.{Sets};
ghost use Rattle.rtl_read.specs.Act.Wire.{act_wire_option, act_wire_width, act_wire_offset, act_port_number};

use crate::draft::Draft;
use crate::options::{plain_wire, set_number, set_offset, set_option, set_width};
use crate::read_fault::ReadFault;
use rtl_bits::Seq;
use rtl_lex::{Item, Sort};
use std::alloc::Global;
use std::mem;

impl Draft {
    /// An option of a wire; or its name, with which it is whole.
    #[tactic(auto, using(crate::proofs::Faults::fails_on, crate::proofs::Faults::goes_on))]
    pub(crate) fn act_wire_option(
        &mut self,
        alloc: Global,
        item: &Item<'_>,
    ) -> Result<(), ReadFault>
        ensures { Sets result self.new (act_wire_option item.now.sort (as_seen item.now) self.old) }
    {
        if item.sort != Sort::Id {
            set_option(&mut self.wire, item.sort);
            return Ok(());
        }
        let wire = mem::replace(&mut self.wire, plain_wire(alloc, Seq::make(alloc)));
        if let Err(fault) = self.current.add_wire(alloc, item, wire) {
            return Err(fault);
        }
        Ok(())
    }

    /// The number behind `width`.
    #[tactic(auto, using(crate::proofs::Faults::fails_on, crate::proofs::Faults::goes_on))]
    pub(crate) fn act_wire_width(&mut self, item: &Item<'_>) -> Result<(), ReadFault>
        ensures { Sets result self.new (act_wire_width (as_seen item.now) self.old) }
    {
        if let Err(fault) = set_width(&mut self.wire, item) {
            return Err(fault);
        }
        Ok(())
    }

    /// The number behind `offset`.
    #[tactic(auto, using(crate::proofs::Faults::fails_on, crate::proofs::Faults::goes_on))]
    pub(crate) fn act_wire_offset(&mut self, item: &Item<'_>) -> Result<(), ReadFault>
        ensures { Sets result self.new (act_wire_offset (as_seen item.now) self.old) }
    {
        if let Err(fault) = set_offset(&mut self.wire, item) {
            return Err(fault);
        }
        Ok(())
    }

    /// The number of a port.
    #[tactic(auto, using(crate::proofs::Faults::fails_on, crate::proofs::Faults::goes_on))]
    pub(crate) fn act_port_number(&mut self, item: &Item<'_>) -> Result<(), ReadFault>
        ensures { Sets result self.new (act_port_number (as_seen item.now) self.old) }
    {
        if let Err(fault) = set_number(&mut self.wire, item) {
            return Err(fault);
        }
        Ok(())
    }
}

//! Cells: a type, a name, and lines up to `end`.

ghost use Rattle.std.specs.Prelude.{Ok};
ghost use Rattle.rtl_lex.specs.Items.{as_seen};
ghost use Rattle.rtl_read.specs.Gives.{Sets};
ghost use Rattle.rtl_read.specs.Act.Cell.{
  act_cell_kind,
  act_cell_name,
  act_cell_body,
  act_cell_parameter,
  act_cell_parameter_name,
  act_cell_parameter_value,
  act_pin_name,
  act_behind_pin,
};

use crate::constant::constant;
use crate::draft::Draft;
use crate::read_fault::ReadFault;
use rtl_lex::{Item, Sort};
use std::alloc::Global;

impl Draft {
    /// The type of a cell.
    pub(crate) fn act_cell_kind(&mut self, alloc: Global, item: &Item<'_>) -> Result<(), ReadFault>
        ensures { Sets result self.new (Ok (act_cell_kind (as_seen item.now) self.old)) }
    {
        self.cell.set_kind(alloc, item)?;
        Ok(())
    }

    /// The name of a cell.
    #[tactic(auto, using(crate::proofs::Faults::fails_on, crate::proofs::Faults::goes_on))]
    pub(crate) fn act_cell_name(&mut self, alloc: Global, item: &Item<'_>) -> Result<(), ReadFault>
        ensures { Sets result self.new (act_cell_name (as_seen item.now) self.old) }
    {
        if let Err(fault) = self.current.take_name(item) {
            return Err(fault);
        }
        self.cell.set_name(alloc, item)?;
        Ok(())
    }

    /// A line of a cell; or its end, with which it is whole.
    pub(crate) fn act_cell_body(&mut self, alloc: Global, item: &Item<'_>) -> Result<(), ReadFault>
        ensures { Sets result self.new (Ok (act_cell_body item.now.sort self.old)) }
    {
        if item.sort == Sort::End {
            let cell = self.cell.take(alloc)?;
            self.current.add_cell(cell)?;
        }
        Ok(())
    }

    /// The name of a parameter of a cell.
    #[tactic(auto, using(crate::proofs::Faults::fails_on, crate::proofs::Faults::goes_on))]
    pub(crate) fn act_cell_parameter_name(
        &mut self,
        alloc: Global,
        item: &Item<'_>,
    ) -> Result<(), ReadFault>
        ensures { Sets result self.new (act_cell_parameter_name (as_seen item.now) self.old) }
    {
        if let Err(fault) = self.cell.param_name(alloc, item) {
            return Err(fault);
        }
        Ok(())
    }

    /// `signed`, or the name.
    pub(crate) fn act_cell_parameter(
        &mut self,
        alloc: Global,
        item: &Item<'_>,
    ) -> Result<(), ReadFault>
        ensures { Sets result self.new (act_cell_parameter item.now.sort (as_seen item.now) self.old) }
    {
        if item.sort == Sort::Signed {
            self.cell.signed = true;
            return Ok(());
        }
        self.act_cell_parameter_name(alloc, item)
    }

    /// Its value.
    #[tactic(auto, using(crate::proofs::Faults::fails_on, crate::proofs::Faults::goes_on))]
    pub(crate) fn act_cell_parameter_value(
        &mut self,
        alloc: Global,
        item: &Item<'_>,
    ) -> Result<(), ReadFault>
        ensures { Sets result self.new (act_cell_parameter_value item.now.sort (as_seen item.now) self.old) }
    {
        match constant(alloc, item) {
            Ok(value) => {
                self.cell.add_param(alloc, value)?;
                Ok(())
            }
            Err(fault) => Err(fault),
        }
    }

    /// The name of a pin.
    #[tactic(auto, using(crate::proofs::Faults::fails_on, crate::proofs::Faults::goes_on))]
    pub(crate) fn act_pin_name(&mut self, alloc: Global, item: &Item<'_>) -> Result<(), ReadFault>
        ensures { Sets result self.new (act_pin_name (as_seen item.now) self.old) }
    {
        if let Err(fault) = self.cell.pin_name(alloc, item) {
            return Err(fault);
        }
        Ok(())
    }

    /// A bracket behind the signal of a pin; or the end of the line: the pin has the signal.
    pub(crate) fn act_behind_pin(&mut self, alloc: Global, item: &Item<'_>) -> Result<(), ReadFault>
        ensures { Sets result self.new (Ok (act_behind_pin item.now.sort (as_seen item.now) self.old)) }
    {
        if item.sort == Sort::OpenIndex {
            self.open_bracket(item);
            return Ok(());
        }
        let sig = self.take_signal(alloc)?;
        self.cell.add_pin(alloc, sig)?;
        Ok(())
    }
}

//! Attributes, which wait for the item that they stand before.

ghost use Rattle.std.specs.Prelude.{Ok};
ghost use Rattle.rtl_lex.specs.Items.{as_seen};
ghost use Rattle.rtl_read.specs.Gives.{Sets};
ghost use Rattle.rtl_read.specs.Act.Attribute.{act_attribute_name, act_attribute_value};

use crate::constant::constant;
use crate::draft::Draft;
use crate::read_fault::ReadFault;
use rtl_bits::Text;
use rtl_lex::Item;
use std::alloc::Global;
use std::mem;

impl Draft {
    /// The name of an attribute.
    pub(crate) fn act_attribute_name(
        &mut self,
        alloc: Global,
        item: &Item<'_>,
    ) -> Result<(), ReadFault>
        ensures { Sets result self.new (Ok (act_attribute_name (as_seen item.now) self.old)) }
    {
        self.name = Text::from_slice(alloc, item.text)?;
        Ok(())
    }

    /// Its value: one attribute more waits.
    #[tactic(auto, using(crate::proofs::Faults::fails_on, crate::proofs::Faults::goes_on))]
    pub(crate) fn act_attribute_value(
        &mut self,
        alloc: Global,
        item: &Item<'_>,
    ) -> Result<(), ReadFault>
        ensures { Sets result self.new (act_attribute_value item.now.sort (as_seen item.now) self.old) }
    {
        match constant(alloc, item) {
            Ok(value) => {
                let name = mem::replace(&mut self.name, Text::make(alloc));
                self.attributes.put(alloc, name, value)?;
                Ok(())
            }
            Err(fault) => Err(fault),
        }
    }
}

//! Memories: options, and then a name.

ghost use Rattle.rtl_lex.specs.Items.{as_seen};
ghost use Rattle.rtl_read.specs.Gives.{Sets};
ghost use Rattle.rtl_read.specs.Act.Memory.{act_memory_option, act_memory_width, act_memory_size, act_memory_offset};

use crate::draft::Draft;
use crate::options::{plain_store, set_store_offset, set_store_size, set_store_width};
use crate::read_fault::ReadFault;
use rtl_bits::Seq;
use rtl_lex::{Item, Sort};
use std::alloc::Global;
use std::mem;

impl Draft {
    /// An option of a memory; or its name, with which it is whole.
    #[tactic(auto, using(crate::proofs::Faults::fails_on, crate::proofs::Faults::goes_on))]
    pub(crate) fn act_memory_option(
        &mut self,
        alloc: Global,
        item: &Item<'_>,
    ) -> Result<(), ReadFault>
        ensures { Sets result self.new (act_memory_option item.now.sort (as_seen item.now) self.old) }
    {
        if item.sort != Sort::Id {
            return Ok(());
        }
        let store = mem::replace(&mut self.store, plain_store(alloc, Seq::make(alloc)));
        if let Err(fault) = self.current.add_store(alloc, item, store) {
            return Err(fault);
        }
        Ok(())
    }

    /// The number behind `width`.
    #[tactic(auto, using(crate::proofs::Faults::fails_on, crate::proofs::Faults::goes_on))]
    pub(crate) fn act_memory_width(&mut self, item: &Item<'_>) -> Result<(), ReadFault>
        ensures { Sets result self.new (act_memory_width (as_seen item.now) self.old) }
    {
        if let Err(fault) = set_store_width(&mut self.store, item) {
            return Err(fault);
        }
        Ok(())
    }

    /// The number behind `size`.
    #[tactic(auto, using(crate::proofs::Faults::fails_on, crate::proofs::Faults::goes_on))]
    pub(crate) fn act_memory_size(&mut self, item: &Item<'_>) -> Result<(), ReadFault>
        ensures { Sets result self.new (act_memory_size (as_seen item.now) self.old) }
    {
        if let Err(fault) = set_store_size(&mut self.store, item) {
            return Err(fault);
        }
        Ok(())
    }

    /// The number behind `offset`.
    #[tactic(auto, using(crate::proofs::Faults::fails_on, crate::proofs::Faults::goes_on))]
    pub(crate) fn act_memory_offset(&mut self, item: &Item<'_>) -> Result<(), ReadFault>
        ensures { Sets result self.new (act_memory_offset (as_seen item.now) self.old) }
    {
        if let Err(fault) = set_store_offset(&mut self.store, item) {
            return Err(fault);
        }
        Ok(())
    }
}

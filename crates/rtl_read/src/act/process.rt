//! Processes: assigns and switches, and then syncs, up to `end`.

ghost use Rattle.std.specs.Prelude.{◌≡◌, OnOk};
ghost use Rattle.rtl_lex.specs.Items.{as_seen};
ghost use Rattle.rtl_read.specs.Gives.{Sets};
ghost use Rattle.rtl_read.specs.Act.Process.{
  act_process_name,
  open_switch,
  close_process,
  act_next_switch,
  act_process_body,
};

use crate::draft::{Draft, PairKind};
use crate::open_process::{plain_process, process_of};
use crate::read_fault::ReadFault;
use rtl_bits::{Memory, Seq};
use rtl_lex::{Item, Sort};
use std::alloc::Global;
use std::mem;

impl Draft {
    /// The name of a process.
    #[tactic(auto, using(crate::proofs::Faults::fails_on, crate::proofs::Faults::goes_on))]
    pub(crate) fn act_process_name(
        &mut self,
        alloc: Global,
        item: &Item<'_>,
    ) -> Result<(), ReadFault>
        ensures { Sets result self.new (act_process_name (as_seen item.now) self.old) }
    {
        if let Err(fault) = self.current.take_name(item) {
            return Err(fault);
        }
        self.process.set_name(alloc, item)?;
        Ok(())
    }

    /// The word `switch`.
    #[tactic(auto, using(crate::proofs::Faults::fails_on, crate::proofs::Faults::goes_on))]
    pub(crate) fn open_switch(&mut self, alloc: Global, item: &Item<'_>) -> Result<(), ReadFault>
        ensures { Sets result self.new (open_switch (as_seen item.now) self.old) }
    {
        let attributes = self.attributes.take(alloc);
        if let Err(fault) = self.process.tree.deeper(item, attributes) {
            return Err(fault);
        }
        Ok(())
    }

    /// The open process is whole.
    pub(crate) fn close_process(&mut self, alloc: Global) -> Result<(), Memory>
        ensures { OnOk result (self.new ≡ close_process self.old) }
    {
        let process = mem::replace(&mut self.process, plain_process(alloc, Seq::make(alloc)));
        self.current.add_process(process_of(process))
    }

    /// The switch behind its attributes.
    pub(crate) fn act_next_switch(
        &mut self,
        alloc: Global,
        item: &Item<'_>,
    ) -> Result<(), ReadFault>
        ensures { Sets result self.new (act_next_switch item.now.sort (as_seen item.now) self.old) }
    {
        if item.sort == Sort::Switch {
            return self.open_switch(alloc, item);
        }
        Ok(())
    }

    /// An assign or a switch of a process, its first sync, or its end.
    pub(crate) fn act_process_body(
        &mut self,
        alloc: Global,
        item: &Item<'_>,
    ) -> Result<(), ReadFault>
        ensures { Sets result self.new (act_process_body item.now.sort (as_seen item.now) self.old) }
    {
        match item.sort {
            Sort::Assign => self.pair = PairKind::Assign,
            Sort::End => self.close_process(alloc)?,
            _ => return self.act_next_switch(alloc, item),
        }
        Ok(())
    }
}

//! Syncs: an event, and lines up to the next sync or the end of the process.

ghost use Rattle.std.specs.Prelude.{◌≡◌, Ok, OnOk};
ghost use Rattle.rtl_lex.specs.Items.{as_seen};
ghost use Rattle.rtl_read.specs.Gives.{Sets};
ghost use Rattle.rtl_read.specs.Act.Sync.{
  act_sync_event,
  act_behind_event,
  end_rule,
  act_next_write,
  act_sync_body,
  act_write_memory,
  act_behind_address,
  act_behind_value,
  end_write,
  act_behind_enable,
};

use crate::constant::constant;
use crate::draft::{Draft, PairKind};
use crate::read_fault::ReadFault;
use rtl_bits::Memory;
use rtl_lex::{Item, Sort};
use rtl_sig::SigSpec;
use std::alloc::Global;

impl Draft {
    /// The event of a sync: its rule begins.
    pub(crate) fn act_sync_event(&mut self, alloc: Global, item: &Item<'_>) -> Result<(), ReadFault>
        ensures { Sets result self.new (Ok (act_sync_event item.now.sort self.old)) }
    {
        self.process.open_rule(alloc, item.sort);
        Ok(())
    }

    /// A bracket behind the signal of an event; or the end of the line.
    #[tactic(auto, using(crate::proofs::Faults::fails_on, crate::proofs::Faults::goes_on))]
    pub(crate) fn act_behind_event(
        &mut self,
        alloc: Global,
        item: &Item<'_>,
    ) -> Result<(), ReadFault>
        ensures { Sets result self.new (act_behind_event item.now.sort (as_seen item.now) self.old) }
    {
        if item.sort == Sort::OpenIndex {
            self.open_bracket(item);
            return Ok(());
        }
        match self.take_some_bits(alloc, item) {
            Ok(sig) => {
                self.process.set_event(sig);
                Ok(())
            }
            Err(fault) => Err(fault),
        }
    }

    /// The open rule is whole.
    fn end_rule(&mut self, alloc: Global) -> Result<(), Memory>
        ensures { OnOk result (self.new ≡ end_rule self.old) }
    {
        self.process.close_rule(alloc)
    }

    /// The word `memwr` behind its attributes.
    pub(crate) fn act_next_write(&mut self, alloc: Global, item: &Item<'_>) -> Result<(), ReadFault>
        ensures { Sets result self.new (Ok (act_next_write item.now.sort self.old)) }
    {
        if item.sort == Sort::Memwr {
            let attributes = self.attributes.take(alloc);
            self.process.open_write(alloc, attributes);
        }
        Ok(())
    }

    /// A line of a sync, the next sync, or the end of the process.
    pub(crate) fn act_sync_body(&mut self, alloc: Global, item: &Item<'_>) -> Result<(), ReadFault>
        ensures { Sets result self.new (Ok (act_sync_body item.now.sort self.old)) }
    {
        match item.sort {
            Sort::Update => self.pair = PairKind::Update,
            Sort::Sync => self.end_rule(alloc)?,
            Sort::End => {
                self.end_rule(alloc)?;
                self.close_process(alloc)?;
            }
            _ => return self.act_next_write(alloc, item),
        }
        Ok(())
    }

    /// The memory that a `memwr` line writes.
    pub(crate) fn act_write_memory(
        &mut self,
        alloc: Global,
        item: &Item<'_>,
    ) -> Result<(), ReadFault>
        ensures { Sets result self.new (Ok (act_write_memory (as_seen item.now) self.old)) }
    {
        self.process.set_memory(alloc, item)?;
        Ok(())
    }

    /// A bracket behind the address; or it is whole, and the value begins.
    #[tactic(auto, using(crate::proofs::Faults::fails_on, crate::proofs::Faults::goes_on))]
    pub(crate) fn act_behind_address(
        &mut self,
        alloc: Global,
        item: &Item<'_>,
    ) -> Result<(), ReadFault>
        ensures { Sets result self.new (act_behind_address item.now.sort (as_seen item.now) self.old) }
    {
        if item.sort == Sort::OpenIndex {
            self.open_bracket(item);
            return Ok(());
        }
        match self.take_some_bits(alloc, item) {
            Ok(sig) => {
                self.process.set_address(sig);
                self.begin_signal(alloc, item)
            }
            Err(fault) => Err(fault),
        }
    }

    /// A bracket behind the value; or it is whole, and the enable begins.
    #[tactic(auto, using(crate::proofs::Faults::fails_on, crate::proofs::Faults::goes_on))]
    pub(crate) fn act_behind_value(
        &mut self,
        alloc: Global,
        item: &Item<'_>,
    ) -> Result<(), ReadFault>
        ensures { Sets result self.new (act_behind_value item.now.sort (as_seen item.now) self.old) }
    {
        if item.sort == Sort::OpenIndex {
            self.open_bracket(item);
            return Ok(());
        }
        match self.take_some_bits(alloc, item) {
            Ok(sig) => {
                self.process.set_value(sig);
                self.begin_signal(alloc, item)
            }
            Err(fault) => Err(fault),
        }
    }

    /// The mask, with which the line is whole.
    #[tactic(auto, using(crate::proofs::Faults::fails_on, crate::proofs::Faults::goes_on))]
    fn end_write(
        &mut self,
        alloc: Global,
        enable: SigSpec,
        item: &Item<'_>,
    ) -> Result<(), ReadFault>
        ensures { Sets result self.new (end_write enable item.now.sort (as_seen item.now) self.old) }
    {
        match constant(alloc, item) {
            Ok(mask) => {
                self.process.close_write(alloc, enable, mask)?;
                Ok(())
            }
            Err(fault) => Err(fault),
        }
    }

    /// A bracket behind the enable; or the mask.
    #[tactic(auto, using(crate::proofs::Faults::fails_on, crate::proofs::Faults::goes_on))]
    pub(crate) fn act_behind_enable(
        &mut self,
        alloc: Global,
        item: &Item<'_>,
    ) -> Result<(), ReadFault>
        ensures { Sets result self.new (act_behind_enable item.now.sort (as_seen item.now) self.old) }
    {
        if item.sort == Sort::OpenIndex {
            self.open_bracket(item);
            return Ok(());
        }
        match self.take_some_bits(alloc, item) {
            Ok(sig) => self.end_write(alloc, sig, item),
            Err(fault) => Err(fault),
        }
    }
}

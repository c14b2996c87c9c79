//! Switches: a signal, and cases up to `end`.

ghost use Rattle.std.specs.Prelude.{◌≡◌, Ok, OnOk};
ghost use Rattle.rtl_lex.specs.Items.{as_seen};
ghost use Rattle.rtl_read.specs.Gives.{Sets};
ghost use Rattle.rtl_read.specs.Act.Switch.{
  act_behind_switch,
  act_next_case,
  act_cases,
  act_patterns,
  act_behind_pattern,
  end_case,
  act_next_in_case,
  act_case_body,
};

use crate::draft::{Draft, PairKind};
use crate::read_fault::ReadFault;
use rtl_bits::Memory;
use rtl_lex::{Item, Sort};
use std::alloc::Global;

impl Draft {
    /// A bracket behind the signal of a switch; or the end of the line.
    #[tactic(auto, using(crate::proofs::Faults::fails_on, crate::proofs::Faults::goes_on))]
    pub(crate) fn act_behind_switch(
        &mut self,
        alloc: Global,
        item: &Item<'_>,
    ) -> Result<(), ReadFault>
        ensures { Sets result self.new (act_behind_switch item.now.sort (as_seen item.now) self.old) }
    {
        if item.sort == Sort::OpenIndex {
            self.open_bracket(item);
            return Ok(());
        }
        match self.take_some_bits(alloc, item) {
            Ok(sig) => {
                self.process.tree.enter_switch(alloc, sig)?;
                Ok(())
            }
            Err(fault) => Err(fault),
        }
    }

    /// The word `case` behind its attributes.
    pub(crate) fn act_next_case(&mut self, alloc: Global, item: &Item<'_>) -> Result<(), ReadFault>
        ensures { Sets result self.new (Ok (act_next_case item.now.sort self.old)) }
    {
        if item.sort == Sort::Case {
            let attributes = self.attributes.take(alloc);
            self.process.tree.open_case(alloc, attributes);
        }
        Ok(())
    }

    /// The first case of a switch, or its end.
    pub(crate) fn act_cases(&mut self, alloc: Global, item: &Item<'_>) -> Result<(), ReadFault>
        ensures { Sets result self.new (Ok (act_cases item.now.sort self.old)) }
    {
        if item.sort == Sort::End {
            self.process.tree.close_switch()?;
            return Ok(());
        }
        self.act_next_case(alloc, item)
    }

    /// The first pattern begins; or the end of the line: there is none.
    pub(crate) fn act_patterns(&mut self, alloc: Global, item: &Item<'_>) -> Result<(), ReadFault>
        ensures { Sets result self.new (act_patterns item.now.sort (as_seen item.now) self.old) }
    {
        if item.sort == Sort::Line {
            return Ok(());
        }
        self.begin_signal(alloc, item)
    }

    /// A bracket behind a pattern; or it is whole.
    #[tactic(auto, using(crate::proofs::Faults::fails_on, crate::proofs::Faults::goes_on))]
    pub(crate) fn act_behind_pattern(
        &mut self,
        alloc: Global,
        item: &Item<'_>,
    ) -> Result<(), ReadFault>
        ensures { Sets result self.new (act_behind_pattern item.now.sort (as_seen item.now) self.old) }
    {
        if item.sort == Sort::OpenIndex {
            self.open_bracket(item);
            return Ok(());
        }
        match self.take_some_bits(alloc, item) {
            Ok(pattern) => {
                self.process.tree.add_pattern(pattern)?;
                Ok(())
            }
            Err(fault) => Err(fault),
        }
    }

    /// The open case is whole.
    fn end_case(&mut self, alloc: Global) -> Result<(), Memory>
        ensures { OnOk result (self.new ≡ end_case self.old) }
    {
        self.process.tree.close_case(alloc)
    }

    /// A switch in the open case, or the next case, behind its attributes.
    pub(crate) fn act_next_in_case(
        &mut self,
        alloc: Global,
        item: &Item<'_>,
    ) -> Result<(), ReadFault>
        ensures { Sets result self.new (act_next_in_case item.now.sort (as_seen item.now) self.old) }
    {
        match item.sort {
            Sort::Switch => self.open_switch(alloc, item),
            Sort::Case => {
                self.end_case(alloc)?;
                self.act_next_case(alloc, item)
            }
            _ => Ok(()),
        }
    }

    /// An assign or a switch of a case, the next case, or the end of the switch.
    pub(crate) fn act_case_body(&mut self, alloc: Global, item: &Item<'_>) -> Result<(), ReadFault>
        ensures { Sets result self.new (act_case_body item.now.sort (as_seen item.now) self.old) }
    {
        match item.sort {
            Sort::Assign => {
                self.pair = PairKind::Assign;
                Ok(())
            }
            Sort::End => {
                self.end_case(alloc)?;
                self.act_cases(alloc, item)
            }
            _ => self.act_next_in_case(alloc, item),
        }
    }
}

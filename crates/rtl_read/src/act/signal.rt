//! Signals: constants, wires, braces round signals, and slices.

ghost use Rattle.std.specs.Prelude.{◌≡◌, IfOk};
ghost use Rattle.rtl_lex.specs.Items.{as_seen};
ghost use Rattle.rtl_read.specs.Gives.{Gives, Sets};
ghost use Rattle.rtl_read.specs.Signal.{no_signal, some_bits};
ghost use Rattle.rtl_read.specs.Act.Signal.{
  begin_signal,
  open_bracket,
  without_signal,
  act_signal,
  act_inside,
  act_behind_inside,
  act_index,
  act_behind_index,
  act_low_index,
  act_index_end,
};

use crate::draft::Draft;
use crate::read_fault::ReadFault;
use crate::signal::some_bits;
use rtl_bits::Memory;
use rtl_lex::Item;
use rtl_sig::SigSpec;
use std::alloc::Global;

impl Draft {
    /// A signal begins.
    #[tactic(auto, using(crate::proofs::Faults::fails_on, crate::proofs::Faults::goes_on))]
    pub(crate) fn begin_signal(&mut self, alloc: Global, item: &Item<'_>) -> Result<(), ReadFault>
        ensures { Sets result self.new (begin_signal item.now.sort (as_seen item.now) self.old) }
    {
        let wires = self.current.body.wires.as_slice();
        if let Err(fault) = self
            .signal
            .begin(alloc, wires, &self.current.wire_names, item)
        {
            return Err(fault);
        }
        Ok(())
    }

    /// A bracket opens behind the signal.
    pub(crate) fn open_bracket(&mut self, item: &Item<'_>)
        ensures { self.new ≡ open_bracket (as_seen item.now) self.old }
    {
        self.signal.open_index(item);
    }

    /// The signal that was read; none is left.
    pub(crate) fn take_signal(&mut self, alloc: Global) -> Result<SigSpec, Memory>
        ensures signal { IfOk result (λ sig. sig ≡ self.old.signal.part) }
        ensures left { self.new ≡ without_signal self.old }
    {
        self.signal.take(alloc).into_sig(alloc)
    }

    /// The signal that was read, which may not be empty; none is left.
    pub(crate) fn take_some_bits(
        &mut self,
        alloc: Global,
        item: &Item<'_>,
    ) -> Result<SigSpec, ReadFault>
        ensures signal { Gives result (some_bits self.old.signal.part (as_seen item.now)) }
        ensures left { self.new ≡ without_signal self.old }
    {
        let sig = self.take_signal(alloc)?;
        some_bits(sig, item)
    }

    /// A signal without its slices.
    pub(crate) fn act_signal(&mut self, alloc: Global, item: &Item<'_>) -> Result<(), ReadFault>
        ensures { Sets result self.new (act_signal (as_seen item.now) self.old) }
    {
        self.begin_signal(alloc, item)
    }

    /// Behind an opening brace.
    #[tactic(auto, using(crate::proofs::Faults::fails_on, crate::proofs::Faults::goes_on))]
    pub(crate) fn act_inside(&mut self, alloc: Global, item: &Item<'_>) -> Result<(), ReadFault>
        ensures { Sets result self.new (act_inside (as_seen item.now) self.old) }
    {
        let wires = self.current.body.wires.as_slice();
        if let Err(fault) = self
            .signal
            .inside(alloc, wires, &self.current.wire_names, item)
        {
            return Err(fault);
        }
        Ok(())
    }

    /// Behind a signal in braces.
    #[tactic(auto, using(crate::proofs::Faults::fails_on, crate::proofs::Faults::goes_on))]
    pub(crate) fn act_behind_inside(
        &mut self,
        alloc: Global,
        item: &Item<'_>,
    ) -> Result<(), ReadFault>
        ensures { Sets result self.new (act_behind_inside (as_seen item.now) self.old) }
    {
        let wires = self.current.body.wires.as_slice();
        let names = &self.current.wire_names;
        if let Err(fault) = self.signal.behind_inside(alloc, wires, names, item) {
            return Err(fault);
        }
        Ok(())
    }

    /// The first number in brackets.
    #[tactic(auto, using(crate::proofs::Faults::fails_on, crate::proofs::Faults::goes_on))]
    pub(crate) fn act_index(&mut self, item: &Item<'_>) -> Result<(), ReadFault>
        ensures { Sets result self.new (act_index (as_seen item.now) self.old) }
    {
        if let Err(fault) = self.signal.set_high(item) {
            return Err(fault);
        }
        Ok(())
    }

    /// Behind it: the bracket closes, or a second number follows.
    #[tactic(auto, using(crate::proofs::Faults::fails_on, crate::proofs::Faults::goes_on))]
    pub(crate) fn act_behind_index(
        &mut self,
        alloc: Global,
        item: &Item<'_>,
    ) -> Result<(), ReadFault>
        ensures { Sets result self.new (act_behind_index (as_seen item.now) self.old) }
    {
        if let Err(fault) = self.signal.behind_index(alloc, item) {
            return Err(fault);
        }
        Ok(())
    }

    /// The second number in brackets.
    #[tactic(auto, using(crate::proofs::Faults::fails_on, crate::proofs::Faults::goes_on))]
    pub(crate) fn act_low_index(&mut self, item: &Item<'_>) -> Result<(), ReadFault>
        ensures { Sets result self.new (act_low_index (as_seen item.now) self.old) }
    {
        if let Err(fault) = self.signal.set_low(item) {
            return Err(fault);
        }
        Ok(())
    }

    /// The bracket closes behind the second number.
    #[tactic(auto, using(crate::proofs::Faults::fails_on, crate::proofs::Faults::goes_on))]
    pub(crate) fn act_index_end(&mut self, alloc: Global, item: &Item<'_>) -> Result<(), ReadFault>
        ensures { Sets result self.new (act_index_end (as_seen item.now) self.old) }
    {
        let (low, high) = (self.signal.low, self.signal.high);
        if let Err(fault) = self.signal.slice(alloc, low, high, item) {
            return Err(fault);
        }
        Ok(())
    }
}

//! A table of what is known of the ways back from bits.

ghost use Rattle.std.specs.Prelude.{◌≡◌, length};
ghost use Rattle.net_index.specs.Numbering.{bit_count};

use net_index::Numbering;
use rtl_bits::Memory;
use rtl_ir::Wire;
use rtl_sig::{SigBit, WireBit};
use std::alloc::Global;
use std::collections::HashMap;

/// What is known of the way back from a bit that a connection drives.
#[derive(Clone, Copy)]
pub(crate) enum Step {
    /// It passes this bit or constant.
    To(SigBit),
    /// It runs into a loop.
    Loop,
}

/// A step for some of the bits of a module: by their numbers those that the wires have, and any others beside them.
#[derive(Drop)]
pub(crate) struct StepTable {
    numbering: Numbering,
    inside: Vec<Option<Step>>,
    outside: HashMap<WireBit, Step>,
    ghost sized: { length inside.items ≡ bit_count numbering },
}

impl StepTable {
    ghost use Rattle.std.specs.Prelude.{◌≡◌, None, Some, IfOk, OnOk, if◌then◌else◌};
    ghost use Rattle.rtl_sig.specs.declared.sig.SigBit.TheVariants.{Wire as OnWire};
    ghost use Rattle.rtl_sig.specs.declared.sig.WireBit.{WireBit};
    ghost use Rattle.rtl_ir.specs.Signals.{same_bit};
    ghost use Rattle.net_alias.specs.StepTable.{at_bit, at_sig, IsLearnt};

    /// No bit has a step.
    pub(crate) fn of(alloc: Global, wires: &[Wire]) -> Result<StepTable, Memory>
        ensures none { IfOk result (λ table. (b : WireBit) → at_bit table b ≡ None) }
    {
        let numbering = Numbering::of(alloc, wires)?;
        let inside = vec![in alloc; None; numbering.count()]?;
        Ok(StepTable {
            numbering,
            inside,
            outside: HashMap::new(alloc),
        })
    }

    /// The step of the bit, if it has one. It takes no memory.
    pub(crate) fn get(&self, bit: SigBit) -> Option<Step>
        ensures value { result ≡ at_sig self.now bit }
    {
        match bit {
            SigBit::Fixed(_) => None,
            SigBit::Wire(bit) => self.get_wire(bit),
        }
    }

    /// The step of the bit of a wire.
    fn get_wire(&self, bit: WireBit) -> Option<Step>
        ensures value { result ≡ at_bit self.now bit }
    {
        match self.numbering.find(bit) {
            Some(number) => self.inside[number],
            None => self.outside.get(&bit).copied(),
        }
    }

    /// Gives the bit this step.
    pub(crate) fn put(&mut self, bit: WireBit, step: Step) -> Result<(), Memory>
        ensures ok { OnOk result ((b : WireBit) →
            at_bit self.new b ≡ (if same_bit bit b then Some step else at_bit self.old b)) }
    {
        match self.numbering.find(bit) {
            Some(number) => self.inside[number] = Some(step),
            None => {
                self.outside.insert(bit, step)?;
            }
        }
        Ok(())
    }

    /// Gives the bit this step in place of its own, where that takes no memory.
    pub(crate) fn learn(&mut self, bit: SigBit, step: Step)
        ensures learnt { IsLearnt self.old self.new bit step }
    {
        if let SigBit::Wire(bit) = bit {
            self.learn_wire(bit, step);
        }
    }

    /// Gives the bit of a wire this step in place of its own, where that takes no memory.
    fn learn_wire(&mut self, bit: WireBit, step: Step)
        ensures learnt { IsLearnt self.old self.new (OnWire bit) step }
    {
        if let Some(number) = self.numbering.find(bit) {
            self.inside[number] = Some(step);
        }
    }
}

//! How often each bit of a module is driven.

ghost use Rattle.std.specs.Prelude.{◌≡◌, ℕ, nat_lt, slice_index, IfOk};
ghost use Rattle.rtl_ir.specs.Signals.{wire_bits};
ghost use Rattle.net_index.specs.Numbering.{number_of, widths_of};
ghost use Rattle.rtl_check.specs.Tallies.{untallied, with_bit, with_bits};

use net_index::Numbering;
use rtl_bits::Memory;
use rtl_ir::Wire;
use rtl_sig::{SigBit, WireBit};
use std::alloc::Global;
use std::marker::Model;

/// How often each bit of a module was counted, up to twice.
#[derive(Drop)]
pub(crate) struct Tally {
    numbering: Numbering,
    counts: Vec<u8>,
}

impl Model for Tally {
    ghost use Rattle.std.specs.Prelude.{◌≡◌, length};
    ghost use Rattle.net_index.specs.Numbering.{bit_count};
    ghost use Rattle.rtl_check.specs.Tallies.{Tallied};

    ghost Value = { Tallied };

    ghost view = { λ t. record { widths = t.numbering; counts = t.counts.items } };

    ghost invariant = { λ t. length t.counts.items ≡ bit_count t.numbering };
}

impl Tally {
    /// No bit of these wires was counted.
    pub(crate) fn of(alloc: Global, wires: &[Wire]) -> Result<Tally, Memory>
        ensures value { IfOk result (λ tally. tally ≡ untallied (widths_of wires.now)) }
    {
        let numbering = Numbering::of(alloc, wires)?;
        let counts = vec![in alloc; 0; numbering.count()]?;
        Ok(Tally { numbering, counts })
    }

    /// Counts the bit, where a wire has it.
    pub(crate) fn add(&mut self, bit: WireBit)
        ensures value { self.new ≡ with_bit self.old bit }
    {
        if let Some(number) = self.numbering.find(bit) {
            let count = self.counts[number];
            self.counts[number] = if count < 2 { count + 1 } else { 2 };
        }
    }

    /// Counts each bit of a wire in the signal.
    pub(crate) fn add_all(&mut self, bits: &[SigBit])
        ensures value { self.new ≡ with_bits self.old (wire_bits bits.now) }
    {
        for bit in bits {
            if let SigBit::Wire(bit) = bit {
                self.add(*bit);
            }
        }
    }

    /// Whether the bit was counted more than once.
    pub(crate) fn has_two(&self, bit: WireBit) -> bool
        ensures value { (number : ℕ) → number_of self.now.widths bit ≡ Some number →
            result ≡ nat_lt 1 (slice_index self.now.counts number) }
    {
        match self.numbering.find(bit) {
            Some(number) => self.counts[number] > 1,
            None => false,
        }
    }
}

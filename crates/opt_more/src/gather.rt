//! Lists in which each bit stands once.

ghost use Rattle.std.specs.Prelude.{◌≡◌, ◌∷◌, ◌++◌, [], IfOk, OnOk, length, nat_lt};
ghost use Rattle.std.specs.List.{list_any};
ghost use Rattle.rtl_ir.specs.Signals.{same_place, same_value};
ghost use Rattle.opt_more.specs.Gather.{AreSeen};
ghost use Rattle.opt_more.specs.Reduce.{or_neutral, with_bit};

use rtl_bits::{Bit, Memory};
use rtl_ir::{same_place, same_value};
use rtl_sig::{SigBit, SigSpec, WireBit};
use std::alloc::Global;
use std::collections::HashSet;

/// The most bits that a fold may read.
pub(crate) const MOST: usize = 4096;

/// A list in which each bit stands once, with tables of its bits: those of wires, and the constants.
#[derive(Drop)]
pub(crate) struct Gathered {
    pub(crate) bits: SigSpec,
    wires: HashSet<WireBit>,
    constants: Vec<Bit>,
}

impl Gathered {
    ghost use Rattle.rtl_sig.specs.declared.sig.SigBit.TheVariants.{Fixed, Wire as OnWire};

    /// The empty list.
    pub(crate) fn make(alloc: Global) -> Gathered
        ensures bits { result.bits ≡ [] }
        ensures seen { AreSeen result }
    {
        Gathered {
            bits: SigSpec::make(alloc),
            wires: HashSet::new(alloc),
            constants: Vec::new(alloc),
        }
    }

    /// Puts the bit last, unless it does not count or is in the list already.
    pub(crate) fn add(&mut self, neutral: Bit, bit: SigBit) -> Result<(), Memory>
        requires seen { AreSeen self.old }
        ensures bits { OnOk result (self.new.bits ≡ with_bit neutral self.old.bits bit) }
        ensures seen { OnOk result (AreSeen self.new) }
    {
        if same_place(SigBit::Fixed(neutral), bit) || self.has(bit) {
            return Ok(());
        }
        self.put(bit)
    }

    /// Whether the list is longer than a fold may read.
    pub(crate) fn is_over(&self) -> bool
        ensures value { result ≡ nat_lt 4096 (length self.now.bits) }
    {
        self.bits.as_slice().len() > MOST
    }

    /// Whether the bit is in the list.
    fn has(&self, bit: SigBit) -> bool
        requires seen { AreSeen self.now }
        ensures value { result ≡ list_any (same_place bit) self.now.bits }
    {
        match bit {
            SigBit::Fixed(value) => is_among(value, self.constants.as_slice()),
            SigBit::Wire(bit) => self.wires.contains(&bit),
        }
    }

    /// Puts the bit last.
    fn put(&mut self, bit: SigBit) -> Result<(), Memory>
        requires seen { AreSeen self.old }
        ensures bits { OnOk result (self.new.bits ≡ self.old.bits ++ bit ∷ []) }
        ensures seen { OnOk result (AreSeen self.new) }
    {
        match bit {
            SigBit::Fixed(value) => self.put_constant(value),
            SigBit::Wire(bit) => self.put_wire(bit),
        }
    }

    /// Puts the constant last.
    fn put_constant(&mut self, value: Bit) -> Result<(), Memory>
        requires seen { AreSeen self.old }
        ensures bits { OnOk result (self.new.bits ≡ self.old.bits ++ Fixed value ∷ []) }
        ensures seen { OnOk result (AreSeen self.new) }
    {
        self.constants.push(value)?;
        self.bits.push(SigBit::Fixed(value))?;
        Ok(())
    }

    /// Puts the bit of a wire last.
    fn put_wire(&mut self, bit: WireBit) -> Result<(), Memory>
        requires seen { AreSeen self.old }
        ensures bits { OnOk result (self.new.bits ≡ self.old.bits ++ OnWire bit ∷ []) }
        ensures seen { OnOk result (AreSeen self.new) }
    {
        self.wires.insert(bit)?;
        self.bits.push(SigBit::Wire(bit))?;
        Ok(())
    }

    /// The bits, or the constant where there are none.
    pub(crate) fn or_neutral(self, neutral: Bit) -> Result<SigSpec, Memory>
        ensures value { IfOk result (λ bits. bits ≡ or_neutral neutral self.bits) }
    {
        let mut bits = self.bits;
        if bits.as_slice().is_empty() {
            bits.push(SigBit::Fixed(neutral))?;
        }
        Ok(bits)
    }
}

/// Whether the constant is one of these.
fn is_among(value: Bit, constants: &[Bit]) -> bool
    ensures value { result ≡ list_any (same_value value) constants.now }
{
    constants
        .iter()
        .any(|constant| same_value(value, *constant))
}

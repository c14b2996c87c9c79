//! A table over the bits of a module.

ghost use Rattle.std.specs.Prelude.{◌≡◌, length};
ghost use Rattle.net_index.specs.Numbering.{bit_count};

use crate::numbering::Numbering;
use rtl_bits::Memory;
use rtl_ir::Wire;
use rtl_sig::WireBit;
use std::alloc::Global;
use std::collections::HashMap;

/// A value for some of the bits of a module: by their numbers those that the wires have, and any others beside them.
#[derive(Drop)]
pub struct BitTable<T> {
    numbering: Numbering,
    inside: Vec<Option<T>>,
    outside: HashMap<WireBit, T>,
    ghost sized: { length inside.items ≡ bit_count numbering },
}

impl<T: Copy + Drop> BitTable<T> {
    ghost use Rattle.std.specs.Prelude.{◌≡◌, None, Some, IfOk, OnOk, if◌then◌else◌};
    ghost use Rattle.std.specs.Option.{option_or};
    ghost use Rattle.rtl_sig.specs.declared.sig.WireBit.{WireBit};
    ghost use Rattle.rtl_ir.specs.Signals.{same_bit};
    ghost use Rattle.net_index.specs.IndexTable.{at_bit};

    /// No bit has a value.
    pub fn of(alloc: Global, wires: &[Wire]) -> Result<BitTable<T>, Memory>
        ensures none { IfOk result (λ table. (b : WireBit) → at_bit table b ≡ None) }
    {
        let numbering = Numbering::of(alloc, wires)?;
        let inside = vec![in alloc; None; numbering.count()]?;
        Ok(BitTable {
            numbering,
            inside,
            outside: HashMap::new(alloc),
        })
    }

    /// The value of the bit, if it has one. It takes no memory.
    pub fn get(&self, bit: WireBit) -> Option<T>
        ensures value { result ≡ at_bit self.now bit }
    {
        match self.numbering.find(bit) {
            Some(number) => self.inside[number],
            None => self.outside.get(&bit).copied(),
        }
    }

    /// Gives the bit this value.
    pub fn put(&mut self, bit: WireBit, value: T) -> Result<(), Memory>
        ensures ok { OnOk result ((b : WireBit) →
            at_bit self.new b ≡ (if same_bit bit b then Some value else at_bit self.old b)) }
    {
        match self.numbering.find(bit) {
            Some(number) => self.inside[number] = Some(value),
            None => {
                self.outside.insert(bit, value)?;
            }
        }
        Ok(())
    }

    /// Gives the bit this value, where it has none.
    pub fn put_first(&mut self, bit: WireBit, value: T) -> Result<(), Memory>
        ensures ok { OnOk result ((b : WireBit) →
            at_bit self.new b ≡ option_or (at_bit self.old b) (if same_bit bit b then Some value else None)) }
    {
        match self.get(bit) {
            Some(_) => Ok(()),
            None => self.put(bit, value),
        }
    }
}

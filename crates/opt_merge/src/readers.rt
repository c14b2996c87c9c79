//! Which cells read a bit.

ghost use Rattle.std.specs.Prelude.{◌≡◌, OnOk, length};
ghost use Rattle.net_index.specs.Numbering.{bit_count};
ghost use Rattle.opt_merge.specs.Among.{AreAmong};

use indexmap::IndexSet;
use net_index::Numbering;
use rtl_bits::Memory;
use rtl_ir::Wire;
use rtl_sig::{SigBit, WireBit};
use std::alloc::Global;

/// The places of the cells that read a bit: by their numbers for the bits that wires have, and together for all others.
#[derive(Drop)]
pub(crate) struct Readers {
    numbering: Numbering,
    inside: Vec<Vec<usize>>,
    outside: Vec<usize>,
    ghost sized: { length inside.items ≡ bit_count numbering },
}

impl Readers {
    ghost use Rattle.std.specs.Prelude.{◌≡◌, IfOk, OnOk};
    ghost use Rattle.net_model.specs.Lists.{In};
    ghost use Rattle.opt_merge.specs.Among.{AreAmong};
    ghost use Rattle.opt_merge.specs.Readers.{readers_at, readers_of_bit, readers_of_signal};
    ghost use Rattle.opt_merge.specs.Reading.{MoreReaders};

    /// No bit is read.
    pub(crate) fn of(alloc: Global, wires: &[Wire]) -> Result<Readers, Memory> {
        let numbering = Numbering::of(alloc, wires)?;
        let mut inside = Vec::with_capacity(alloc, numbering.count())?;
        for _number in 0..numbering.count() {
            inside.push(Vec::new(alloc))?;
        }
        Ok(Readers {
            numbering,
            inside,
            outside: Vec::new(alloc),
        })
    }

    /// The cell at this place reads the bit.
    pub(crate) fn add(&mut self, bit: WireBit, place: usize) -> Result<(), Memory>
        ensures reads { OnOk result (In place (readers_at self.new bit)) }
        ensures keeps { OnOk result (MoreReaders self.old self.new) }
    {
        match self.numbering.find(bit) {
            Some(number) => self.inside[number].push(place)?,
            None => self.outside.push(place)?,
        }
        Ok(())
    }

    /// The places of the cells that read the bit, and maybe of others.
    pub(crate) fn of_bit(&self, bit: WireBit) -> &[usize]
        ensures value { result.now ≡ readers_at self.now bit }
    {
        match self.numbering.find(bit) {
            Some(number) => self.inside[number].as_slice(),
            None => self.outside.as_slice(),
        }
    }

    /// The places of the cells that read one of the bits, and maybe of others, each once.
    pub(crate) fn of_signal(
        &self,
        alloc: Global,
        signal: &[SigBit],
    ) -> Result<IndexSet<usize>, Memory>
        ensures all { IfOk result (λ places. AreAmong (readers_of_signal self.now signal.now) places.keys) }
    {
        let mut places = IndexSet::new(alloc);
        for bit in signal {
            self.add_bit(&mut places, *bit)?;
        }
        Ok(places)
    }

    /// The set with the places of the cells that read the bit.
    fn add_bit(&self, places: &mut IndexSet<usize>, bit: SigBit) -> Result<(), Memory>
        ensures stays { OnOk result (AreAmong places.old.keys places.new.keys) }
        ensures all { OnOk result (AreAmong (readers_of_bit self.now bit) places.new.keys) }
    {
        match bit {
            SigBit::Fixed(_) => Ok(()),
            SigBit::Wire(bit) => add_places(places, self.of_bit(bit)),
        }
    }
}

/// The set with these places.
fn add_places(places: &mut IndexSet<usize>, more: &[usize]) -> Result<(), Memory>
    ensures stays { OnOk result (AreAmong places.old.keys places.new.keys) }
    ensures all { OnOk result (AreAmong more.now places.new.keys) }
{
    for place in more {
        places.insert(*place)?;
    }
    Ok(())
}

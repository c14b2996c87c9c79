//! The parts that are to be evaluated.

use crate::readers::Readers;
use crate::values::has_value;
use flat_net::{HeldBit, Output, Part, ReadPort, StoreBit, WordBit};
use rtl_bits::{Bit, Memory};
use std::alloc::Global;

/// The parts that are to be evaluated, as marks and as a list of places, the next one last; and marks for the bits that
/// have a
/// value of which their readers know.
#[derive(Drop)]
pub(crate) struct Agenda {
    marks: Vec<bool>,
    places: Vec<usize>,
    told: Vec<bool>,
}

impl Agenda {
    ghost use Rattle.std.specs.Prelude.{◌≡◌, ◌<◌, ◌∷◌, [], IfOk, IfSome, IsTrue, None, OnOk, flat_map, length, map};
    ghost use Rattle.flat_net.specs.declared.leaves.HeldBit.{HeldBit};
    ghost use Rattle.flat_net.specs.declared.memory.ReadPort.{ReadPort};
    ghost use Rattle.flat_net.specs.declared.memory.WordBit.{WordBit};
    ghost use Rattle.flat_net.specs.declared.net.Output.{Output};
    ghost use Rattle.flat_net.specs.declared.net.StoreBit.{StoreBit};
    ghost use Rattle.sim_eval.specs.Agenda.{IsEmptied, IsWhole, Marks, TakesOff, Tells, is_marked};
    ghost use Rattle.sim_eval.specs.Drives.{driven, output_numbers};

    /// All of so many parts are to be evaluated, the first one next, and none of so many bits has a value.
    pub(crate) fn whole(alloc: Global, parts: usize, bits: usize) -> Result<Agenda, Memory>
        ensures whole { IfOk result (λ agenda. IsWhole agenda parts bits) }
    {
        let mut places = Vec::with_capacity(alloc, parts)?;
        for place in (0..parts).rev() {
            places.push(place)?;
        }
        Ok(Agenda {
            marks: vec![in alloc; true; parts]?,
            places,
            told: vec![in alloc; false; bits]?,
        })
    }

    /// Takes the next part off, None exactly where there is none.
    pub(crate) fn next(&mut self) -> Option<usize>
        ensures takes { IfSome result (λ place. TakesOff self.old self.new place) }
        ensures none { result ≡ None → IsEmptied self.old self.new }
    {
        while let Some(place) = self.places.pop() {
            if self.has_mark(place) {
                self.marks[place] = false;
                return Some(place);
            }
        }
        None
    }

    /// Whether the part at a place is to be evaluated.
    fn has_mark(&self, place: usize) -> bool
        ensures value { result ≡ is_marked self.now place }
        ensures within { IsTrue result → place < length self.now.marks.items }
    {
        place < self.marks.len() && self.marks[place]
    }

    /// The part at a place is to be evaluated.
    fn mark(&mut self, place: usize) -> Result<(), Memory>
        ensures marks { OnOk result (Marks self.old self.new (place ∷ [])) }
    {
        if place < self.marks.len() && !self.marks[place] {
            self.places.push(place)?;
            self.marks[place] = true;
        }
        Ok(())
    }

    /// The parts at these places are to be evaluated.
    fn mark_all(&mut self, places: &[usize]) -> Result<(), Memory>
        ensures marks { OnOk result (Marks self.old self.new places.now) }
    {
        for place in places {
            self.mark(*place)?;
        }
        Ok(())
    }

    /// Where the bit of a number has a value of which its readers do not know, they are to be evaluated.
    fn tell(&mut self, number: u32, readers: &Readers, now: &[Bit]) -> Result<(), Memory>
        ensures tells { OnOk result (Tells self.old self.new readers.now now.now (number ∷ [])) }
    {
        if !has_value(now, number) {
            return Ok(());
        }
        let number = number as usize;
        if number < self.told.len() && !self.told[number] {
            self.mark_all(readers.of_bit(number))?;
            self.told[number] = true;
        }
        Ok(())
    }

    /// Tells the readers of the bits that a part drives.
    pub(crate) fn tell_part(
        &mut self,
        part: &Part,
        readers: &Readers,
        now: &[Bit],
    ) -> Result<(), Memory>
        ensures tells { OnOk result (Tells self.old self.new readers.now now.now (driven part.now)) }
    {
        match part {
            Part::Given(output) => self.tell(output.number, readers, now),
            Part::Joined(join) => self.tell(join.to, readers, now),
            Part::Logic(cell) => self.tell_outputs(cell.outputs.as_slice(), readers, now),
            Part::Storage(cell) => self.tell_store(cell.bits.as_slice(), readers, now),
            Part::Tree(tree) => self.tell_outputs(tree.outputs.as_slice(), readers, now),
            Part::Held(held) => self.tell_held(held.bits.as_slice(), readers, now),
            Part::Raced(raced) => self.tell_held(raced.bits.as_slice(), readers, now),
            Part::Remembered(words) => self.tell_words(words.bits.as_slice(), readers, now),
            Part::Fetched(fetched) => self.tell_ports(fetched.ports.as_slice(), readers, now),
        }
    }

    fn tell_outputs(
        &mut self,
        outputs: &[Output],
        readers: &Readers,
        now: &[Bit],
    ) -> Result<(), Memory>
        ensures tells { OnOk result (Tells self.old self.new readers.now now.now (output_numbers outputs.now)) }
    {
        for output in outputs {
            self.tell(output.number, readers, now)?;
        }
        Ok(())
    }

    fn tell_store(
        &mut self,
        bits: &[StoreBit],
        readers: &Readers,
        now: &[Bit],
    ) -> Result<(), Memory>
        ensures tells { OnOk result (Tells self.old self.new readers.now now.now
            (map (λ (b : StoreBit). b.number) bits.now)) }
    {
        for bit in bits {
            self.tell(bit.number, readers, now)?;
        }
        Ok(())
    }

    fn tell_held(&mut self, bits: &[HeldBit], readers: &Readers, now: &[Bit]) -> Result<(), Memory>
        ensures tells { OnOk result (Tells self.old self.new readers.now now.now
            (map (λ (b : HeldBit). b.number) bits.now)) }
    {
        for bit in bits {
            self.tell(bit.number, readers, now)?;
        }
        Ok(())
    }

    fn tell_words(&mut self, bits: &[WordBit], readers: &Readers, now: &[Bit]) -> Result<(), Memory>
        ensures tells { OnOk result (Tells self.old self.new readers.now now.now
            (map (λ (b : WordBit). b.number) bits.now)) }
    {
        for bit in bits {
            self.tell(bit.number, readers, now)?;
        }
        Ok(())
    }

    fn tell_ports(
        &mut self,
        ports: &[ReadPort],
        readers: &Readers,
        now: &[Bit],
    ) -> Result<(), Memory>
        ensures tells { OnOk result (Tells self.old self.new readers.now now.now
            (flat_map (λ (r : ReadPort). output_numbers r.outputs) ports.now)) }
    {
        for port in ports {
            self.tell_outputs(port.outputs.as_slice(), readers, now)?;
        }
        Ok(())
    }
}

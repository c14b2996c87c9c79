//! Which parts read a bit in the step that settles.

use flat_net::{Part, Point};
use rtl_bits::Memory;
use std::alloc::Global;

/// For each number the places of the parts that read the bit of that number.
#[derive(Drop)]
pub(crate) struct Readers {
    lists: Vec<Vec<usize>>,
}

impl Readers {
    ghost use Rattle.std.specs.Prelude.{◌≡◌, ◌∷◌, [], IfOk, OnOk, length};
    ghost use Rattle.sim_eval.specs.Reads.{AddsReads, AreRead, readers_at};

    /// The readers of so many bits among these parts.
    pub(crate) fn of(alloc: Global, parts: &[Part], count: usize) -> Result<Readers, Memory>
        ensures read { IfOk result (λ readers. AreRead readers parts.now count) }
    {
        let mut readers = Readers::none(alloc, count)?;
        for place in 0..parts.len() {
            readers.add_part(&parts[place], place)?;
        }
        Ok(readers)
    }

    /// No part reads one of so many bits.
    fn none(alloc: Global, count: usize) -> Result<Readers, Memory>
        ensures count { IfOk result (λ readers. length readers.lists.items ≡ count) }
    {
        let mut lists = Vec::with_capacity(alloc, count)?;
        for _number in 0..count {
            lists.push(Vec::new(alloc))?;
        }
        Ok(Readers { lists })
    }

    /// The part at this place reads the point.
    pub(crate) fn add(&mut self, point: Point, place: usize) -> Result<(), Memory>
        ensures adds { OnOk result (AddsReads self.old self.new place (point ∷ [])) }
    {
        if let Point::At(number) = point {
            let number = number as usize;
            if number < self.lists.len() {
                self.lists[number].push(place)?;
            }
        }
        Ok(())
    }

    /// The places of the parts that read the bit of a number.
    pub(crate) fn of_bit(&self, number: usize) -> &[usize]
        ensures value { result.now ≡ readers_at self.now number }
    {
        if number < self.lists.len() {
            self.lists[number].as_slice()
        } else {
            &[]
        }
    }
}

//! The cells that are to be entered by what they read now.

ghost use Rattle.std.specs.Prelude.{◌≡◌, ◌<◌, length};
ghost use Rattle.opt_merge.specs.Classes.{class_of};

use indexmap::IndexSet;
use rtl_bits::Memory;
use std::alloc::Global;
use std::mem;

/// How many classes of rows there are.
const CLASSES: usize = 5;

/// The places of cells that are to be entered by what they read now, each once, by the class of their rows. So a long
/// row is made anew only where one of its class is looked for, however many of the bits that its cell reads changed.
#[derive(Drop)]
pub(crate) struct Late {
    places: Vec<IndexSet<usize>>,
    ghost sized: { length places.items ≡ 5 },
}

impl Late {
    ghost use Rattle.std.specs.Prelude.{◌≡◌, ◌⊎◌, ℕ, [], IfOk, OnOk};
    ghost use Rattle.net_model.specs.Lists.{In};
    ghost use Rattle.opt_merge.specs.Among.{AreAmong};
    ghost use Rattle.opt_merge.specs.Late.{late_at};

    /// No cell.
    pub(crate) fn of(alloc: Global) -> Result<Late, Memory>
        ensures none { IfOk result (λ late. (row : ℕ) → late_at late row ≡ []) }
    {
        let mut places = Vec::with_capacity(alloc, CLASSES)?;
        for _class in 0..CLASSES {
            places.push(IndexSet::new(alloc))?;
        }
        Ok(Late { places })
    }

    /// The cell at this place is to be entered, whose row is so long.
    pub(crate) fn put(&mut self, row: usize, place: usize) -> Result<(), Memory>
        ensures own { OnOk result (In place (late_at self.new row)) }
        ensures stays { OnOk result ((other : ℕ) → AreAmong (late_at self.old other) (late_at self.new other)) }
    {
        let class = class_of(row);
        self.places[class].insert(place)?;
        Ok(())
    }

    /// The cells that are to be entered whose rows are about so long; they wait no more.
    pub(crate) fn take(&mut self, alloc: Global, row: usize) -> IndexSet<usize>
        ensures value { result.keys ≡ late_at self.old row }
        ensures none { late_at self.new row ≡ [] }
        ensures others { (other at : ℕ) → In at (late_at self.old other) →
            In at (late_at self.new other) ⊎ In at result.keys }
    {
        let class = class_of(row);
        mem::replace(&mut self.places[class], IndexSet::new(alloc))
    }
}

/// The class of a row of this length: the rows of one class differ in length by a factor of 8 at most, but for the
/// shortest and the longest ones.
fn class_of(row: usize) -> usize
    ensures value { result ≡ class_of row }
    ensures small { result < 5 }
{
    if row < 128 {
        0
    } else if row < 1_024 {
        1
    } else if row < 8_192 {
        2
    } else if row < 65_536 {
        3
    } else {
        4
    }
}

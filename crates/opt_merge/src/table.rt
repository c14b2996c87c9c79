//! A table from rows of numbers to the earliest cells that have them.

ghost use Rattle.std.specs.Prelude.{◌≡◌, ℕ, List, None, Some, OnOk};
ghost use Rattle.opt_merge.specs.Table.{PutsRow, at_row, least};

use rtl_bits::Memory;
use std::alloc::Global;
use std::collections::HashMap;

/// The place of a cell for some rows.
#[derive(Drop)]
pub(crate) struct Table {
    places: HashMap<Vec<u32>, usize>,
}

impl Table {
    /// No row has a place.
    pub(crate) fn of(alloc: Global) -> Table
        ensures none { (row : List ℕ) → at_row result row ≡ None }
    {
        Table {
            places: HashMap::new(alloc),
        }
    }

    /// The place that the row has. It takes no memory.
    pub(crate) fn get(&self, row: &[u32]) -> Option<usize>
        ensures value { result ≡ at_row self.now row.now }
    {
        self.places.get(row).copied()
    }

    /// The row has this place, or the place before it that it has.
    pub(crate) fn put(&mut self, row: Vec<u32>, at: usize) -> Result<(), Memory>
        ensures ok { OnOk result (PutsRow self.old self.new row.items at) }
    {
        let place = lesser(at, self.get(row.as_slice()));
        self.places.insert(row, place)?;
        Ok(())
    }
}

/// The lesser of a place and one that may be there.
fn lesser(at: usize, first: Option<usize>) -> usize
    ensures value { Some result ≡ least at first }
{
    match first {
        Some(first) => first.min(at),
        None => at,
    }
}

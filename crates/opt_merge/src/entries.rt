//! The cells that others may be merged with, by what they are compared by.

ghost use Rattle.std.specs.Prelude.{◌≡◌, ◌∷◌, ℕ, List, [], Option, None, Some, OnOk, length, slice_index_or, slice_set};
ghost use Rattle.rtl_ir.specs.declared.module.Link.{Link};
ghost use Rattle.rtl_ir.specs.declared.wire.Wire.{Wire};
ghost use Rattle.rtl_ir.specs.Flat.Start.{start_of};
ghost use Rattle.opt_merge.specs.Entries.{Enters, EntersPlaces, KeepsNotes, Marks, Settles, kind_traits, linked};
ghost use Rattle.opt_merge.specs.Rows.{row_of};
ghost use Rattle.opt_merge.specs.Readers.{readers_of_signal};
ghost use Rattle.opt_merge.specs.Table.{PutsRow};
ghost use Rattle.opt_merge.specs.Traits.{Traits, traits_of};
ghost use Rattle.opt_merge.specs.View.{IsView, StaysView};

use crate::late::Late;
use crate::readers::Readers;
use crate::rows::View;
use crate::table::Table;
use cell_types::CellKind;
use rtl_bits::Memory;
use rtl_ir::Cell;
use rtl_sig::SigBit;

/// The first place of each row of numbers, but for the cells that are late, and the kinds of the cells at the places
/// with the lengths of their rows.
#[derive(Drop)]
pub(crate) struct Entries {
    pub(crate) view: View,
    pub(crate) table: Table,
    pub(crate) kinds: Vec<Option<CellKind>>,
    pub(crate) lengths: Vec<usize>,
    pub(crate) late: Late,
}

impl Entries {
    /// The cell of this kind at the place is found by this row.
    pub(crate) fn note(&mut self, row: Vec<u32>, place: usize, kind: CellKind) -> Result<(), Memory>
        ensures table { OnOk result (PutsRow self.old.table self.new.table row.items place) }
        ensures kinds { OnOk result (self.new.kinds.items ≡ slice_set self.old.kinds.items place (Some kind)) }
        ensures lengths { OnOk result (self.new.lengths.items ≡
            slice_set self.old.lengths.items place (length row.items)) }
        ensures view { OnOk result (self.new.view ≡ self.old.view) }
        ensures late { OnOk result (self.new.late ≡ self.old.late) }
    {
        let length = row.len();
        self.table.put(row, place)?;
        put_kind(&mut self.kinds, place, kind);
        put_length(&mut self.lengths, place, length);
        Ok(())
    }

    /// One connection more.
    pub(crate) fn connect(&mut self, left: &[SigBit], right: &[SigBit]) -> Result<(), Memory>
        ensures view { OnOk result ((wires : List Wire) (links : List Link) → IsView self.old.view wires links →
            IsView self.new.view wires (linked links left.now right.now)) }
        ensures table { OnOk result (self.new.table ≡ self.old.table) }
        ensures notes { OnOk result (KeepsNotes self.old self.new) }
    {
        self.view.aliases.connect(left, right)?;
        Ok(())
    }

    /// The cells that read these bits are late, those whose kinds are noted.
    pub(crate) fn mark_signal(&mut self, readers: &Readers, signal: &[SigBit]) -> Result<(), Memory>
        ensures marks { OnOk result (Marks self.old self.new (readers_of_signal readers.now signal.now)) }
    {
        let places = readers.of_signal(self.view.alloc, signal)?;
        self.mark_places(places.as_slice())?;
        Ok(())
    }

    /// The cells at these places are late, those whose kinds are noted.
    fn mark_places(&mut self, places: &[usize]) -> Result<(), Memory>
        ensures marks { OnOk result (Marks self.old self.new places.now) }
    {
        for place in places {
            self.mark(*place)?;
        }
        Ok(())
    }

    /// The cell at the place is late, if its kind is noted.
    fn mark(&mut self, place: usize) -> Result<(), Memory>
        ensures marks { OnOk result (Marks self.old self.new (place ∷ [])) }
    {
        let length = self.length_at(place);
        match self.kind_at(place) {
            Some(_) => {
                self.late.put(length, place)?;
                Ok(())
            }
            None => Ok(()),
        }
    }

    /// The cells that are late and whose rows are about so long are found by what they read now.
    pub(crate) fn settle(&mut self, cells: &[Cell], row: usize) -> Result<(), Memory>
        ensures settles { OnOk result (Settles self.old self.new cells.now row) }
        ensures keeps { OnOk result (StaysView self.old.view self.new.view) }
    {
        let places = self.late.take(self.view.alloc, row);
        self.enter_places(cells, places.as_slice())?;
        Ok(())
    }

    /// The cells at these places are found by what they read now.
    fn enter_places(&mut self, cells: &[Cell], places: &[usize]) -> Result<(), Memory>
        ensures enters { OnOk result (EntersPlaces self.old self.new cells.now places.now) }
        ensures keeps { OnOk result (StaysView self.old.view self.new.view) }
        ensures notes { OnOk result (KeepsNotes self.old self.new) }
    {
        for place in places {
            self.enter(cells, *place)?;
        }
        Ok(())
    }

    /// The cell at the place, if its kind is noted.
    fn enter(&mut self, cells: &[Cell], place: usize) -> Result<(), Memory>
        ensures enters { OnOk result (EntersPlaces self.old self.new cells.now (place ∷ [])) }
        ensures keeps { OnOk result (StaysView self.old.view self.new.view) }
        ensures notes { OnOk result (KeepsNotes self.old self.new) }
    {
        match self.kind_at(place) {
            Some(kind) => {
                self.enter_kind(cells, kind, place)?;
                Ok(())
            }
            None => Ok(()),
        }
    }

    /// The cell of this kind at the place, if there is one.
    fn enter_kind(&mut self, cells: &[Cell], kind: CellKind, place: usize) -> Result<(), Memory>
        ensures enters { OnOk result ((wires : List Wire) (links : List Link) → IsView self.old.view wires links →
            (traits : ℕ → Option Traits) → traits place ≡ kind_traits (start_of wires []) links kind cells.now place →
            Enters traits self.old.table self.new.table (place ∷ [])) }
        ensures keeps { OnOk result (StaysView self.old.view self.new.view) }
        ensures notes { OnOk result (KeepsNotes self.old self.new) }
    {
        if place >= cells.len() {
            return Ok(());
        }
        self.put(kind, &cells[place], place)?;
        Ok(())
    }

    /// The kind that is noted at the place.
    fn kind_at(&self, place: usize) -> Option<CellKind>
        ensures value { result ≡ slice_index_or self.now.kinds.items place None }
    {
        if place < self.kinds.len() {
            self.kinds[place]
        } else {
            None
        }
    }

    /// The length of a row that is noted at the place.
    fn length_at(&self, place: usize) -> usize
        ensures value { result ≡ slice_index_or self.now.lengths.items place 0 }
    {
        if place < self.lengths.len() {
            self.lengths[place]
        } else {
            0
        }
    }

    /// The cell of this kind at the place is found by what it reads now.
    fn put(&mut self, kind: CellKind, cell: &Cell, place: usize) -> Result<(), Memory>
        ensures table { OnOk result ((wires : List Wire) (links : List Link) → IsView self.old.view wires links →
            PutsRow self.old.table self.new.table (row_of (traits_of (start_of wires []) links kind cell.now)) place) }
        ensures keeps { OnOk result (StaysView self.old.view self.new.view) }
        ensures notes { OnOk result (KeepsNotes self.old self.new) }
    {
        let row = self.view.row(kind, cell)?;
        self.table.put(row, place)?;
        Ok(())
    }
}

/// The kind stands at the place, where there is one.
fn put_kind(kinds: &mut Vec<Option<CellKind>>, place: usize, kind: CellKind)
    ensures value { kinds.new.items ≡ slice_set kinds.old.items place (Some kind) }
{
    if place < kinds.len() {
        kinds[place] = Some(kind);
    }
}

/// The length stands at the place, where there is one.
fn put_length(lengths: &mut Vec<usize>, place: usize, length: usize)
    ensures value { lengths.new.items ≡ slice_set lengths.old.items place length }
{
    if place < lengths.len() {
        lengths[place] = length;
    }
}

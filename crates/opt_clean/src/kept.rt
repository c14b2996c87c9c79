//! The cells that are kept.

ghost use Rattle.std.specs.Prelude.{◌≡◌, ℕ, Bool, false, List, [], ◌∷◌, IfOk, OnOk, length, map, replicate};
ghost use Rattle.std.specs.Prelude.{if◌then◌else◌};
ghost use Rattle.std.specs.List.{list_any};
ghost use Rattle.rtl_ir.specs.declared.module.Module.{Module};
ghost use Rattle.rtl_ir.specs.declared.wire.Wire.{Wire};
ghost use Rattle.rtl_ir.specs.Flat.Cell.{cell_kind};
ghost use Rattle.rtl_ir.specs.Signals.{wire_bits};
ghost use Rattle.rtl_ir.specs.Types as rtl;
ghost use Rattle.net_index.specs.Drivers.{AreDrivers};
ghost use Rattle.net_index.specs.Types.{AreTypes, IsType};
ghost use Rattle.pass_laws.specs.Bits.{pin_bits};
ghost use Rattle.opt_clean.specs.Keep.{is_root, is_shown, stays_by};
ghost use Rattle.opt_clean.specs.Kept.{input_bits, kept_marks, right_bits};
ghost use Rattle.opt_clean.specs.Linked.{Drives, cell_places};
ghost use Rattle.opt_clean.specs.Marking.{IsMarking, KeepsReads, MarksDrivers, MarksRead, after_next, is_seen};
ghost use Rattle.opt_clean.specs.Marking.{mark_place, mark_places, marking_of, root_places};

use cell_types::{CellKind, kind_of};
use net_index::{CellType, Driver, Drivers, Types, drives_pin};
use rtl_bits::Memory;
use rtl_ir::{Cell, Link, Pin, is_kept};
use rtl_sig::{SigBit, WireBit};
use std::alloc::Global;

/// The marks of cells, and the places of those that are marked, in the order in which they were.
#[derive(Drop)]
pub(crate) struct Marks {
    marks: Vec<bool>,
    order: Vec<usize>,
}

impl Marks {
    /// So many cells, none of which is marked.
    fn none(alloc: Global, count: usize) -> Result<Marks, Memory>
        ensures marks { IfOk result (λ made. made.marks.items ≡ replicate count false) }
        ensures order { IfOk result (λ made. made.order.items ≡ []) }
    {
        Ok(Marks {
            marks: vec![in alloc; false; count]?,
            order: Vec::new(alloc),
        })
    }

    /// Marks the cell at this place, where there is one that is not marked.
    fn mark(&mut self, place: usize) -> Result<(), Memory>
        ensures value { OnOk result (marking_of self.new ≡ mark_place (marking_of self.old) place) }
    {
        if place < self.marks.len() && !self.marks[place] {
            self.marks[place] = true;
            self.order.push(place)?;
        }
        Ok(())
    }

    /// Marks the cell that drives the bit, where one does.
    fn mark_driver(&mut self, bit: SigBit, index: &Drivers) -> Result<(), Memory>
        ensures value { OnOk result (MarksDrivers index.now self.old self.new (wire_bits (bit ∷ []))) }
    {
        if let SigBit::Wire(bit) = bit {
            if let Driver::Cell(place) = index.driver(bit) {
                self.mark(place.cell as usize)?;
            }
        }
        Ok(())
    }

    /// Marks the cells that drive bits of the signal.
    fn mark_signal(&mut self, signal: &[SigBit], index: &Drivers) -> Result<(), Memory>
        ensures value { OnOk result (MarksDrivers index.now self.old self.new (wire_bits signal.now)) }
    {
        for bit in signal {
            self.mark_driver(*bit, index)?;
        }
        Ok(())
    }

    /// Marks the cells that drive what the connections read.
    fn mark_links(&mut self, links: &[Link], index: &Drivers) -> Result<(), Memory>
        ensures value { OnOk result (MarksDrivers index.now self.old self.new (right_bits links.now)) }
    {
        for link in links {
            self.mark_signal(link.right.as_slice(), index)?;
        }
        Ok(())
    }

    /// Marks the cells that drive what the cell reads.
    fn mark_read(&mut self, cell: &Cell, types: &Types, index: &Drivers) -> Result<(), Memory>
        ensures value { OnOk result ((ports : rtl.Ports) (m : Module) → AreTypes types.now ports →
            AreDrivers index.now ports m →
            marking_of self.new ≡ mark_places (marking_of self.old) (cell_places ports m (input_bits ports cell.now))) }
    {
        let cell_type = types.find(cell.kind_name.as_slice());
        self.mark_pins(cell.pins.as_slice(), &cell_type, index)
    }

    /// Marks the cells that drive what the pins of a cell of this type read.
    fn mark_pins(
        &mut self,
        pins: &[Pin],
        cell_type: &CellType,
        index: &Drivers,
    ) -> Result<(), Memory>
        ensures value { OnOk result (MarksRead cell_type.now index.now self.old self.new pins.now) }
    {
        for pin in pins {
            self.mark_pin(pin, cell_type, index)?;
        }
        Ok(())
    }

    /// Marks each cell that is kept whatever reads it.
    fn mark_roots(
        &mut self,
        alloc: Global,
        shown: &[bool],
        cells: &[Cell],
        types: &Types,
    ) -> Result<(), Memory>
        ensures value { OnOk result ((ports : rtl.Ports) (wires : List Wire) → AreTypes types.now ports →
            shown.now ≡ map is_shown wires →
            marking_of self.new ≡ mark_places (marking_of self.old) (root_places ports wires 0 cells.now)) }
    {
        for (place, cell) in cells.iter().enumerate() {
            self.mark_if_root(alloc, place, shown, cell, types)?;
        }
        Ok(())
    }

    /// Marks the cell at this place, where it is kept whatever reads it.
    fn mark_if_root(
        &mut self,
        alloc: Global,
        place: usize,
        shown: &[bool],
        cell: &Cell,
        types: &Types,
    ) -> Result<(), Memory>
        ensures value { OnOk result ((ports : rtl.Ports) (wires : List Wire) → AreTypes types.now ports →
            shown.now ≡ map is_shown wires →
            marking_of self.new ≡ mark_places (marking_of self.old)
            (if is_root ports wires cell.now then place ∷ [] else [])) }
    {
        if is_root(alloc, shown, cell, types)? {
            self.mark(place)?;
        }
        Ok(())
    }

    /// Marks what drives the bits that marked cells read, until nothing new is marked.
    fn mark_rest(&mut self, cells: &[Cell], types: &Types, index: &Drivers) -> Result<(), Memory>
        ensures value { OnOk result ((ports : rtl.Ports) (m : Module) (kept : List Bool) (initial : List ℕ) →
            AreTypes types.now ports → AreDrivers index.now ports m → KeepsReads ports m cells.now kept →
            IsMarking ports m cells.now kept initial (marking_of self.old) 0 →
            IsMarking ports m cells.now kept initial (marking_of self.new) (length cells.now)) }
    {
        for next in 0..cells.len() {
            self.mark_next(next, cells, types, index)?;
        }
        Ok(())
    }

    /// Marks the cells that drive what the cell reads that was marked at this place of the order, where one was.
    fn mark_next(
        &mut self,
        next: usize,
        cells: &[Cell],
        types: &Types,
        index: &Drivers,
    ) -> Result<(), Memory>
        ensures value { OnOk result ((ports : rtl.Ports) (m : Module) → AreTypes types.now ports →
            AreDrivers index.now ports m →
            marking_of self.new ≡ after_next ports m cells.now (marking_of self.old) next) }
    {
        if next < self.order.len() {
            let place = self.order[next];
            if place < cells.len() {
                self.mark_read(&cells[place], types, index)?;
            }
        }
        Ok(())
    }

    /// Marks the cells that drive what the pin of a cell of this type reads.
    fn mark_pin(&mut self, pin: &Pin, cell_type: &CellType, index: &Drivers) -> Result<(), Memory>
        ensures value { OnOk result (MarksRead cell_type.now index.now self.old self.new (pin.now ∷ [])) }
    {
        if !drives_pin(cell_type, pin.name.as_slice()) {
            self.mark_signal(pin.sig.as_slice(), index)?;
        }
        Ok(())
    }
}

/// Which of the cells are kept, of which the inputs are followed along the connections of the module of the index.
pub(crate) fn kept_marks(
    alloc: Global,
    shown: &[bool],
    cells: &[Cell],
    links: &[Link],
    types: &Types,
    index: &Drivers,
) -> Result<Vec<bool>, Memory>
    ensures value { IfOk result (λ marks. (ports : rtl.Ports) (m : Module) (wires : List Wire) →
        AreTypes types.now ports → AreDrivers index.now ports m → shown.now ≡ map is_shown wires →
        Drives ports m cells.now → marks.items ≡ kept_marks ports wires links.now cells.now) }
{
    let mut marks = Marks::none(alloc, cells.len())?;
    marks.mark_roots(alloc, shown, cells, types)?;
    marks.mark_links(links, index)?;
    marks.mark_rest(cells, types, index)?;
    let Marks { marks, order: _ } = marks;
    Ok(marks)
}

/// Whether the cell is kept whatever reads it.
fn is_root(alloc: Global, shown: &[bool], cell: &Cell, types: &Types) -> Result<bool, Memory>
    ensures value { IfOk result (λ root. (ports : rtl.Ports) (wires : List Wire) → AreTypes types.now ports →
        shown.now ≡ map is_shown wires → root ≡ is_root ports wires cell.now) }
{
    if stays(cell) {
        return Ok(true);
    }
    if is_kept(alloc, cell.attributes.as_slice())? {
        return Ok(true);
    }
    let cell_type = types.find(cell.kind_name.as_slice());
    Ok(drives_shown(shown, cell.pins.as_slice(), &cell_type))
}

/// Whether the cell is an instance or one of a memory.
#[tactic(auto, unfolding(rtl_ir::specs::Flat::Cell::cell_kind))]
fn stays(cell: &Cell) -> bool
    ensures value { result ≡ stays_by (cell_kind cell.now) }
{
    match kind_of(cell.kind_name.as_slice()) {
        Some(kind) => matches!(kind, CellKind::Memory(_)),
        None => true,
    }
}

/// Whether a cell of this type drives by its pins a bit that the outside sees.
fn drives_shown(shown: &[bool], pins: &[Pin], cell_type: &CellType) -> bool
    ensures value { (type : rtl.CellType) → IsType cell_type.now type →
        result ≡ list_any (is_seen shown.now) (pin_bits type pins.now) }
{
    for pin in pins {
        if drives_pin(cell_type, pin.name.as_slice()) && has_shown(shown, pin.sig.as_slice()) {
            return true;
        }
    }
    false
}

/// Whether the outside sees a bit of the signal.
#[tactic(auto, using(crate::proofs::Steps::bits_next))]
fn has_shown(shown: &[bool], signal: &[SigBit]) -> bool
    ensures value { result ≡ list_any (is_seen shown.now) (wire_bits signal.now) }
{
    for bit in signal {
        if is_shown(shown, *bit) {
            return true;
        }
    }
    false
}

/// Whether it is a bit of a wire that the outside sees.
fn is_shown(shown: &[bool], bit: SigBit) -> bool
    ensures value { result ≡ list_any (is_seen shown.now) (wire_bits (bit ∷ [])) }
{
    match bit {
        SigBit::Fixed(_) => false,
        SigBit::Wire(WireBit { wire, .. }) => match shown.get(wire as usize) {
            Some(seen) => *seen,
            None => false,
        },
    }
}

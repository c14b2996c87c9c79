//! The wires that stay, and bits by their new places.

ghost use Rattle.std.specs.Prelude.{◌≡◌, Bool, List, [], ◌∷◌, ◌++◌, IfOk, length, map, flat_map};
ghost use Rattle.rtl_ir.specs.Signals.{wire_bits};
ghost use Rattle.rtl_ir.specs.declared.cell.Pin.{Pin};
ghost use Rattle.opt_clean.specs.Kept.{marked};
ghost use Rattle.opt_clean.specs.Moving.{AreMoves, marks_by, noted, stays_if};
ghost use Rattle.opt_clean.specs.Wires.{cell_bits, link_bits, moved_bit, moved_cell, moved_link, moved_pin};
ghost use Rattle.opt_clean.specs.Wires.{new_place, wire_marks};

use rtl_bits::{Copied, Memory, Seq};
use rtl_ir::{Cell, Link, Pin, Wire, is_kept, is_port};
use rtl_sig::{SigBit, SigSpec, WireBit};
use std::alloc::Global;

/// Which of the wires stay: ports, wires with `\keep`, and those of which a cell or a connection names a bit.
#[tactic(auto, using(crate::proofs::Tables::notes))]
pub(crate) fn wire_marks(
    alloc: Global,
    wires: &[Wire],
    cells: &[Cell],
    links: &[Link],
) -> Result<Vec<bool>, Memory>
    ensures value { IfOk result (λ marks.
        marks.items ≡ wire_marks (flat_map cell_bits cells.now ++ flat_map link_bits links.now) 0 wires.now) }
{
    let mut named = vec![in alloc; false; wires.len()]?;
    note_cells(&mut named, cells);
    note_links(&mut named, links);
    marks_of(alloc, wires, named.as_slice())
}

/// Notes the wires of the bits of the cells.
fn note_cells(named: &mut Vec<bool>, cells: &[Cell])
    ensures value { named.new.items ≡ noted named.old.items (flat_map cell_bits cells.now) }
{
    for cell in cells {
        note_pins(named, cell.pins.as_slice());
    }
}

/// Notes the wires of the bits of the pins.
fn note_pins(named: &mut Vec<bool>, pins: &[Pin])
    ensures value { named.new.items ≡ noted named.old.items (flat_map (λ (p : Pin). wire_bits p.sig) pins.now) }
{
    for pin in pins {
        note_signal(named, pin.sig.as_slice());
    }
}

/// Notes the wires of the bits of the connections.
fn note_links(named: &mut Vec<bool>, links: &[Link])
    ensures value { named.new.items ≡ noted named.old.items (flat_map link_bits links.now) }
{
    for link in links {
        note_signal(named, link.left.as_slice());
        note_signal(named, link.right.as_slice());
    }
}

/// Notes the wires of the bits of the signal.
#[tactic(auto, using(crate::proofs::Steps::bits_next, crate::proofs::Tables::noted_more))]
fn note_signal(named: &mut Vec<bool>, signal: &[SigBit])
    ensures value { named.new.items ≡ noted named.old.items (wire_bits signal.now) }
{
    for bit in signal {
        note_bit(named, *bit);
    }
}

/// Notes the wire of the bit, where there is such a wire.
fn note_bit(named: &mut Vec<bool>, bit: SigBit)
    ensures value { named.new.items ≡ noted named.old.items (wire_bits (bit ∷ [])) }
{
    if let SigBit::Wire(bit) = bit {
        let wire = bit.wire as usize;
        if wire < named.len() {
            named[wire] = true;
        }
    }
}

/// Which of the wires stay, of which these are named.
fn marks_of(alloc: Global, wires: &[Wire], named: &[bool]) -> Result<Vec<bool>, Memory>
    requires long { length named.now ≡ length wires.now }
    ensures value { IfOk result (λ marks. marks.items ≡ marks_by named.now wires.now) }
{
    let mut marks = Vec::with_capacity(alloc, wires.len())?;
    for (place, wire) in wires.iter().enumerate() {
        marks.push(stays(alloc, wire, named[place])?)?;
    }
    Ok(marks)
}

/// Whether the wire stays, which is named or not.
fn stays(alloc: Global, wire: &Wire, named: bool) -> Result<bool, Memory>
    ensures value { IfOk result (λ stay. stay ≡ stays_if named wire.now) }
{
    if named || is_port(wire.role) {
        return Ok(true);
    }
    is_kept(alloc, wire.attributes.as_slice())
}

/// The new places of wires, and how many wires stay.
#[derive(Drop)]
pub(crate) struct Moves {
    places: Vec<u32>,
    count: u32,
}

impl Moves {
    /// The places among the marked wires. More than 2^32 of them are taken for want of memory.
    pub(crate) fn of(alloc: Global, marks: &[bool]) -> Result<Moves, Memory>
        ensures value { IfOk result (λ moves. AreMoves moves marks.now) }
    {
        let mut places = Vec::with_capacity(alloc, marks.len())?;
        let mut count: u32 = 0;
        for mark in marks {
            places.push(count)?;
            if *mark {
                count = count.checked_add(1).ok_or(Memory)?;
            }
        }
        Ok(Moves { places, count })
    }

    /// The marked wires.
    pub(crate) fn wires(
        &self,
        alloc: Global,
        wires: &[Wire],
        marks: &[bool],
    ) -> Result<Vec<Wire>, Memory>
        requires long { length marks.now ≡ length wires.now }
        ensures value { IfOk result (λ kept. kept.items ≡ marked marks.now wires.now) }
    {
        let mut kept = Vec::with_capacity(alloc, self.count as usize)?;
        for (place, wire) in wires.iter().enumerate() {
            if marks[place] {
                kept.push(wire.copy()?)?;
            }
        }
        Ok(kept)
    }

    /// The new place of the wire at a place.
    fn place(&self, wire: u32) -> u32
        ensures value { (marks : List Bool) → AreMoves self.now marks → result ≡ new_place marks wire }
    {
        let wire = wire as usize;
        if wire < self.places.len() {
            self.places[wire]
        } else {
            self.count
        }
    }

    /// The bit by the new place of its wire.
    fn bit(&self, bit: SigBit) -> SigBit
        ensures value { (marks : List Bool) → AreMoves self.now marks → result ≡ moved_bit marks bit }
    {
        match bit {
            SigBit::Fixed(_) => bit,
            SigBit::Wire(WireBit { wire, at }) => SigBit::Wire(WireBit {
                wire: self.place(wire),
                at,
            }),
        }
    }

    /// The signal with such bits.
    fn signal(&self, alloc: Global, signal: &[SigBit]) -> Result<SigSpec, Memory>
        ensures value { IfOk result (λ moved. (marks : List Bool) → AreMoves self.now marks →
            moved ≡ map (moved_bit marks) signal.now) }
    {
        let mut moved = SigSpec::with_capacity(alloc, signal.len())?;
        for bit in signal {
            moved.push(self.bit(*bit))?;
        }
        Ok(moved)
    }

    /// The pins with such bits.
    fn pins(&self, alloc: Global, pins: Vec<Pin>) -> Result<Seq<Pin>, Memory>
        ensures value { IfOk result (λ moved. (marks : List Bool) → AreMoves self.now marks →
            moved ≡ map (moved_pin marks) pins.items) }
    {
        let mut moved = Vec::with_capacity(alloc, pins.len())?;
        for pin in pins {
            let sig = self.signal(alloc, pin.sig.as_slice())?;
            moved.push(Pin {
                name: pin.name,
                sig,
            })?;
        }
        Ok(Seq::from_vec(moved))
    }

    /// The cells with such bits.
    pub(crate) fn cells(&self, alloc: Global, cells: Vec<Cell>) -> Result<Vec<Cell>, Memory>
        ensures value { IfOk result (λ moved. (marks : List Bool) → AreMoves self.now marks →
            moved.items ≡ map (moved_cell marks) cells.items) }
    {
        let mut moved = Vec::with_capacity(alloc, cells.len())?;
        for cell in cells {
            moved.push(self.cell(alloc, cell)?)?;
        }
        Ok(moved)
    }

    /// The cell with such bits.
    fn cell(&self, alloc: Global, cell: Cell) -> Result<Cell, Memory>
        ensures value { IfOk result (λ moved. (marks : List Bool) → AreMoves self.now marks →
            moved ≡ moved_cell marks cell) }
    {
        let Cell {
            kind_name,
            name,
            params,
            pins,
            attributes,
        } = cell;
        Ok(Cell {
            kind_name,
            name,
            params,
            pins: self.pins(alloc, pins.into_vec())?,
            attributes,
        })
    }

    /// The connections with such bits.
    pub(crate) fn links(&self, alloc: Global, links: &[Link]) -> Result<Vec<Link>, Memory>
        ensures value { IfOk result (λ moved. (marks : List Bool) → AreMoves self.now marks →
            moved.items ≡ map (moved_link marks) links.now) }
    {
        let mut moved = Vec::with_capacity(alloc, links.len())?;
        for link in links {
            moved.push(Link {
                left: self.signal(alloc, link.left.as_slice())?,
                right: self.signal(alloc, link.right.as_slice())?,
            })?;
        }
        Ok(moved)
    }
}

//! Where the cells stand that drive words.

ghost use Rattle.std.specs.Prelude.{◌≡◌, List, Some, IfOk, OnOk, if◌then◌else◌};
ghost use Rattle.std.specs.HashMap.{get_by};
ghost use Rattle.rtl_sig.specs.declared.sig.WireBit.{WireBit};
ghost use Rattle.rtl_ir.specs.declared.cell.Cell.{Cell};
ghost use Rattle.rtl_ir.specs.Flat.Cell.{cell_kind};
ghost use Rattle.rtl_ir.specs.Parameters.{signal_at};
ghost use Rattle.rtl_ir.specs.Signals.{same_bit};
ghost use Rattle.opt_expr.specs.Places.{ArePlaces, begins_with, combinational, place_of, word_of};

use cell_types::{CellKind, PinName, kind_of};
use rtl_bits::Memory;
use rtl_ir::{Cell, signal_at};
use rtl_sig::{SigBit, WireBit};
use std::alloc::Global;
use std::collections::HashMap;

/// The places of cells in their list, each by the bit that its output begins with.
pub type Places = HashMap<WireBit, usize>;

/// The places of the combinational cells among these. Of two whose outputs begin alike the first counts.
pub fn places_of(alloc: Global, cells: &[Cell]) -> Result<Places, Memory>
    ensures places { IfOk result (λ places. ArePlaces places cells.now) }
{
    let mut places = HashMap::new(alloc);
    for at in (0..cells.len()).rev() {
        put_place(&mut places, word_of(&cells[at]), at)?;
    }
    Ok(places)
}

/// Gives the bit that the word begins with this place.
fn put_place(places: &mut Places, word: &[SigBit], at: usize) -> Result<(), Memory>
    ensures ok { OnOk result ((b : WireBit) → get_by (same_bit b) places.new ≡
        (if begins_with b word.now then Some at else get_by (same_bit b) places.old)) }
{
    if let Some(SigBit::Wire(bit)) = word.first() {
        places.insert(*bit, at)?;
    }
    Ok(())
}

/// The place of the cell whose output begins as the word does. It takes no memory.
pub fn place_of(places: &Places, word: &[SigBit]) -> Option<usize>
    ensures value { (cells : List Cell) → ArePlaces places.now cells → result ≡ place_of cells word.now }
{
    match word.first() {
        Some(SigBit::Wire(bit)) => places.get(bit).copied(),
        _ => None,
    }
}

/// The output of a combinational cell, no bits of any other.
fn word_of(cell: &Cell) -> &[SigBit]
    ensures value { result.now ≡ word_of cell.now }
{
    match combinational_kind(cell) {
        Some(_) => signal_at(cell.pins.as_slice(), PinName::Y.text()),
        None => &[],
    }
}

/// The kind of a combinational cell.
#[tactic(auto, unfolding(rtl_ir::specs::Flat::Cell::cell_kind))]
pub(crate) fn combinational_kind(cell: &Cell) -> Option<CellKind>
    ensures value { result ≡ combinational (cell_kind cell.now) }
{
    match kind_of(cell.kind_name.as_slice()) {
        Some(kind @ (CellKind::Word(_) | CellKind::Gate(_))) => Some(kind),
        _ => None,
    }
}

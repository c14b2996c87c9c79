//! What is left to ask of a machine.

ghost use Rattle.std.specs.Prelude.{
  ◌≡◌,
  ◌&&◌,
  ◌*◌,
  ◌++◌,
  ◌∷◌,
  ◌≤◌,
  [],
  List,
  IfOk,
  OnOk,
  filter,
  if◌then◌else◌,
  length,
  nat_le,
};
ghost use Rattle.std.specs.List.{list_all, list_any, range_with_len};
ghost use Rattle.rtl_sig.specs.declared.sig.WireBit.{WireBit};
ghost use Rattle.rtl_ir.specs.declared.module.Module.{Module};
ghost use Rattle.rtl_ir.specs.Types.{Ports};
ghost use Rattle.net_model.specs.Fsm.Find.{cells_at_places, compares, fits_code, tree_outputs};
ghost use Rattle.fsm_find.specs.Readers.{AreMarks};
ghost use Rattle.fsm_find.specs.View.{IsView};

use crate::readers::{compares, mark, place_number};
use crate::view::View;
use cell_types::PinName;
use fsm_parts::{arms, at_pin, cell_at};
use net_index::BitTable;
use rtl_bits::{Memory, Seq};
use rtl_ir::{Cell, Module};

/// The most bits of a pin of the tree.
const MAX_PIN: usize = 4096;

/// The bits of the outputs of the tree with these cells are marked too.
pub(crate) fn mark_outputs(
    table: &mut BitTable<bool>,
    module: &Module,
    places: &[u32],
) -> Result<(), Memory>
    ensures ok { OnOk result ((bits : List WireBit) → AreMarks table.old bits →
        AreMarks table.new (bits ++ tree_outputs «module».now places.now)) }
{
    for place in places {
        mark_output(table, module, *place)?;
    }
    Ok(())
}

/// The bits of the output of the cell at a place are marked too, where there is a cell.
fn mark_output(table: &mut BitTable<bool>, module: &Module, place: u32) -> Result<(), Memory>
    ensures ok { OnOk result ((bits : List WireBit) → AreMarks table.old bits →
        AreMarks table.new (bits ++ tree_outputs «module».now (place ∷ []))) }
{
    match cell_at(module.cells.as_slice(), place as usize) {
        Some(cell) => {
            mark(table, at_pin(cell, PinName::Y))?;
            Ok(())
        }
        None => Ok(()),
    }
}

/// The places of the cells that compare the state, rising.
pub(crate) fn comparing(view: &View, module: &Module) -> Result<Seq<u32>, Memory>
    ensures value { IfOk result (λ places. (ports : Ports) → IsView view.now ports «module».now →
        places ≡ filter (λ at.
        list_any (compares «module».now view.now.state) (cells_at_places «module».now.cells (at ∷ [])))
        (range_with_len 0 (length «module».now.cells))) }
{
    let cells = module.cells.as_slice();
    let mut places = Seq::make(view.alloc);
    for at in 0..cells.len() {
        push_comparing(&mut places, view, at, &cells[at])?;
    }
    Ok(places)
}

/// The place goes last if the cell compares the state.
fn push_comparing(places: &mut Seq<u32>, view: &View, at: usize, cell: &Cell) -> Result<(), Memory>
    ensures ok { OnOk result ((ports : Ports) (m : Module) → IsView view.now ports m →
        places.new ≡ places.old ++ (if compares m view.now.state cell.now then at ∷ [] else [])) }
{
    let yes = compares(view, cell)?;
    push_if(places, yes, at)?;
    Ok(())
}

/// The place goes last if so.
fn push_if(places: &mut Seq<u32>, so: bool, at: usize) -> Result<(), Memory>
    ensures ok { OnOk result (places.new ≡ places.old ++ (if so then at ∷ [] else [])) }
{
    if so {
        places.push(place_number(at)?)?;
        return Ok(());
    }
    Ok(())
}

/// Whether so many parts of so many bits, 64 at most, stay within 4,096 bits.
fn stay_within(parts: usize, states: usize) -> bool
    requires some { 1 ≤ states }
    requires few { states ≤ 64 }
    ensures value { result ≡ nat_le (parts * states) 4096 }
{
    parts <= MAX_PIN && parts * states <= MAX_PIN
}

/// Whether with a code of so many bits each pin of a cell of the tree stays within 4,096 bits.
fn fits_code(view: &View, states: usize, cell: &Cell) -> Result<bool, Memory>
    requires some { 1 ≤ states }
    requires few { states ≤ 64 }
    ensures value { IfOk result (λ fits. (ports : Ports) (m : Module) → IsView view.now ports m →
        fits ≡ fits_code states cell.now) }
{
    let arms = arms(view.alloc, view.index, cell)?;
    let parts = arms.len().saturating_sub(1);
    Ok(stay_within(parts, states))
}

/// Whether that is so of the cell at a place.
fn fits_at(view: &View, states: usize, module: &Module, place: u32) -> Result<bool, Memory>
    requires some { 1 ≤ states }
    requires few { states ≤ 64 }
    ensures value { IfOk result (λ fits. (ports : Ports) → IsView view.now ports «module».now →
        fits ≡ list_all (fits_code states) (cells_at_places «module».now.cells (place ∷ []))) }
{
    match cell_at(module.cells.as_slice(), place as usize) {
        Some(cell) => {
            let fits = fits_code(view, states, cell)?;
            Ok(fits)
        }
        None => Ok(true),
    }
}

/// Whether that is so of all cells at these places.
pub(crate) fn all_fit(
    view: &View,
    states: usize,
    module: &Module,
    places: &[u32],
) -> Result<bool, Memory>
    requires some { 1 ≤ states }
    requires few { states ≤ 64 }
    ensures value { IfOk result (λ fit. (ports : Ports) → IsView view.now ports «module».now →
        fit ≡ list_all (fits_code states) (cells_at_places «module».now.cells places.now)) }
{
    for place in places {
        if !fits_at(view, states, module, *place)? {
            return Ok(false);
        }
    }
    Ok(true)
}

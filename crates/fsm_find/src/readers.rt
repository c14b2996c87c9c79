//! Who reads the state and the tree.

ghost use Rattle.std.specs.Prelude.{
  ◌≡◌,
  ◌∷◌,
  ◌++◌,
  ◌||◌,
  ◌&&◌,
  ◌<◌,
  length,
  not,
  slice_index_or,
  ℕ,
  List,
  [],
  IfOk,
  OnOk,
  filter,
  if◌then◌else◌,
};
ghost use Rattle.std.specs.List.{range_with_len};
ghost use Rattle.rtl_sig.specs.declared.sig.WireBit.{WireBit};
ghost use Rattle.cell_types.specs.declared.pin_name.PinName.TheVariants.{A, B};
ghost use Rattle.rtl_ir.specs.declared.module.Module.{Module};
ghost use Rattle.rtl_ir.specs.Outputs.{is_output};
ghost use Rattle.rtl_ir.specs.Signals.{wire_bits, same_signal};
ghost use Rattle.rtl_ir.specs.Types.{Ports};
ghost use Rattle.net_index.specs.Types.{AreTypes};
ghost use Rattle.net_model.specs.Fsm.Find.{
  at_pin,
  cells_read_well,
  compares,
  compares_with,
  followed_bits,
  is_output_pin,
  is_pin,
  is_state_constant,
  may_read,
  meets_any,
  ports_read_well,
  reads_well,
  whole_wire,
};
ghost use Rattle.fsm_find.specs.Order.{is_done};
ghost use Rattle.fsm_find.specs.Readers.{AreMarks, ArePlaces, cell_reads_well, pin_reads_well};
ghost use Rattle.fsm_find.specs.View.{IsView};

use crate::params::are_signed;
use crate::view::View;
use cell_types::{CellKind, PinName};
use fsm_parts::{at_pin, followed, is_compare, is_state_constant, whole_wire};
use net_index::{BitTable, Types, drives_pin};
use rtl_bits::{Memory, Seq};
use rtl_ir::{Cell, Pin, Wire, cell_kind, is_output, same_signal};
use rtl_sig::{SigBit, WireBit};
use std::alloc::Global;

/// The forks of a machine, by places of the list of cells, and its flip-flop.
#[derive(Drop)]
pub(crate) struct Places {
    pub(crate) forks: Vec<bool>,
    pub(crate) flop: usize,
}

/// A machine whose readers are looked at: what is known of its module, the types of the cells, and its cells.
#[derive(Clone, Copy)]
pub(crate) struct Readers<'a> {
    pub(crate) view: &'a View<'a>,
    pub(crate) types: &'a Types<'a>,
    pub(crate) machine: &'a Places,
}

/// The bits of the signal are marked too.
pub(crate) fn mark(table: &mut BitTable<bool>, signal: &[SigBit]) -> Result<(), Memory>
    ensures ok { OnOk result ((bits : List WireBit) → AreMarks table.old bits →
        AreMarks table.new (bits ++ wire_bits signal.now)) }
{
    for at in 0..signal.len() {
        let bit = bit_of(signal, at);
        mark_bit(table, bit)?;
    }
    Ok(())
}

/// The bit at a place.
fn bit_of(signal: &[SigBit], at: usize) -> SigBit
    requires in_range { at < length signal.now }
    ensures value { result ≡ slice_index_or signal.now at result }
{
    signal[at]
}

/// A bit of a wire is marked too.
fn mark_bit(table: &mut BitTable<bool>, bit: SigBit) -> Result<(), Memory>
    ensures ok { OnOk result ((bits : List WireBit) → AreMarks table.old bits →
        AreMarks table.new (bits ++ wire_bits (bit ∷ []))) }
{
    match bit {
        SigBit::Fixed(_) => Ok(()),
        SigBit::Wire(bit) => {
            table.put(bit, true)?;
            Ok(())
        }
    }
}

/// Whether a bit that the signal leads to is marked.
pub(crate) fn meets(view: &View, table: &BitTable<bool>, signal: &[SigBit]) -> bool
    ensures value { (ports : Ports) (m : Module) (bits : List WireBit) → IsView view.now ports m →
        AreMarks table.now bits → result ≡ meets_any (followed_bits m signal.now) bits }
{
    for at in 0..signal.len() {
        let bit = bit_of(signal, at);
        if is_marked(table, view.index.follow(bit)) {
            return true;
        }
    }
    false
}

/// Whether the bit is marked.
fn is_marked(table: &BitTable<bool>, bit: SigBit) -> bool
    ensures value { (bits : List WireBit) → AreMarks table.now bits → result ≡ meets_any (wire_bits (bit ∷ [])) bits }
{
    match bit {
        SigBit::Fixed(_) => false,
        SigBit::Wire(bit) => table.get(bit).is_some(),
    }
}

/// Whether it is the pin of this name.
fn is_pin(name: PinName, pin: &Pin) -> bool
    ensures value { result ≡ is_pin name pin.now }
{
    pin.name.as_slice() == name.text()
}

/// Whether by this pin the cell at a place may read the state or the tree: A and B of a fork, D of the flip-flop.
fn may_read(forks: &[bool], flop: usize, at: usize, pin: &Pin) -> bool
    ensures value { (places : List ℕ) → ArePlaces places forks.now → result ≡ may_read places flop at pin.now }
{
    let fork = at < forks.len() && forks[at];
    if fork && (is_pin(PinName::A, pin) || is_pin(PinName::B, pin)) {
        return true;
    }
    at == flop && is_pin(PinName::D, pin)
}

/// Whether the cell compares the state with a constant.
pub(crate) fn compares(view: &View, cell: &Cell) -> Result<bool, Memory>
    ensures value { IfOk result (λ yes. (ports : Ports) (m : Module) → IsView view.now ports m →
        yes ≡ compares m view.now.state cell.now) }
{
    match cell_kind(cell) {
        Some(kind) if is_compare(Some(kind)) => {
            let yes = compares_state(view, kind, cell)?;
            Ok(yes)
        }
        _ => Ok(false),
    }
}

/// Whether one operand of a compare is the state, and the other a known constant, and not both are signed.
fn compares_state(view: &View, kind: CellKind, cell: &Cell) -> Result<bool, Memory>
    ensures value { IfOk result (λ yes. (ports : Ports) (m : Module) → IsView view.now ports m → yes ≡
        (compares_with m view.now.state cell.now (at_pin cell.now A) (at_pin cell.now B)
        || compares_with m view.now.state cell.now (at_pin cell.now B) (at_pin cell.now A))) }
{
    let a = followed(view.alloc, view.index, at_pin(cell, PinName::A))?;
    let b = followed(view.alloc, view.index, at_pin(cell, PinName::B))?;
    let signed = are_signed(view.alloc, kind, cell)?;
    let yes = is_compared(view.state.as_slice(), a.as_slice(), b.as_slice(), signed);
    Ok(yes)
}

/// Whether one of two followed operands is the state, and the other a known constant, and not both are signed.
fn is_compared(state: &[SigBit], a: &[SigBit], b: &[SigBit], signed: bool) -> bool
    ensures value { result ≡
        ((same_signal a.now state.now && (is_state_constant b.now && not signed))
        || (same_signal b.now state.now && (is_state_constant a.now && not signed))) }
{
    (same_signal(a, state) && (is_state_constant(b) && !signed))
        || (same_signal(b, state) && (is_state_constant(a) && !signed))
}

/// Whether the cell at a place reads the marked bits by no pin but those that may.
fn reads_well(readers: &Readers<'_>, table: &BitTable<bool>, at: usize, cell: &Cell) -> bool
    ensures value { (ports : Ports) (m : Module) (places : List ℕ) (bits : List WireBit) →
        IsView readers.now.view.now ports m →
        AreTypes readers.now.types.now ports → ArePlaces places readers.now.machine.now.forks.items →
        AreMarks table.now bits →
        result ≡ reads_well ports m places readers.now.machine.now.flop bits at cell.now }
{
    for pin in cell.pins.as_slice() {
        if !pin_reads_well(readers, table, at, cell, pin) {
            return false;
        }
    }
    true
}

/// Whether the cell drives this pin, or may read by it, or reads no marked bit by it.
fn pin_reads_well(
    readers: &Readers<'_>,
    table: &BitTable<bool>,
    at: usize,
    cell: &Cell,
    pin: &Pin,
) -> bool
    ensures value { (ports : Ports) (m : Module) (places : List ℕ) (bits : List WireBit) →
        IsView readers.now.view.now ports m →
        AreTypes readers.now.types.now ports → ArePlaces places readers.now.machine.now.forks.items →
        AreMarks table.now bits →
        result ≡ pin_reads_well ports m places readers.now.machine.now.flop bits at cell.now pin.now }
{
    if is_output_pin(readers.types, cell, pin) {
        return true;
    }
    let machine = readers.machine;
    if may_read(machine.forks.as_slice(), machine.flop, at, pin) {
        return true;
    }
    if meets(readers.view, table, pin.sig.as_slice()) {
        return false;
    }
    true
}

/// Whether the cell drives the pin.
fn is_output_pin(types: &Types, cell: &Cell, pin: &Pin) -> bool
    ensures value { (ports : Ports) → AreTypes types.now ports → result ≡ is_output_pin ports cell.now pin.now }
{
    let cell_type = types.find(cell.kind_name.as_slice());
    drives_pin(&cell_type, pin.name.as_slice())
}

/// Whether the cells read the bits of the tree by no pin but those that may, and the state so too, but where they
/// compare it.
pub(crate) fn cells_read_well(
    readers: &Readers<'_>,
    state: &BitTable<bool>,
    outputs: &BitTable<bool>,
    cells: &[Cell],
) -> Result<bool, Memory>
    ensures value { IfOk result (λ well. (ports : Ports) (m : Module) (places : List ℕ) (bits : List WireBit) →
        IsView readers.now.view.now ports m → AreTypes readers.now.types.now ports →
        ArePlaces places readers.now.machine.now.forks.items →
        AreMarks outputs.now bits → AreMarks state.now (wire_bits readers.now.view.now.state) →
        well ≡ cells_read_well ports m places readers.now.machine.now.flop readers.now.view.now.state bits 0
        cells.now) }
{
    for at in 0..cells.len() {
        if !cell_reads_well(readers, state, outputs, at, &cells[at])? {
            return Ok(false);
        }
    }
    Ok(true)
}

/// Whether the cell at a place reads the bits of the tree by no pin but those that may, and the state so too, but where
/// it compares it.
fn cell_reads_well(
    readers: &Readers<'_>,
    state: &BitTable<bool>,
    outputs: &BitTable<bool>,
    at: usize,
    cell: &Cell,
) -> Result<bool, Memory>
    ensures value { IfOk result (λ well. (ports : Ports) (m : Module) (places : List ℕ) (bits : List WireBit) →
        IsView readers.now.view.now ports m → AreTypes readers.now.types.now ports →
        ArePlaces places readers.now.machine.now.forks.items →
        AreMarks outputs.now bits → AreMarks state.now (wire_bits readers.now.view.now.state) →
        well ≡ cell_reads_well ports m places readers.now.machine.now.flop readers.now.view.now.state bits at
        cell.now) }
{
    let outputs_well = reads_well(readers, outputs, at, cell);
    let state_well = reads_well(readers, state, at, cell);
    let compared = compares(readers.view, cell)?;
    Ok(are_well(outputs_well, compared, state_well))
}

/// Whether the tree is read well, and the state too or compared.
fn are_well(outputs_well: bool, compared: bool, state_well: bool) -> bool
    ensures value { result ≡ (outputs_well && (compared || state_well)) }
{
    outputs_well && (compared || state_well)
}

/// Whether no output port leads to a marked bit.
pub(crate) fn ports_read_well(
    view: &View,
    table: &BitTable<bool>,
    wires: &[Wire],
) -> Result<bool, Memory>
    ensures value { IfOk result (λ well. (ports : Ports) (m : Module) (bits : List WireBit) → IsView view.now ports m →
        AreMarks table.now bits → well ≡ ports_read_well m bits 0 wires.now) }
{
    for at in 0..wires.len() {
        let place = place_number(at)?;
        if !port_reads_well(view, table, place, &wires[at])? {
            return Ok(false);
        }
    }
    Ok(true)
}

/// Whether it is no output port that leads to a marked bit.
fn port_reads_well(
    view: &View,
    table: &BitTable<bool>,
    place: u32,
    wire: &Wire,
) -> Result<bool, Memory>
    ensures value { IfOk result (λ well. (ports : Ports) (m : Module) (bits : List WireBit) → IsView view.now ports m →
        AreMarks table.now bits →
        well ≡ not (is_output «wire».now.role && meets_any (followed_bits m (whole_wire place «wire».now)) bits)) }
{
    if !is_output(wire.role) {
        return Ok(true);
    }
    let signal = whole_wire(view.alloc, place, wire.width)?;
    let met = meets(view, table, signal.as_slice());
    Ok(!met)
}

/// A place as a number of 32 bits; a greater one is taken for want of memory.
pub(crate) fn place_number(at: usize) -> Result<u32, Memory>
    ensures value { IfOk result (λ number. number ≡ at) }
{
    match u32::try_from(at) {
        Ok(number) => Ok(number),
        Err(_) => Err(Memory),
    }
}

/// The places that are marked, rising.
pub(crate) fn marked_places(alloc: Global, marks: &[bool]) -> Result<Seq<u32>, Memory>
    ensures value { IfOk result (λ places. places ≡ filter (is_done marks.now) (range_with_len 0 (length marks.now))) }
{
    let mut places = Seq::make(alloc);
    for at in 0..marks.len() {
        push_marked(&mut places, marks, at)?;
    }
    Ok(places)
}

/// The place goes last if it is marked.
fn push_marked(places: &mut Seq<u32>, marks: &[bool], at: usize) -> Result<(), Memory>
    ensures ok { OnOk result (places.new ≡ places.old ++ (if is_done marks.now at then at ∷ [] else [])) }
{
    if at < marks.len() && marks[at] {
        places.push(place_number(at)?)?;
        return Ok(());
    }
    Ok(())
}

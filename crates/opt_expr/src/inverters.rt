//! Cells that invert a word, bit by bit.

ghost use Rattle.std.specs.Prelude.{◌≡◌, List, IfOk, option_map, slice_index_or};
ghost use Rattle.rtl_bits.specs.declared.bit.Bit.TheVariants.{X};
ghost use Rattle.rtl_sig.specs.declared.sig.SigBit.TheVariants.{Fixed};
ghost use Rattle.rtl_ir.specs.Flat.Cell.{cell_kind};
ghost use Rattle.rtl_ir.specs.Signals.{same_signal};
ghost use Rattle.rtl_ir.specs.declared.cell.Cell.{Cell};
ghost use Rattle.opt_expr.specs.Inverters.{input_at, input_of, inverted, inverted_bit, inverts};
ghost use Rattle.opt_expr.specs.Places.{ArePlaces, other_at};

use crate::places::{Places, place_of};
use cell_types::{CellKind, FoldKind, GateKind, PinName, UnaryKind, WordKind, kind_of};
use rtl_bits::{Bit, Memory};
use rtl_ir::{Cell, same_signal, signal_at};
use rtl_sig::{SigBit, SigSpec};
use std::alloc::Global;
use std::collections::VecDeque;

/// What another cell than the one between those that are done and the rest inverts to the word.
pub(crate) fn inverted(
    alloc: Global,
    places: &Places,
    done: &[Option<Cell>],
    rest: &VecDeque<Cell>,
    word: &[SigBit],
) -> Result<Option<SigSpec>, Memory>
    ensures value { IfOk result (λ input. (cells : List Cell) → ArePlaces places.now cells →
        input ≡ inverted cells done.now rest.now.items word.now) }
{
    match place_of(places, word) {
        Some(place) => input_at(alloc, place, done, rest, false, word),
        None => Ok(None),
    }
}

/// The bit that another cell inverts to the word of one bit, where `$logic_not` counts too.
pub(crate) fn inverted_bit(
    alloc: Global,
    places: &Places,
    done: &[Option<Cell>],
    rest: &VecDeque<Cell>,
    word: &[SigBit],
) -> Result<Option<SigBit>, Memory>
    ensures value { IfOk result (λ bit. (cells : List Cell) → ArePlaces places.now cells →
        bit ≡ inverted_bit cells done.now rest.now.items word.now) }
{
    if word.len() != 1 {
        return Ok(None);
    }
    match place_of(places, word) {
        Some(place) => Ok(first_bit(input_at(alloc, place, done, rest, true, word)?)),
        None => Ok(None),
    }
}

/// The lowest bit of a signal that may be there, x where it has no bits.
fn first_bit(input: Option<SigSpec>) -> Option<SigBit>
    ensures value { result ≡ option_map (λ bits. slice_index_or bits 0 (Fixed X)) input }
{
    match input {
        Some(bits) => match bits.as_slice().first() {
            Some(bit) => Some(*bit),
            None => Some(SigBit::Fixed(Bit::X)),
        },
        None => None,
    }
}

/// What the cell at the place reads, where it is such an inverter, is not the one between and has not gone.
fn input_at(
    alloc: Global,
    place: usize,
    done: &[Option<Cell>],
    rest: &VecDeque<Cell>,
    logic: bool,
    word: &[SigBit],
) -> Result<Option<SigSpec>, Memory>
    ensures value { IfOk result (λ input.
        input ≡ input_at logic (other_at done.now rest.now.items (Some place)) word.now) }
{
    let count = done.len();
    if place < count {
        match &done[place] {
            Some(cell) => input_of(alloc, cell, logic, word),
            None => Ok(None),
        }
    } else if place > count
        && let Some(cell) = rest.get(place - count - 1)
    {
        input_of(alloc, cell, logic, word)
    } else {
        Ok(None)
    }
}

/// What the cell reads, where it is an inverter with this word as its whole output, and its input is as wide.
#[tactic(auto, unfolding(rtl_ir::specs::Flat::Cell::cell_kind))]
fn input_of(
    alloc: Global,
    cell: &Cell,
    logic: bool,
    word: &[SigBit],
) -> Result<Option<SigSpec>, Memory>
    ensures value { IfOk result (λ input. input ≡ input_of logic cell.now word.now) }
{
    let pins = cell.pins.as_slice();
    let input = signal_at(pins, PinName::A.text());
    if is_inverter(cell, logic)
        && same_signal(signal_at(pins, PinName::Y.text()), word)
        && input.len() == word.len()
    {
        return Ok(Some(SigSpec::from_slice(alloc, input)?));
    }
    Ok(None)
}

/// Whether the cell inverts each bit; of one bit so does `$logic_not`, where it counts.
#[tactic(auto, unfolding(rtl_ir::specs::Flat::Cell::cell_kind))]
fn is_inverter(cell: &Cell, logic: bool) -> bool
    ensures value { result ≡ inverts logic (cell_kind cell.now) }
{
    match kind_of(cell.kind_name.as_slice()) {
        Some(CellKind::Word(WordKind::Unary(UnaryKind::Not)) | CellKind::Gate(GateKind::Not)) =>
            true,
        Some(CellKind::Word(WordKind::Fold(FoldKind::LogicNot))) => logic,
        _ => false,
    }
}

//! The lowest bits of the values of combinational cells.

ghost use Rattle.std.specs.Prelude.{◌≡◌, None, IfOk, length, map};
ghost use Rattle.cell_types.specs.declared.kind.CellKind.TheVariants as Cells;
ghost use Rattle.cell_word.specs.Values.{input_of};
ghost use Rattle.rtl_ir.specs.EventTests.{bit_in, input_signals, lowest_bit};
ghost use Rattle.rtl_ir.specs.Faults.Cells.{misfit};

use cell_gate::gate_value;
use cell_types::{CellFault, CellKind, WordKind};
use cell_word::word_value;
use rtl_bits::{Bit, Bits, Memory};
use rtl_ir::{Cell, cell_shape};
use std::alloc::Global;

/// The lowest bit of the value of a combinational cell, of the words at its inputs.
pub(crate) fn lowest_bit(
    alloc: Global,
    kind: CellKind,
    cell: &Cell,
    words: &[Bits],
) -> Result<Bit, Memory>
    requires widths { map length words.now ≡ map length (input_signals kind cell.now) }
    ensures value { misfit kind cell.now ≡ None → IfOk result (λ bit. bit ≡ lowest_bit kind cell.now words.now) }
{
    match kind {
        CellKind::Gate(_) => {
            let (a, b, s) = (lowest(words, 0), lowest(words, 1), lowest(words, 2));
            Ok(gate_value(kind, a, b, s))
        }
        CellKind::Word(kind) => word_bit(alloc, kind, cell, words),
        _ => Ok(Bit::X),
    }
}

/// The lowest bit of the value of a cell on words, x where its parameters and pins have a fault.
fn word_bit(alloc: Global, kind: WordKind, cell: &Cell, words: &[Bits]) -> Result<Bit, Memory>
    requires widths { map length words.now ≡ map length (input_signals (Cells.Word kind) cell.now) }
    ensures value { misfit (Cells.Word kind) cell.now ≡ None →
        IfOk result (λ bit. bit ≡ lowest_bit (Cells.Word kind) cell.now words.now) }
{
    match cell_shape(alloc, CellKind::Word(kind), cell) {
        Ok(shape) => {
            let value = word_value(alloc, &shape, words)?;
            Ok(first_bit(value.as_slice()))
        }
        Err(CellFault::Memory) => Err(Memory),
        Err(_) => Ok(Bit::X),
    }
}

/// The lowest bit of the word at a place, x where there is none.
fn lowest(words: &[Bits], at: usize) -> Bit
    ensures value { result ≡ bit_in (input_of words.now at) 0 }
{
    match words.get(at) {
        Some(word) => first_bit(word.as_slice()),
        None => Bit::X,
    }
}

/// The lowest bit of a word, x where it has none.
fn first_bit(word: &[Bit]) -> Bit
    ensures value { result ≡ bit_in word.now 0 }
{
    match word {
        [bit, ..] => *bit,
        [] => Bit::X,
    }
}

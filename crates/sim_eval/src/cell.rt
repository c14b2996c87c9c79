//! Combinational cells.

ghost use Rattle.std.specs.Prelude.{◌≡◌, ◌<◌, List, IfOk, IsTrue, length, map, slice_index_or};
ghost use Rattle.std.specs.List.{AllByRecursion};
ghost use Rattle.rtl_ir.specs.Flat.Place.{Place};
ghost use Rattle.net_model.specs.Run.{Time};
ghost use Rattle.flat_net.specs.declared.net.Output.{Output};
ghost use Rattle.flat_net.specs.Points.{AreApart};
ghost use Rattle.flat_net.specs.Parts.{inputs_of, output_row};
ghost use Rattle.flat_net.specs.Within.{IsLogicWithin};
ghost use Rattle.sim_eval.specs.Advance.{Advances, AreFewer, Takes, output_fact};
ghost use Rattle.sim_eval.specs.Limits.{IsWordWithin, input_widths, is_computable, is_logic_within};
ghost use Rattle.sim_eval.specs.Numbers.{IsWorked, given_word, number_read, worked_bit};

use crate::values::{bit_at, put, read, read_all};
use cell_gate::gate_value;
use cell_types::CellKind;
use cell_word::word_value;
use flat_net::{Logic, Output, Point};
use rtl_bits::{Bit, Bits, Memory};
use std::alloc::Global;

/// What a combinational cell or a tree gives: a gate one bit, any other a word.
#[derive(Drop)]
pub(crate) enum Worked {
    Gate(Bit),
    Word(Bits),
}

/// The bit at a place of what is given.
fn bit_of(worked: &Worked, at: u32) -> Bit
    ensures value { result ≡ worked_bit worked.now at }
{
    match worked {
        Worked::Gate(bit) => *bit,
        Worked::Word(bits) => bit_at(bits.as_slice(), at),
    }
}

/// What the cell gives.
fn value_of(alloc: Global, cell: &Logic, values: &[Bit]) -> Result<Worked, Memory>
    requires within { IsTrue (is_logic_within cell.now.shape.kind cell.now.shape (input_widths cell.now)) }
    ensures value { IfOk result (IsWorked cell.now values.now) }
{
    match cell.shape.kind {
        CellKind::Gate(_) => {
            let a = first_of(values, cell.a.as_slice());
            let b = first_of(values, cell.b.as_slice());
            let s = first_of(values, cell.s.as_slice());
            Ok(Worked::Gate(gate_value(cell.shape.kind, a, b, s)))
        }
        CellKind::Word(_) => Ok(Worked::Word(word(alloc, cell, values)?)),
        _ => unreachable!(),
    }
}

/// What the first point has, x where there is none.
fn first_of(values: &[Bit], points: &[Point]) -> Bit
    ensures value { result ≡ slice_index_or (map (number_read values.now) points.now) 0 Bit.X }
{
    match points.first() {
        Some(point) => read(values, *point),
        None => Bit::X,
    }
}

/// What a cell on words gives.
fn word(alloc: Global, cell: &Logic, values: &[Bit]) -> Result<Bits, Memory>
    requires within { IsWordWithin cell.now }
    ensures value { IfOk result (λ bits. bits ≡ given_word values.now cell.now) }
{
    let a = read_all(alloc, values, cell.a.as_slice())?;
    let b = read_all(alloc, values, cell.b.as_slice())?;
    let s = read_all(alloc, values, cell.s.as_slice())?;
    word_value(alloc, &cell.shape, &[a, b, s])
}

/// Gives the bits of an output their values. Answers whether one of them got one.
pub(crate) fn put_all(outputs: &[Output], worked: &Worked, now: &mut [Bit]) -> bool
    ensures fewer { AreFewer now.old now.new result }
    ensures takes { (ps : List Place) → AreApart ps → length ps ≡ length now.old →
        AllByRecursion (λ (o : Output). o.number < length ps) outputs.now →
        Takes ps (map (output_fact ps worked.now) outputs.now) now.old now.new result }
{
    let mut changed = false;
    for output in outputs {
        changed |= put(now, output.number, bit_of(worked, output.at));
    }
    changed
}

/// Gives the bits that the cell drives their values, where they had none so far. Answers whether one of them got one.
pub(crate) fn update_logic(alloc: Global, cell: &Logic, now: &mut [Bit]) -> Result<bool, Memory>
    requires computable { IsTrue (is_computable cell.now) }
    ensures fewer { IfOk result (AreFewer now.old now.new) }
    ensures advances { IfOk result (λ changed. (ps : List Place) → AreApart ps → length ps ≡ length now.old →
        IsLogicWithin (length ps) cell.now → (t : Time Place) →
        Advances ps t (map (output_row ps cell.now.shape (inputs_of ps cell.now)) cell.now.outputs) now.old now.new
        changed) }
{
    if cell.outputs.as_slice().is_empty() {
        return Ok(false);
    }
    let worked = value_of(alloc, cell, now)?;
    Ok(put_all(cell.outputs.as_slice(), &worked, now))
}

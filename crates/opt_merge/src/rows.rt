//! What a cell is compared by, as a row of numbers.

ghost use Rattle.std.specs.Prelude.{◌≡◌, ◌++◌, ◌∷◌, List, [], IfOk, OnOk, length, map};
ghost use Rattle.rtl_ir.specs.declared.module.Link.{Link};
ghost use Rattle.rtl_ir.specs.declared.wire.Wire.{Wire};
ghost use Rattle.rtl_ir.specs.Flat.Cell.{cell_shape};
ghost use Rattle.rtl_ir.specs.Flat.Start.{start_of};
ghost use Rattle.rtl_ir.specs.Follow.{follow};
ghost use Rattle.rtl_ir.specs.Starts.{AreInits};
ghost use Rattle.net_alias.specs.Aliases.{IsAliases};
ghost use Rattle.opt_merge.specs.Traits.{bit_number, inputs_of, level_number, output_of, plain_numbers, shape_numbers};
ghost use Rattle.opt_merge.specs.Traits.{starts_of, traits_of};
ghost use Rattle.opt_merge.specs.Rows.{bits_numbers, lists_numbers, place_numbers, row_of, signal_numbers};
ghost use Rattle.opt_merge.specs.Rows.{signals_numbers, sized};
ghost use Rattle.opt_merge.specs.View.{IsView, StaysView};

use crate::signals::{input_pins, output_of};
use cell_types::{CellKind, Level, PinName, Shape};
use net_alias::Aliases;
use rtl_bits::{Bit, Bits, Memory};
use rtl_ir::{Cell, Pin, fitting_shape, signal_at, start};
use rtl_sig::SigBit;
use std::alloc::Global;

/// How many numbers the row of most gates has room in; longer ones grow.
const GATE_ROW: usize = 52;

/// What is known of a module where its cells are compared: the start values of its wires, and where bits lead back to.
#[derive(Drop)]
pub(crate) struct View {
    pub(crate) alloc: Global,
    pub(crate) inits: Vec<Bits>,
    pub(crate) aliases: Aliases,
}

impl View {
    /// What a cell of a kind is compared by. A cell that does not fit its kind is taken for want of memory.
    pub(crate) fn row(&mut self, kind: CellKind, cell: &Cell) -> Result<Vec<u32>, Memory>
        ensures value { IfOk result (λ row. (wires : List Wire) (links : List Link) → IsView self.old wires links →
            row.items ≡ row_of (traits_of (start_of wires []) links kind cell.now)) }
        ensures keeps { StaysView self.old self.new }
    {
        let mut row = own_row(self.alloc, kind, cell)?;
        push_inputs(
            &mut row,
            &mut self.aliases,
            input_pins(kind),
            cell.pins.as_slice(),
        )?;
        push_starts(&mut row, self.inits.as_slice(), kind, cell)?;
        Ok(row)
    }
}

/// The row of what the cell itself says: the width of its output, its type and its parameters.
fn own_row(alloc: Global, kind: CellKind, cell: &Cell) -> Result<Vec<u32>, Memory>
    ensures value { IfOk result (λ row. row.items ≡ length (output_of kind cell.now) ∷
        (sized cell.now.kind_name ++ lists_numbers (shape_numbers (cell_shape kind cell.now.params)))) }
{
    let mut row = Vec::with_capacity(alloc, GATE_ROW)?;
    push_count(&mut row, output_of(kind, cell).len())?;
    push_bytes(&mut row, cell.kind_name.as_slice())?;
    push_shape(&mut row, &fitting_shape(alloc, kind, cell)?)?;
    Ok(row)
}

/// A count. One of 2^32 or more is taken for want of memory.
fn push_count(row: &mut Vec<u32>, count: usize) -> Result<(), Memory>
    ensures ok { OnOk result (row.new.items ≡ row.old.items ++ count ∷ []) }
{
    let number = u32::try_from(count).ok().ok_or(Memory)?;
    row.push(number)?;
    Ok(())
}

/// The bytes behind their length.
fn push_bytes(row: &mut Vec<u32>, bytes: &[u8]) -> Result<(), Memory>
    ensures ok { OnOk result (row.new.items ≡ row.old.items ++ sized bytes.now) }
{
    push_count(row, bytes.len())?;
    for byte in bytes {
        row.push(u32::from(*byte))?;
    }
    Ok(())
}

/// The bits as numbers, behind their length.
fn push_bits(row: &mut Vec<u32>, bits: &[Bit]) -> Result<(), Memory>
    ensures ok { OnOk result (row.new.items ≡ row.old.items ++ bits_numbers bits.now) }
{
    push_count(row, bits.len())?;
    for bit in bits {
        row.push(bit_number(*bit))?;
    }
    Ok(())
}

/// What the parameters of a cell say.
fn push_shape(row: &mut Vec<u32>, shape: &Shape) -> Result<(), Memory>
    ensures ok { OnOk result (row.new.items ≡ row.old.items ++ lists_numbers (shape_numbers shape.now)) }
{
    row.push(5)?;
    push_numbers(row, shape)?;
    push_bits(row, shape.resets.arst.as_slice())?;
    push_bits(row, shape.resets.srst.as_slice())?;
    push_bits(row, shape.port.mask.as_slice())?;
    push_bits(row, shape.port.priority.as_slice())?;
    Ok(())
}

/// The numbers among them.
fn push_numbers(row: &mut Vec<u32>, shape: &Shape) -> Result<(), Memory>
    ensures ok { OnOk result (row.new.items ≡ row.old.items ++ sized (plain_numbers shape.now)) }
{
    let widths = shape.widths;
    let levels = shape.levels;
    let numbers = [
        19,
        widths.a,
        widths.b,
        widths.s,
        widths.y,
        u32::from(shape.signs.a),
        u32::from(shape.signs.b),
        shape.offset,
        shape.width,
        level_number(levels.clk),
        level_number(levels.en),
        level_number(levels.arst),
        level_number(levels.srst),
        level_number(levels.aload),
        level_number(levels.set),
        level_number(levels.clr),
        shape.port.address,
        u32::from(shape.port.clocked),
        shape.port.number,
        shape.port.words,
    ];
    row.extend_from_slice(&numbers)?;
    Ok(())
}

/// The signals at these pins, followed, behind their number.
fn push_inputs(
    row: &mut Vec<u32>,
    aliases: &mut Aliases,
    names: &[PinName],
    pins: &[Pin],
) -> Result<(), Memory>
    ensures ok { OnOk result ((links : List Link) → IsAliases aliases.old links →
        row.new.items ≡ row.old.items ++ signals_numbers (inputs_of links names.now pins.now)) }
    ensures keeps { (links : List Link) → IsAliases aliases.old links → IsAliases aliases.new links }
{
    push_count(row, names.len())?;
    for name in names {
        push_signal(row, aliases, signal_at(pins, name.text()))?;
    }
    Ok(())
}

/// The signal, followed, behind its length.
fn push_signal(row: &mut Vec<u32>, aliases: &mut Aliases, signal: &[SigBit]) -> Result<(), Memory>
    ensures ok { OnOk result ((links : List Link) → IsAliases aliases.old links →
        row.new.items ≡ row.old.items ++ signal_numbers (map (follow links) signal.now)) }
    ensures keeps { (links : List Link) → IsAliases aliases.old links → IsAliases aliases.new links }
{
    push_count(row, signal.len())?;
    for bit in signal {
        let end = aliases.follow(*bit);
        push_place(row, end)?;
    }
    Ok(())
}

/// A bit of a signal, as two numbers.
fn push_place(row: &mut Vec<u32>, bit: SigBit) -> Result<(), Memory>
    ensures ok { OnOk result (row.new.items ≡ row.old.items ++ place_numbers bit) }
{
    match bit {
        SigBit::Fixed(bit) => {
            row.push(0)?;
            row.push(bit_number(bit))?;
        }
        SigBit::Wire(bit) => {
            row.push(bit.wire.checked_add(1).ok_or(Memory)?)?;
            row.push(bit.at)?;
        }
    }
    Ok(())
}

/// The start values of what the cell keeps, behind their number.
fn push_starts(
    row: &mut Vec<u32>,
    inits: &[Bits],
    kind: CellKind,
    cell: &Cell,
) -> Result<(), Memory>
    ensures ok { OnOk result ((wires : List Wire) → AreInits inits.now wires →
        row.new.items ≡ row.old.items ++ bits_numbers (starts_of (start_of wires []) kind cell.now)) }
{
    match kind {
        CellKind::Storage(_) | CellKind::StorageGate(_) => push_start_bits(
            row,
            inits,
            output_of(kind, cell),
        ),
        _ => {
            row.push(0)?;
            Ok(())
        }
    }
}

/// The start values of these bits, behind their number.
fn push_start_bits(row: &mut Vec<u32>, inits: &[Bits], signal: &[SigBit]) -> Result<(), Memory>
    ensures ok { OnOk result ((wires : List Wire) → AreInits inits.now wires →
        row.new.items ≡ row.old.items ++ bits_numbers (map (start_of wires []) signal.now)) }
{
    push_count(row, signal.len())?;
    for bit in signal {
        row.push(bit_number(start(inits, *bit)))?;
    }
    Ok(())
}

/// A bit as a number.
fn bit_number(bit: Bit) -> u32
    ensures value { result ≡ bit_number bit }
{
    match bit {
        Bit::S0 => 0,
        Bit::S1 => 1,
        Bit::X => 2,
        Bit::Z => 3,
        Bit::M => 4,
        Bit::Dash => 5,
    }
}

/// A level as a number.
fn level_number(level: Level) -> u32
    ensures value { result ≡ level_number level }
{
    match level {
        Level::Low => 0,
        Level::High => 1,
    }
}

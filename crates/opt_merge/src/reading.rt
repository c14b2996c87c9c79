//! Which cells of a module read each bit.

ghost use Rattle.std.specs.Prelude.{List, IfOk, OnOk};
ghost use Rattle.cell_types.specs.declared.pin_name.PinName.{PinName};
ghost use Rattle.rtl_ir.specs.declared.module.Link.{Link};
ghost use Rattle.net_alias.specs.Aliases.{IsAliases};
ghost use Rattle.opt_merge.specs.Reading.{EachOf, HasReaders, MoreReaders, ReadsBit, ReadsCell, ReadsEnd, ReadsPin};

use crate::kinds::merging_kind;
use crate::readers::Readers;
use crate::signals::input_pins;
use cell_types::PinName;
use net_alias::Aliases;
use rtl_bits::Memory;
use rtl_ir::{Cell, Module, Pin, signal_at};
use rtl_sig::SigBit;
use std::alloc::Global;

/// The readers of the bits that the inputs of cells are followed to.
pub(crate) fn readers_of(
    alloc: Global,
    aliases: &mut Aliases,
    module: &Module,
) -> Result<Readers, Memory>
    ensures value { IfOk result (λ readers. (links : List Link) → IsAliases aliases.old links →
        HasReaders links «module».now.cells readers) }
    ensures keeps { (links : List Link) → IsAliases aliases.old links → IsAliases aliases.new links }
{
    let mut readers = Readers::of(alloc, module.wires.as_slice())?;
    add_cells(alloc, &mut readers, aliases, module.cells.as_slice())?;
    Ok(readers)
}

/// The cells read their inputs, those that may be merged.
fn add_cells(
    alloc: Global,
    readers: &mut Readers,
    aliases: &mut Aliases,
    cells: &[Cell],
) -> Result<(), Memory>
    ensures reads { OnOk result ((links : List Link) → IsAliases aliases.old links →
        HasReaders links cells.now readers.new) }
    ensures keeps { (links : List Link) → IsAliases aliases.old links → IsAliases aliases.new links }
{
    for at in 0..cells.len() {
        add_cell(alloc, readers, aliases, &cells[at], at)?;
    }
    Ok(())
}

/// The cell at this place reads its inputs, if it may be merged.
fn add_cell(
    alloc: Global,
    readers: &mut Readers,
    aliases: &mut Aliases,
    cell: &Cell,
    at: usize,
) -> Result<(), Memory>
    ensures reads { OnOk result ((links : List Link) → IsAliases aliases.old links →
        ReadsCell readers.new links at cell.now) }
    ensures more { OnOk result (MoreReaders readers.old readers.new) }
    ensures keeps { (links : List Link) → IsAliases aliases.old links → IsAliases aliases.new links }
{
    match merging_kind(alloc, cell)? {
        Some(kind) => {
            add_inputs(readers, aliases, input_pins(kind), cell.pins.as_slice(), at)?;
            Ok(())
        }
        None => Ok(()),
    }
}

/// The cell at this place reads the signals at these pins.
fn add_inputs(
    readers: &mut Readers,
    aliases: &mut Aliases,
    names: &[PinName],
    pins: &[Pin],
    at: usize,
) -> Result<(), Memory>
    ensures reads { OnOk result ((links : List Link) → IsAliases aliases.old links →
        EachOf (ReadsPin readers.new links at pins.now) names.now) }
    ensures more { OnOk result (MoreReaders readers.old readers.new) }
    ensures keeps { (links : List Link) → IsAliases aliases.old links → IsAliases aliases.new links }
{
    for name in names {
        add_signal(readers, aliases, signal_at(pins, name.text()), at)?;
    }
    Ok(())
}

/// The cell at this place reads the signal.
fn add_signal(
    readers: &mut Readers,
    aliases: &mut Aliases,
    signal: &[SigBit],
    at: usize,
) -> Result<(), Memory>
    ensures reads { OnOk result ((links : List Link) → IsAliases aliases.old links →
        EachOf (ReadsBit readers.new links at) signal.now) }
    ensures more { OnOk result (MoreReaders readers.old readers.new) }
    ensures keeps { (links : List Link) → IsAliases aliases.old links → IsAliases aliases.new links }
{
    for bit in signal {
        let end = aliases.follow(*bit);
        add_end(readers, end, at)?;
    }
    Ok(())
}

/// The cell at this place reads what a bit leads back to.
fn add_end(readers: &mut Readers, end: SigBit, at: usize) -> Result<(), Memory>
    ensures reads { OnOk result (ReadsEnd readers.new at end) }
    ensures more { OnOk result (MoreReaders readers.old readers.new) }
{
    if let SigBit::Wire(bit) = end {
        readers.add(bit, at)?;
    }
    Ok(())
}

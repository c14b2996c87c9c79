//! The readers of the bits of a module, in one list.

ghost use Rattle.std.specs.Prelude.{IfOk, OnOk};
ghost use Rattle.rtl_ir.specs.Types as rtl;
ghost use Rattle.net_index.specs.ReaderFill.{Adds, HasReaders, reader_of, reads_of_pin};
ghost use Rattle.net_index.specs.Readers.{cell_readers, cell_reads, pin_reads, places_read, readers_of};
ghost use Rattle.net_index.specs.Types.{AreTypes, IsType};

use crate::driver::CellPin;
use crate::driver_fill::narrowed;
use crate::numbering::Numbering;
use crate::outputs::drives_pin;
use crate::reader::Reader;
use crate::reader_links::add_links;
use crate::types::{CellType, Types};
use rtl_bits::Memory;
use rtl_ir::{Cell, Module, Pin};
use rtl_sig::{SigBit, WireBit};
use std::alloc::Global;

/// A reader, and the number of the bit that it reads.
#[derive(Clone, Copy)]
pub(crate) struct BitReader {
    pub(crate) number: usize,
    pub(crate) reader: Reader,
}

/// The readers of the bits of the module, which are numbered so: the cells, of which these are the types, and then the
/// connections.
pub(crate) fn readers_in(
    alloc: Global,
    module: &Module,
    types: &Types,
    numbering: &Numbering,
) -> Result<Vec<BitReader>, Memory>
    ensures value { IfOk result (λ list. (ports : rtl.Ports) → AreTypes types.now ports →
        HasReaders numbering.now list.items (readers_of ports «module».now)) }
{
    let mut list = Vec::new(alloc);
    add_cells(&mut list, numbering, types, module.cells.as_slice())?;
    add_links(alloc, &mut list, numbering, module.links.as_slice())?;
    Ok(list)
}

/// What the cells read.
fn add_cells(
    list: &mut Vec<BitReader>,
    numbering: &Numbering,
    types: &Types,
    cells: &[Cell],
) -> Result<(), Memory>
    ensures ok { OnOk result ((ports : rtl.Ports) → AreTypes types.now ports →
        Adds numbering.now list.old.items (cell_readers (cell_reads ports 0 cells.now)) list.new.items) }
{
    for (place, cell) in cells.iter().enumerate() {
        let cell_type = types.find(cell.kind_name.as_slice());
        add_pins(
            list,
            numbering,
            &cell_type,
            narrowed(place)?,
            cell.pins.as_slice(),
        )?;
    }
    Ok(())
}

/// What the cell at this place, which is of this type, reads by its pins.
fn add_pins(
    list: &mut Vec<BitReader>,
    numbering: &Numbering,
    cell_type: &CellType,
    cell: u32,
    pins: &[Pin],
) -> Result<(), Memory>
    ensures ok { OnOk result ((type : rtl.CellType) → IsType cell_type.now type →
        Adds numbering.now list.old.items (cell_readers (pin_reads type cell 0 pins.now)) list.new.items) }
{
    for (place, pin) in pins.iter().enumerate() {
        add_pin(list, numbering, cell_type, cell, place as u64, pin)?;
    }
    Ok(())
}

/// What the cell reads by the pin at this place.
fn add_pin(
    list: &mut Vec<BitReader>,
    numbering: &Numbering,
    cell_type: &CellType,
    cell: u32,
    place: u64,
    pin: &Pin,
) -> Result<(), Memory>
    ensures ok { OnOk result ((type : rtl.CellType) → IsType cell_type.now type →
        Adds numbering.now list.old.items (cell_readers (reads_of_pin type cell place pin.now)) list.new.items) }
{
    if drives_pin(cell_type, pin.name.as_slice()) {
        return Ok(());
    }
    add_places(list, numbering, cell, place, pin.sig.as_slice())
}

/// The bits at the places of a pin that the cell does not drive.
fn add_places(
    list: &mut Vec<BitReader>,
    numbering: &Numbering,
    cell: u32,
    pin: u64,
    bits: &[SigBit],
) -> Result<(), Memory>
    ensures ok { OnOk result (
        Adds numbering.now list.old.items (cell_readers (places_read cell pin 0 bits.now)) list.new.items) }
{
    for place in 0..bits.len() {
        if let SigBit::Wire(bit) = bits[place] {
            let at = narrowed(place)?;
            add_reader(
                list,
                numbering,
                bit,
                Reader::Cell(CellPin { cell, pin, at }),
            )?;
        }
    }
    Ok(())
}

/// The reader of the bit, where a wire has it.
fn add_reader(
    list: &mut Vec<BitReader>,
    numbering: &Numbering,
    bit: WireBit,
    reader: Reader,
) -> Result<(), Memory>
    ensures ok { OnOk result (Adds numbering.now list.old.items (reader_of bit reader) list.new.items) }
{
    if let Some(number) = numbering.find(bit) {
        list.push(BitReader { number, reader })?;
    }
    Ok(())
}

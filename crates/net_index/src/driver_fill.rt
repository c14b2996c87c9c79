//! The drivers of the bits of a module, in a table.

ghost use Rattle.std.specs.Prelude.{◌≡◌, IfOk, OnOk, map};
ghost use Rattle.rtl_sig.specs.declared.sig.WireBit.{WireBit};
ghost use Rattle.rtl_ir.specs.Drivers.{
  FromCell,
  FromPort,
  all_by,
  cell_drives,
  drives_of,
  pin_drives,
  places_by,
  port_drives,
  rule_drives,
  tree_drives,
};
ghost use Rattle.rtl_ir.specs.Follow.{all_joins};
ghost use Rattle.rtl_ir.specs.Signals.{bits_of_wire};
ghost use Rattle.rtl_ir.specs.Types as rtl;
ghost use Rattle.net_index.specs.DriverFill.{Adds, HasDrivers, join_drive, drives_of_pin, drives_of_port, marked_at};
ghost use Rattle.net_index.specs.IndexTable.{at_bit};
ghost use Rattle.net_index.specs.Types.{AreTypes, IsType};

use crate::driver::{CellPin, Driver};
use crate::driver_tree::{assigned_bits, ruled_bits};
use crate::index_table::BitTable;
use crate::outputs::drives_pin;
use crate::types::{CellType, Types};
use rtl_bits::Memory;
use rtl_ir::{Cell, Join, Module, Pin, Process, Role, Wire};
use rtl_sig::{SigBit, WireBit};
use std::alloc::Global;

/// The first drivers of the bits of the module, of which these are the types of the cells and the places of the
/// connections.
pub(crate) fn drivers_of(
    alloc: Global,
    module: &Module,
    types: &Types,
    joins: &[Join],
) -> Result<BitTable<Driver>, Memory>
    requires joins { joins.now ≡ all_joins «module».now.links }
    ensures value { IfOk result (λ table. (ports : rtl.Ports) → AreTypes types.now ports →
        HasDrivers table (drives_of ports «module».now)) }
{
    let wires = module.wires.as_slice();
    let mut drivers = BitTable::of(alloc, wires)?;
    add_ports(&mut drivers, wires)?;
    add_cells(&mut drivers, types, module.cells.as_slice())?;
    add_joins(&mut drivers, joins)?;
    add_trees(alloc, &mut drivers, module.processes.as_slice())?;
    add_rules(alloc, &mut drivers, module.processes.as_slice())?;
    Ok(drivers)
}

/// The first place of a cell that drives each bit, whatever else drives it.
pub fn cell_drivers(
    alloc: Global,
    module: &Module,
    types: &Types,
) -> Result<BitTable<Driver>, Memory>
    ensures value { IfOk result (λ table. (ports : rtl.Ports) → AreTypes types.now ports →
        HasDrivers table (cell_drives ports 0 «module».now.cells)) }
{
    let mut drivers = BitTable::of(alloc, module.wires.as_slice())?;
    add_cells(&mut drivers, types, module.cells.as_slice())?;
    Ok(drivers)
}

/// The bits of the input ports are driven from outside.
fn add_ports(drivers: &mut BitTable<Driver>, wires: &[Wire]) -> Result<(), Memory>
    ensures ok { OnOk result (Adds drivers.old (port_drives 0 wires.now) drivers.new) }
{
    for (place, wire) in wires.iter().enumerate() {
        add_port(drivers, narrowed(place)?, wire)?;
    }
    Ok(())
}

/// The place as a narrower number. A greater one is taken for want of memory.
pub(crate) fn narrowed(place: usize) -> Result<u32, Memory>
    ensures value { IfOk result (λ narrow. narrow ≡ place) }
{
    u32::try_from(place).ok().ok_or(Memory)
}

/// The bits of the wire at this place, where it is an input port.
fn add_port(drivers: &mut BitTable<Driver>, place: u32, wire: &Wire) -> Result<(), Memory>
    ensures ok { OnOk result (Adds drivers.old (drives_of_port place wire.now) drivers.new) }
{
    if matches!(wire.role, Role::Input) {
        return add_wire(drivers, place, wire.width);
    }
    Ok(())
}

/// Each bit of the wire at this place, which has this width.
fn add_wire(drivers: &mut BitTable<Driver>, wire: u32, width: u32) -> Result<(), Memory>
    ensures ok { OnOk result (Adds drivers.old (all_by FromPort (bits_of_wire wire width)) drivers.new) }
{
    for at in 0..width {
        drivers.put_first(WireBit { wire, at }, Driver::Port)?;
    }
    Ok(())
}

/// What the cells drive.
fn add_cells(drivers: &mut BitTable<Driver>, types: &Types, cells: &[Cell]) -> Result<(), Memory>
    ensures ok { OnOk result ((ports : rtl.Ports) → AreTypes types.now ports →
        Adds drivers.old (cell_drives ports 0 cells.now) drivers.new) }
{
    for (place, cell) in cells.iter().enumerate() {
        let cell_type = types.find(cell.kind_name.as_slice());
        add_pins(drivers, &cell_type, narrowed(place)?, cell.pins.as_slice())?;
    }
    Ok(())
}

/// What the cell at this place, which is of this type, drives by its pins.
fn add_pins(
    drivers: &mut BitTable<Driver>,
    cell_type: &CellType,
    cell: u32,
    pins: &[Pin],
) -> Result<(), Memory>
    ensures ok { OnOk result ((type : rtl.CellType) → IsType cell_type.now type →
        Adds drivers.old (pin_drives type cell 0 pins.now) drivers.new) }
{
    for (place, pin) in pins.iter().enumerate() {
        add_pin(drivers, cell_type, cell, place as u64, pin)?;
    }
    Ok(())
}

/// What the cell drives by the pin at this place.
fn add_pin(
    drivers: &mut BitTable<Driver>,
    cell_type: &CellType,
    cell: u32,
    place: u64,
    pin: &Pin,
) -> Result<(), Memory>
    ensures ok { OnOk result ((type : rtl.CellType) → IsType cell_type.now type →
        Adds drivers.old (drives_of_pin type cell place pin.now) drivers.new) }
{
    if drives_pin(cell_type, pin.name.as_slice()) {
        return add_places(drivers, cell, place, pin.sig.as_slice());
    }
    Ok(())
}

/// The bits at the places of an output pin.
fn add_places(
    drivers: &mut BitTable<Driver>,
    cell: u32,
    pin: u64,
    bits: &[SigBit],
) -> Result<(), Memory>
    ensures ok { OnOk result (Adds drivers.old (places_by (λ at. FromCell cell pin at) 0 bits.now) drivers.new) }
{
    for place in 0..bits.len() {
        if let SigBit::Wire(bit) = bits[place] {
            let at = narrowed(place)?;
            drivers.put_first(bit, Driver::Cell(CellPin { cell, pin, at }))?;
        }
    }
    Ok(())
}

/// What the connections drive.
fn add_joins(drivers: &mut BitTable<Driver>, joins: &[Join]) -> Result<(), Memory>
    ensures ok { OnOk result (Adds drivers.old (map join_drive joins.now) drivers.new) }
{
    for join in joins {
        drivers.put_first(join.bit, Driver::Link(join.source))?;
    }
    Ok(())
}

/// What the trees of the processes drive.
fn add_trees(
    alloc: Global,
    drivers: &mut BitTable<Driver>,
    processes: &[Process],
) -> Result<(), Memory>
    ensures ok { OnOk result (Adds drivers.old (tree_drives 0 processes.now) drivers.new) }
{
    for (place, process) in processes.iter().enumerate() {
        let bits = assigned_bits(alloc, &process.root)?;
        add_bits(drivers, bits.as_slice(), Driver::Tree(place as u64))?;
    }
    Ok(())
}

/// What the rules of the processes drive.
fn add_rules(
    alloc: Global,
    drivers: &mut BitTable<Driver>,
    processes: &[Process],
) -> Result<(), Memory>
    ensures ok { OnOk result (Adds drivers.old (rule_drives 0 processes.now) drivers.new) }
{
    for (place, process) in processes.iter().enumerate() {
        let bits = ruled_bits(alloc, process.syncs.as_slice())?;
        add_bits(drivers, bits.as_slice(), Driver::Sync(place as u64))?;
    }
    Ok(())
}

/// These bits, with one driver.
fn add_bits(drivers: &mut BitTable<Driver>, bits: &[WireBit], driver: Driver) -> Result<(), Memory>
    ensures ok { OnOk result ((b : WireBit) → at_bit drivers.new b ≡ marked_at drivers.old bits.now driver b) }
{
    for bit in bits {
        drivers.put_first(*bit, driver)?;
    }
    Ok(())
}

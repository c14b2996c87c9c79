//! The faults of bits: of their drivers.

ghost use Rattle.std.specs.Prelude.{◌≡◌, ◌<◌, List, IfOk, OnOk, Some, flat_map, slice_index};
ghost use Rattle.std.specs.List.{range_with_len};
ghost use Rattle.rtl_ir.specs.Drivers.{Drive, drives_of};
ghost use Rattle.rtl_ir.specs.Faults.Bits.{bit_faults, bits_faults, faults_of_two};
ghost use Rattle.rtl_ir.specs.Signals.{bits_of_wire};
ghost use Rattle.rtl_ir.specs.Types as rtl;
ghost use Rattle.net_index.specs.Numbering.{widths_of};
ghost use Rattle.net_index.specs.Types.{AreTypes, IsType};
ghost use Rattle.rtl_check.specs.Finds.{Finds, first_answer};
ghost use Rattle.rtl_check.specs.Tallies.{HasCounted, Tells, bits_of_cell, bits_of_link, bits_of_pin, bits_of_port};
ghost use Rattle.rtl_check.specs.Tallies.{bits_of_rules, bits_of_tree, port_bits, with_bits};

use crate::fault::{CheckFault, WireSpot};
use crate::tally::Tally;
use crate::wires::spot;
use net_index::{CellType, Types, drives_pin};
use process_check::updated_bits;
use process_trees::tree_bits;
use rtl_bits::{Copied, Memory, Text};
use rtl_ir::{Cell, Link, Module, Pin, Process, Role, Wire};
use rtl_sig::WireBit;
use std::alloc::Global;

/// The first fault of the bits of a module, over the types of its design: a driven bit of an input port, or a bit
/// with two drivers.
pub(crate) fn check_bits(alloc: Global, types: &Types, body: &Module) -> Result<(), CheckFault>
    ensures first { (ports : rtl.Ports) → AreTypes types.now ports →
        Finds result (bits_faults body.now.id (drives_of ports body.now) 0 body.now.wires) }
{
    let wires = body.wires.as_slice();
    let mut tally = Tally::of(alloc, wires)?;
    count_ports(&mut tally, wires)?;
    count_cells(&mut tally, types, body.cells.as_slice());
    count_links(&mut tally, body.links.as_slice());
    count_trees(alloc, &mut tally, body.processes.as_slice())?;
    count_updates(alloc, &mut tally, body.processes.as_slice())?;
    check_wires(&body.id, &tally, wires)
}

/// The first fault of the bits of these wires.
fn check_wires(id: &Text, tally: &Tally, wires: &[Wire]) -> Result<(), CheckFault>
    requires widths { tally.now.widths ≡ widths_of wires.now }
    ensures first { (drives : List Drive) → Tells tally.now drives →
        Finds result (bits_faults id.now drives 0 wires.now) }
{
    for (place, wire) in wires.iter().enumerate() {
        check_wire(id, tally, place_of(place)?, wire)?;
    }
    Ok(())
}

/// The first fault of the bits of the wire at this place.
fn check_wire(id: &Text, tally: &Tally, place: u32, wire: &Wire) -> Result<(), CheckFault>
    requires width { slice_index tally.now.widths place ≡ wire.now.width }
    ensures first { (drives : List Drive) → Tells tally.now drives →
        Finds result (flat_map (bit_faults id.now drives place wire.now) (range_with_len 0 wire.now.width)) }
{
    for at in 0..wire.width {
        if tally.has_two(WireBit { wire: place, at }) {
            return Err(doubly_driven(id, wire, at)?);
        }
    }
    Ok(())
}

/// The fault of a bit with more than one driver: an input port has one outside.
fn doubly_driven(id: &Text, wire: &Wire, at: u32) -> Result<CheckFault, Memory>
    ensures value { IfOk result (λ fault. first_answer (faults_of_two id.now wire.now at) ≡ Some fault) }
{
    if matches!(wire.role, Role::Input) {
        return Ok(CheckFault::BadPort(spot(id, &wire.name)?));
    }
    Ok(CheckFault::TwoDrivers(WireSpot {
        id: id.copy()?,
        wire: wire.name.copy()?,
        at,
    }))
}

/// Counts the bits of the input ports, which are driven from outside.
fn count_ports(tally: &mut Tally, wires: &[Wire]) -> Result<(), Memory>
    ensures ok { OnOk result (tally.new ≡ with_bits tally.old (port_bits 0 wires.now)) }
{
    for (place, wire) in wires.iter().enumerate() {
        count_port(tally, place_of(place)?, wire);
    }
    Ok(())
}

/// The place in the list of wires, as bits name it. A greater one is taken for want of memory.
fn place_of(place: usize) -> Result<u32, Memory>
    ensures value { IfOk result (λ named. named ≡ place) }
{
    u32::try_from(place).ok().ok_or(Memory)
}

/// Counts the bits of the wire at this place, where it is an input port.
fn count_port(tally: &mut Tally, place: u32, wire: &Wire)
    ensures value { tally.new ≡ with_bits tally.old (bits_of_port place wire.now) }
{
    if matches!(wire.role, Role::Input) {
        count_wire(tally, place, wire.width);
    }
}

/// Counts each bit of the wire at this place, which has this width.
fn count_wire(tally: &mut Tally, wire: u32, width: u32)
    ensures value { tally.new ≡ with_bits tally.old (bits_of_wire wire width) }
{
    for at in 0..width {
        tally.add(WireBit { wire, at });
    }
}

/// Counts the bits that the cells drive.
fn count_cells(tally: &mut Tally, types: &Types, cells: &[Cell])
    ensures widths { tally.new.widths ≡ tally.old.widths }
    ensures value { (ports : rtl.Ports) → AreTypes types.now ports →
        tally.new ≡ with_bits tally.old (flat_map (bits_of_cell ports) cells.now) }
{
    for cell in cells {
        let cell_type = types.find(cell.kind_name.as_slice());
        count_pins(tally, &cell_type, cell.pins.as_slice());
    }
}

/// Counts the bits that a cell of this type drives by these pins.
fn count_pins(tally: &mut Tally, cell_type: &CellType, pins: &[Pin])
    ensures widths { tally.new.widths ≡ tally.old.widths }
    ensures value { (type : rtl.CellType) → IsType cell_type.now type →
        tally.new ≡ with_bits tally.old (flat_map (bits_of_pin type) pins.now) }
{
    for pin in pins {
        count_pin(tally, cell_type, pin);
    }
}

/// Counts the bits that a cell of this type drives by this pin.
fn count_pin(tally: &mut Tally, cell_type: &CellType, pin: &Pin)
    ensures widths { tally.new.widths ≡ tally.old.widths }
    ensures value { (type : rtl.CellType) → IsType cell_type.now type →
        tally.new ≡ with_bits tally.old (bits_of_pin type pin.now) }
{
    if drives_pin(cell_type, pin.name.as_slice()) {
        tally.add_all(pin.sig.as_slice());
    }
}

/// Counts the bits that the connections drive.
fn count_links(tally: &mut Tally, links: &[Link])
    ensures value { tally.new ≡ with_bits tally.old (flat_map bits_of_link links.now) }
{
    for link in links {
        count_link(tally, link);
    }
}

/// Counts the bits that the connection drives, of unequal sides as far as both go.
fn count_link(tally: &mut Tally, link: &Link)
    ensures value { tally.new ≡ with_bits tally.old (bits_of_link link.now) }
{
    let left = link.left.as_slice();
    let width = left.len().min(link.right.as_slice().len());
    tally.add_all(&left[..width]);
}

/// Counts the bits that the trees of the processes drive.
fn count_trees(alloc: Global, tally: &mut Tally, processes: &[Process]) -> Result<(), Memory>
    ensures ok { OnOk result (tally.new ≡ with_bits tally.old (flat_map bits_of_tree processes.now)) }
{
    for process in processes {
        let bits = tree_bits(alloc, &process.root)?;
        count_bits(tally, bits.as_slice());
    }
    Ok(())
}

/// Counts the bits that the rules of the processes update.
fn count_updates(alloc: Global, tally: &mut Tally, processes: &[Process]) -> Result<(), Memory>
    ensures ok { OnOk result (HasCounted tally.old (flat_map bits_of_rules processes.now) tally.new) }
{
    for process in processes {
        let bits = updated_bits(alloc, process.syncs.as_slice())?;
        count_bits(tally, bits.as_slice());
    }
    Ok(())
}

/// Counts each of the bits.
fn count_bits(tally: &mut Tally, bits: &[WireBit])
    ensures value { tally.new ≡ with_bits tally.old bits.now }
{
    for bit in bits {
        tally.add(*bit);
    }
}

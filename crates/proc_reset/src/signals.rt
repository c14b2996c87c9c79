//! What connections, cells and output ports read.

ghost use Rattle.std.specs.Prelude.{◌≡◌, ◌++◌, [], if◌then◌else◌, flat_map, IfOk, OnOk};
ghost use Rattle.rtl_ir.specs.Build.{whole};
ghost use Rattle.rtl_ir.specs.Outputs.{is_output};
ghost use Rattle.rtl_ir.specs.Types as rtl;
ghost use Rattle.net_index.specs.Types.{AreTypes, IsType};
ghost use Rattle.proc_reset.specs.Reads.{cell_signals, fixed_signals, output_signals, pin_signal, sources};

use net_index::{CellType, Types, drives_pin, whole};
use rtl_bits::Memory;
use rtl_ir::{Cell, Link, Module, Pin, Wire, is_output};
use rtl_sig::SigBit;
use std::alloc::Global;

/// The signals that the connections, the cells and the output ports of the module read.
pub(crate) fn fixed_signals(
    alloc: Global,
    module: &Module,
    types: &Types,
) -> Result<Vec<SigBit>, Memory>
    ensures value { IfOk result (λ signals. (ports : rtl.Ports) → AreTypes types.now ports →
        signals.items ≡ fixed_signals ports «module».now) }
{
    let mut signals = Vec::new(alloc);
    put_sources(&mut signals, module.links.as_slice())?;
    put_cells(&mut signals, types, module.cells.as_slice())?;
    put_outputs(alloc, &mut signals, module.wires.as_slice())?;
    Ok(signals)
}

/// Puts the right sides of the lines last.
pub(crate) fn put_sources(signals: &mut Vec<SigBit>, lines: &[Link]) -> Result<(), Memory>
    ensures ok { OnOk result (signals.new.items ≡ signals.old.items ++ sources lines.now) }
{
    for line in lines {
        signals.extend_from_slice(line.right.as_slice())?;
    }
    Ok(())
}

/// Puts the signals last that the cells read.
fn put_cells(signals: &mut Vec<SigBit>, types: &Types, cells: &[Cell]) -> Result<(), Memory>
    ensures ok { OnOk result ((ports : rtl.Ports) → AreTypes types.now ports →
        signals.new.items ≡ signals.old.items ++ flat_map (cell_signals ports) cells.now) }
{
    for cell in cells {
        put_cell(signals, types, cell)?;
    }
    Ok(())
}

/// Puts the signals last that the cell reads.
fn put_cell(signals: &mut Vec<SigBit>, types: &Types, cell: &Cell) -> Result<(), Memory>
    ensures ok { OnOk result ((ports : rtl.Ports) → AreTypes types.now ports →
        signals.new.items ≡ signals.old.items ++ cell_signals ports cell.now) }
{
    let cell_type = types.find(cell.kind_name.as_slice());
    put_pins(signals, &cell_type, cell.pins.as_slice())
}

/// Puts the signals last that a cell of the type reads at these pins.
fn put_pins(signals: &mut Vec<SigBit>, cell_type: &CellType, pins: &[Pin]) -> Result<(), Memory>
    ensures ok { OnOk result ((type : rtl.CellType) → IsType cell_type.now type →
        signals.new.items ≡ signals.old.items ++ flat_map (pin_signal type) pins.now) }
{
    for pin in pins {
        put_pin(signals, cell_type, pin)?;
    }
    Ok(())
}

/// Puts the signal of the pin last, where a cell of the type reads it.
fn put_pin(signals: &mut Vec<SigBit>, cell_type: &CellType, pin: &Pin) -> Result<(), Memory>
    ensures ok { OnOk result ((type : rtl.CellType) → IsType cell_type.now type →
        signals.new.items ≡ signals.old.items ++ pin_signal type pin.now) }
{
    if !drives_pin(cell_type, pin.name.as_slice()) {
        signals.extend_from_slice(pin.sig.as_slice())?;
    }
    Ok(())
}

/// Puts the bits of output ports last.
fn put_outputs(alloc: Global, signals: &mut Vec<SigBit>, wires: &[Wire]) -> Result<(), Memory>
    ensures ok { OnOk result (signals.new.items ≡ signals.old.items ++ output_signals 0 wires.now) }
{
    for (place, wire) in wires.iter().enumerate() {
        put_output(alloc, signals, narrowed(place)?, wire)?;
    }
    Ok(())
}

/// The place as a narrower number. A greater one is taken for want of memory.
fn narrowed(place: usize) -> Result<u32, Memory>
    ensures value { IfOk result (λ narrow. narrow ≡ place) }
{
    u32::try_from(place).ok().ok_or(Memory)
}

/// Puts the bits of the wire at this place last, where it is an output port.
fn put_output(
    alloc: Global,
    signals: &mut Vec<SigBit>,
    place: u32,
    wire: &Wire,
) -> Result<(), Memory>
    ensures ok { OnOk result (signals.new.items ≡
        signals.old.items ++ (if is_output wire.now.role then whole place wire.now.width else [])) }
{
    if is_output(wire.role) {
        let bits = whole(alloc, place, wire.width)?;
        signals.extend_from_slice(bits.as_slice())?;
    }
    Ok(())
}

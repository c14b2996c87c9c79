//! Cells whose inputs are followed along the connections.

ghost use Rattle.std.specs.Prelude.{◌≡◌, true, IfOk, map};
ghost use Rattle.rtl_ir.specs.declared.module.Module.{Module};
ghost use Rattle.rtl_ir.specs.Follow.{follow};
ghost use Rattle.rtl_ir.specs.Types as rtl;
ghost use Rattle.net_index.specs.Drivers.{AreDrivers};
ghost use Rattle.net_index.specs.Types.{AreTypes, IsType};
ghost use Rattle.follow_laws.specs.Inputs.{followed_cell, followed_pin};

use crate::turned::{Turned, both};
use net_index::{CellType, Drivers, Types, drives_pin};
use rtl_bits::{Memory, Seq};
use rtl_ir::{Cell, Pin, Same};
use rtl_sig::{SigBit, SigSpec};
use std::alloc::Global;

/// The cells, of which each bit that is read is replaced by what it is followed to. Each is freed when its turn comes.
pub(crate) fn followed_cells(
    alloc: Global,
    cells: Vec<Cell>,
    types: &Types,
    index: &Drivers,
) -> Result<Turned<Vec<Cell>>, Memory>
    ensures value { IfOk result (λ found. (ports : rtl.Ports) (m : Module) → AreTypes types.now ports →
        AreDrivers index.now ports m → found.value.items ≡ map (followed_cell ports m.links) cells.items) }
    ensures same { IfOk result (λ found. found.is_same ≡ true → found.value.items ≡ cells.items) }
{
    let mut is_same = true;
    let mut found = Vec::with_capacity(alloc, cells.len())?;
    for cell in cells {
        let turned = followed_cell(alloc, cell, types, index)?;
        is_same = both(is_same, turned.is_same);
        found.push(turned.value)?;
    }
    Ok(Turned {
        value: found,
        is_same,
    })
}

/// The cell with its inputs followed.
fn followed_cell(
    alloc: Global,
    cell: Cell,
    types: &Types,
    index: &Drivers,
) -> Result<Turned<Cell>, Memory>
    ensures value { IfOk result (λ found. (ports : rtl.Ports) (m : Module) → AreTypes types.now ports →
        AreDrivers index.now ports m → found.value ≡ followed_cell ports m.links cell) }
    ensures same { IfOk result (λ found. found.is_same ≡ true → found.value ≡ cell) }
{
    let cell_type = types.find(cell.kind_name.as_slice());
    let turned = followed_pins(alloc, cell.pins.into_vec(), &cell_type, index)?;
    Ok(Turned {
        value: Cell {
            pins: turned.value,
            ..cell
        },
        is_same: turned.is_same,
    })
}

/// The pins of a cell of this type, with the inputs followed.
fn followed_pins(
    alloc: Global,
    pins: Vec<Pin>,
    cell_type: &CellType,
    index: &Drivers,
) -> Result<Turned<Seq<Pin>>, Memory>
    ensures value { IfOk result (λ found. (type : rtl.CellType) (ports : rtl.Ports) (m : Module) →
        IsType cell_type.now type → AreDrivers index.now ports m →
        found.value ≡ map (followed_pin type m.links) pins.items) }
    ensures same { IfOk result (λ found. found.is_same ≡ true → found.value ≡ pins.items) }
{
    let mut is_same = true;
    let mut found = Vec::with_capacity(alloc, pins.len())?;
    for pin in pins {
        let turned = followed_pin(alloc, pin, cell_type, index)?;
        is_same = both(is_same, turned.is_same);
        found.push(turned.value)?;
    }
    Ok(Turned {
        value: Seq::from_vec(found),
        is_same,
    })
}

/// The pin of a cell of this type, followed where the cell does not drive it.
fn followed_pin(
    alloc: Global,
    pin: Pin,
    cell_type: &CellType,
    index: &Drivers,
) -> Result<Turned<Pin>, Memory>
    ensures value { IfOk result (λ found. (type : rtl.CellType) (ports : rtl.Ports) (m : Module) →
        IsType cell_type.now type → AreDrivers index.now ports m → found.value ≡ followed_pin type m.links pin) }
    ensures same { IfOk result (λ found. found.is_same ≡ true → found.value ≡ pin) }
{
    if drives_pin(cell_type, pin.name.as_slice()) {
        return Ok(Turned {
            value: pin,
            is_same: true,
        });
    }
    let sig = followed_signal(alloc, pin.sig.as_slice(), index)?;
    let is_same = sig.same(&pin.sig);
    Ok(Turned {
        value: Pin {
            name: pin.name,
            sig,
        },
        is_same,
    })
}

/// The signal with each bit followed.
pub(crate) fn followed_signal(
    alloc: Global,
    signal: &[SigBit],
    index: &Drivers,
) -> Result<SigSpec, Memory>
    ensures value { IfOk result (λ found. (ports : rtl.Ports) (m : Module) → AreDrivers index.now ports m →
        found ≡ map (follow m.links) signal.now) }
{
    let mut found = SigSpec::with_capacity(alloc, signal.len())?;
    for bit in signal {
        found.push(index.follow(*bit))?;
    }
    Ok(found)
}

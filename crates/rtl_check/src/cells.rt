//! The faults of cells: of their types, parameters and pins.

ghost use Rattle.std.specs.Prelude.{◌≡◌, ◌++◌, ◌∷◌, List, [], IfOk, OnOk, Some, true, option_map};
ghost use Rattle.std.specs.List.{list_any};
ghost use Rattle.rtl_ir.specs.declared.cell.Cell.{Cell};
ghost use Rattle.rtl_ir.specs.declared.module.Module.{Module};
ghost use Rattle.rtl_ir.specs.declared.ports.PortLine.{PortLine};
ghost use Rattle.rtl_ir.specs.Fault.{spot};
ghost use Rattle.cell_types.specs.declared.kind.CellKind.TheVariants as Cells;
ghost use Rattle.cell_types.specs.Bounds.{KeepsBounds};
ghost use Rattle.cell_types.specs.Kind.{kind_of};
ghost use Rattle.rtl_ir.specs.Faults.Cells as cells;
ghost use Rattle.rtl_ir.specs.Flat.Cell.{cell_shape};
ghost use Rattle.rtl_ir.specs.Scope.{everything};
ghost use Rattle.rtl_ir.specs.Types as rtl;
ghost use Rattle.net_index.specs.Types.{AreTypes, IsTable, IsType};
ghost use Rattle.process_trees.specs.Fitting.{DoCellsFit};
ghost use Rattle.memory_check.specs.Memories.{KnowsCells};
ghost use Rattle.memory_check.specs.Shapes.{HasShape};
ghost use Rattle.rtl_check.specs.Finds.{Finds};
ghost use Rattle.rtl_check.specs.Named.{Names};

use crate::fault::CheckFault;
use crate::wires::spot;
use cell_types::{CellFault, CellKind, MemoryKind, Shape};
use memory_check::Memories;
use net_index::{CellType, PortNames, Types, drives_pin};
use process_check::has_constant;
use rtl_bits::Text;
use rtl_ir::{Cell, Module, Pin, cell_shape};
use std::alloc::Global;

/// The first fault of the cells of a module, over the types of its design. Those of memories are noted.
pub(crate) fn check_cells<'a>(
    alloc: Global,
    types: &Types,
    memories: &mut Memories<'a>,
    body: &'a Module,
) -> Result<(), CheckFault>
    requires known { KnowsCells memories.old body.now [] }
    ensures first { (ports : rtl.Ports) → AreTypes types.now ports →
        Finds result (cells.cell_faults everything ports body.now [] body.now.cells) }
    ensures fit { OnOk result ((ports : rtl.Ports) → AreTypes types.now ports → DoCellsFit ports body.now) }
    ensures noted { OnOk result ((ports : rtl.Ports) → AreTypes types.now ports →
        KnowsCells memories.new body.now body.now.cells) }
{
    for cell in body.cells.as_slice() {
        let cell_type = types.find(cell.kind_name.as_slice());
        check_cell(alloc, memories, &body.id, cell, &cell_type)?;
    }
    Ok(())
}

/// The first fault of a cell of this type. If it is one of a memory, it is noted.
fn check_cell<'a>(
    alloc: Global,
    memories: &mut Memories<'a>,
    id: &Text,
    cell: &'a Cell,
    cell_type: &CellType,
) -> Result<(), CheckFault>
    ensures first { (type : rtl.CellType) → IsType cell_type.now type → (m : Module) → m.id ≡ id.now →
        (earlier : List Cell) → KnowsCells memories.old m earlier →
        Finds result (cells.faults_by_type everything m earlier cell.now type) }
    ensures noted { OnOk result ((type : rtl.CellType) → IsType cell_type.now type → Names cell.now.kind_name type →
        (m : Module) (earlier : List Cell) → KnowsCells memories.old m earlier →
        KnowsCells memories.new m (earlier ++ cell.now ∷ [])) }
{
    match cell_type {
        CellType::Library(kind) => check_library_cell(alloc, memories, id, cell, *kind),
        CellType::Instance(ports) => check_instance(id, cell, ports),
        CellType::Unsupported => Err(CheckFault::UnsupportedCell(spot(id, &cell.name)?)),
        CellType::Unknown => Err(CheckFault::UnknownCell(spot(id, &cell.name)?)),
    }
}

/// The first fault of a cell of the library.
fn check_library_cell<'a>(
    alloc: Global,
    memories: &mut Memories<'a>,
    id: &Text,
    cell: &'a Cell,
    kind: CellKind,
) -> Result<(), CheckFault>
    ensures first { (m : Module) → m.id ≡ id.now → (earlier : List Cell) → KnowsCells memories.old m earlier →
        Finds result (cells.faults_by_type everything m earlier cell.now (rtl.Library kind)) }
    ensures noted { OnOk result (kind_of cell.now.kind_name ≡ Some kind → (m : Module) (earlier : List Cell) →
        KnowsCells memories.old m earlier →
        KnowsCells memories.new m (earlier ++ cell.now ∷ [])) }
{
    let shape = check_shape(alloc, id, cell, kind)?;
    check_outputs(id, cell, &CellType::Library(kind))?;
    match kind {
        CellKind::Memory(kind) => check_memory_cell(alloc, memories, id, cell, kind, &shape),
        _ => Ok(()),
    }
}

/// The fault of a cell of this kind and shape as one of a memory. If it has none, it is noted.
fn check_memory_cell<'a>(
    alloc: Global,
    memories: &mut Memories<'a>,
    id: &Text,
    cell: &'a Cell,
    kind: MemoryKind,
    shape: &Shape,
) -> Result<(), CheckFault>
    ensures first { (m : Module) → m.id ≡ id.now → (earlier : List Cell) → KnowsCells memories.old m earlier →
        HasShape shape.now kind cell.now →
        Finds result (cells.memory_faults true m earlier cell.now (Cells.Memory kind)) }
    ensures noted { OnOk result (kind_of cell.now.kind_name ≡ Some (Cells.Memory kind) →
        HasShape shape.now kind cell.now → (m : Module) (earlier : List Cell) → KnowsCells memories.old m earlier →
        KnowsCells memories.new m (earlier ++ cell.now ∷ [])) }
{
    if memories.is_bad_cell(alloc, cell, kind, shape)? {
        return Err(CheckFault::BadMemory(spot(id, &cell.name)?));
    }
    Ok(())
}

/// The shape of a cell, or the first fault of its parameters and pins.
fn check_shape(alloc: Global, id: &Text, cell: &Cell, kind: CellKind) -> Result<Shape, CheckFault>
    ensures first { Finds result (cells.shape_fault (spot id.now cell.now.name) (cells.misfit kind cell.now)) }
    ensures shape { IfOk result (λ shape. shape ≡ cell_shape kind cell.now.params) }
    ensures bounds { IfOk result KeepsBounds }
{
    match cell_shape(alloc, kind, cell) {
        Ok(shape) => Ok(shape),
        Err(CellFault::Bad) => Err(CheckFault::BadParameterOrPort(spot(id, &cell.name)?)),
        Err(CellFault::Wide) => Err(CheckFault::TooWide(spot(id, &cell.name)?)),
        Err(CellFault::Width) => Err(CheckFault::Width(spot(id, &cell.name)?)),
        Err(CellFault::Memory) => Err(CheckFault::Memory),
    }
}

/// The fault of a cell that drives a constant.
fn check_outputs(id: &Text, cell: &Cell, cell_type: &CellType) -> Result<(), CheckFault>
    ensures first { (type : rtl.CellType) → IsType cell_type.now type →
        Finds result (cells.output_faults (spot id.now cell.now.name) type cell.now.pins) }
{
    for pin in cell.pins.as_slice() {
        if drives_pin(cell_type, pin.name.as_slice()) && has_constant(pin.sig.as_slice()) {
            return Err(CheckFault::BadPort(spot(id, &cell.name)?));
        }
    }
    Ok(())
}

/// The first fault of an instance of a module with these ports.
fn check_instance(id: &Text, cell: &Cell, ports: &PortNames) -> Result<(), CheckFault>
    ensures first { (lines : List PortLine) → IsTable ports.now lines → (m : Module) → m.id ≡ id.now →
        (earlier : List Cell) →
        Finds result (cells.faults_by_type everything m earlier cell.now (rtl.Instance lines)) }
{
    if !cell.params.as_slice().is_empty() || lacks_port(cell.pins.as_slice(), ports) {
        return Err(CheckFault::BadParameterOrPort(spot(id, &cell.name)?));
    }
    if has_other_width(cell.pins.as_slice(), ports) {
        return Err(CheckFault::Width(spot(id, &cell.name)?));
    }
    check_outputs(id, cell, &CellType::Instance(ports))
}

/// Whether a pin is no port.
fn lacks_port(pins: &[Pin], ports: &PortNames) -> bool
    ensures value { (lines : List PortLine) → IsTable ports.now lines →
        result ≡ list_any (cells.lacks_port lines) pins.now }
{
    for pin in pins {
        if is_lacking(pin, ports) {
            return true;
        }
    }
    false
}

/// Whether the pin is no port.
fn is_lacking(pin: &Pin, ports: &PortNames) -> bool
    ensures value { (lines : List PortLine) → IsTable ports.now lines → result ≡ cells.lacks_port lines pin.now }
{
    !ports.contains_key(pin.name.as_slice())
}

/// Whether a pin that is connected has another width than its port.
fn has_other_width(pins: &[Pin], ports: &PortNames) -> bool
    ensures value { (lines : List PortLine) → IsTable ports.now lines →
        result ≡ list_any (cells.has_other_width lines) pins.now }
{
    for pin in pins {
        if is_misfit(pin, ports) {
            return true;
        }
    }
    false
}

/// Whether a pin has bits, but not as many as its port.
fn is_misfit(pin: &Pin, ports: &PortNames) -> bool
    ensures value { (lines : List PortLine) → IsTable ports.now lines → result ≡ cells.has_other_width lines pin.now }
{
    let width = pin.sig.as_slice().len();
    match ports.get(pin.name.as_slice()) {
        Some(port) => width != 0 && width != port.width as usize,
        None => false,
    }
}

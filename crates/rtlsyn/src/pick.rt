//! Which row of the table of causes an error has.

use crate::causes::{Cause, causes_of};
use crate::drivers::{Driver, are_processes, are_tristate};
use crate::found::{Found, Item, module_named};
use crate::memory_cause::{line_cause, memory_cell_cause, store_cause};
use crate::process_cause::process_cause;
use net_index::{CellType, Types};
use rtl_bits::Memory;
use rtl_ir::{Cell, Design, Module, Role, Wire, attribute_bits};
use rtl_sig::WireBit;
use std::alloc::Global;

/// The row of this error and name.
pub(crate) fn row_named(error: u32, name: &str) -> Option<&'static Cause> {
    causes_of(error).iter().find(|cause| cause.name == name)
}

/// The row of this error for cells of this type, else the one for all: the last.
pub(crate) fn row_for_type(error: u32, kind: &[u8]) -> Option<&'static Cause> {
    let causes = causes_of(error);
    for cause in causes {
        if has_type(cause.types, kind) {
            return Some(cause);
        }
    }
    causes.last()
}

/// Whether the type is one of these, which stand between blanks.
fn has_type(types: &str, kind: &[u8]) -> bool {
    types
        .as_bytes()
        .split(|byte| *byte == b' ')
        .any(|listed| !listed.is_empty() && listed == kind)
}

/// The last row of this error.
pub(crate) fn row_of(error: u32) -> Option<&'static Cause> {
    row_for_type(error, b"")
}

/// The row of an error of the design, at what its line names.
pub(crate) fn row_at(
    alloc: Global,
    types: &Types,
    design: &Design,
    error: u32,
    found: Found<'_>,
) -> Result<Option<&'static Cause>, Memory> {
    let name = match (error, found.item) {
        (7, item) => width_cause(item),
        (9, Item::Cell(cell)) => return Ok(row_for_type(9, cell.kind_name.as_slice())),
        (11, Item::Cell(cell)) => return Ok(row_for_type(11, cell.kind_name.as_slice())),
        (11, _) => "process-limit",
        (8, Item::Cell(cell)) => missing_cause(cell),
        (10, Item::Cell(cell)) => parameter_cause(alloc, types, design, cell)?,
        (13, item) => port_cause(alloc, design, found.module, item)?,
        (14, Item::Process(process)) => process_cause(alloc, types, found.module, process)?,
        (15, Item::Store(store)) => store_cause(store),
        (15, Item::Cell(cell)) => memory_cell_cause(alloc, found.module, cell)?,
        (15, Item::Process(process)) => line_cause(found.module, process),
        _ => return Ok(row_of(error)),
    };
    Ok(row_named(error, name))
}

/// The name of the cause of error 7.
fn width_cause(item: Item<'_>) -> &'static str {
    match item {
        Item::Connection => "connection-width",
        Item::Process(_) => "process-width",
        _ => "pin-width",
    }
}

/// The name of the cause of error 8: types of Yosys begin with a dollar.
fn missing_cause(cell: &Cell) -> &'static str {
    match cell.kind_name.as_slice() {
        [b'$', ..] => "unknown-cell",
        _ => "missing-module",
    }
}

/// The name of the cause of error 10.
fn parameter_cause(
    alloc: Global,
    types: &Types,
    design: &Design,
    cell: &Cell,
) -> Result<&'static str, Memory> {
    match types.find(cell.kind_name.as_slice()) {
        CellType::Instance(_) if cell.params.as_slice().is_empty() => Ok("missing-port"),
        CellType::Instance(_) => instance_cause(alloc, design, cell),
        _ => Ok("cell-parameter"),
    }
}

/// The name of the cause, of an instance with parameters.
fn instance_cause(alloc: Global, design: &Design, cell: &Cell) -> Result<&'static str, Memory> {
    let Some(module) = module_named(design, cell.kind_name.as_slice()) else {
        return Ok("instance-parameter");
    };
    if is_box(alloc, module)? {
        Ok("box-parameter")
    } else {
        Ok("instance-parameter")
    }
}

/// Whether the module is a black box.
fn is_box(alloc: Global, module: &Module) -> Result<bool, Memory> {
    let bits = attribute_bits(alloc, module.attributes.as_slice(), b"\\blackbox")?;
    Ok(!bits.as_slice().is_empty())
}

/// The name of the cause of error 12.
pub(crate) fn driven_cause(
    types: &Types,
    module: &Module,
    wire: &Wire,
    bit: WireBit,
    drivers: &[Driver],
) -> &'static str {
    if are_tristate(types, module, bit, drivers) {
        return match wire.role {
            Role::Inner => "tristate",
            _ => "tristate-output",
        };
    }
    if are_processes(drivers) {
        "shared-variable"
    } else {
        "drivers"
    }
}

/// The name of the cause of error 13.
fn port_cause(
    alloc: Global,
    design: &Design,
    module: &Module,
    item: Item<'_>,
) -> Result<&'static str, Memory> {
    match item {
        Item::Wire(wire) if wire.role == Role::Inout => inout_cause(alloc, design, module),
        Item::Wire(wire) if wire.number < 1 || is_number_twice(module, wire.number) => {
            Ok("port-number")
        }
        Item::Wire(_) => Ok("driven-input"),
        Item::Connection => Ok("constant-connection"),
        Item::Process(_) => Ok("constant-line"),
        Item::Cell(_) => Ok("constant-pin"),
        Item::Module | Item::Store(_) => Ok("port"),
    }
}

/// The name of the cause, of a port of both directions: a black box that nobody uses can go.
fn inout_cause(alloc: Global, design: &Design, module: &Module) -> Result<&'static str, Memory> {
    if is_box(alloc, module)? && !is_used(design, module.id.as_slice()) {
        Ok("unused-inout")
    } else {
        Ok("inout")
    }
}

/// Whether a cell is an instance of the module of this name.
fn is_used(design: &Design, id: &[u8]) -> bool {
    for module in design.modules.as_slice() {
        for cell in module.cells.as_slice() {
            if cell.kind_name.as_slice() == id {
                return true;
            }
        }
    }
    false
}

/// Whether two ports have the number.
fn is_number_twice(module: &Module, number: i32) -> bool {
    let mut is_seen = false;
    for wire in module.wires.as_slice() {
        if wire.role != Role::Inner && wire.number == number {
            if is_seen {
                return true;
            }
            is_seen = true;
        }
    }
    false
}

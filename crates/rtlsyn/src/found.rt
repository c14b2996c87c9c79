//! What an error's line names, in the design.

use rtl_ir::{Attribute, Cell, Design, Link, Module, Process, Store, Wire, chars_in};
use rtl_sig::WireBit;

/// What is at fault in a module.
#[derive(Clone, Copy)]
pub(crate) enum Item<'a> {
    /// The module itself, or a name that it does not have.
    Module,
    Connection,
    Wire(&'a Wire),
    Store(&'a Store),
    Cell(&'a Cell),
    Process(&'a Process),
}

/// What an error's line names.
#[derive(Clone, Copy)]
pub(crate) struct Found<'a> {
    pub(crate) module: &'a Module,
    pub(crate) item: Item<'a>,
}

/// What the fields of an error's line name in the design, where its module is there.
pub(crate) fn find<'a>(design: &'a Design, fields: &[&[u8]]) -> Option<Found<'a>> {
    match fields {
        [] => None,
        [id] => Some(Found {
            module: module_named(design, id)?,
            item: Item::Module,
        }),
        [id, name, ..] => found_in(module_named(design, id)?, name),
    }
}

/// What the name names in the module.
fn found_in<'a>(module: &'a Module, name: &[u8]) -> Option<Found<'a>> {
    let item = if name == b"connect".as_slice() {
        Item::Connection
    } else {
        item_named(module, name)
    };
    Some(Found { module, item })
}

/// The module of this name.
pub(crate) fn module_named<'a>(design: &'a Design, id: &[u8]) -> Option<&'a Module> {
    for module in design.modules.as_slice() {
        if module.id.as_slice() == id {
            return Some(module);
        }
    }
    None
}

/// What has this name in the module: wires, memories, cells and processes share their names.
fn item_named<'a>(module: &'a Module, name: &[u8]) -> Item<'a> {
    for cell in module.cells.as_slice() {
        if cell.name.as_slice() == name {
            return Item::Cell(cell);
        }
    }
    for process in module.processes.as_slice() {
        if process.name.as_slice() == name {
            return Item::Process(process);
        }
    }
    for wire in module.wires.as_slice() {
        if wire.name.as_slice() == name {
            return Item::Wire(wire);
        }
    }
    match store_named(module, name) {
        Some(store) => Item::Store(store),
        None => Item::Module,
    }
}

/// The memory of this name.
pub(crate) fn store_named<'a>(module: &'a Module, name: &[u8]) -> Option<&'a Store> {
    for store in module.memories.as_slice() {
        if store.name.as_slice() == name {
            return Some(store);
        }
    }
    None
}

/// The bit of the wire of this name.
pub(crate) fn bit_named(module: &Module, name: &[u8], at: u32) -> Option<WireBit> {
    let mut wire = 0u32;
    for known in module.wires.as_slice() {
        if known.name.as_slice() == name {
            return Some(WireBit { wire, at });
        }
        wire = wire.saturating_add(1);
    }
    None
}

/// The connection with this number, from 1.
pub(crate) fn link_numbered<'a>(module: &'a Module, number: usize) -> Option<&'a Link> {
    module.links.as_slice().get(number.checked_sub(1)?)
}

/// The place in the source of what was found: its own, else its module's.
pub(crate) fn source_of<'a>(found: Found<'a>) -> Option<&'a [u8]> {
    let own = match found.item {
        Item::Module | Item::Connection => None,
        Item::Wire(wire) => source_in(wire.attributes.as_slice()),
        Item::Store(store) => source_in(store.attributes.as_slice()),
        Item::Cell(cell) => source_in(cell.attributes.as_slice()),
        Item::Process(process) => source_in(process.attributes.as_slice()),
    };
    match own {
        Some(place) => Some(place),
        None => source_in(found.module.attributes.as_slice()),
    }
}

/// The characters of the attribute `\src`.
fn source_in(attributes: &[Attribute]) -> Option<&[u8]> {
    for attribute in attributes {
        if attribute.name.as_slice() == b"\\src".as_slice() {
            return chars_in(&attribute.value);
        }
    }
    None
}

//! Copies of a child's items, each under its new name.

ghost use Rattle.std.specs.Prelude.{◌≡◌, ◌++◌, [], IfOk, OnOk, map, pos};
ghost use Rattle.rtl_ir.specs.Flat.Cell.{cell_kind};
ghost use Rattle.rtl_ir.specs.declared.wire.Role.TheVariants.{Inner};
ghost use Rattle.flat_pass.specs.Copies.{copied_link, copied_params, copied_pin};
ghost use Rattle.flat_pass.specs.Flat.{links_of};
ghost use Rattle.flat_pass.specs.Renames.{copying};

use crate::child::Child;
use crate::copies::{copied_link, copied_params, copied_pins};
use crate::ports::connect_ports;
use crate::renames::Renames;
use rtl_bits::{Copied, Memory, Seq, Text};
use rtl_ir::{Cell, Link, Module, Pin, Role, Store, Wire, cell_kind};
use std::alloc::Global;

/// An equal module, but for the cells: there are none.
pub(crate) fn without_cells(alloc: Global, module: &Module) -> Result<Module, Memory>
    ensures value { IfOk result (λ body. body ≡ record «module».now { cells = [] }) }
{
    Ok(Module {
        id: module.id.copy()?,
        attributes: module.attributes.copy()?,
        parameters: module.parameters.copy()?,
        wires: module.wires.copy()?,
        memories: module.memories.copy()?,
        cells: Seq::make(alloc),
        processes: module.processes.copy()?,
        links: module.links.copy()?,
    })
}

/// A wire under another name, which is no port.
pub(crate) fn inner_copy(name: Text, wire: &Wire) -> Result<Wire, Memory>
    ensures value { IfOk result (λ copy. copy ≡ record wire.now { name = name; role = Inner; number = pos 0 }) }
{
    Ok(Wire {
        name,
        width: wire.width,
        offset: wire.offset,
        upto: wire.upto,
        signed: wire.signed,
        role: Role::Inner,
        number: 0,
        attributes: wire.attributes.copy()?,
    })
}

/// A memory under another name.
pub(crate) fn store_copy(name: Text, store: &Store) -> Result<Store, Memory>
    ensures value { IfOk result (λ copy. copy ≡ record store.now { name = name }) }
{
    Ok(Store {
        name,
        width: store.width,
        size: store.size,
        offset: store.offset,
        attributes: store.attributes.copy()?,
    })
}

/// A cell under another name, on the copied wires, and of the copied memory where it is a cell of one.
pub(crate) fn cell_copy(
    alloc: Global,
    name: Text,
    renames: &Renames,
    cell: &Cell,
) -> Result<Cell, Memory>
    ensures value { IfOk result (λ copy. copy ≡ record cell.now {
      name = name;
      params = copied_params (copying renames.now) (cell_kind cell.now) cell.now.params;
      pins = map (copied_pin renames.now.first) cell.now.pins;
    }) }
{
    Ok(Cell {
        kind_name: cell.kind_name.copy()?,
        name,
        params: copied_params(alloc, renames, cell_kind(cell), &cell.params)?,
        pins: copied_pins(alloc, renames.first, cell.pins.as_slice())?,
        attributes: cell.attributes.copy()?,
    })
}

/// The connections that come with an instance of a child go last: copies of the child's own, and those of its ports.
pub(crate) fn put_links(
    alloc: Global,
    first: u32,
    child: &Child,
    pins: &[Pin],
    links: &mut Seq<Link>,
) -> Result<(), Memory>
    ensures ok { OnOk result (links.new ≡ links.old ++ links_of first child.now.body.now pins.now) }
{
    copy_links(alloc, first, child.body.links.as_slice(), links)?;
    connect_ports(alloc, first, child.ports.as_slice(), pins, links)
}

/// Copies of connections go last.
fn copy_links(alloc: Global, first: u32, own: &[Link], links: &mut Seq<Link>) -> Result<(), Memory>
    ensures ok { OnOk result (links.new ≡ links.old ++ map (copied_link first) own.now) }
{
    for link in own {
        links.push(copied_link(alloc, first, link)?)?;
    }
    Ok(())
}

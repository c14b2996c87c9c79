//! The ports of the modules that a module instantiates.

ghost use Rattle.std.specs.Prelude.{◌≡◌, ◌<◌, IfOk, length, map, filter};
ghost use Rattle.std.specs.BTreeMap.{values};
ghost use Rattle.rtl_ir.specs.ModuleTables.{AreByName};
ghost use Rattle.rtl_ir.specs.Ports.{is_port, is_library_cell, ports_of, in_number_order, instances_of, port_table_of};

use crate::cell::Cell;
use crate::module::{Design, Module};
use crate::ports::{ModulePorts, PortLine, PortTable};
use crate::wire::{Role, Wire};
use cell_types::kind_of;
use rtl_bits::{Copied, Memory, Seq};
use std::alloc::Global;
use std::collections::{BTreeMap, HashMap};

/// The modules of a design by their names. The table is made once and serves all modules of the design.
#[derive(Drop)]
pub struct DesignPorts<'a> {
    modules: &'a [Module],
    by_name: HashMap<&'a [u8], &'a Module>,
    ghost named: { AreByName by_name modules.now },
}

impl<'a> DesignPorts<'a> {
    ghost use Rattle.std.specs.Prelude.{◌≡◌, ◌<◌, IfOk, length, option_map};
    ghost use Rattle.rtl_ir.specs.ModuleTables.{instance_of};
    ghost use Rattle.rtl_ir.specs.Ports.{port_table_of};

    /// The modules of this design. Of two modules of one name the first counts.
    pub fn of(alloc: Global, design: &'a Design) -> Result<DesignPorts<'a>, Memory>
        ensures value { IfOk result (λ ports. ports.modules.now ≡ design.now.modules) }
    {
        let modules = design.modules.as_slice();
        let mut by_name = HashMap::new(alloc);
        for at in (0..modules.len()).rev() {
            let module = &modules[at];
            by_name.insert(module.id.as_slice(), module)?;
        }
        Ok(DesignPorts { modules, by_name })
    }

    /// The ports of the modules of the design that the module at this place instantiates: each once, in order of its
    /// name, with its ports in order of their numbers. Of two ports of one number the one that is declared first comes
    /// first.
    pub fn table_of(&self, alloc: Global, at: u32) -> Result<PortTable, Memory>
        requires in_range { at < length self.now.modules.now }
        ensures value { IfOk result (λ table. table.modules ≡ port_table_of self.now.modules.now at) }
    {
        let cells = self.modules[at as usize].cells.as_slice();
        let mut tables = Vec::new(alloc);
        for instance in instances(alloc, self, cells)?.as_slice() {
            tables.push(ModulePorts {
                id: instance.id.copy()?,
                ports: ports(alloc, instance.wires.as_slice())?,
            })?;
        }
        Ok(PortTable {
            modules: Seq::from_vec(tables),
        })
    }

    /// The module that a cell of this type is an instance of, none of a cell of the library.
    pub fn instance_of(&self, name: &[u8]) -> Option<&'a Module>
        ensures value { option_map (λ m. m.now) result ≡ instance_of self.now.modules.now name.now }
    {
        let module = self.by_name.get(name)?;
        if is_library_cell(name) {
            None
        } else {
            Some(*module)
        }
    }
}

/// The ports of the modules of the design that the module at this place instantiates: each once, in
/// order of its name, with its ports in order of their numbers. Of two ports of one number the one that
/// is declared first comes first; of two modules of one name the first counts. For several modules of a
/// design `DesignPorts` goes over its modules once.
pub fn port_table(alloc: Global, design: &Design, at: u32) -> Result<PortTable, Memory>
    requires in_range { at < length design.now.modules }
    ensures value { IfOk result (λ table. table.modules ≡ port_table_of design.now.modules at) }
{
    DesignPorts::of(alloc, design)?.table_of(alloc, at)
}

/// The ports among the wires, in order of their numbers.
fn ports(alloc: Global, wires: &[Wire]) -> Result<Seq<PortLine>, Memory>
    ensures value { IfOk result (λ ports. ports ≡ ports_of wires.now) }
{
    let mut lines = Vec::new(alloc);
    for wire in port_wires(alloc, wires)?.as_slice() {
        lines.push(PortLine {
            name: wire.name.copy()?,
            role: wire.role,
            width: wire.width,
            number: wire.number,
        })?;
    }
    Ok(Seq::from_vec(lines))
}

/// The wires that are ports, in order of their numbers; those of one number in the order of the list.
pub fn port_wires<'a>(alloc: Global, wires: &'a [Wire]) -> Result<Vec<&'a Wire>, Memory>
    ensures value { IfOk result (λ ports. map (λ w. w.now) ports.items ≡
        in_number_order (filter (λ w. is_port w.role) wires.now)) }
{
    let mut ports = BTreeMap::new(alloc);
    for at in (0..wires.len()).rev() {
        let wire = &wires[at];
        if is_port(wire.role) {
            ports.insert(key_of(wire, at), wire)?;
        }
    }
    values_of(alloc, &ports)
}

/// The values of the map, in order of their keys.
fn values_of<K: Ord, V: Copy>(alloc: Global, table: &BTreeMap<K, V>) -> Result<Vec<V>, Memory>
    ensures value { IfOk result (λ found. found.items ≡ values table.now) }
{
    Ok(table.values().copied().collect(alloc)?)
}

/// What ports are sorted by: the number, and the place in the list.
fn key_of(wire: &Wire, at: usize) -> (i32, usize)
    ensures number { result.0 ≡ wire.now.number }
    ensures at { result.1 ≡ at }
{
    (wire.number, at)
}

/// Whether other modules see a wire of this role.
pub fn is_port(role: Role) -> bool
    ensures value { result ≡ is_port role }
{
    match role {
        Role::Inner => false,
        Role::Input | Role::Output | Role::Inout => true,
    }
}

/// The modules that the cells are instances of, in order of their names.
fn instances<'a>(
    alloc: Global,
    design: &DesignPorts<'a>,
    cells: &[Cell],
) -> Result<Vec<&'a Module>, Memory>
    ensures value { IfOk result (λ found.
        map (λ m. m.now) found.items ≡ instances_of design.now.modules.now cells.now) }
{
    let mut found = BTreeMap::new(alloc);
    for cell in cells {
        if let Some(module) = design.instance_of(cell.kind_name.as_slice()) {
            found.insert(module.id.as_slice(), module)?;
        }
    }
    values_of(alloc, &found)
}

/// Whether a cell of the library has the name.
pub fn is_library_cell(name: &[u8]) -> bool
    ensures value { result ≡ is_library_cell name.now }
{
    kind_of(name).is_some()
}

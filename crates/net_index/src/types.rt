//! What the type of a cell names.

ghost use Rattle.std.specs.Prelude.{IfOk};
ghost use Rattle.rtl_ir.specs.declared.module.Module.{Module};
ghost use Rattle.rtl_ir.specs.Ports.{is_port};
ghost use Rattle.rtl_ir.specs.Types.{Ports, cell_type, design_ports, port_lines, table_ports};
ghost use Rattle.net_index.specs.Types.{AreTypes, IsTable, IsType};

use cell_types::{CellKind, is_unsupported, kind_of};
use rtl_bits::Memory;
use rtl_ir::{Module, PortLine, PortTable, Role, Wire, is_port};
use std::alloc::Global;
use std::collections::HashMap;

/// A port, as far as a pin has to fit it.
#[derive(Clone, Copy)]
pub struct Port {
    pub role: Role,
    pub width: u32,
}

/// The ports of a module by their names.
pub type PortNames<'a> = HashMap<&'a [u8], Port>;

/// What the type of a cell names.
#[derive(Clone, Copy)]
pub enum CellType<'a> {
    /// A cell of the library.
    Library(CellKind),
    /// A module, with its ports.
    Instance(&'a PortNames<'a>),
    /// A cell that is known and not taken.
    Unsupported,
    /// Nothing.
    Unknown,
}

/// The modules that cells may be instances of, by their names.
#[derive(Drop)]
pub struct Types<'a> {
    modules: HashMap<&'a [u8], PortNames<'a>>,
}

impl<'a> Types<'a> {
    /// The modules of a design. Of two of one name the first counts.
    pub fn of_design(alloc: Global, modules: &'a [Module]) -> Result<Types<'a>, Memory>
        ensures value { IfOk result (λ types. AreTypes types (design_ports modules.now)) }
    {
        let mut found = HashMap::new(alloc);
        for at in (0..modules.len()).rev() {
            let module = &modules[at];
            let ports = wire_names(alloc, module.wires.as_slice())?;
            found.insert(module.id.as_slice(), ports)?;
        }
        Ok(Types { modules: found })
    }

    /// The modules of a table. Of two of one name the first counts.
    pub fn of_table(alloc: Global, table: &'a PortTable) -> Result<Types<'a>, Memory>
        ensures value { IfOk result (λ types. AreTypes types (table_ports table.now.modules)) }
    {
        let modules = table.modules.as_slice();
        let mut found = HashMap::new(alloc);
        for at in (0..modules.len()).rev() {
            let module = &modules[at];
            let ports = line_names(alloc, module.ports.as_slice())?;
            found.insert(module.id.as_slice(), ports)?;
        }
        Ok(Types { modules: found })
    }

    /// What the name of a type names. It takes no memory.
    pub fn find(&self, name: &[u8]) -> CellType
        ensures value { (ports : Ports) → AreTypes self.now ports → IsType result (cell_type ports name.now) }
    {
        if let Some(kind) = kind_of(name) {
            CellType::Library(kind)
        } else if let Some(ports) = self.modules.get(name) {
            CellType::Instance(ports)
        } else if is_unsupported(name) {
            CellType::Unsupported
        } else {
            CellType::Unknown
        }
    }
}

/// The listed ports by their names. Of two of one name the first counts.
fn line_names<'a>(alloc: Global, lines: &'a [PortLine]) -> Result<PortNames<'a>, Memory>
    ensures value { IfOk result (λ names. IsTable names lines.now) }
{
    let mut names = HashMap::new(alloc);
    for at in (0..lines.len()).rev() {
        let line = &lines[at];
        let port = Port {
            role: line.role,
            width: line.width,
        };
        names.insert(line.name.as_slice(), port)?;
    }
    Ok(names)
}

/// The ports among the wires by their names. Of two of one name the first counts.
fn wire_names<'a>(alloc: Global, wires: &'a [Wire]) -> Result<PortNames<'a>, Memory>
    ensures value { IfOk result (λ names. IsTable names (port_lines wires.now)) }
{
    let mut names = HashMap::new(alloc);
    for at in (0..wires.len()).rev() {
        let wire = &wires[at];
        if is_port(wire.role) {
            let port = Port {
                role: wire.role,
                width: wire.width,
            };
            names.insert(wire.name.as_slice(), port)?;
        }
    }
    Ok(names)
}

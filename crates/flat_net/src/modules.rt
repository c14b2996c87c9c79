//! The modules of a design by their names.

ghost use Rattle.std.specs.Prelude.{List, IfOk, option_map};
ghost use Rattle.rtl_ir.specs.declared.module.Module.{Module};
ghost use Rattle.rtl_ir.specs.Flat.Tree.{named};
ghost use Rattle.flat_net.specs.Tables.{IsTable, Stands};
ghost use Rattle.flat_net.specs.Titled.{HaveNoProcess, titled_design};

use crate::titled::Titled;
use rtl_bits::Memory;
use rtl_ir::{Module, Wire, port_wires};
use std::alloc::Global;
use std::collections::HashMap;

/// A module, and its ports in order of their numbers.
#[derive(Drop)]
pub(crate) struct Entry<'a> {
    pub(crate) body: &'a Module,
    pub(crate) ports: Vec<&'a Wire>,
}

/// The modules of a design by their names.
#[derive(Drop)]
pub(crate) struct Table<'a> {
    modules: HashMap<&'a [u8], Entry<'a>>,
}

impl<'a> Table<'a> {
    /// The modules by their names. Of two of one name the first counts.
    pub(crate) fn of(alloc: Global, modules: &'a [Module]) -> Result<Table<'a>, Memory>
        ensures value { IfOk result (λ table. IsTable table modules.now) }
    {
        let mut found = HashMap::new(alloc);
        for at in (0..modules.len()).rev() {
            let body = &modules[at];
            let ports = port_wires(alloc, body.wires.as_slice())?;
            found.insert(body.id.as_slice(), Entry { body, ports })?;
        }
        Ok(Table { modules: found })
    }

    /// The modules by the names under which they are lent. Of two of one name the first counts.
    pub(crate) fn of_titled(alloc: Global, modules: &[Titled<'a>]) -> Result<Table<'a>, Memory>
        requires plain { HaveNoProcess modules.now }
        ensures value { IfOk result (λ table. IsTable table (titled_design modules.now).modules) }
    {
        let mut found = HashMap::new(alloc);
        for at in (0..modules.len()).rev() {
            let titled = &modules[at];
            let body = titled.body;
            let ports = port_wires(alloc, body.wires.as_slice())?;
            found.insert(titled.id, Entry { body, ports })?;
        }
        Ok(Table { modules: found })
    }

    /// The module of this name. It takes no memory.
    pub(crate) fn find(&self, id: &[u8]) -> Option<&Entry<'a>>
        ensures value { (modules : List Module) → IsTable self.now modules →
            Stands (option_map (λ e. e.now) result) (named modules id.now) }
    {
        self.modules.get(id)
    }
}

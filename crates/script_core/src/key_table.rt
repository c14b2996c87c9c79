//! The modules of a design, as keys look them up.

ghost use Rattle.std.specs.Prelude.{◌≡◌, IfOk};
ghost use Rattle.std.specs.BTreeMap.{values};

use rtl_bits::Memory;
use rtl_ir::{Design, DesignPorts, Module, PortTable};
use std::alloc::Global;
use std::collections::BTreeMap;

/// The modules of a design, by which the keys of its modules are made. The table is made once and serves all of them.
#[derive(Drop)]
pub struct KeyTable<'a> {
    modules: &'a [Module],
    ports: DesignPorts<'a>,
    ghost ported: { ports.modules.now ≡ modules.now },
}

/// Modules that were found, in order of their names, and those of them whose cells are to be looked at.
#[derive(Drop)]
struct Search<'a> {
    found: BTreeMap<&'a [u8], &'a Module>,
    waiting: Vec<&'a Module>,
}

impl<'a> KeyTable<'a> {
    ghost use Rattle.std.specs.Prelude.{◌≡◌, ◌<◌, IfOk, OnOk, length, map};
    ghost use Rattle.rtl_ir.specs.Ports.{cells_at, port_table_of};
    ghost use Rattle.script_core.specs.Reached.{reached_of};
    ghost use Rattle.script_core.specs.Searching.{AreAsked, AreNamed, Looks, found_modules};

    /// The modules of this design. Of two modules of one name the first counts.
    pub fn of(alloc: Global, design: &'a Design) -> Result<KeyTable<'a>, Memory>
        ensures value { IfOk result (λ table. table.modules.now ≡ design.now.modules) }
    {
        let modules = design.modules.as_slice();
        Ok(KeyTable {
            modules,
            ports: DesignPorts::of(alloc, design)?,
        })
    }

    /// The ports of the modules that the module at this place instantiates.
    pub fn ports_of(&self, alloc: Global, at: u32) -> Result<PortTable, Memory>
        requires in_range { at < length self.now.modules.now }
        ensures value { IfOk result (λ table. table.modules ≡ port_table_of self.now.modules.now at) }
    {
        self.ports.table_of(alloc, at)
    }

    /// The modules that the module at this place reaches through instances, in order of their names.
    pub fn reached(&self, alloc: Global, at: u32) -> Result<Vec<&'a Module>, Memory>
        requires in_range { at < length self.now.modules.now }
        ensures value { IfOk result (λ found.
            map (λ m. m.now) found.items ≡ reached_of self.now.modules.now (cells_at self.now.modules.now at)) }
    {
        let mut search = Search {
            found: BTreeMap::new(alloc),
            waiting: Vec::new(alloc),
        };
        search.waiting.push(&self.modules[at as usize])?;
        while let Some(module) = search.waiting.pop() {
            self.look_at(&mut search, module)?;
        }
        collected(alloc, &search.found)
    }

    /// Finds the modules that a module instantiates.
    fn look_at(&self, search: &mut Search<'a>, module: &Module) -> Result<(), Memory>
        requires named { AreNamed search.old.found.entries }
        requires asked { AreAsked self.now.modules.now (found_modules search.old) }
        ensures looks { OnOk result (Looks self.now.modules.now search.old search.new «module».now.cells) }
    {
        let cells = module.cells.as_slice();
        for cell in cells {
            if let Some(child) = self.ports.instance_of(cell.kind_name.as_slice()) {
                search.find(child)?;
            }
        }
        Ok(())
    }
}

impl<'a> Search<'a> {
    ghost use Rattle.std.specs.Prelude.{OnOk};
    ghost use Rattle.script_core.specs.Searching.{AreNamed, Finds};

    /// Takes down a module that was found. One that is new waits to be looked at.
    fn find(&mut self, module: &'a Module) -> Result<(), Memory>
        requires named { AreNamed self.old.found.entries }
        ensures finds { OnOk result (Finds self.old self.new «module».now) }
    {
        if self.found.insert(module.id.as_slice(), module)?.is_none() {
            self.waiting.push(module)?;
        }
        Ok(())
    }
}

/// The modules that are found, in order of their names.
fn collected<'a>(
    alloc: Global,
    found: &BTreeMap<&'a [u8], &'a Module>,
) -> Result<Vec<&'a Module>, Memory>
    ensures value { IfOk result (λ modules. modules.items ≡ values found.now) }
{
    Ok(found.values().copied().collect(alloc)?)
}

//! The module that is open.

ghost use Rattle.std.specs.Prelude.{◌≡◌, OnOk};
ghost use Rattle.rtl_lex.specs.Items.{as_seen};
ghost use Rattle.rtl_read.specs.Gives.{Sets};
ghost use Rattle.rtl_read.specs.Meaning.Module.{
  fresh_module,
  with_item_name,
  with_wire,
  with_store,
  with_parameter,
  with_cell,
  with_process,
  with_link,
};

use crate::few_names::put_new;
use crate::read_fault::ReadFault;
use crate::signal::find;
use rtl_bits::{Memory, Seq, Text};
use rtl_ir::limits::MAX_BITS;
use rtl_ir::{Attribute, Cell, Link, Module, Parameter, Process, Store, Value, Wire};
use rtl_lex::Item;
use rtl_sig::Names;
use std::alloc::Global;

/// A module's body, and the names that its items have.
#[derive(Drop)]
pub struct OpenModule {
    pub body: Module,
    /// The names of its wires, in their order.
    pub wire_names: Names,
    /// The names of its memories, cells and processes.
    pub other_names: Names,
    /// The bits of its wires.
    pub bits: usize,
}

/// A module of this name with these attributes, in which there is nothing yet.
pub(crate) fn fresh_module(alloc: Global, id: Text, attributes: Seq<Attribute>) -> OpenModule
    ensures { result ≡ fresh_module id attributes }
{
    OpenModule {
        body: Module {
            id,
            attributes,
            parameters: Seq::make(alloc),
            wires: Seq::make(alloc),
            memories: Seq::make(alloc),
            cells: Seq::make(alloc),
            processes: Seq::make(alloc),
            links: Seq::make(alloc),
        },
        wire_names: Names::make(alloc),
        other_names: Names::make(alloc),
        bits: 0,
    }
}

impl OpenModule {
    /// Takes the name of a memory, a cell or a process.
    pub(crate) fn take_name(&mut self, item: &Item<'_>) -> Result<(), ReadFault>
        ensures { Sets result self.new (with_item_name (as_seen item.now) self.old) }
    {
        if find(&self.wire_names, item.text).is_some()
            || !put_new(&mut self.other_names, item.text)?
        {
            return Err(ReadFault::Duplicate(item.place));
        }
        Ok(())
    }

    /// Adds a wire, by its name.
    pub(crate) fn add_wire(
        &mut self,
        alloc: Global,
        item: &Item<'_>,
        wire: Wire,
    ) -> Result<(), ReadFault>
        ensures { Sets result self.new (with_wire (as_seen item.now) wire self.old) }
    {
        if !put_new(&mut self.wire_names, item.text)?
            || find(&self.other_names, item.text).is_some()
        {
            return Err(ReadFault::Duplicate(item.place));
        }
        let width = wire.width as usize;
        if self.bits > MAX_BITS || width > MAX_BITS - self.bits {
            return Err(ReadFault::Limit(item.place));
        }
        let mut wire = wire;
        wire.name = Text::from_slice(alloc, item.text)?;
        self.body.wires.push(wire)?;
        self.bits += width;
        Ok(())
    }

    /// Adds a memory, by its name.
    pub(crate) fn add_store(
        &mut self,
        alloc: Global,
        item: &Item<'_>,
        store: Store,
    ) -> Result<(), ReadFault>
        ensures { Sets result self.new (with_store (as_seen item.now) store self.old) }
    {
        if let Err(fault) = self.take_name(item) {
            return Err(fault);
        }
        let mut store = store;
        store.name = Text::from_slice(alloc, item.text)?;
        self.body.memories.push(store)?;
        Ok(())
    }

    pub(crate) fn add_parameter(&mut self, name: Text, value: Option<Value>) -> Result<(), Memory>
        ensures { OnOk result (self.new ≡ with_parameter name value self.old) }
    {
        self.body.parameters.push(Parameter { name, value })
    }

    pub(crate) fn add_cell(&mut self, cell: Cell) -> Result<(), Memory>
        ensures { OnOk result (self.new ≡ with_cell cell self.old) }
    {
        self.body.cells.push(cell)
    }

    pub(crate) fn add_process(&mut self, process: Process) -> Result<(), Memory>
        ensures { OnOk result (self.new ≡ with_process process self.old) }
    {
        self.body.processes.push(process)
    }

    pub(crate) fn add_link(&mut self, link: Link) -> Result<(), Memory>
        ensures { OnOk result (self.new ≡ with_link link self.old) }
    {
        self.body.links.push(link)
    }
}

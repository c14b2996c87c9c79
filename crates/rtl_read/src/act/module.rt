//! Modules: a name, and statements up to `end`.

ghost use Rattle.std.specs.Prelude.{◌≡◌, Ok, OnOk};
ghost use Rattle.rtl_lex.specs.Items.{as_seen};
ghost use Rattle.rtl_read.specs.Gives.{Sets};
ghost use Rattle.rtl_read.specs.Act.Module.{
  act_module_name,
  close_module,
  open_wire,
  open_store,
  open_cell,
  open_process,
  act_next_item,
  act_body,
  act_parameter_name,
  act_parameter_value,
};

use crate::constant::constant;
use crate::draft::{Draft, PairKind};
use crate::fitted::fitted;
use crate::open_module::fresh_module;
use crate::open_process::plain_process;
use crate::options::{plain_store, plain_wire};
use crate::read_fault::ReadFault;
use crate::signal::find;
use rtl_bits::{Memory, Seq, Text};
use rtl_ir::Module;
use rtl_ir::limits::MAX_CELLS;
use rtl_lex::{Item, Sort};
use std::alloc::Global;
use std::mem;

impl Draft {
    /// The name of a module.
    pub(crate) fn act_module_name(
        &mut self,
        alloc: Global,
        item: &Item<'_>,
    ) -> Result<(), ReadFault>
        ensures { Sets result self.new (act_module_name (as_seen item.now) self.old) }
    {
        if find(&self.names, item.text).is_some() {
            return Err(ReadFault::Duplicate(item.place));
        }
        self.names.intern(item.text)?;
        let id = Text::from_slice(alloc, item.text)?;
        let attributes = self.attributes.take(alloc);
        self.current = fresh_module(alloc, id, attributes);
        Ok(())
    }

    /// The open module is whole.
    fn close_module(&mut self, alloc: Global) -> Result<(), Memory>
        ensures { OnOk result (self.new ≡ close_module self.old) }
    {
        let fresh = fresh_module(alloc, Text::make(alloc), Seq::make(alloc));
        let body = mem::replace(&mut self.current, fresh).body;
        self.modules.push(Module {
            wires: fitted(body.wires),
            cells: fitted(body.cells),
            processes: fitted(body.processes),
            links: fitted(body.links),
            ..body
        })
    }

    /// A wire begins.
    fn open_wire(&mut self, alloc: Global)
        ensures { self.new ≡ open_wire self.old }
    {
        let attributes = self.attributes.take(alloc);
        self.wire = plain_wire(alloc, attributes);
    }

    /// A memory begins.
    fn open_store(&mut self, alloc: Global)
        ensures { self.new ≡ open_store self.old }
    {
        let attributes = self.attributes.take(alloc);
        self.store = plain_store(alloc, attributes);
    }

    /// A cell begins.
    fn open_cell(&mut self, alloc: Global, item: &Item<'_>) -> Result<(), ReadFault>
        ensures { Sets result self.new (open_cell (as_seen item.now) self.old) }
    {
        if self.current.body.cells.as_slice().len() >= MAX_CELLS {
            return Err(ReadFault::Limit(item.place));
        }
        let attributes = self.attributes.take(alloc);
        self.cell.begin(alloc, attributes);
        Ok(())
    }

    /// A process begins.
    fn open_process(&mut self, alloc: Global)
        ensures { self.new ≡ open_process self.old }
    {
        let attributes = self.attributes.take(alloc);
        self.process = plain_process(alloc, attributes);
    }

    /// The item behind its attributes.
    pub(crate) fn act_next_item(&mut self, alloc: Global, item: &Item<'_>) -> Result<(), ReadFault>
        ensures { Sets result self.new (act_next_item item.now.sort (as_seen item.now) self.old) }
    {
        match item.sort {
            Sort::Wire => self.open_wire(alloc),
            Sort::Memory => self.open_store(alloc),
            Sort::Cell => return self.open_cell(alloc, item),
            Sort::Process => self.open_process(alloc),
            _ => {}
        }
        Ok(())
    }

    /// A statement of a module, or its end.
    pub(crate) fn act_body(&mut self, alloc: Global, item: &Item<'_>) -> Result<(), ReadFault>
        ensures { Sets result self.new (act_body item.now.sort (as_seen item.now) self.old) }
    {
        match item.sort {
            Sort::Connect => self.pair = PairKind::Connect,
            Sort::End => self.close_module(alloc)?,
            _ => return self.act_next_item(alloc, item),
        }
        Ok(())
    }

    /// The name of a parameter.
    pub(crate) fn act_parameter_name(
        &mut self,
        alloc: Global,
        item: &Item<'_>,
    ) -> Result<(), ReadFault>
        ensures { Sets result self.new (Ok (act_parameter_name (as_seen item.now) self.old)) }
    {
        self.name = Text::from_slice(alloc, item.text)?;
        Ok(())
    }

    /// Its value, or the end of the line where it has none.
    #[tactic(auto, using(crate::proofs::Faults::fails_on, crate::proofs::Faults::goes_on))]
    pub(crate) fn act_parameter_value(
        &mut self,
        alloc: Global,
        item: &Item<'_>,
    ) -> Result<(), ReadFault>
        ensures { Sets result self.new (act_parameter_value item.now.sort (as_seen item.now) self.old) }
    {
        if item.sort == Sort::Line {
            let name = mem::replace(&mut self.name, Text::make(alloc));
            self.current.add_parameter(name, None)?;
            return Ok(());
        }
        match constant(alloc, item) {
            Ok(value) => {
                let name = mem::replace(&mut self.name, Text::make(alloc));
                self.current.add_parameter(name, Some(value))?;
                Ok(())
            }
            Err(fault) => Err(fault),
        }
    }
}

//! The cell that is open.

ghost use Rattle.std.specs.Prelude.{◌≡◌, [], IfOk, OnOk};
ghost use Rattle.rtl_lex.specs.Items.{as_seen};
ghost use Rattle.rtl_read.specs.Gives.{Sets};
ghost use Rattle.rtl_read.specs.Meaning.Cell.{
  plain_cell,
  with_kind,
  with_cell_name,
  with_param_name,
  with_pin_name,
  with_param,
  with_pin,
};

use crate::few_names::FewNames;
use crate::fitted::{clear, take_items};
use crate::read_fault::ReadFault;
use rtl_bits::{Memory, Seq, Text};
use rtl_ir::{Attribute, Cell, CellParam, Pin, Value};
use rtl_lex::Item;
use rtl_sig::SigSpec;
use std::alloc::Global;
use std::mem;

/// A cell, and the names of its parameters and pins.
#[derive(Drop)]
pub struct OpenCell {
    pub cell: Cell,
    pub params: FewNames,
    pub pins: FewNames,
    /// The name of the parameter or pin that is open.
    pub name: Text,
    /// Whether `signed` stands before it.
    pub signed: bool,
}

/// A cell without a name, in which there is nothing.
fn no_cell(alloc: Global) -> Cell
    ensures { result ≡ (plain_cell []).cell }
{
    Cell {
        kind_name: Text::make(alloc),
        name: Text::make(alloc),
        params: Seq::make(alloc),
        pins: Seq::make(alloc),
        attributes: Seq::make(alloc),
    }
}

/// No cell yet.
pub(crate) fn no_open_cell(alloc: Global) -> OpenCell
    ensures { result ≡ plain_cell [] }
{
    OpenCell {
        cell: no_cell(alloc),
        params: FewNames::make(alloc),
        pins: FewNames::make(alloc),
        name: Text::make(alloc),
        signed: false,
    }
}

impl OpenCell {
    /// A cell with these attributes begins, in which there is nothing yet.
    pub(crate) fn begin(&mut self, alloc: Global, attributes: Seq<Attribute>)
        ensures { self.new ≡ plain_cell attributes }
    {
        self.clear_names(alloc);
        self.cell.kind_name = Text::make(alloc);
        self.cell.name = Text::make(alloc);
        clear(alloc, &mut self.cell.params);
        clear(alloc, &mut self.cell.pins);
        self.cell.attributes = attributes;
    }

    /// No name of a parameter or pin is known or open.
    fn clear_names(&mut self, alloc: Global)
        ensures { self.new ≡ record (plain_cell []) { cell = self.old.cell } }
    {
        self.params.clear(alloc);
        self.pins.clear(alloc);
        self.name = Text::make(alloc);
        self.signed = false;
    }

    /// The cell, which is whole. What is open has nothing in it after that, but for the room of its lists.
    pub(crate) fn take(&mut self, alloc: Global) -> Result<Cell, Memory>
        ensures cell { IfOk result (λ cell. cell ≡ self.old.cell) }
        ensures none { OnOk result (self.new ≡ plain_cell []) }
    {
        self.clear_names(alloc);
        let params = take_items(alloc, &mut self.cell.params)?;
        let pins = take_items(alloc, &mut self.cell.pins)?;
        Ok(Cell {
            kind_name: mem::replace(&mut self.cell.kind_name, Text::make(alloc)),
            name: mem::replace(&mut self.cell.name, Text::make(alloc)),
            params,
            pins,
            attributes: mem::replace(&mut self.cell.attributes, Seq::make(alloc)),
        })
    }

    /// Its type.
    pub(crate) fn set_kind(&mut self, alloc: Global, item: &Item<'_>) -> Result<(), Memory>
        ensures { OnOk result (self.new ≡ with_kind (as_seen item.now) self.old) }
    {
        self.cell.kind_name = Text::from_slice(alloc, item.text)?;
        Ok(())
    }

    /// Its name.
    pub(crate) fn set_name(&mut self, alloc: Global, item: &Item<'_>) -> Result<(), Memory>
        ensures { OnOk result (self.new ≡ with_cell_name (as_seen item.now) self.old) }
    {
        self.cell.name = Text::from_slice(alloc, item.text)?;
        Ok(())
    }

    /// The name of a parameter.
    pub(crate) fn param_name(&mut self, alloc: Global, item: &Item<'_>) -> Result<(), ReadFault>
        ensures { Sets result self.new (with_param_name (as_seen item.now) self.old) }
    {
        self.name = Text::from_slice(alloc, item.text)?;
        if !self.params.put_new(&self.name)? {
            return Err(ReadFault::Duplicate(item.place));
        }
        Ok(())
    }

    /// The name of a pin.
    pub(crate) fn pin_name(&mut self, alloc: Global, item: &Item<'_>) -> Result<(), ReadFault>
        ensures { Sets result self.new (with_pin_name (as_seen item.now) self.old) }
    {
        self.name = Text::from_slice(alloc, item.text)?;
        if !self.pins.put_new(&self.name)? {
            return Err(ReadFault::Duplicate(item.place));
        }
        Ok(())
    }

    /// The value of the parameter whose name stands last.
    pub(crate) fn add_param(&mut self, alloc: Global, value: Value) -> Result<(), Memory>
        ensures { OnOk result (self.new ≡ with_param value self.old) }
    {
        let name = mem::replace(&mut self.name, Text::make(alloc));
        let signed = mem::replace(&mut self.signed, false);
        self.cell.params.push(CellParam {
            name,
            value,
            signed,
        })
    }

    /// The signal of the pin whose name stands last.
    pub(crate) fn add_pin(&mut self, alloc: Global, sig: SigSpec) -> Result<(), Memory>
        ensures { OnOk result (self.new ≡ with_pin sig self.old) }
    {
        let name = mem::replace(&mut self.name, Text::make(alloc));
        self.cell.pins.push(Pin { name, sig })
    }
}

//! Cells.

use crate::value::{Attribute, Value};
use rtl_bits::{Copied, Memory, Seq, Text};
use rtl_sig::SigSpec;

/// A parameter of a cell.
#[derive(Drop)]
pub struct CellParam {
    pub name: Text,
    pub value: Value,
    /// Whether `signed` stands behind the word `parameter`. It is kept and means nothing.
    pub signed: bool,
}

/// A port of a cell, and the signal that it is connected to.
#[derive(Drop)]
pub struct Pin {
    pub name: Text,
    pub sig: SigSpec,
}

/// An element of the netlist: a cell of the library, or an instance of a module.
#[derive(Drop)]
pub struct Cell {
    /// The name of its type.
    pub kind_name: Text,
    pub name: Text,
    pub params: Seq<CellParam>,
    pub pins: Seq<Pin>,
    pub attributes: Seq<Attribute>,
}

impl Copied for CellParam {
    fn copy(&self) -> Result<CellParam, Memory> {
        Ok(CellParam {
            name: self.name.copy()?,
            value: self.value.copy()?,
            signed: self.signed,
        })
    }
}

impl Copied for Pin {
    fn copy(&self) -> Result<Pin, Memory> {
        Ok(Pin {
            name: self.name.copy()?,
            sig: self.sig.copy()?,
        })
    }
}

impl Copied for Cell {
    fn copy(&self) -> Result<Cell, Memory> {
        Ok(Cell {
            kind_name: self.kind_name.copy()?,
            name: self.name.copy()?,
            params: self.params.copy()?,
            pins: self.pins.copy()?,
            attributes: self.attributes.copy()?,
        })
    }
}

//! The ports of the modules that a body instantiates.

use crate::wire::Role;
use rtl_bits::{Copied, Memory, Seq, Text};

/// A port, as other modules see it.
#[derive(Drop)]
pub struct PortLine {
    pub name: Text,
    pub role: Role,
    pub width: u32,
    pub number: i32,
}

/// A module that is instantiated, and its ports in order of number.
#[derive(Drop)]
pub struct ModulePorts {
    pub id: Text,
    pub ports: Seq<PortLine>,
}

/// The modules that a body instantiates, each once, in order of name.
#[derive(Drop)]
pub struct PortTable {
    pub modules: Seq<ModulePorts>,
}

impl Copied for PortLine {
    fn copy(&self) -> Result<PortLine, Memory> {
        Ok(PortLine {
            name: self.name.copy()?,
            role: self.role,
            width: self.width,
            number: self.number,
        })
    }
}

impl Copied for ModulePorts {
    fn copy(&self) -> Result<ModulePorts, Memory> {
        Ok(ModulePorts {
            id: self.id.copy()?,
            ports: self.ports.copy()?,
        })
    }
}

impl Copied for PortTable {
    fn copy(&self) -> Result<PortTable, Memory> {
        Ok(PortTable {
            modules: self.modules.copy()?,
        })
    }
}

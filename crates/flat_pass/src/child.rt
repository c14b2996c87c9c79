//! A module that instances may be of.

ghost use Rattle.flat_pass.specs.Ports.{ArePorts};

use crate::ports::Port;
use rtl_ir::Module;

/// A module, and its ports in order of number.
#[derive(Drop)]
pub(crate) struct Child<'a> {
    pub(crate) body: &'a Module,
    pub(crate) ports: Vec<Port<'a>>,
    ghost lined: { ArePorts ports.items body.now.wires },
}

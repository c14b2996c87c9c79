//! The modules that instances may be of.

ghost use Rattle.std.specs.Prelude.{◌≡◌, IfOk, List, option_map};
ghost use Rattle.rtl_ir.specs.declared.module.Module.{Module};
ghost use Rattle.rtl_ir.specs.Flat.Tree.{named};
ghost use Rattle.flat_pass.specs.Children.{AreChildren};

use crate::child::Child;
use crate::ports::ports;
use rtl_bits::Memory;
use rtl_ir::Module;
use std::alloc::Global;
use std::collections::HashMap;

/// The modules by their names.
#[derive(Drop)]
pub(crate) struct Children<'a> {
    by_name: HashMap<&'a [u8], Child<'a>>,
}

impl<'a> Children<'a> {
    /// The modules of a list. Of two of one name the first counts.
    pub(crate) fn of(alloc: Global, modules: &'a [Module]) -> Result<Children<'a>, Memory>
        ensures value { IfOk result (λ children. AreChildren children modules.now) }
    {
        let mut by_name = HashMap::new(alloc);
        for at in (0..modules.len()).rev() {
            let body = &modules[at];
            let ports = ports(alloc, body.wires.as_slice())?;
            let child = Child { body, ports };
            by_name.insert(body.id.as_slice(), child)?;
        }
        Ok(Children { by_name })
    }

    /// The module of this name. It takes no memory.
    pub(crate) fn find(&self, id: &[u8]) -> Option<&Child<'a>>
        ensures value { (modules : List Module) → AreChildren self.now modules →
            option_map (λ c. c.now.body.now) result ≡ named modules id.now }
    {
        self.by_name.get(id)
    }
}

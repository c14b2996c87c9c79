//! A design without faults.

ghost use Rattle.std.specs.Prelude.{◌≡◌, []};
ghost use Rattle.rtl_ir.specs.Faults.{check_faults};

use rtl_bits::Seq;
use rtl_ir::Design;
use std::alloc::Global;

/// A design that has no fault.
#[derive(Drop)]
pub struct Checked {
    design: Design,
    ghost faultless: { check_faults design.modules ≡ [] },
}

impl Checked {
    /// Takes a design that has no fault.
    pub(crate) fn make(design: Design) -> Checked
        requires faultless { check_faults design.modules ≡ [] }
        ensures value { result.design ≡ design }
    {
        Checked { design }
    }

    /// The design without modules. It takes no memory.
    pub fn empty(alloc: Global) -> Checked
        ensures value { result.design.modules ≡ [] }
    {
        Checked::make(Design {
            modules: Seq::make(alloc),
        })
    }

    /// The design.
    pub fn design(&self) -> &Design
        ensures value { result.now ≡ self.now.design }
        ensures faultless { check_faults result.now.modules ≡ [] }
    {
        &self.design
    }

    /// The design, given away.
    pub fn into_design(self) -> Design
        ensures value { result ≡ self.design }
        ensures faultless { check_faults result.modules ≡ [] }
    {
        self.design
    }
}

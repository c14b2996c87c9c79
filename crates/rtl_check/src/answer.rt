//! Whether a design has a fault.

ghost use Rattle.std.specs.Prelude.{◌≡◌, [], IfErr, IfOk};
ghost use Rattle.rtl_ir.specs.Faults.{check_faults};
ghost use Rattle.rtl_check.specs.Finds.{IsFirst};

use crate::checked::Checked;
use crate::design::check_design;
use crate::fault::CheckFault;
use rtl_ir::Design;
use std::alloc::Global;

/// A design as it came, and its first fault.
#[derive(Drop)]
pub struct Refused {
    pub design: Design,
    pub fault: CheckFault,
}

/// Takes a design that has no fault, and hands any other back with its first fault.
pub fn check(alloc: Global, design: Design) -> Result<Checked, Refused>
    ensures accepted { IfOk result (λ checked. checked.design ≡ design) }
    ensures faultless { IfOk result (λ checked. check_faults design.modules ≡ []) }
    ensures handed_back { IfErr result (λ refused. refused.design ≡ design) }
    ensures first { IfErr result (λ refused. IsFirst refused.fault (check_faults design.modules)) }
{
    match check_design(alloc, design.modules.as_slice()) {
        Ok(()) => Ok(Checked::make(design)),
        Err(fault) => Err(Refused { design, fault }),
    }
}

//! The faults of a design.

ghost use Rattle.std.specs.Prelude.{flat_map};
ghost use Rattle.rtl_ir.specs.Faults.{check_faults, module_faults};
ghost use Rattle.rtl_ir.specs.Scope.{everything};
ghost use Rattle.rtl_ir.specs.Types.{design_ports};
ghost use Rattle.rtl_check.specs.Due.{due_faults, faults_of_due};
ghost use Rattle.rtl_check.specs.Finds.{Finds};

use crate::due::Due;
use crate::fault::CheckFault;
use crate::module::check_module;
use crate::recursion::check_recursion;
use net_index::Types;
use rtl_ir::Module;
use std::alloc::Global;

/// The first fault of a design of these modules.
pub(crate) fn check_design(alloc: Global, modules: &[Module]) -> Result<(), CheckFault>
    ensures first { Finds result (check_faults modules.now) }
{
    check_modules(alloc, modules)?;
    check_recursion(alloc, modules)
}

/// The first fault in one of the modules.
fn check_modules(alloc: Global, modules: &[Module]) -> Result<(), CheckFault>
    ensures first { Finds result (flat_map (module_faults everything (design_ports modules.now)) modules.now) }
{
    let types = Types::of_design(alloc, modules)?;
    for body in modules {
        check_module(alloc, &types, body)?;
    }
    Ok(())
}

/// The first fault of the modules that are due, and then of recursion. Of an edited design that had none before this is
/// the first fault.
pub(crate) fn check_again(alloc: Global, modules: &[Module], due: &Due) -> Result<(), CheckFault>
    ensures first { Finds result (due_faults due.now modules.now) }
{
    check_due(alloc, modules, due)?;
    check_recursion(alloc, modules)
}

/// The first fault in one of the modules that are due.
fn check_due(alloc: Global, modules: &[Module], due: &Due) -> Result<(), CheckFault>
    ensures first { Finds result (faults_of_due due.now modules.now) }
{
    let types = Types::of_design(alloc, modules)?;
    for body in modules {
        if due.has(body) {
            check_module(alloc, &types, body)?;
        }
    }
    Ok(())
}

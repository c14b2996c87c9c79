//! The faults of a module.

ghost use Rattle.net_index.specs.Types.{AreTypes};
ghost use Rattle.rtl_ir.specs.Faults.{module_faults};
ghost use Rattle.rtl_ir.specs.Scope.{everything};
ghost use Rattle.rtl_ir.specs.Types as rtl;
ghost use Rattle.rtl_check.specs.Finds.{Finds};

use crate::bits::check_bits;
use crate::cells::check_cells;
use crate::fault::CheckFault;
use crate::links::check_links;
use crate::processes::check_processes;
use crate::stores::check_stores;
use crate::wires::check_wires;
use memory_check::Memories;
use net_index::Types;
use rtl_ir::Module;
use std::alloc::Global;

/// The first fault of a module.
pub(crate) fn check_module(alloc: Global, types: &Types, body: &Module) -> Result<(), CheckFault>
    ensures first { (ports : rtl.Ports) → AreTypes types.now ports →
        Finds result (module_faults everything ports body.now) }
{
    check_wires(alloc, &body.id, body.wires.as_slice())?;
    check_stores(&body.id, body.memories.as_slice())?;
    let mut memories = Memories::of(alloc, body)?;
    check_cells(alloc, types, &mut memories, body)?;
    check_processes(alloc, types, &mut memories, body)?;
    check_links(&body.id, body.links.as_slice())?;
    check_bits(alloc, types, body)
}

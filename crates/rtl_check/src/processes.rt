//! The faults of processes.

ghost use Rattle.std.specs.Prelude.{◌++◌, List, [], OnOk, flat_map};
ghost use Rattle.rtl_ir.specs.declared.process.Process.{Process};
ghost use Rattle.rtl_ir.specs.Faults.Processes.{faults_of_process, process_faults};
ghost use Rattle.rtl_ir.specs.Scope.{everything};
ghost use Rattle.rtl_ir.specs.Types.{Ports};
ghost use Rattle.rtl_ir.specs.WritePorts.{EventLine, write_lines};
ghost use Rattle.net_index.specs.Types.{AreTypes};
ghost use Rattle.process_trees.specs.Fitting.{DoCellsFit};
ghost use Rattle.memory_check.specs.Memories.{KnowsCells, KnowsLines};
ghost use Rattle.process_check.specs.Values.{WereAsked};
ghost use Rattle.rtl_check.specs.Finds.{Finds};

use crate::fault::CheckFault;
use crate::wires::spot;
use memory_check::Memories;
use net_index::Types;
use process_check::{gives_to_constant, has_uneven, is_bad_process, is_too_wide};
use process_trees::EventTests;
use rtl_ir::{Module, Process};
use std::alloc::Global;

/// The first fault of the processes of a module, over the types of its design. Its cells have no faults, and are noted.
pub(crate) fn check_processes<'a>(
    alloc: Global,
    types: &Types,
    memories: &mut Memories<'a>,
    body: &'a Module,
) -> Result<(), CheckFault>
    ensures first { (ports : Ports) → AreTypes types.now ports → DoCellsFit ports body.now →
        KnowsCells memories.old body.now body.now.cells →
        Finds result (process_faults everything ports body.now [] body.now.processes) }
{
    let mut tests = None;
    for process in body.processes.as_slice() {
        check_process(alloc, types, &mut tests, memories, body, process)?;
    }
    Ok(())
}

/// The first fault of a process. The tables of tests of event bits are made where they are first asked for.
/// Its lines that write memories are noted.
fn check_process<'a>(
    alloc: Global,
    types: &Types,
    tests: &mut Option<EventTests>,
    memories: &mut Memories<'a>,
    body: &Module,
    process: &'a Process,
) -> Result<(), CheckFault>
    ensures asked { OnOk result ((ports : Ports) → AreTypes types.now ports → WereAsked tests.old ports body.now →
        WereAsked tests.new ports body.now) }
    ensures noted { OnOk result ((before : List EventLine) → KnowsLines memories.old body.now before →
        KnowsLines memories.new body.now (before ++ write_lines process.now)) }
    ensures first { (ports : Ports) → AreTypes types.now ports → WereAsked tests.old ports body.now →
        DoCellsFit ports body.now →
        (earlier : List Process) → KnowsLines memories.old body.now (flat_map write_lines earlier) →
        Finds result (faults_of_process everything ports body.now earlier process.now) }
{
    let id = &body.id;
    if is_too_wide(process) {
        return Err(CheckFault::TooWide(spot(id, &process.name)?));
    }
    if has_uneven(process) {
        return Err(CheckFault::Width(spot(id, &process.name)?));
    }
    if gives_to_constant(process) {
        return Err(CheckFault::BadPort(spot(id, &process.name)?));
    }
    if is_bad_process(alloc, types, tests, body, process)? {
        return Err(CheckFault::BadProcess(spot(id, &process.name)?));
    }
    if memories.has_bad_line(alloc, process)? {
        return Err(CheckFault::BadMemory(spot(id, &process.name)?));
    }
    Ok(())
}

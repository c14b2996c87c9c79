//! Processes, one after another.

ghost use Rattle.std.specs.Prelude.{◌≡◌, Err, IfOk, OnOk, map};
ghost use Rattle.rtl_sig.specs.declared.sig.SigBit.TheVariants.{Wire as OnWire};
ghost use Rattle.net_index.specs.Builder.{IsInLimits, PassesLimit};
ghost use Rattle.net_model.specs.Proc.Mux.{process_step, processes_step};
ghost use Rattle.match_cells.specs.Numbers.{HasSwitches};
ghost use Rattle.match_cells.specs.Trees.{seen};
ghost use Rattle.proc_mux.specs.Rows.{AreRows};
ghost use Rattle.proc_mux.specs.Trees.{run_step, switches_value};

use crate::given::{Given, given_of, unknowns};
use crate::rows::{Rows, rows_of};
use crate::runs::tree_runs;
use crate::walk::{Walk, start_of, switches_value};
use match_cells::{Trees, nodes_behind};
use net_index::{Builder, PassFault};
use rtl_bits::Memory;
use rtl_ir::{Case, Process};
use rtl_sig::{SigBit, SigSpec, WireBit};
use std::alloc::Global;

/// The processes become multiplexers, one after another. After an error the builder is given up.
pub(crate) fn processes_step(
    alloc: Global,
    builder: Builder,
    processes: &[Process],
) -> Result<Builder, PassFault>
    ensures exact { IfOk result (λ after. after ≡ processes_step builder processes.now) }
    ensures over { result ≡ Err PassFault.Over → PassesLimit (processes_step builder processes.now) }
    ensures within { IsInLimits builder → IfOk result IsInLimits }
{
    let mut builder = builder;
    for process in processes {
        builder = process_step(alloc, builder, process)?;
    }
    Ok(builder)
}

/// The process becomes multiplexers. After an error the builder is given up.
fn process_step(alloc: Global, builder: Builder, process: &Process) -> Result<Builder, PassFault>
    ensures exact { IfOk result (λ after. after ≡ process_step builder process.now) }
    ensures over { result ≡ Err PassFault.Over → PassesLimit (process_step builder process.now) }
    ensures within { IsInLimits builder → IfOk result IsInLimits }
{
    let root = &process.root;
    let table = nodes_behind(alloc, root)?;
    let runs = tree_runs(alloc, root)?;
    let rows = rows_of(alloc, root)?;
    let mut trees = Trees::of(alloc, builder, table.len())?;
    for run in runs.as_slice() {
        run_step(&mut trees, table.as_slice(), &rows, root, run.as_slice())?;
    }
    Ok(trees.builder)
}

/// The run is connected to what the tree makes of x.
fn run_step(
    trees: &mut Trees,
    table: &[usize],
    rows: &Rows,
    root: &Case,
    run: &[WireBit],
) -> Result<(), PassFault>
    requires table { HasSwitches table.now 1 root.now.switches }
    requires rows { AreRows rows.now root.now }
    ensures exact { OnOk result (seen trees.new ≡ run_step root.now run.now (seen trees.old)) }
    ensures over { result ≡ Err PassFault.Over → PassesLimit (run_step root.now run.now (seen trees.old)).building }
    ensures within { IsInLimits trees.old.builder → OnOk result (IsInLimits trees.new.builder) }
{
    let given = given_of(trees.alloc, rows, run)?;
    let prior = unknowns(trees.alloc, run)?;
    let start = start_of(trees.alloc, given.as_slice(), 0, prior.as_slice())?;
    let value = tree_value(trees, table, given.as_slice(), root, start)?;
    let signal = signal_of(trees.alloc, run)?;
    trees.builder.connect(&signal, &value)?;
    Ok(())
}

/// The switches of the tree act on the value of a run.
fn tree_value(
    trees: &mut Trees,
    table: &[usize],
    given: &[Given],
    root: &Case,
    start: SigSpec,
) -> Result<SigSpec, PassFault>
    requires table { HasSwitches table.now 1 root.now.switches }
    ensures exact { IfOk result (λ value. (value, seen trees.new) ≡
        switches_value given.now 1 root.now.switches start (seen trees.old)) }
    ensures over { result ≡ Err PassFault.Over →
        PassesLimit (switches_value given.now 1 root.now.switches start (seen trees.old)).1.building }
    ensures within { IsInLimits trees.old.builder → OnOk result (IsInLimits trees.new.builder) }
{
    let by = Walk { table, given };
    switches_value(trees, &by, 1, root.switches.as_slice(), start)
}

/// The signal of the run.
fn signal_of(alloc: Global, run: &[WireBit]) -> Result<SigSpec, Memory>
    ensures value { IfOk result (λ signal. signal ≡ map OnWire run.now) }
{
    let mut signal = SigSpec::make(alloc);
    for bit in run {
        signal.push(SigBit::Wire(*bit))?;
    }
    Ok(signal)
}

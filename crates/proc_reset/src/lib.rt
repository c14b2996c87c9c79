//! A step of `proc`: of two edges the reset's becomes a level.
#![tactic(auto)]

mod free;
mod places;
mod process;
mod process_signals;
mod rule;
mod sets;
mod signals;

ghost use Rattle.std.specs.Prelude.{◌≡◌, IfOk};
ghost use Rattle.rtl_ir.specs.Scope.{with_processes};
ghost use Rattle.rtl_ir.specs.Types.{table_ports};
ghost use Rattle.process_trees.specs.Fitting.{DoCellsFit};
ghost use Rattle.net_model.specs.Proc.Reset.{proc_reset_of};
ghost use Rattle.pass_laws.specs.Pass.{KeepsInterface};
ghost use Rattle.proc_laws.specs.Ready.{AreRuled, HasItsBits, HaveNoStarts, IsReady};
ghost use Rattle.reset_laws.specs.Trees.{TreesHaveBits};
ghost use Rattle.proc_reset.specs.Promise.{Levels};

use crate::process::{Outer, reset_processes};
use crate::sets::set_of_signal;
use crate::signals::fixed_signals;
use net_index::Types;
use process_trees::EventTests;
use rtl_bits::{Copied, Memory, Seq};
use rtl_ir::{Module, PortTable, Process};
use std::alloc::Global;

/// The module in which of each process with two edges the one that is tested is a level: the reset sets the bits to
/// which it gives one constant, and where no other bit needs its tests these go. In the Yosys manual, the command
/// `proc_arst`.
pub fn apply(alloc: Global, module: &Module, ports: &PortTable) -> Result<Module, Memory>
    requires ready { IsReady with_processes (table_ports ports.now.modules) «module».now }
    requires ruled { AreRuled «module».now }
    ensures exact { IfOk result (λ after. after ≡ proc_reset_of (table_ports ports.now.modules) «module».now) }
    ensures kept { IfOk result (KeepsInterface «module».now) }
    ensures levels { HaveNoStarts «module».now → HasItsBits «module».now → TreesHaveBits «module».now →
        IfOk result (Levels ports.now «module».now) }
{
    reset_of(alloc, module, ports)
}

/// The module after the step.
fn reset_of(alloc: Global, module: &Module, ports: &PortTable) -> Result<Module, Memory>
    requires fit { DoCellsFit (table_ports ports.now.modules) «module».now }
    ensures exact { IfOk result (λ after. after ≡ proc_reset_of (table_ports ports.now.modules) «module».now) }
{
    apply_owned(alloc, module.copy()?, ports)
}

/// As `apply`, of a module that is given away: nothing of it is copied but what stays of its processes.
pub fn apply_owned(alloc: Global, module: Module, ports: &PortTable) -> Result<Module, Memory>
    requires fit { DoCellsFit (table_ports ports.now.modules) «module» }
    ensures exact { IfOk result (λ after. after ≡ proc_reset_of (table_ports ports.now.modules) «module») }
{
    let processes = processes_of(alloc, &module, ports)?;
    Ok(Module {
        processes: Seq::from_vec(processes),
        ..module
    })
}

/// Its processes after the step.
fn processes_of(alloc: Global, module: &Module, ports: &PortTable) -> Result<Vec<Process>, Memory>
    requires fit { DoCellsFit (table_ports ports.now.modules) «module».now }
    ensures exact { IfOk result (λ processes.
        processes.items ≡ (proc_reset_of (table_ports ports.now.modules) «module».now).processes) }
{
    let types = Types::of_table(alloc, ports)?;
    let tests = EventTests::of(alloc, module, &types)?;
    let signals = fixed_signals(alloc, module, &types)?;
    let reads = set_of_signal(alloc, signals.as_slice())?;
    let outer = Outer {
        module,
        tests: &tests,
        reads: &reads,
    };
    reset_processes(alloc, &outer, module.processes.as_slice())
}

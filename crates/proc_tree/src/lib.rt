//! The first two steps of `proc`: switches by their rules, and start values.
#![tactic(auto)]

mod leaves;
mod processes;
mod starts;
mod wires;

ghost use Rattle.std.specs.Prelude.{◌≡◌, IfOk};
ghost use Rattle.rtl_ir.specs.Scope.{with_processes};
ghost use Rattle.rtl_ir.specs.Types.{table_ports};
ghost use Rattle.net_model.specs.Proc.Start.{proc_tree_of};
ghost use Rattle.proc_laws.specs.Ready.{AreRuled, HasItsBits, HaveNoLines, HaveNoStarts, IsReady};
ghost use Rattle.proc_laws.specs.Step.{IsStep, StaysReady};

use crate::processes::ruled_processes;
use crate::starts::Starts;
use crate::wires::begun_wires;
use rtl_bits::{Copied, Memory, Seq};
use rtl_ir::{Module, PortTable};
use std::alloc::Global;

/// The module whose processes have their switches by the rules, and give no start values: those stand in the attributes
/// `\init` of the wires. In the Yosys manual, the commands `proc_rmdead` and `proc_init`.
pub fn apply(alloc: Global, module: &Module, ports: &PortTable) -> Result<Module, Memory>
    requires ready { IsReady with_processes (table_ports ports.now.modules) «module».now }
    requires placed { HasItsBits «module».now }
    ensures exact { IfOk result (λ after. after ≡ proc_tree_of «module».now) }
    ensures step { IfOk result (IsStep ports.now «module».now) }
    ensures ready { IfOk result (StaysReady ports.now «module».now) }
    ensures placed { IfOk result HasItsBits }
    ensures ruled { IfOk result AreRuled }
    ensures no_starts { IfOk result HaveNoStarts }
    ensures no_lines { HaveNoLines «module».now → IfOk result HaveNoLines }
{
    tree_of(alloc, module)
}

/// The module after the two steps.
fn tree_of(alloc: Global, module: &Module) -> Result<Module, Memory>
    ensures exact { IfOk result (λ after. after ≡ proc_tree_of «module».now) }
{
    apply_owned(alloc, module.copy()?)
}

/// As `apply`, of a module that is given away: its cells, memories and connections are moved.
pub fn apply_owned(alloc: Global, module: Module) -> Result<Module, Memory>
    ensures exact { IfOk result (λ after. after ≡ proc_tree_of «module») }
{
    let mut starts = Starts::of(alloc, module.wires.as_slice())?;
    let processes = ruled_processes(alloc, module.processes.as_slice(), &mut starts)?;
    let wires = begun_wires(alloc, module.wires.as_slice(), &starts)?;
    Ok(Module {
        wires: Seq::from_vec(wires),
        processes: Seq::from_vec(processes),
        ..module
    })
}

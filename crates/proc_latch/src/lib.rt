//! A step of `proc`: bits that are always updated become latches, or connections where they never hold.
#![tactic(auto)]

mod bits;
mod chains;
mod given;
mod latch;
mod process;
mod reading;
mod side;
mod sources;
mod walk;

ghost use Rattle.std.specs.Prelude.{◌≡◌, Err, IfOk, OnOk};
ghost use Rattle.rtl_ir.specs.Scope.{with_processes};
ghost use Rattle.rtl_ir.specs.Types.{table_ports};
ghost use Rattle.net_index.specs.Builder.{IsInLimits};
ghost use Rattle.net_model.specs.Proc.Latch.{proc_latch_of};
ghost use Rattle.pass_laws.specs.Pass.{KeepsInterface};
ghost use Rattle.proc_laws.specs.Ready.{AreRuled, HaveNoStarts, IsReady};
ghost use Rattle.proc_laws.specs.Step.{IsStep, StaysReady};
ghost use Rattle.proc_laws.specs.Kinds.{HaveNoAlways, HaveNoTwoEdges, HaveNoWrites};
ghost use Rattle.proc_latch.specs.Limits.{LatchPassesLimit, latched};

use crate::process::{latches_step, without_always};
use net_index::{Builder, PassFault, check_limits};
use rtl_bits::{Copied, Seq};
use rtl_ir::{Module, PortTable};
use std::alloc::Global;

/// The module in which the bits that processes always update are latches, or connections where they never hold.
/// `Over` comes where the module would pass a limit on cells, on bits of wires or on fresh names. In the Yosys manual,
/// the command `proc_dlatch`. It may be given on as long as no process had two rules at edges.
pub fn apply(alloc: Global, module: &Module, ports: &PortTable) -> Result<Module, PassFault>
    requires ready { IsReady with_processes (table_ports ports.now.modules) «module».now }
    requires ruled { AreRuled «module».now }
    ensures exact { IfOk result (λ after. after ≡ proc_latch_of «module».now) }
    ensures over { result ≡ Err PassFault.Over → LatchPassesLimit «module».now }
    ensures within { OnOk result (IsInLimits (latched «module».now)) }
    ensures kept { IfOk result (KeepsInterface «module».now) }
    ensures step { HaveNoTwoEdges «module».now → IfOk result (IsStep ports.now «module».now) }
    ensures ready { HaveNoTwoEdges «module».now → IfOk result (StaysReady ports.now «module».now) }
    ensures ruled { IfOk result AreRuled }
    ensures no_always { IfOk result HaveNoAlways }
    ensures no_starts { HaveNoStarts «module».now → IfOk result HaveNoStarts }
    ensures no_two_edges { HaveNoTwoEdges «module».now → IfOk result HaveNoTwoEdges }
    ensures no_writes { HaveNoWrites «module».now → IfOk result HaveNoWrites }
{
    latched_module(alloc, module)
}

/// The module after the step.
fn latched_module(alloc: Global, module: &Module) -> Result<Module, PassFault>
    ensures exact { IfOk result (λ after. after ≡ proc_latch_of «module».now) }
    ensures over { result ≡ Err PassFault.Over → LatchPassesLimit «module».now }
    ensures within { OnOk result (IsInLimits (latched «module».now)) }
{
    apply_owned(alloc, module.copy()?)
}

/// As `apply`, of a module that is given away: of what it has only the processes are copied.
pub fn apply_owned(alloc: Global, module: Module) -> Result<Module, PassFault>
    ensures exact { IfOk result (λ after. after ≡ proc_latch_of «module») }
    ensures over { result ≡ Err PassFault.Over → LatchPassesLimit «module» }
    ensures within { OnOk result (IsInLimits (latched «module»)) }
{
    check_limits(&module)?;
    let processes = module.processes.copy()?;
    let builder = Builder::of(alloc, module)?;
    let builder = latches_step(alloc, builder, processes.as_slice())?;
    let left = without_always(alloc, processes.as_slice())?;
    Ok(Module {
        processes: Seq::from_vec(left),
        ..builder.finish()
    })
}

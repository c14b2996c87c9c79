//! The last step of `proc`: trees of decisions become multiplexers, and the processes go.
#![tactic(auto)]

mod begins;
mod given;
mod lines;
mod process;
mod rows;
mod runs;
mod walk;

ghost use Rattle.std.specs.Prelude.{◌≡◌, Err, IfOk, OnOk};
ghost use Rattle.rtl_ir.specs.Scope.{with_processes, without_processes};
ghost use Rattle.rtl_ir.specs.Types.{table_ports};
ghost use Rattle.net_index.specs.Builder.{IsInLimits};
ghost use Rattle.net_model.specs.Proc.Mux.{proc_mux_of};
ghost use Rattle.proc_laws.specs.Ready.{AreRuled, HaveNoLines, IsReady};
ghost use Rattle.proc_laws.specs.Step.{IsStep};
ghost use Rattle.proc_mux.specs.Limits.{MuxPassesLimit, muxed};

use crate::process::processes_step;
use net_index::{Builder, PassFault, check_limits};
use rtl_bits::{Copied, Seq};
use rtl_ir::{Module, PortTable};
use std::alloc::Global;

/// The module in which the trees of all processes are multiplexers. It has no process. `Over` comes where the
/// module would pass a limit on cells, on bits of wires or on fresh names. In the Yosys manual, the command
/// `proc_mux`.
pub fn apply(alloc: Global, module: &Module, ports: &PortTable) -> Result<Module, PassFault>
    requires ready { IsReady with_processes (table_ports ports.now.modules) «module».now }
    requires ruled { AreRuled «module».now }
    requires no_lines { HaveNoLines «module».now }
    ensures exact { IfOk result (λ after. after ≡ proc_mux_of «module».now) }
    ensures over { result ≡ Err PassFault.Over → MuxPassesLimit «module».now }
    ensures within { OnOk result (IsInLimits (muxed «module».now)) }
    ensures step { IfOk result (IsStep ports.now «module».now) }
    ensures ready { IfOk result (IsReady without_processes (table_ports ports.now.modules)) }
{
    muxed_module(alloc, module)
}

/// The module after the step.
fn muxed_module(alloc: Global, module: &Module) -> Result<Module, PassFault>
    ensures exact { IfOk result (λ after. after ≡ proc_mux_of «module».now) }
    ensures over { result ≡ Err PassFault.Over → MuxPassesLimit «module».now }
    ensures within { OnOk result (IsInLimits (muxed «module».now)) }
{
    apply_owned(alloc, module.copy()?)
}

/// As `apply`, of a module that is given away: of what it has only the processes are copied.
pub fn apply_owned(alloc: Global, module: Module) -> Result<Module, PassFault>
    ensures exact { IfOk result (λ after. after ≡ proc_mux_of «module») }
    ensures over { result ≡ Err PassFault.Over → MuxPassesLimit «module» }
    ensures within { OnOk result (IsInLimits (muxed «module»)) }
{
    check_limits(&module)?;
    let processes = module.processes.copy()?;
    let builder = Builder::of(alloc, module)?;
    let builder = processes_step(alloc, builder, processes.as_slice())?;
    Ok(Module {
        processes: Seq::make(alloc),
        ..builder.finish()
    })
}

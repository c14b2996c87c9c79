//! The pass `proc`: its steps in turn.
#![tactic(auto)]

ghost use Rattle.std.specs.Prelude.{◌≡◌, Err, IfOk, None, Some};
ghost use Rattle.rtl_ir.specs.Types.{table_ports};
ghost use Rattle.proc_steps.specs.Steps.{Gives, MayBegin, proc_result};

use net_index::PassFault;
use rtl_ir::{Module, PortTable};
use std::alloc::Global;

/// The module in which all processes are cells and connections: switches by their rules and start values, resets,
/// latches, flip-flops, multiplexers. It has no process. `Over` comes where one of these steps would pass a limit on
/// cells, on bits of wires or on fresh names; each of them only adds. In the Yosys manual, the command `proc`.
pub fn apply(alloc: Global, module: Module, ports: &PortTable) -> Result<Module, PassFault>
    requires begins { MayBegin ports.now «module» }
    ensures exact { IfOk result (λ after. proc_result (table_ports ports.now.modules) «module» ≡ Some after) }
    ensures over { result ≡ Err PassFault.Over → proc_result (table_ports ports.now.modules) «module» ≡ None }
    ensures gives { IfOk result (λ after. Gives ports.now «module» after) }
{
    let ruled = proc_tree::apply_owned(alloc, module)?;
    let leveled = proc_reset::apply_owned(alloc, ruled, ports)?;
    let clocked = {
        let latched = proc_latch::apply_owned(alloc, leveled)?;
        proc_sync::apply(alloc, &latched, ports)?
    };
    proc_mux::apply_owned(alloc, clocked)
}

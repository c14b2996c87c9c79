//! The pass `fsm`: the machine of each state wire gets the code with one bit for each state.
#![tactic(auto)]

mod search;

ghost use Rattle.std.specs.Prelude.{◌≡◌, [], true, false, Err, IfOk, None, OnOk, Some, length};
ghost use Rattle.rtl_ir.specs.Types.{table_ports};
ghost use Rattle.net_model.specs.Fsm.Code.{fsm_of};
ghost use Rattle.pass_laws.specs.Pass.{IsPass, StaysDriven};
ghost use Rattle.pass_laws.specs.Ready.{IsReady};
ghost use Rattle.fsm_steps.specs.Within.{are_within, fsm_within};

use crate::search::{next_machine, place_number};
use fsm_code::recode;
use net_index::PassFault;
use rtl_ir::{Module, PortTable};
use std::alloc::Global;

/// A module after the pass.
#[derive(Drop)]
pub struct Recoded {
    /// The module.
    pub after: Module,
    /// Whether it had no machine, so that it is as it was.
    pub is_same: bool,
}

/// The module in which each machine has its code. The wires that there were before are asked in their order, each of
/// the module that the one before it left. `Over` comes where one of the modules with the fresh wires of a machine
/// would pass a limit on cells, on bits of wires or on fresh names. In the Yosys manual, the command `fsm`.
pub fn apply(alloc: Global, module: Module, ports: &PortTable) -> Result<Module, PassFault>
    requires ready { IsReady (table_ports ports.now.modules) «module» }
    ensures exact { IfOk result (λ after. fsm_within (table_ports ports.now.modules) «module» ≡ Some after) }
    ensures over { result ≡ Err PassFault.Over → fsm_within (table_ports ports.now.modules) «module» ≡ None }
    ensures pass { IfOk result (IsPass ports.now «module») }
    ensures driven { IfOk result (StaysDriven «module») }
    ensures same_memories { IfOk result (λ after. after.memories ≡ «module».memories) }
{
    let recoded = recode_all(alloc, module, ports)?;
    Ok(recoded.after)
}

/// The module in which each machine has its code, as `apply` gives it, and whether it had no machine and is as it was. `Over`
/// comes where one of the modules with the fresh wires of a machine would pass a limit on cells, on bits of wires or on fresh
/// names. In the Yosys manual, the command `fsm`.
pub fn recode_all(alloc: Global, module: Module, ports: &PortTable) -> Result<Recoded, PassFault>
    requires ready { IsReady (table_ports ports.now.modules) «module» }
    ensures exact { IfOk result (λ done. fsm_within (table_ports ports.now.modules) «module» ≡ Some done.after) }
    ensures same { IfOk result (λ done. done.is_same ≡ true → done.after ≡ «module») }
    ensures over { result ≡ Err PassFault.Over → fsm_within (table_ports ports.now.modules) «module» ≡ None }
    ensures pass { IfOk result (λ done. IsPass ports.now «module» done.after) }
    ensures driven { IfOk result (λ done. StaysDriven «module» done.after) }
    ensures same_memories { IfOk result (λ done. done.after.memories ≡ «module».memories) }
{
    each_machine(alloc, module, ports)
}

/// The machines in turn.
fn each_machine(alloc: Global, module: Module, ports: &PortTable) -> Result<Recoded, PassFault>
    requires process_free { «module».processes ≡ [] }
    ensures exact { IfOk result (λ done. done.after ≡ fsm_of (table_ports ports.now.modules) «module») }
    ensures same { IfOk result (λ done. done.is_same ≡ true → done.after ≡ «module») }
    ensures over { result ≡ Err PassFault.Over →
        are_within (table_ports ports.now.modules) 0 (length «module».wires) «module» ≡ false }
    ensures within { OnOk result (
        are_within (table_ports ports.now.modules) 0 (length «module».wires) «module» ≡ true) }
{
    let end = place_number(module.wires.as_slice().len())?;
    let mut after = module;
    let mut from = 0u32;
    while let Some(found) = next_machine(alloc, &after, ports, from, end)? {
        after = recode(alloc, after, ports, &found.machine)?;
        from = found.wire + 1;
    }
    Ok(Recoded {
        after,
        is_same: from == 0,
    })
}

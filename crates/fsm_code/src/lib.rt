//! The state of a machine in the code with one bit for each state.
#![tactic(auto)]

mod cells;
mod coding;
mod compare;
mod flop;
mod fork;
mod marks;
mod numbers;
mod outputs;
mod wires;

ghost use Rattle.std.specs.Prelude.{◌≡◌, Err, IfOk, OnOk, option_map, slice_get};
ghost use Rattle.rtl_ir.specs.Build.{building_of};
ghost use Rattle.rtl_ir.specs.Flat.Cell.{Ports, instances};
ghost use Rattle.rtl_ir.specs.Ports.{ports_of};
ghost use Rattle.rtl_ir.specs.Types.{table_ports};
ghost use Rattle.net_index.specs.Builder.{IsInLimits, PassesLimit};
ghost use Rattle.net_model.specs.Fsm.Code.{recoded, recoded_of};
ghost use Rattle.net_model.specs.Refine.{IsWellDriven, RefinesIn};
ghost use Rattle.pass_laws.specs.Ready.{IsReady};
ghost use Rattle.fsm_code.specs.Limits.{recoding, widened};
ghost use Rattle.fsm_code.specs.Machines.{IsMachineOf};

use crate::cells::recoded_cells;
use crate::coding::Coding;
use crate::marks::{Places, marks};
use crate::wires::{code_wire, fresh_outputs, output_signals};
use fsm_parts::whole_wire;
use net_index::{Builder, Drivers, PassFault, check_limits};
use rtl_ir::{Machine, Module, PortTable, Wire};
use rtl_sig::SigSpec;
use std::alloc::Global;

/// The module in which a machine has the code with one bit for each state. A fresh wire takes over the part of the
/// state wire, and the flip-flop and the cells of its tree stay in their places and get its width; cells that compare
/// the state become its bits. `Over` comes where the module with the fresh wires would pass a limit on cells, on bits
/// of wires or on fresh names. After an error the module is given up. In the Yosys manual, the command `fsm_recode`,
/// with `fsm_map`.
///
/// Where a pass may be given the module, and the machine is the one that is found for a wire of it, no known output bit
/// is lost. The answer may be given to the next pass.
pub fn recode(
    alloc: Global,
    module: Module,
    ports: &PortTable,
    machine: &Machine,
) -> Result<Module, PassFault>
    ensures exact { IfOk result (λ after. after ≡ recoded_of «module» machine.now) }
    ensures over { result ≡ Err PassFault.Over → PassesLimit (recoding «module» machine.now) }
    ensures within { OnOk result (IsInLimits (recoding «module» machine.now)) }
    ensures refines { IfOk result (λ after. IsMachineOf ports.now «module» machine.now →
        RefinesIn «module» after ports.now) }
    ensures well_driven { IfOk result (λ after. (over : Ports) → IsMachineOf ports.now «module» machine.now →
        IsWellDriven over «module» → IsWellDriven over after) }
    ensures well_formed { IfOk result (λ after. IsMachineOf ports.now «module» machine.now →
        IsReady (table_ports ports.now.modules) after) }
    ensures same_id { IfOk result (λ after. after.id ≡ «module».id) }
    ensures same_ports { IfOk result (λ after. ports_of after.wires ≡ ports_of «module».wires) }
    ensures same_instances { IfOk result (λ after. IsMachineOf ports.now «module» machine.now →
        instances after.cells ≡ instances «module».cells) }
    ensures same_memories { IfOk result (λ after. after.memories ≡ «module».memories) }
{
    recoded_module(alloc, module, ports, machine)
}

/// The module with the machine in the code, from the width of the state wire.
fn recoded_module(
    alloc: Global,
    module: Module,
    ports: &PortTable,
    machine: &Machine,
) -> Result<Module, PassFault>
    ensures exact { IfOk result (λ after. after ≡ recoded_of «module» machine.now) }
    ensures over { result ≡ Err PassFault.Over → PassesLimit (recoding «module» machine.now) }
    ensures within { OnOk result (IsInLimits (recoding «module» machine.now)) }
{
    check_limits(&module)?;
    match width_at(module.wires.as_slice(), machine.wire as usize) {
        Some(width) => {
            let state = whole_wire(alloc, machine.wire, width)?;
            let after = recoded(alloc, module, ports, machine, state)?;
            Ok(after)
        }
        None => Ok(module),
    }
}

/// How wide the wire at a place of the list is, where there is one.
fn width_at(wires: &[Wire], at: usize) -> Option<u32>
    ensures value { result ≡ option_map (λ (w : Wire). w.width) (slice_get wires.now at) }
{
    wires.get(at).map(|wire| wire.width)
}

/// The module with this state in the code.
fn recoded(
    alloc: Global,
    module: Module,
    ports: &PortTable,
    machine: &Machine,
    state: SigSpec,
) -> Result<Module, PassFault>
    requires fits { IsInLimits (building_of «module») }
    ensures exact { IfOk result (λ after. after ≡ recoded «module» machine.now state) }
    ensures over { result ≡ Err PassFault.Over → PassesLimit (widened «module» machine.now) }
    ensures within { OnOk result (IsInLimits (widened «module» machine.now)) }
{
    let count = module.cells.as_slice().len();
    let index = Drivers::of(alloc, &module, ports)?;
    let old = output_signals(alloc, module.cells.as_slice(), machine.muxes.as_slice())?;
    let forks = marks(alloc, count, machine.muxes.as_slice())?;
    let compares = marks(alloc, count, machine.compares.as_slice())?;
    let mut builder = Builder::of(alloc, module)?;
    let states = machine.states.as_slice();
    let code = code_wire(alloc, states, &machine.start, &mut builder)?;
    let outputs = fresh_outputs(alloc, states.len(), old, &mut builder)?;
    let coding = Coding {
        states,
        state,
        code,
        outputs,
    };
    let places = Places {
        flop: machine.flop as usize,
        forks,
        compares,
    };
    let wide = builder.finish();
    let after = recoded_cells(alloc, &index, &coding, machine, &places, wide)?;
    Ok(after)
}

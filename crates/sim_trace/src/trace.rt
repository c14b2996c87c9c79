//! Traces of simulations.

ghost use Rattle.std.specs.Prelude.{◌≡◌, ◌<◌, ◌^◌, [], ◌∷◌, ◌++◌, List, OnOk, Some, codes, length, slice_get};
ghost use Rattle.rtl_bits.specs.declared.bit.Bit.{Bit};
ghost use Rattle.rtl_ir.specs.Faults.{check_faults};
ghost use Rattle.rtl_ir.specs.declared.module.Design.{Design};
ghost use Rattle.rtl_ir.specs.declared.module.Module.{Module};
ghost use Rattle.rtl_ir.specs.declared.wire.Role.TheVariants.{Output};
ghost use Rattle.flat_net.specs.Titled.{HaveNoProcess, titled_design};
ghost use Rattle.net_model.specs.declared.order.Order.{Order};
ghost use Rattle.net_model.specs.Within.{Each};
ghost use Rattle.sim_eval.specs.After.{outputs_after};
ghost use Rattle.sim_eval.specs.Shapes.{HaveShapes};
ghost use Rattle.sim_eval.specs.Sim.{IsSimOf};
ghost use Rattle.sim_text.specs.Lines.{step_line};
ghost use Rattle.sim_text.specs.Ports.{port_widths};
ghost use Rattle.sim_trace.specs.Steps.{IsFreshOver, IsSimOver};
ghost use Rattle.sim_trace.specs.Stimulus.{trace_text};

use flat_net::Titled;
use net_model::Order;
use rtl_bits::{Bits, Memory, Text};
use rtl_ir::{Design, Module};
use sim_eval::Sim;
use sim_text::write_step;

/// Makes a step of a simulation of a module with these wires with an input vector, and writes the line of its outputs.
fn put_step(text: &mut Text, sim: &mut Sim, module: &Module, inputs: &Bits) -> Result<(), Memory>
    requires sim { IsSimOver sim.old «module».now.wires }
    ensures settled { (order : Order) (d : Design) (m : Module) (stimulus : List (List Bit)) →
        IsSimOf sim.old order d m stimulus →
        OnOk result (IsSimOf sim.new order d m (stimulus ++ inputs.now ∷ [])) }
    ensures line { (order : Order) (d : Design) (m : Module) (stimulus : List (List Bit)) →
        m.wires ≡ «module».now.wires → IsSimOf sim.old order d m stimulus →
        OnOk result (text.new ≡
        text.old ++ (step_line (port_widths Output m) (outputs_after order d m (stimulus ++ inputs.now ∷ [])) ++
        codes "\n")) }
{
    let outputs = sim.step(inputs)?;
    let line = write_step(text.allocator(), &outputs, module)?;
    text.extend(line.as_slice())?;
    text.push(b'\n')?;
    Ok(())
}

/// Writes the lines of the trace of a simulation of a module with these wires, from its start on.
#[tactic(auto, using(crate::proofs::Tracing::traced_none))]
fn put_steps(
    text: &mut Text,
    sim: &mut Sim,
    module: &Module,
    stimulus: &[Bits],
) -> Result<(), Memory>
    requires fresh { IsFreshOver sim.old «module».now.wires }
    ensures ok { (order : Order) (d : Design) (m : Module) → m.wires ≡ «module».now.wires →
        IsSimOf sim.old order d m [] → OnOk result (text.new ≡ text.old ++ trace_text order d m stimulus.now) }
{
    for inputs in stimulus {
        put_step(text, sim, module, inputs)?;
    }
    Ok(())
}

/// Writes the lines of the trace of the module at this place of a design without faults, in which clocks and asynchronous
/// controls act together.
pub fn put_trace(
    text: &mut Text,
    design: &Design,
    at: usize,
    stimulus: &[Bits],
) -> Result<(), Memory>
    requires in_range { at < length design.now.modules }
    requires small { length design.now.modules < 2 ^ 32 }
    requires faultless { check_faults design.now.modules ≡ [] }
    ensures ok { («module» : Module) → slice_get design.now.modules at ≡ Some «module» →
        OnOk result (text.new ≡ text.old ++ trace_text Order.Together design.now «module» stimulus.now) }
{
    put_trace_in(text, design, at, stimulus, Order::Together)
}

/// The same in an order of time.
pub fn put_trace_in(
    text: &mut Text,
    design: &Design,
    at: usize,
    stimulus: &[Bits],
    order: Order,
) -> Result<(), Memory>
    requires in_range { at < length design.now.modules }
    requires small { length design.now.modules < 2 ^ 32 }
    requires faultless { check_faults design.now.modules ≡ [] }
    ensures ok { («module» : Module) → slice_get design.now.modules at ≡ Some «module» →
        OnOk result (text.new ≡ text.old ++ trace_text order design.now «module» stimulus.now) }
{
    let mut sim = Sim::start_in(text.allocator(), design, at as u32, order)?;
    put_steps(text, &mut sim, &design.modules.as_slice()[at], stimulus)
}

/// Writes the lines of the trace of the module at this place among modules without processes that are lent, each under
/// its name, in which clocks and asynchronous controls act together. Their cells have shapes.
pub fn put_titled_trace(
    text: &mut Text,
    modules: &[Titled],
    at: usize,
    stimulus: &[Bits],
) -> Result<(), Memory>
    requires in_range { at < length modules.now }
    requires small { length modules.now < 2 ^ 32 }
    requires plain { HaveNoProcess modules.now }
    requires shapes { Each (λ (m : Module). HaveShapes m.cells) (titled_design modules.now).modules }
    ensures ok { («module» : Module) → slice_get (titled_design modules.now).modules at ≡ Some «module» →
        OnOk result (text.new ≡
        text.old ++ trace_text Order.Together (titled_design modules.now) «module» stimulus.now) }
{
    put_titled_trace_in(text, modules, at, stimulus, Order::Together)
}

/// The same in an order of time.
pub fn put_titled_trace_in(
    text: &mut Text,
    modules: &[Titled],
    at: usize,
    stimulus: &[Bits],
    order: Order,
) -> Result<(), Memory>
    requires in_range { at < length modules.now }
    requires small { length modules.now < 2 ^ 32 }
    requires plain { HaveNoProcess modules.now }
    requires shapes { Each (λ (m : Module). HaveShapes m.cells) (titled_design modules.now).modules }
    ensures ok { («module» : Module) → slice_get (titled_design modules.now).modules at ≡ Some «module» →
        OnOk result (text.new ≡ text.old ++ trace_text order (titled_design modules.now) «module» stimulus.now) }
{
    let mut sim = Sim::start_titled_in(text.allocator(), modules, at as u32, order)?;
    put_steps(text, &mut sim, modules[at].body, stimulus)
}

//! A simulation of a module.

ghost use Rattle.std.specs.Prelude.{IsTrue, length};
ghost use Rattle.sim_eval.specs.Limits.{are_computable};
ghost use Rattle.sim_eval.specs.Reads.{AreRead};

use crate::first::first_drivers;
use crate::moment::Moment;
use crate::readers::Readers;
use crate::settle::settle;
use crate::values::bits_of;
use flat_net::{Net, Part, Titled, flatten, flatten_titled};
use net_model::Order;
use rtl_bits::{Bit, Bits, Memory, Seq};
use rtl_ir::Design;
use std::alloc::Global;

/// A module of a design with all its instances, after some steps.
#[derive(Drop)]
pub struct Sim {
    parts: Seq<Part>,
    readers: Readers,
    outputs: Seq<u32>,
    values: Vec<Bit>,
    started: bool,
    order: Order,
    ghost computable: { IsTrue (are_computable parts) },
    ghost read: { AreRead readers parts (length values.items) },
}

impl Sim {
    ghost use Rattle.std.specs.Prelude.{◌≡◌, ◌<◌, ◌∷◌, ◌++◌, List, [], IfOk, OnErr, OnOk, Some, length, slice_get};
    ghost use Rattle.rtl_bits.specs.declared.bit.Bit.{Bit};
    ghost use Rattle.rtl_ir.specs.declared.module.Design.{Design};
    ghost use Rattle.rtl_ir.specs.declared.module.Module.{Module};
    ghost use Rattle.rtl_ir.specs.Faults.{faults_within};
    ghost use Rattle.rtl_ir.specs.Flat.Place.{Place};
    ghost use Rattle.rtl_ir.specs.Scope.{everything};
    ghost use Rattle.flat_net.specs.Net.{IsNetOf};
    ghost use Rattle.flat_net.specs.Titled.{HaveNoProcess, titled_design};
    ghost use Rattle.net_model.specs.declared.order.Order.{Order};
    ghost use Rattle.net_model.specs.Within.{Each};
    ghost use Rattle.sim_eval.specs.Shapes.{HaveShapes};
    ghost use Rattle.sim_eval.specs.After.{outputs_after, valuation_after};
    ghost use Rattle.sim_eval.specs.Sim.{AreAt, IsAt, IsShapedNet, IsSimOf};

    /// The module at a place of a design without faults, before the first step: every storage bit has its start value,
    /// all inputs are x, and all other bits are settled. Clocks and asynchronous controls act together in its steps.
    pub fn start(alloc: Global, design: &Design, at: u32) -> Result<Sim, Memory>
        requires in_range { at < length design.now.modules }
        requires faultless { faults_within everything design.now.modules ≡ [] }
        ensures settled { (m : Module) → slice_get design.now.modules at ≡ Some m →
            IfOk result (λ sim. IsSimOf sim Order.Together design.now m []) }
    {
        Sim::start_in(alloc, design, at, Order::Together)
    }

    /// The same, whose steps are taken in an order of time.
    pub fn start_in(alloc: Global, design: &Design, at: u32, order: Order) -> Result<Sim, Memory>
        requires in_range { at < length design.now.modules }
        requires faultless { faults_within everything design.now.modules ≡ [] }
        ensures settled { (m : Module) → slice_get design.now.modules at ≡ Some m →
            IfOk result (λ sim. IsSimOf sim order design.now m []) }
    {
        let net = flatten(alloc, design, at)?;
        Sim::of(alloc, net, order)
    }

    /// The module at a place among modules without processes that are lent, each under its name, before the first step.
    /// Their cells have shapes; of what else `check` asks for nothing is asked.
    pub fn start_titled(alloc: Global, modules: &[Titled], at: u32) -> Result<Sim, Memory>
        requires in_range { at < length modules.now }
        requires plain { HaveNoProcess modules.now }
        requires shapes { Each (λ (m : Module). HaveShapes m.cells) (titled_design modules.now).modules }
        ensures settled { (m : Module) → slice_get (titled_design modules.now).modules at ≡ Some m →
            IfOk result (λ sim. IsSimOf sim Order.Together (titled_design modules.now) m []) }
    {
        Sim::start_titled_in(alloc, modules, at, Order::Together)
    }

    /// The same, whose steps are taken in an order of time.
    pub fn start_titled_in(
        alloc: Global,
        modules: &[Titled],
        at: u32,
        order: Order,
    ) -> Result<Sim, Memory>
        requires in_range { at < length modules.now }
        requires plain { HaveNoProcess modules.now }
        requires shapes { Each (λ (m : Module). HaveShapes m.cells) (titled_design modules.now).modules }
        ensures settled { (m : Module) → slice_get (titled_design modules.now).modules at ≡ Some m →
            IfOk result (λ sim. IsSimOf sim order (titled_design modules.now) m []) }
    {
        let net = flatten_titled(alloc, modules, at)?;
        Sim::of(alloc, net, order)
    }

    /// The netlist, before the first step, in an order of time.
    fn of(alloc: Global, net: Net, order: Order) -> Result<Sim, Memory>
        requires shaped { IsShapedNet net }
        ensures settled { (d : Design) (m : Module) (ps : List Place) → IsNetOf net d m ps →
            IfOk result (λ sim. IsSimOf sim order d m []) }
    {
        let Net {
            parts,
            count,
            outputs,
        } = net;
        let parts = first_drivers(alloc, parts, count as usize)?;
        let readers = Readers::of(alloc, parts.as_slice(), count as usize)?;
        let values = settle(
            alloc,
            &Moment::Start,
            parts.as_slice(),
            &readers,
            count as usize,
        )?;
        Ok(Sim {
            parts,
            readers,
            outputs,
            values,
            started: false,
            order,
        })
    }

    /// One step with an input vector: all input ports in order of port number, each port's bits from its bit 0 on. The
    /// answer is all output ports in that way. After an error the simulation is as before.
    pub fn step(&mut self, inputs: &Bits) -> Result<Bits, Memory>
        ensures settled { (order : Order) (d : Design) (m : Module) (stimulus : List (List Bit)) →
            IsSimOf self.old order d m stimulus →
            OnOk result (IsSimOf self.new order d m (stimulus ++ inputs.now ∷ [])) }
        ensures outputs { (order : Order) (d : Design) (m : Module) (stimulus : List (List Bit)) →
            IsSimOf self.old order d m stimulus →
            IfOk result (λ bits. bits ≡ outputs_after order d m (stimulus ++ inputs.now ∷ [])) }
        ensures err { OnErr result (self.new ≡ self.old) }
    {
        let alloc = *self.values.allocator();
        let now = self.next(alloc, inputs)?;
        let outputs = bits_of(alloc, now.as_slice(), self.outputs.as_slice())?;
        self.values = now;
        self.started = true;
        Ok(outputs)
    }

    /// What all bits have in the next step.
    fn next(&self, alloc: Global, inputs: &Bits) -> Result<Vec<Bit>, Memory>
        ensures settled { (order : Order) (d : Design) (m : Module) (stimulus : List (List Bit)) (ps : List Place) →
            IsAt self.now order d m stimulus ps →
            IfOk result (λ now. AreAt ps now.items (valuation_after order d m (stimulus ++ inputs.now ∷ []))) }
        ensures count { IfOk result (λ now. length now.items ≡ length self.now.values.items) }
    {
        let before = self.values.as_slice();
        let moment = Moment::Step {
            before,
            inputs: inputs.as_slice(),
            first: !self.started,
            order: self.order,
        };
        settle(
            alloc,
            &moment,
            self.parts.as_slice(),
            &self.readers,
            before.len(),
        )
    }
}

//! When write ports act.

ghost use Rattle.std.specs.Prelude.{◌≡◌, List, IfOk, OnOk, [], map};
ghost use Rattle.cell_types.specs.declared.memory.MemoryKind.TheVariants.{MemwrV2};
ghost use Rattle.rtl_ir.specs.declared.module.Link.{Link};
ghost use Rattle.rtl_ir.specs.declared.module.Module.{Module};
ghost use Rattle.rtl_ir.specs.Follow.{follow};
ghost use Rattle.rtl_ir.specs.Types.{table_ports};
ghost use Rattle.rtl_ir.specs.Signals as signals;
ghost use Rattle.rtl_ir.specs.WritePorts as ports;
ghost use Rattle.net_index.specs.Drivers.{AreDrivers};
ghost use Rattle.memory_check.specs.Clocks.{AreClocks, followed, is_high};
ghost use Rattle.memory_check.specs.Shapes.{HasShape};

use cell_types::{Level, PinName, Shape};
use net_index::Drivers;
use rtl_bits::{Memory, Seq};
use rtl_ir::{Cell, Event, Module, PortTable, pin_signal, same_place};
use rtl_sig::SigBit;
use std::alloc::Global;

/// When a write port acts: its clock as it is written, and whether the edge is a rising one.
#[derive(Clone, Copy)]
pub(crate) struct Clocking<'a> {
    clock: &'a [SigBit],
    rising: bool,
}

impl<'a> Clocking<'a> {
    /// When a write cell of this shape acts.
    pub(crate) fn of_cell(cell: &'a Cell, shape: &Shape) -> Clocking<'a>
        ensures value { HasShape shape.now MemwrV2 cell.now → (links : List Link) →
            followed links result ≡ ports.cell_clocking links cell.now }
    {
        Clocking {
            clock: pin_signal(cell.pins.as_slice(), PinName::Clk),
            rising: is_high(shape.levels.clk),
        }
    }

    /// When a line of a rule with this event acts.
    pub(crate) fn of_event(event: &'a Event) -> Clocking<'a>
        ensures value { (links : List Link) → followed links result ≡ ports.event_clocking links event.now }
    {
        match event {
            Event::Posedge(signal) => Clocking {
                clock: signal.as_slice(),
                rising: true,
            },
            Event::Negedge(signal) => Clocking {
                clock: signal.as_slice(),
                rising: false,
            },
            _ => Clocking {
                clock: &[],
                rising: false,
            },
        }
    }
}

/// The connections of a module, along which clocks are followed. Their index is made where it is first asked for.
#[derive(Drop)]
pub(crate) struct Clocks<'a> {
    body: &'a Module,
    index: Option<Drivers>,
}

impl<'a> Clocks<'a> {
    /// The connections of the module.
    pub(crate) fn of(body: &'a Module) -> Clocks<'a>
        ensures value { AreClocks result body.now }
    {
        Clocks { body, index: None }
    }

    /// Whether two write ports act at the same edge of the same clock.
    pub(crate) fn are_same(
        &mut self,
        alloc: Global,
        one: Clocking,
        other: Clocking,
    ) -> Result<bool, Memory>
        ensures clocks { OnOk result ((m : Module) → AreClocks self.old m → AreClocks self.new m) }
        ensures value { IfOk result (λ same. (m : Module) → AreClocks self.old m →
            same ≡ ports.same_clocking (followed m.links one.entry) (followed m.links other.entry)) }
    {
        if let Some(index) = &self.index {
            return Ok(same_clocking(index, one, other));
        }
        let none = PortTable {
            modules: Seq::make(alloc),
        };
        let index = Drivers::of(alloc, self.body, &none)?;
        let same = same_clocking(&index, one, other);
        self.index = Some(index);
        Ok(same)
    }
}

/// Whether it is the high level.
fn is_high(level: Level) -> bool
    ensures value { result ≡ is_high level }
{
    match level {
        Level::High => true,
        Level::Low => false,
    }
}

/// Whether the two are the same edge of the same clock.
fn same_clocking(index: &Drivers, one: Clocking, other: Clocking) -> bool
    ensures value { (m : Module) → AreDrivers index.now (table_ports []) m →
        result ≡ ports.same_clocking (followed m.links one.entry) (followed m.links other.entry) }
{
    same_signal(index, one.clock, other.clock) && one.rising == other.rising
}

/// Whether the two signals lead back along the connections to the same places.
fn same_signal(index: &Drivers, one: &[SigBit], other: &[SigBit]) -> bool
    ensures value { (m : Module) → AreDrivers index.now (table_ports []) m →
        result ≡ signals.same_signal (map (follow m.links) one.now) (map (follow m.links) other.now) }
{
    if one.len() != other.len() {
        return false;
    }
    for at in 0..one.len() {
        if !have_same_end(index, one[at], other[at]) {
            return false;
        }
    }
    true
}

/// Whether the two bits lead back along the connections to the same place.
fn have_same_end(index: &Drivers, one: SigBit, other: SigBit) -> bool
    ensures value { (m : Module) → AreDrivers index.now (table_ports []) m →
        result ≡ signals.same_place (follow m.links one) (follow m.links other) }
{
    let here = index.follow(one);
    let there = index.follow(other);
    same_place(here, there)
}

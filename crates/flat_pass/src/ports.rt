//! The connections of the ports of an instance.

ghost use Rattle.std.specs.Prelude.{◌≡◌, ◌+◌, ◌++◌, IfOk, List, OnOk, flat_map, map};
ghost use Rattle.rtl_ir.specs.Build.{whole};
ghost use Rattle.rtl_ir.specs.Parameters.{signal_at};
ghost use Rattle.rtl_ir.specs.Ports.{ports_of};
ghost use Rattle.rtl_ir.specs.declared.wire.Wire.{Wire};
ghost use Rattle.flat_pass.specs.ByName.{ArePlaces};
ghost use Rattle.flat_pass.specs.Flat.{pin_links, port_links, role_links};
ghost use Rattle.flat_pass.specs.Ports.{ArePorts, HasPlace};

use crate::by_name::ByName;
use crate::names::{pin_names, wire_names};
use net_index::whole;
use rtl_bits::{Copied, Memory, Seq};
use rtl_ir::{Link, Pin, Role, Wire, port_wires};
use rtl_sig::{SigBit, SigSpec};
use std::alloc::Global;

/// A port, and the place of its wire.
#[derive(Clone, Copy)]
pub(crate) struct Port<'a> {
    pub(crate) wire: &'a Wire,
    pub(crate) place: usize,
}

/// The ports among wires, in order of number.
pub(crate) fn ports<'a>(alloc: Global, wires: &'a [Wire]) -> Result<Vec<Port<'a>>, Memory>
    ensures value { IfOk result (λ ports. ArePorts ports.items wires.now) }
{
    let names = wire_names(alloc, wires)?;
    let places = ByName::of(alloc, names.as_slice())?;
    let mut ports = Vec::new(alloc);
    for wire in port_wires(alloc, wires)?.as_slice() {
        ports.push(port_of(&places, wires, wire))?;
    }
    Ok(ports)
}

/// The port that a wire is, with the first place at which its name stands among the wires.
fn port_of<'a>(places: &ByName, wires: &[Wire], wire: &'a Wire) -> Port<'a>
    requires places { ArePlaces places.now (map (λ w. w.name) wires.now) }
    ensures wire { result.wire.now ≡ wire.now }
    ensures place { HasPlace wires.now result }
{
    let place = places.find(wire.name.as_slice());
    Port {
        wire,
        place: place.unwrap_or(wires.len()),
    }
}

/// Connections for the ports go last, in their order, where the copied wires stand from this place on.
pub(crate) fn connect_ports(
    alloc: Global,
    first: u32,
    ports: &[Port],
    pins: &[Pin],
    links: &mut Seq<Link>,
) -> Result<(), Memory>
    ensures ok { OnOk result ((wires : List Wire) → ArePorts ports.now wires →
        links.new ≡ links.old ++ flat_map (port_links first wires pins.now) (ports_of wires)) }
{
    let names = pin_names(alloc, pins)?;
    let by_name = ByName::of(alloc, names.as_slice())?;
    for port in ports {
        let pin = port_pin(&by_name, pins, port);
        connect_pin(alloc, first, port, pin, links)?;
    }
    Ok(())
}

/// The signal at the pin of a port's name, no bits where there is none.
fn port_pin<'a>(by_name: &ByName, pins: &'a [Pin], port: &Port) -> &'a [SigBit]
    requires places { ArePlaces by_name.now (map (λ p. p.name) pins.now) }
    ensures value { result.now ≡ signal_at pins.now port.now.wire.now.name }
{
    pin_at(by_name, pins, port.wire.name.as_slice())
}

/// The signal at the pin of this name, no bits where there is none.
fn pin_at<'a>(by_name: &ByName, pins: &'a [Pin], name: &[u8]) -> &'a [SigBit]
    requires places { ArePlaces by_name.now (map (λ p. p.name) pins.now) }
    ensures value { result.now ≡ signal_at pins.now name.now }
{
    match by_name.find(name) {
        Some(at) => pins[at].sig.as_slice(),
        None => &[],
    }
}

/// The connection of a port to a pin goes last, where the pin has bits.
fn connect_pin(
    alloc: Global,
    first: u32,
    port: &Port,
    pin: &[SigBit],
    links: &mut Seq<Link>,
) -> Result<(), Memory>
    ensures ok { OnOk result (links.new ≡ links.old ++ pin_links port.now.wire.now.role pin.now
        (whole (first + port.now.place) port.now.wire.now.width)) }
{
    if pin.is_empty() {
        return Ok(());
    }
    connect_port(alloc, first, port, pin, links)
}

/// The connection of a port to a pin goes last.
fn connect_port(
    alloc: Global,
    first: u32,
    port: &Port,
    pin: &[SigBit],
    links: &mut Seq<Link>,
) -> Result<(), Memory>
    ensures ok { OnOk result (links.new ≡ links.old ++
        role_links port.now.wire.now.role pin.now (whole (first + port.now.place) port.now.wire.now.width)) }
{
    let place = copied_place(first, port)?;
    let wire = whole(alloc, place, port.wire.width)?;
    let pin = SigSpec::from_slice(alloc, pin)?;
    match port.wire.role {
        Role::Input => links.push(Link {
            left: wire,
            right: pin,
        }),
        Role::Output => links.push(Link {
            left: pin,
            right: wire,
        }),
        Role::Inner | Role::Inout => Ok(()),
    }
}

/// The place of the copied wire of a port. More than 2^32 wires are taken for want of memory.
fn copied_place(first: u32, port: &Port) -> Result<u32, Memory>
    ensures value { IfOk result (λ place. place ≡ first + port.now.place) }
{
    let place = u32::try_from(port.place).ok().ok_or(Memory)?;
    first.checked_add(place).ok_or(Memory)
}

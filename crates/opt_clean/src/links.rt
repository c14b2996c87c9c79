//! The connections to what the outside sees.

ghost use Rattle.std.specs.Prelude.{◌≡◌, [], ◌∷◌, ◌++◌, IfOk, OnOk, map, if◌then◌else◌};
ghost use Rattle.rtl_sig.specs.declared.sig.SigBit.TheVariants.{Wire as OnWire};
ghost use Rattle.rtl_ir.specs.declared.module.Module.{Module};
ghost use Rattle.rtl_ir.specs.Types as rtl;
ghost use Rattle.net_index.specs.Drivers.{AreDrivers};
ghost use Rattle.opt_clean.specs.Keep.{is_shown};
ghost use Rattle.opt_clean.specs.Linked.{is_linked};
ghost use Rattle.opt_clean.specs.Runs.{ended, run_link, shown_links, source_of, wire_links};

use crate::followed::followed_signal;
use net_index::{Driver, Drivers};
use rtl_bits::Memory;
use rtl_ir::{Link, Wire};
use rtl_sig::{SigBit, SigSpec, WireBit};
use std::alloc::Global;

/// The connections of the wires that the outside sees: one for each longest run of bits that a connection drives, from
/// what they are followed to.
pub(crate) fn links_of(
    alloc: Global,
    wires: &[Wire],
    shown: &[bool],
    index: &Drivers,
) -> Result<Vec<Link>, Memory>
    requires shown { shown.now ≡ map is_shown wires.now }
    ensures value { IfOk result (λ links. (ports : rtl.Ports) (m : Module) → AreDrivers index.now ports m →
        links.items ≡ shown_links (is_linked ports m) (source_of m.links) 0 wires.now) }
{
    let mut links = Vec::new(alloc);
    for (place, wire) in wires.iter().enumerate() {
        add_if_shown(
            alloc,
            &mut links,
            narrowed(place)?,
            wire.width,
            shown[place],
            index,
        )?;
    }
    Ok(links)
}

/// The place as a narrower number. A greater one is taken for want of memory.
pub(crate) fn narrowed(place: usize) -> Result<u32, Memory>
    ensures value { IfOk result (λ narrow. narrow ≡ place) }
{
    u32::try_from(place).ok().ok_or(Memory)
}

/// Puts the connections of the wire at this place last, where the outside sees it.
fn add_if_shown(
    alloc: Global,
    links: &mut Vec<Link>,
    wire: u32,
    width: u32,
    shown: bool,
    index: &Drivers,
) -> Result<(), Memory>
    ensures value { OnOk result ((ports : rtl.Ports) (m : Module) → AreDrivers index.now ports m →
        links.new.items ≡ links.old.items ++
        (if shown then wire_links (is_linked ports m) (source_of m.links) wire width else [])) }
{
    if shown {
        add_links(alloc, links, wire, width, index)?;
    }
    Ok(())
}

/// Puts the connections of the wire at this place, which has this width, last.
fn add_links(
    alloc: Global,
    links: &mut Vec<Link>,
    wire: u32,
    width: u32,
    index: &Drivers,
) -> Result<(), Memory>
    ensures value { OnOk result ((ports : rtl.Ports) (m : Module) → AreDrivers index.now ports m →
        links.new.items ≡ links.old.items ++ wire_links (is_linked ports m) (source_of m.links) wire width) }
{
    let mut run = Vec::new(alloc);
    for at in 0..width {
        add_bit(alloc, links, &mut run, WireBit { wire, at }, index)?;
    }
    end_run(alloc, links, &mut run, index)?;
    Ok(())
}

/// Puts the bit behind the run, where a connection drives it, and else ends the run.
fn add_bit(
    alloc: Global,
    links: &mut Vec<Link>,
    run: &mut Vec<WireBit>,
    bit: WireBit,
    index: &Drivers,
) -> Result<(), Memory>
    ensures links { OnOk result ((ports : rtl.Ports) (m : Module) → AreDrivers index.now ports m →
        links.new.items ≡ links.old.items ++
        (if is_linked ports m bit then [] else map (run_link (source_of m.links)) (ended run.old.items))) }
    ensures run { OnOk result ((ports : rtl.Ports) (m : Module) → AreDrivers index.now ports m →
        run.new.items ≡ (if is_linked ports m bit then run.old.items ++ bit ∷ [] else [])) }
{
    if is_linked(index, bit) {
        run.push(bit)?;
    } else {
        end_run(alloc, links, run, index)?;
    }
    Ok(())
}

/// Whether a connection drives the bit, and nothing before it does.
fn is_linked(index: &Drivers, bit: WireBit) -> bool
    ensures value { (ports : rtl.Ports) (m : Module) → AreDrivers index.now ports m → result ≡ is_linked ports m bit }
{
    matches!(index.driver(bit), Driver::Link(_))
}

/// Puts the connection of the run last, where it has bits, and begins a new run.
fn end_run(
    alloc: Global,
    links: &mut Vec<Link>,
    run: &mut Vec<WireBit>,
    index: &Drivers,
) -> Result<(), Memory>
    ensures links { OnOk result ((ports : rtl.Ports) (m : Module) → AreDrivers index.now ports m →
        links.new.items ≡ links.old.items ++ map (run_link (source_of m.links)) (ended run.old.items)) }
    ensures run { OnOk result (run.new.items ≡ []) }
{
    if !run.is_empty() {
        links.push(run_link(alloc, run.as_slice(), index)?)?;
        run.clear();
    }
    Ok(())
}

/// The connection of what the bits are followed to, to the bits.
fn run_link(alloc: Global, run: &[WireBit], index: &Drivers) -> Result<Link, Memory>
    ensures value { IfOk result (λ link. (ports : rtl.Ports) (m : Module) → AreDrivers index.now ports m →
        link ≡ run_link (source_of m.links) run.now) }
{
    let left = signal_of(alloc, run)?;
    let right = followed_signal(alloc, left.as_slice(), index)?;
    Ok(Link { left, right })
}

/// The signal of the bits.
fn signal_of(alloc: Global, bits: &[WireBit]) -> Result<SigSpec, Memory>
    ensures value { IfOk result (λ signal. signal ≡ map OnWire bits.now) }
{
    let mut signal = SigSpec::with_capacity(alloc, bits.len())?;
    for bit in bits {
        signal.push(SigBit::Wire(*bit))?;
    }
    Ok(signal)
}

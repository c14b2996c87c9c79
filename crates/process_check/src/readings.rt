//! What the tree bits of a process read of one another.

ghost use Rattle.std.specs.Prelude.{◌≡◌, ◌++◌, List, [], ◌∷◌, IfOk, OnOk, flat_map};
ghost use Rattle.std.specs.HashMap.{get_by};
ghost use Rattle.rtl_sig.specs.declared.sig.WireBit.{WireBit};
ghost use Rattle.rtl_ir.specs.declared.module.Link.{Link};
ghost use Rattle.rtl_ir.specs.Assigns.{assigned, last_source};
ghost use Rattle.rtl_ir.specs.Follow.{joins};
ghost use Rattle.rtl_ir.specs.Signals.{same_bit, wire_bits};
ghost use Rattle.std.specs.Option.{option_and_then, option_or, option_to_list};
ghost use Rattle.process_trees.specs.Numbers.{AreNumbers};
ghost use Rattle.process_check.specs.Readings.{AreSources, bit_edges, case_edges, assign_edges, edges_to, number_at};
ghost use Rattle.process_check.specs.Readings.{numbers_in, place_edges, switch_edges};

use process_trees::{Numbers, numbers_of};
use rtl_bits::Memory;
use rtl_ir::{Case, Link, Switch};
use rtl_sig::{SigBit, WireBit};
use std::alloc::Global;
use std::collections::HashMap;

/// A tree bit reads another one. Both go by their numbers.
#[derive(Clone, Copy)]
pub(crate) struct Edge {
    pub(crate) from: usize,
    pub(crate) to: usize,
}

/// What the assigns of a case give to bits.
type Sources = HashMap<WireBit, SigBit>;

/// What the tree bits below a root read of one another. Of each case the last assign of a bit counts, and with it the
/// signals of the switches around it.
pub(crate) fn readings(alloc: Global, root: &Case, bits: &[WireBit]) -> Result<Vec<Edge>, Memory>
    ensures edges { IfOk result (λ edges. edges.items ≡ case_edges bits.now [] root.now) }
{
    let numbers = numbers_of(alloc, bits)?;
    let mut edges = Vec::new(alloc);
    put_case(alloc, &mut edges, &numbers, &[], root)?;
    Ok(edges)
}

/// Puts last what bits read by a case, where these are the numbers of the signals of the switches around.
#[cycle(tree)]
fn put_case(
    alloc: Global,
    edges: &mut Vec<Edge>,
    numbers: &Numbers,
    signals: &[usize],
    case: &Case,
) -> Result<(), Memory>
    ensures ok { OnOk result ((bits : List WireBit) → AreNumbers numbers.now bits →
        edges.new.items ≡ edges.old.items ++ case_edges bits signals.now case.now) }
{
    put_assigns(alloc, edges, numbers, signals, case.assigns.as_slice())?;
    for switch in &case.switches {
        put_switch(alloc, edges, numbers, signals, switch)?;
    }
    Ok(())
}

/// Puts last what bits read by a switch.
#[cycle(tree)]
fn put_switch(
    alloc: Global,
    edges: &mut Vec<Edge>,
    numbers: &Numbers,
    signals: &[usize],
    switch: &Switch,
) -> Result<(), Memory>
    ensures ok { OnOk result ((bits : List WireBit) → AreNumbers numbers.now bits →
        edges.new.items ≡ edges.old.items ++ switch_edges bits signals.now switch.now) }
{
    let mut all = Vec::from_slice(alloc, signals)?;
    put_numbers(&mut all, numbers, switch.signal.as_slice())?;
    for case in &switch.cases {
        put_case(alloc, edges, numbers, all.as_slice(), case)?;
    }
    Ok(())
}

/// Puts the numbers of the tree bits of a signal last.
fn put_numbers(all: &mut Vec<usize>, numbers: &Numbers, signal: &[SigBit]) -> Result<(), Memory>
    ensures ok { OnOk result ((bits : List WireBit) → AreNumbers numbers.now bits →
        all.new.items ≡ all.old.items ++ numbers_in bits signal.now) }
{
    for bit in signal {
        put_number(all, number_at(numbers, *bit))?;
    }
    Ok(())
}

/// Puts a number last, where there is one.
fn put_number(all: &mut Vec<usize>, number: Option<usize>) -> Result<(), Memory>
    ensures ok { OnOk result (all.new.items ≡ all.old.items ++ option_to_list number) }
{
    if let Some(number) = number {
        all.push(number)?;
    }
    Ok(())
}

/// The number of a place of a signal, where it is a tree bit.
fn number_at(numbers: &Numbers, bit: SigBit) -> Option<usize>
    ensures value { (bits : List WireBit) → AreNumbers numbers.now bits → result ≡ number_at bits bit }
{
    match bit {
        SigBit::Fixed(_) => None,
        SigBit::Wire(bit) => numbers.get(&bit).copied(),
    }
}

/// Puts last what the bits read that the assigns of a case name.
fn put_assigns(
    alloc: Global,
    edges: &mut Vec<Edge>,
    numbers: &Numbers,
    signals: &[usize],
    assigns: &[Link],
) -> Result<(), Memory>
    ensures ok { OnOk result ((bits : List WireBit) → AreNumbers numbers.now bits →
        edges.new.items ≡ edges.old.items ++ assign_edges bits signals.now assigns.now) }
{
    let sources = sources_of(alloc, assigns)?;
    for line in assigns {
        put_line(edges, numbers, &sources, signals, line.left.as_slice())?;
    }
    Ok(())
}

/// Puts last what the bits of the left side of an assign read.
fn put_line(
    edges: &mut Vec<Edge>,
    numbers: &Numbers,
    sources: &Sources,
    signals: &[usize],
    left: &[SigBit],
) -> Result<(), Memory>
    ensures ok { OnOk result ((bits : List WireBit) → AreNumbers numbers.now bits → (assigns : List Link) →
        AreSources sources.now assigns →
        edges.new.items ≡ edges.old.items ++ flat_map (bit_edges bits signals.now assigns) (wire_bits left.now)) }
{
    for bit in left {
        put_place(edges, numbers, sources, signals, *bit)?;
    }
    Ok(())
}

/// Puts last what the bit at a place of the left side of an assign reads.
fn put_place(
    edges: &mut Vec<Edge>,
    numbers: &Numbers,
    sources: &Sources,
    signals: &[usize],
    place: SigBit,
) -> Result<(), Memory>
    ensures ok { OnOk result ((bits : List WireBit) → AreNumbers numbers.now bits → (assigns : List Link) →
        AreSources sources.now assigns →
        edges.new.items ≡ edges.old.items ++ place_edges bits signals.now assigns place) }
{
    match place {
        SigBit::Fixed(_) => Ok(()),
        SigBit::Wire(bit) => put_bit(edges, numbers, sources, signals, bit),
    }
}

/// Puts last what a bit reads.
fn put_bit(
    edges: &mut Vec<Edge>,
    numbers: &Numbers,
    sources: &Sources,
    signals: &[usize],
    bit: WireBit,
) -> Result<(), Memory>
    ensures ok { OnOk result ((bits : List WireBit) → AreNumbers numbers.now bits → (assigns : List Link) →
        AreSources sources.now assigns →
        edges.new.items ≡ edges.old.items ++ bit_edges bits signals.now assigns bit) }
{
    if let Some(from) = numbers.get(&bit).copied() {
        put_edge(edges, from, source_of(numbers, sources, bit))?;
        put_edges(edges, from, signals)?;
    }
    Ok(())
}

/// Puts last that a bit reads another one, where there is one.
fn put_edge(edges: &mut Vec<Edge>, from: usize, to: Option<usize>) -> Result<(), Memory>
    ensures ok { OnOk result (edges.new.items ≡ edges.old.items ++ edges_to from (option_to_list to)) }
{
    if let Some(to) = to {
        edges.push(Edge { from, to })?;
    }
    Ok(())
}

/// The number of what is assigned to a bit, where that is a tree bit.
fn source_of(numbers: &Numbers, sources: &Sources, bit: WireBit) -> Option<usize>
    ensures value { (bits : List WireBit) → AreNumbers numbers.now bits → (assigns : List Link) →
        AreSources sources.now assigns →
        result ≡ option_and_then (number_at bits) (assigned assigns bit) }
{
    match sources.get(&bit).copied() {
        Some(source) => number_at(numbers, source),
        None => None,
    }
}

/// Puts last that a bit reads each of these.
fn put_edges(edges: &mut Vec<Edge>, from: usize, numbers: &[usize]) -> Result<(), Memory>
    ensures ok { OnOk result (edges.new.items ≡ edges.old.items ++ edges_to from numbers.now) }
{
    for to in numbers {
        edges.push(Edge { from, to: *to })?;
    }
    Ok(())
}

/// What the last of these assigns of each bit gives it.
fn sources_of(alloc: Global, assigns: &[Link]) -> Result<Sources, Memory>
    ensures sources { IfOk result (λ sources. AreSources sources assigns.now) }
{
    let mut sources = HashMap::new(alloc);
    for line in assigns {
        put_sources(&mut sources, line.left.as_slice(), line.right.as_slice())?;
    }
    Ok(sources)
}

/// Puts in what an assign gives to bits, in the place of what was given before.
fn put_sources(sources: &mut Sources, left: &[SigBit], right: &[SigBit]) -> Result<(), Memory>
    ensures ok { OnOk result ((b : WireBit) → get_by (same_bit b) sources.new ≡
        option_or (last_source (joins left.now right.now) b) (get_by (same_bit b) sources.old)) }
{
    for at in 0..left.len().min(right.len()) {
        put_source(sources, left[at], right[at])?;
    }
    Ok(())
}

/// Puts in what is given to a place, where that is a bit of a wire.
fn put_source(sources: &mut Sources, left: SigBit, source: SigBit) -> Result<(), Memory>
    ensures ok { OnOk result ((b : WireBit) → get_by (same_bit b) sources.new ≡
        option_or (last_source (joins (left ∷ []) (source ∷ [])) b) (get_by (same_bit b) sources.old)) }
{
    if let SigBit::Wire(bit) = left {
        sources.insert(bit, source)?;
    }
    Ok(())
}

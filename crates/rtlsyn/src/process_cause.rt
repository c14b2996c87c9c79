//! Why a process is not taken (error 14).

use net_index::Types;
use process_trees::{
    Acting, EventTests, acting_rules, edge_bit, is_init, ruled, tree_bits, writes,
};
use rtl_bits::Memory;
use rtl_ir::{Event, Link, Module, Process, Same, SyncRule, same_bit};
use rtl_sig::{SigBit, WireBit};
use std::alloc::Global;

/// The name of the cause.
pub(crate) fn process_cause(
    alloc: Global,
    types: &Types,
    module: &Module,
    process: &Process,
) -> Result<&'static str, Memory> {
    let rules = process.syncs.as_slice();
    if let Some(cause) = event_cause(rules) {
        return Ok(cause);
    }
    match acting_rules(rules) {
        Acting::Several => Ok(several_cause(rules)),
        Acting::Pair(first, second) => pair_cause(alloc, types, module, process, (first, second)),
        Acting::Single(rule) if writes(rule) && !is_edge(&rule.event) => Ok("written-memory"),
        Acting::Single(_) | Acting::Idle => tree_cause(alloc, process),
    }
}

/// What is wrong with an event alone, or with a start rule that writes.
fn event_cause(rules: &[SyncRule]) -> Option<&'static str> {
    for rule in rules {
        if matches!(rule.event, Event::Edge(_)) {
            return Some("any-edge");
        }
        if !has_one_bit(&rule.event) {
            return Some("wide-event");
        }
        if is_init(&rule.event) && writes(rule) {
            return Some("written-memory");
        }
    }
    None
}

/// Whether the event has one bit of a wire, or no signal.
fn has_one_bit(event: &Event) -> bool {
    match event {
        Event::Low(signal)
        | Event::High(signal)
        | Event::Posedge(signal)
        | Event::Negedge(signal)
        | Event::Edge(signal) => matches!(signal.as_slice(), [SigBit::Wire(_)]),
        Event::Global | Event::Init | Event::Always => true,
    }
}

/// Whether the event is one edge.
fn is_edge(event: &Event) -> bool {
    matches!(event, Event::Posedge(_) | Event::Negedge(_))
}

/// What is wrong with more than two rules that act.
fn several_cause(rules: &[SyncRule]) -> &'static str {
    let edges = rules
        .iter()
        .all(|rule| is_init(&rule.event) || is_edge(&rule.event));
    if edges { "three-edges" } else { "rules" }
}

/// What is wrong with two rules that act.
fn pair_cause(
    alloc: Global,
    types: &Types,
    module: &Module,
    process: &Process,
    pair: (&SyncRule, &SyncRule),
) -> Result<&'static str, Memory> {
    let (first, second) = pair;
    if writes(first) || writes(second) {
        return Ok("written-memory");
    }
    match (edge_bit(&first.event), edge_bit(&second.event)) {
        (Some(one), Some(other)) => {
            if !first.updates.same(&second.updates) {
                return Ok("other-updates");
            }
            edges_cause(alloc, types, module, process, (one.bit, other.bit))
        }
        (None, None) => Ok("rules"),
        _ => tree_cause(alloc, process),
    }
}

/// What is wrong with two edges of these bits.
fn edges_cause(
    alloc: Global,
    types: &Types,
    module: &Module,
    process: &Process,
    bits: (WireBit, WireBit),
) -> Result<&'static str, Memory> {
    let tests = EventTests::of(alloc, module, types)?;
    let root = ruled(alloc, &process.root)?;
    let one = tests.is_tested(alloc, module, bits.0, &root)?;
    let other = tests.is_tested(alloc, module, bits.1, &root)?;
    if one == other {
        return Ok("untested-edges");
    }
    match start_of(alloc, process)? {
        Start::Fixed => Ok("loading-reset"),
        Start::Open => Ok("start-value"),
        Start::Decided => Ok("process"),
    }
}

/// What is wrong where the rules may stand together: a start value, or a bit that depends on itself.
fn tree_cause(alloc: Global, process: &Process) -> Result<&'static str, Memory> {
    match start_of(alloc, process)? {
        Start::Fixed => Ok("self-reading"),
        Start::Open => Ok("start-value"),
        Start::Decided => Ok("process"),
    }
}

/// What the start values of a process are.
#[derive(Clone, Copy, Debug, PartialEq, Eq)]
enum Start {
    /// Constants, or none.
    Fixed,
    /// At some place a bit that the process does not assign.
    Open,
    /// Decided by the process.
    Decided,
}

/// What the start values are.
fn start_of(alloc: Global, process: &Process) -> Result<Start, Memory> {
    let bits = tree_bits(alloc, &process.root)?;
    let mut start = Start::Fixed;
    for rule in process.syncs.as_slice() {
        if is_init(&rule.event) {
            for line in rule.updates.as_slice() {
                match start_of_line(bits.as_slice(), line) {
                    Start::Fixed => {}
                    Start::Open => return Ok(Start::Open),
                    Start::Decided => start = Start::Decided,
                }
            }
        }
    }
    Ok(start)
}

/// What the start values of a line are, where the process assigns these bits.
fn start_of_line(bits: &[WireBit], line: &Link) -> Start {
    let mut start = Start::Fixed;
    for place in line.right.as_slice() {
        if let SigBit::Wire(source) = place {
            if !bits.iter().any(|bit| same_bit(*bit, *source)) {
                return Start::Open;
            }
            start = Start::Decided;
        }
    }
    start
}

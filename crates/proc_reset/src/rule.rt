//! The level rule of a reset.

ghost use Rattle.std.specs.Prelude.{◌≡◌, ◌&&◌, [], ◌∷◌, List, flat_map, if◌then◌else◌, option_map, IfOk};
ghost use Rattle.rtl_sig.specs.declared.sig.SigBit.TheVariants.{Wire as OnWire};
ghost use Rattle.rtl_sig.specs.declared.sig.WireBit.{WireBit};
ghost use Rattle.rtl_ir.specs.declared.process.Event.TheVariants.{High, Low};
ghost use Rattle.rtl_ir.specs.Faults.TwoEdges as edges;
ghost use Rattle.rtl_ir.specs.Rules.{has_line};
ghost use Rattle.rtl_ir.specs.Tree.{CaseView};
ghost use Rattle.net_model.specs.Proc.Reset as step;
ghost use Rattle.process_trees.specs.Edge.{edge_as};
ghost use Rattle.process_trees.specs.Rounds.{AreLeaves};
ghost use Rattle.proc_reset.specs.Places.{leaves_at, reset_line};

use crate::places::put_line;
use process_trees::{EdgeBit, Leaves, edge_bit};
use rtl_bits::{Copied, Memory, Seq};
use rtl_ir::{Event, Link, SyncRule, has_line};
use rtl_sig::{SigBit, SigSpec, WireBit};
use std::alloc::Global;

/// The level rule of a reset: of each of these lines the bits that it sets, by the leaves with the reset active.
pub(crate) fn reset_rule(
    alloc: Global,
    leaves: &Leaves,
    reset: EdgeBit,
    lines: &[Link],
) -> Result<SyncRule, Memory>
    ensures value { (root : CaseView) (bits : List WireBit) → AreLeaves leaves.now root bits →
        IfOk result (λ rule. rule ≡ step.reset_rule (leaves_at root bits) (edge_as reset) lines.now) }
{
    let event = level_event(alloc, reset)?;
    let updates = reset_lines(alloc, leaves, lines)?;
    Ok(SyncRule {
        event,
        updates: Seq::from_vec(updates),
        writes: Seq::make(alloc),
    })
}

/// The lines of the rule.
fn reset_lines(alloc: Global, leaves: &Leaves, lines: &[Link]) -> Result<Vec<Link>, Memory>
    ensures value { IfOk result (λ updates. (root : CaseView) (bits : List WireBit) → AreLeaves leaves.now root bits →
        updates.items ≡ flat_map (reset_line root bits) lines.now) }
{
    let mut updates = Vec::new(alloc);
    for line in lines {
        put_line(alloc, &mut updates, leaves, line)?;
    }
    Ok(updates)
}

/// The event at the level that the bit has after the edge.
fn level_event(alloc: Global, edge: EdgeBit) -> Result<Event, Memory>
    ensures value { IfOk result (λ event. event ≡
        (if edge.level then High (OnWire edge.bit ∷ []) else Low (OnWire edge.bit ∷ []))) }
{
    let signal = SigSpec::from_slice(alloc, &[SigBit::Wire(edge.bit)])?;
    if edge.level {
        Ok(Event::High(signal))
    } else {
        Ok(Event::Low(signal))
    }
}

/// The rules with this one in the place of the edge rule of the bit.
pub(crate) fn with_reset(
    alloc: Global,
    bit: WireBit,
    rule: &SyncRule,
    rules: &[SyncRule],
) -> Result<Vec<SyncRule>, Memory>
    ensures value { IfOk result (λ made. made.items ≡ step.with_reset bit rule.now rules.now) }
{
    let mut made = Vec::with_capacity(alloc, rules.len())?;
    for old in rules {
        made.push(rule_after(bit, rule, old)?)?;
    }
    Ok(made)
}

/// The rule that stands where this old one stood.
fn rule_after(bit: WireBit, rule: &SyncRule, old: &SyncRule) -> Result<SyncRule, Memory>
    ensures value { IfOk result (λ made. made ≡
        (if has_line old.now && step.is_edge_of bit (edges.edge_bit old.now.event) then rule.now else old.now)) }
{
    if has_line(old) && is_edge_of(bit, edge_bit(&old.event)) {
        rule.copy()
    } else {
        old.copy()
    }
}

/// Whether an edge is one of this bit.
fn is_edge_of(bit: WireBit, edge: Option<EdgeBit>) -> bool
    ensures value { result ≡ step.is_edge_of bit (option_map edge_as edge) }
{
    match edge {
        Some(edge) => edge.bit == bit,
        None => false,
    }
}

//! Processes with two edges: one of the event bits is the reset.

ghost use Rattle.std.specs.Prelude.{◌≡◌, List, IfOk, OnOk};
ghost use Rattle.rtl_ir.specs.declared.process.SyncRule.{SyncRule};
ghost use Rattle.rtl_ir.specs.Faults.TwoEdges as two;
ghost use Rattle.rtl_ir.specs.Follow.{all_joins};
ghost use Rattle.rtl_ir.specs.Types.{Ports};
ghost use Rattle.net_index.specs.Types.{AreTypes};
ghost use Rattle.process_trees.specs.Edge.{edge_as};
ghost use Rattle.process_trees.specs.Fitting.{DoCellsFit};
ghost use Rattle.process_trees.specs.Tables.{AreTests};
ghost use Rattle.process_trees.specs.Acting.{Acts};
ghost use Rattle.process_check.specs.Values.{WereAsked};

use crate::values::are_settled;
use net_index::Types;
use process_trees::{Acting, EdgeBit, EventTests, Level, at_level, edge_bit};
use rtl_bits::Memory;
use rtl_ir::{Case, Link, Module, SyncRule};
use rtl_sig::WireBit;
use std::alloc::Global;

/// The tree of a process of a module by the rules, with the bits that it drives.
#[derive(Clone, Copy)]
pub(crate) struct Tree<'a> {
    pub(crate) module: &'a Module,
    pub(crate) root: &'a Case,
    pub(crate) bits: &'a [WireBit],
}

/// Whether one of two edges is a reset, where the rules that act are at two. The tables are made where they are
/// missing.
pub(crate) fn two_edges_stand(
    alloc: Global,
    types: &Types,
    tests: &mut Option<EventTests>,
    tree: &Tree,
    acting: Acting,
) -> Result<bool, Memory>
    ensures asked { OnOk result ((ports : Ports) → AreTypes types.now ports →
        WereAsked tests.old ports tree.now.«module».now → WereAsked tests.new ports tree.now.«module».now) }
    ensures value { IfOk result (λ stand. (ports : Ports) → AreTypes types.now ports →
        WereAsked tests.old ports tree.now.«module».now → DoCellsFit ports tree.now.«module».now →
        (rules : List SyncRule) → Acts acting.entry rules →
        stand ≡ two.two_edges_stand ports tree.now.«module».now tree.now.root.now tree.now.bits.now rules) }
{
    match acting {
        Acting::Pair(first, second) => { edges_stand(alloc, types, tests, tree, first, second) }
        Acting::Idle | Acting::Single(_) | Acting::Several => Ok(true),
    }
}

/// Whether one of the edges of two rules is a reset.
fn edges_stand(
    alloc: Global,
    types: &Types,
    tests: &mut Option<EventTests>,
    tree: &Tree,
    first: &SyncRule,
    second: &SyncRule,
) -> Result<bool, Memory>
    ensures asked { OnOk result ((ports : Ports) → AreTypes types.now ports →
        WereAsked tests.old ports tree.now.«module».now → WereAsked tests.new ports tree.now.«module».now) }
    ensures value { IfOk result (λ stand. (ports : Ports) → AreTypes types.now ports →
        WereAsked tests.old ports tree.now.«module».now → DoCellsFit ports tree.now.«module».now →
        stand ≡
        two.events_reset ports tree.now.«module».now tree.now.root.now tree.now.bits.now (all_joins first.now.updates)
        (two.edge_bit first.now.event) (two.edge_bit second.now.event)) }
{
    let lines = first.updates.as_slice();
    match (edge_bit(&first.event), edge_bit(&second.event)) {
        (Some(one), Some(other)) => { asked_resets(alloc, types, tests, tree, lines, (one, other)) }
        _ => Ok(true),
    }
}

/// Whether one of two edges is a reset for these lines.
fn asked_resets(
    alloc: Global,
    types: &Types,
    tests: &mut Option<EventTests>,
    tree: &Tree,
    lines: &[Link],
    edges: (EdgeBit, EdgeBit),
) -> Result<bool, Memory>
    ensures asked { OnOk result ((ports : Ports) → AreTypes types.now ports →
        WereAsked tests.old ports tree.now.«module».now → WereAsked tests.new ports tree.now.«module».now) }
    ensures value { IfOk result (λ stand. (ports : Ports) → AreTypes types.now ports →
        WereAsked tests.old ports tree.now.«module».now → DoCellsFit ports tree.now.«module».now →
        stand ≡
        two.one_resets ports tree.now.«module».now tree.now.root.now tree.now.bits.now (all_joins lines.now)
        (edge_as edges.0) (edge_as edges.1)) }
{
    let (one, other) = edges;
    if let Some(tests) = tests {
        return one_resets(alloc, tests, tree, lines, one, other);
    }
    let made = EventTests::of(alloc, tree.module, types)?;
    let stand = one_resets(alloc, &made, tree, lines, one, other)?;
    *tests = Some(made);
    Ok(stand)
}

/// Whether just one of the two bits is tested, and with it active each updated bit gets a constant or keeps its value.
fn one_resets(
    alloc: Global,
    tests: &EventTests,
    tree: &Tree,
    lines: &[Link],
    one: EdgeBit,
    other: EdgeBit,
) -> Result<bool, Memory>
    ensures value { IfOk result (λ stand. (ports : Ports) → AreTests tests.now ports tree.now.«module».now →
        DoCellsFit ports tree.now.«module».now →
        stand ≡
        two.one_resets ports tree.now.«module».now tree.now.root.now tree.now.bits.now (all_joins lines.now)
        (edge_as one) (edge_as other)) }
{
    let tested = tests.is_tested(alloc, tree.module, one.bit, tree.root)?;
    let other_tested = tests.is_tested(alloc, tree.module, other.bit, tree.root)?;
    if tested == other_tested {
        return Ok(false);
    }
    if tested {
        resets_well(alloc, tests, tree, lines, one)
    } else {
        resets_well(alloc, tests, tree, lines, other)
    }
}

/// Whether with the reset active each updated bit gets a constant or keeps its value.
fn resets_well(
    alloc: Global,
    tests: &EventTests,
    tree: &Tree,
    lines: &[Link],
    reset: EdgeBit,
) -> Result<bool, Memory>
    ensures value { IfOk result (λ well. (ports : Ports) → AreTests tests.now ports tree.now.«module».now →
        DoCellsFit ports tree.now.«module».now →
        well ≡
        two.resets_well ports tree.now.«module».now tree.now.root.now tree.now.bits.now (all_joins lines.now)
        (edge_as reset)) }
{
    let by = Level {
        tests,
        module: tree.module,
        event: reset.bit,
        level: reset.level,
    };
    let active = at_level(alloc, &by, tree.root)?;
    are_settled(alloc, &active, tree.bits, true, lines)
}

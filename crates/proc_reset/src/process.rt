//! Processes with two edges.

ghost use Rattle.std.specs.Prelude.{◌≡◌, ◌+◌, ◌<◌, ◌++◌, ◌&&◌, drop, length, not, [], List, Some, if◌then◌else◌, IfOk};
ghost use Rattle.std.specs.List.{list_any};
ghost use Rattle.rtl_ir.specs.declared.module.Module as rtl;
ghost use Rattle.rtl_sig.specs.declared.sig.WireBit.{WireBit};
ghost use Rattle.rtl_ir.specs.Assigns.{tree_bits};
ghost use Rattle.rtl_ir.specs.EventTests.{switch_test};
ghost use Rattle.rtl_ir.specs.Faults.TwoEdges as edges;
ghost use Rattle.rtl_ir.specs.Follow.{all_joins};
ghost use Rattle.rtl_ir.specs.Rules.{acting_rules};
ghost use Rattle.rtl_ir.specs.Signals.{wire_bits};
ghost use Rattle.rtl_ir.specs.Tree.{CaseView};
ghost use Rattle.rtl_ir.specs.Types.{Ports};
ghost use Rattle.net_model.specs.Proc.Reset as step;
ghost use Rattle.process_trees.specs.Edge.{edge_as};
ghost use Rattle.process_trees.specs.Rounds.{AreLeaves};
ghost use Rattle.process_trees.specs.Levels.{open_case};
ghost use Rattle.proc_reset.specs.Outer.{IsOuter};
ghost use Rattle.proc_reset.specs.Places.{is_held, leaves_at};
ghost use Rattle.proc_reset.specs.Reads.{AreIn, fixed_signals};

use crate::free::{Others, are_free};
use crate::places::lines_hold;
use crate::rule::{reset_rule, with_reset};
use crate::sets::BitSet;
use process_trees::{
    Acting, EdgeBit, EventTests, Leaves, Level, acting_rules, at_level, edge_bit, tree_bits,
};
use rtl_bits::{Copied, Memory, Seq};
use rtl_ir::{Case, Link, Module, Process, SyncRule};
use rtl_sig::WireBit;
use std::alloc::Global;

/// A module, with the tables of its tests, and what its connections, cells and output ports read.
#[derive(Clone, Copy)]
pub(crate) struct Outer<'a> {
    pub(crate) module: &'a Module,
    pub(crate) tests: &'a EventTests,
    pub(crate) reads: &'a BitSet,
}

/// A process with its module, and the others of that.
#[derive(Clone, Copy)]
struct Setting<'a> {
    outer: &'a Outer<'a>,
    others: &'a Others<'a>,
    process: &'a Process,
}

/// The processes in order, each beside those before it as they have become.
pub(crate) fn reset_processes(
    alloc: Global,
    outer: &Outer,
    processes: &[Process],
) -> Result<Vec<Process>, Memory>
    ensures value { (ports : Ports) → IsOuter outer.now ports →
        IfOk result (λ done. done.items ≡ step.resets_step ports outer.now.«module».now [] processes.now) }
{
    let mut done = Vec::with_capacity(alloc, processes.len())?;
    for at in 0..processes.len() {
        let others = Others {
            before: done.as_slice(),
            after: behind(processes, at),
        };
        let process = reset_process(alloc, outer, &others, &processes[at])?;
        done.push(process)?;
    }
    Ok(done)
}

/// The processes behind the one at this place.
fn behind(processes: &[Process], at: usize) -> &[Process]
    requires there { at < length processes.now }
    ensures value { result.now ≡ drop (at + 1) processes.now }
{
    &processes[at + 1..]
}

/// A process with two edges, one as a level; any other stays.
fn reset_process(
    alloc: Global,
    outer: &Outer,
    others: &Others,
    process: &Process,
) -> Result<Process, Memory>
    ensures value { (ports : Ports) → IsOuter outer.now ports → IfOk result (λ made.
        made ≡ step.reset_process ports outer.now.«module».now (others.now.before.now ++ others.now.after.now)
        process.now (acting_rules process.now.syncs)) }
{
    match acting_rules(process.syncs.as_slice()) {
        Acting::Pair(first, second) => {
            let setting = Setting {
                outer,
                others,
                process,
            };
            reset_by(alloc, &setting, first, second)
        }
        Acting::Idle | Acting::Single(_) | Acting::Several => process.copy(),
    }
}

/// The process by its two rules that act.
fn reset_by(
    alloc: Global,
    setting: &Setting<'_>,
    first: &SyncRule,
    second: &SyncRule,
) -> Result<Process, Memory>
    ensures value { (ports : Ports) → IsOuter setting.now.outer.now ports →
        IfOk result (λ made. made ≡ step.reset_by ports setting.now.outer.now.«module».now
        (setting.now.others.now.before.now ++ setting.now.others.now.after.now) setting.now.process.now
        first.now.updates (edges.edge_bit first.now.event) (edges.edge_bit second.now.event)) }
{
    match edge_bit(&first.event) {
        Some(one) => by_second(alloc, setting, first, one, second),
        None => setting.process.copy(),
    }
}

/// The process by the first rule, at this edge, and the second one.
fn by_second(
    alloc: Global,
    setting: &Setting<'_>,
    first: &SyncRule,
    one: EdgeBit,
    second: &SyncRule,
) -> Result<Process, Memory>
    ensures value { (ports : Ports) → IsOuter setting.now.outer.now ports →
        IfOk result (λ made. made ≡ step.reset_by ports setting.now.outer.now.«module».now
        (setting.now.others.now.before.now ++ setting.now.others.now.after.now) setting.now.process.now
        first.now.updates (Some (edge_as one)) (edges.edge_bit second.now.event)) }
{
    match edge_bit(&second.event) {
        Some(other) => by_edges(alloc, setting, first.updates.as_slice(), one, other),
        None => setting.process.copy(),
    }
}

/// The process by two edges with these lines.
fn by_edges(
    alloc: Global,
    setting: &Setting<'_>,
    lines: &[Link],
    one: EdgeBit,
    other: EdgeBit,
) -> Result<Process, Memory>
    ensures value { (ports : Ports) → IsOuter setting.now.outer.now ports →
        IfOk result (λ made. made ≡ step.reset_by ports setting.now.outer.now.«module».now
        (setting.now.others.now.before.now ++ setting.now.others.now.after.now) setting.now.process.now lines.now
        (Some (edge_as one)) (Some (edge_as other))) }
{
    let outer = setting.outer;
    let tested = outer
        .tests
        .is_tested(alloc, outer.module, one.bit, &setting.process.root)?;
    if tested {
        with_level(alloc, setting, one, lines)
    } else {
        with_level(alloc, setting, other, lines)
    }
}

/// The process with a level rule for the reset.
fn with_level(
    alloc: Global,
    setting: &Setting<'_>,
    reset: EdgeBit,
    lines: &[Link],
) -> Result<Process, Memory>
    ensures value { (ports : Ports) → IsOuter setting.now.outer.now ports →
        IfOk result (λ made. made ≡ step.with_level ports setting.now.outer.now.«module».now
        (setting.now.others.now.before.now ++ setting.now.others.now.after.now) setting.now.process.now
        (edge_as reset) lines.now) }
{
    let bits = tree_bits(alloc, &setting.process.root)?;
    let tree = bits.as_slice();
    let active = root_at(
        alloc,
        setting.outer,
        reset.bit,
        reset.level,
        &setting.process.root,
    )?;
    let leaves = Leaves::of(alloc, &active, tree, None)?;
    by_leaves(alloc, setting, reset, lines, tree, &leaves)
}

/// The process with a level rule for the reset, by the tree bits and the leaves with the reset active.
fn by_leaves(
    alloc: Global,
    setting: &Setting<'_>,
    reset: EdgeBit,
    lines: &[Link],
    bits: &[WireBit],
    leaves: &Leaves,
) -> Result<Process, Memory>
    requires bits { bits.now ≡ tree_bits setting.now.process.now.root }
    ensures value { (ports : Ports) (active : CaseView) → IsOuter setting.now.outer.now ports →
        active ≡ open_case (switch_test ports setting.now.outer.now.«module».now reset.bit) reset.level
        setting.now.process.now.root → AreLeaves leaves.now active bits.now →
        IfOk result (λ made. made ≡ step.with_level ports setting.now.outer.now.«module».now
        (setting.now.others.now.before.now ++ setting.now.others.now.after.now) setting.now.process.now
        (edge_as reset) lines.now) }
{
    let root = level_root(alloc, setting, reset, lines, bits, leaves)?;
    let syncs = level_rules(
        alloc,
        leaves,
        reset,
        lines,
        setting.process.syncs.as_slice(),
    )?;
    process_with(setting.process, root, syncs)
}

/// The process with this root and these rules.
fn process_with(process: &Process, root: Case, syncs: Seq<SyncRule>) -> Result<Process, Memory>
    ensures value { IfOk result (λ made. made ≡ record process.now { root = root; syncs = syncs }) }
{
    Ok(Process {
        name: process.name.copy()?,
        root,
        syncs,
        attributes: process.attributes.copy()?,
    })
}

/// The rules with the reset's level rule in the place of its edge rule.
fn level_rules(
    alloc: Global,
    leaves: &Leaves,
    reset: EdgeBit,
    lines: &[Link],
    rules: &[SyncRule],
) -> Result<Seq<SyncRule>, Memory>
    ensures value { (root : CaseView) (bits : List WireBit) → AreLeaves leaves.now root bits →
        IfOk result (λ made. made ≡
        step.with_reset reset.bit (step.reset_rule (leaves_at root bits) (edge_as reset) lines.now) rules.now) }
{
    let rule = reset_rule(alloc, leaves, reset, lines)?;
    let made = with_reset(alloc, reset.bit, &rule, rules)?;
    Ok(Seq::from_vec(made))
}

/// The root without tests of the reset, where it need not be tested any more.
fn level_root(
    alloc: Global,
    setting: &Setting<'_>,
    reset: EdgeBit,
    lines: &[Link],
    bits: &[WireBit],
    leaves: &Leaves,
) -> Result<Case, Memory>
    ensures value { (ports : Ports) (active : CaseView) → IsOuter setting.now.outer.now ports →
        AreLeaves leaves.now active bits.now →
        IfOk result (λ root. root ≡ (if not (list_any (is_held active bits.now) (all_joins lines.now))
        && (step.are_unread bits.now (step.outer_reads ports setting.now.outer.now.«module».now
        (setting.now.others.now.before.now ++ setting.now.others.now.after.now)) && step.are_unread bits.now
        (step.control_reads setting.now.process.now)) then open_case
        (switch_test ports setting.now.outer.now.«module».now reset.bit) (not reset.level)
        setting.now.process.now.root else setting.now.process.now.root)) }
{
    let free = is_free(alloc, setting, bits, leaves, lines)?;
    root_after(alloc, setting.outer, reset, free, &setting.process.root)
}

/// The root with the bit at the level.
fn root_at(
    alloc: Global,
    outer: &Outer,
    event: WireBit,
    level: bool,
    root: &Case,
) -> Result<Case, Memory>
    ensures value { (ports : Ports) → IsOuter outer.now ports →
        IfOk result (λ made. made ≡ open_case (switch_test ports outer.now.«module».now event) level root.now) }
{
    let by = Level {
        tests: outer.tests,
        module: outer.module,
        event,
        level,
    };
    at_level(alloc, &by, root)
}

/// The root without tests of the reset, where they need not stand.
fn root_after(
    alloc: Global,
    outer: &Outer,
    reset: EdgeBit,
    free: bool,
    root: &Case,
) -> Result<Case, Memory>
    ensures value { (ports : Ports) → IsOuter outer.now ports → IfOk result (λ made.
        made ≡ (if free then open_case (switch_test ports outer.now.«module».now reset.bit) (not reset.level)
        root.now else root.now)) }
{
    if free {
        root_at(alloc, outer, reset.bit, !reset.level, root)
    } else {
        root.copy()
    }
}

/// Whether the reset need not be tested any more: no bit holds under it, and no tree bit is read but by the assigns and
/// updates of the process. The leaves are those with the reset active.
fn is_free(
    alloc: Global,
    setting: &Setting<'_>,
    bits: &[WireBit],
    leaves: &Leaves,
    lines: &[Link],
) -> Result<bool, Memory>
    ensures value { (ports : Ports) (m : rtl.Module) (active : CaseView) →
        AreIn setting.now.outer.now.reads.now (wire_bits (fixed_signals ports m)) →
        AreLeaves leaves.now active bits.now →
        IfOk result (λ free. free ≡ (not (list_any (is_held active bits.now) (all_joins lines.now))
        && (step.are_unread bits.now (step.outer_reads ports m (setting.now.others.now.before.now
        ++ setting.now.others.now.after.now)) && step.are_unread bits.now
        (step.control_reads setting.now.process.now)))) }
{
    if lines_hold(leaves, lines) {
        return Ok(false);
    }
    are_free(
        alloc,
        setting.outer.reads,
        setting.others,
        setting.process,
        bits,
    )
}

//! The way through a tree for a run.

ghost use Rattle.std.specs.Prelude.{◌≡◌, ◌+◌, Err, IfOk, OnOk, Some, slice_get, unwrap_or};
ghost use Rattle.rtl_ir.specs.Tree.{cases_of, switches_of};
ghost use Rattle.net_index.specs.Builder.{IsInLimits, PassesLimit};
ghost use Rattle.match_cells.specs.Numbers.{HasCases, HasSwitches, behind_case, behind_switch};
ghost use Rattle.match_cells.specs.Trees.{seen};
ghost use Rattle.proc_mux.specs.Trees.{case_value, cases_value, switch_value, switches_value, value_at};

use crate::given::{Given, has_between, value_at};
use match_cells::{Trees, behind, case_nodes};
use net_index::PassFault;
use rtl_bits::{Copied, Memory};
use rtl_ir::{Case, Switch};
use rtl_sig::{SigBit, SigSpec};
use std::alloc::Global;

/// By what the way of a run goes: a table that has of each node the first node behind it, and what the assigns of cases
/// give the run.
#[derive(Clone, Copy)]
pub(crate) struct Walk<'a> {
    pub(crate) table: &'a [usize],
    pub(crate) given: &'a [Given],
}

/// A switch as its cases meet it: the signal that it tests, and the value of the run before it.
#[derive(Clone, Copy)]
struct Entered<'a> {
    signal: &'a [SigBit],
    prior: &'a [SigBit],
}

/// The switches act in order on the value of a run. The first of them is the node of this number.
#[cycle(tree)]
pub(crate) fn switches_value(
    trees: &mut Trees,
    by: &Walk<'_>,
    node: usize,
    switches: &[Switch],
    prior: SigSpec,
) -> Result<SigSpec, PassFault>
    requires table { HasSwitches by.now.table.now node (switches_of switches.now) }
    ensures exact { IfOk result (λ value. (value, seen trees.new) ≡
        switches_value by.now.given.now node (switches_of switches.now) prior (seen trees.old)) }
    ensures over { result ≡ Err PassFault.Over →
        PassesLimit
        (switches_value by.now.given.now node (switches_of switches.now) prior (seen trees.old)).1.building }
    ensures within { IsInLimits trees.old.builder → OnOk result (IsInLimits trees.new.builder) }
{
    let mut node = node;
    let mut value = prior;
    for switch in switches {
        value = switch_value(trees, by, node, switch, value)?;
        node = behind(by.table, node);
    }
    Ok(value)
}

/// The switch acts on the value of a run, where it assigns the run.
#[cycle(tree)]
fn switch_value(
    trees: &mut Trees,
    by: &Walk<'_>,
    node: usize,
    switch: &Switch,
    prior: SigSpec,
) -> Result<SigSpec, PassFault>
    requires behind { slice_get by.now.table.now node ≡ Some (behind_switch node switch.now.cases) }
    requires table { HasCases by.now.table.now (node + 1) switch.now.cases }
    ensures exact { IfOk result (λ value. (value, seen trees.new) ≡
        switch_value by.now.given.now node switch.now.signal switch.now.cases prior (seen trees.old)) }
    ensures over { result ≡ Err PassFault.Over →
        PassesLimit
        (switch_value by.now.given.now node switch.now.signal switch.now.cases prior (seen trees.old)).1.building }
    ensures within { IsInLimits trees.old.builder → OnOk result (IsInLimits trees.new.builder) }
{
    if !has_between(by.given, node, behind(by.table, node)) {
        return Ok(prior);
    }
    let signal = switch.signal.as_slice();
    cases_value(trees, by, node + 1, signal, switch.cases.as_slice(), prior)
}

/// The cases of a switch act, the last one first, on the value of a run before the switch.
#[cycle(tree)]
fn cases_value(
    trees: &mut Trees,
    by: &Walk<'_>,
    node: usize,
    signal: &[SigBit],
    cases: &[Case],
    prior: SigSpec,
) -> Result<SigSpec, PassFault>
    requires table { HasCases by.now.table.now node (cases_of cases.now) }
    ensures exact { IfOk result (λ value. (value, seen trees.new) ≡
        cases_value by.now.given.now node signal.now (cases_of cases.now) prior (seen trees.old)) }
    ensures over { result ≡ Err PassFault.Over →
        PassesLimit
        (cases_value by.now.given.now node signal.now (cases_of cases.now) prior (seen trees.old)).1.building }
    ensures within { IsInLimits trees.old.builder → OnOk result (IsInLimits trees.new.builder) }
{
    let nodes = case_nodes(trees.alloc, by.table, node, cases)?;
    let nodes = nodes.as_slice();
    let mut value = prior.copy()?;
    let entered = Entered {
        signal,
        prior: prior.as_slice(),
    };
    for at in (0..cases.len()).rev() {
        value = case_value(trees, by, &entered, nodes[at], &cases[at], value)?;
    }
    Ok(value)
}

/// The case acts on what stands for the cases behind it.
#[cycle(tree)]
fn case_value(
    trees: &mut Trees,
    by: &Walk<'_>,
    entered: &Entered<'_>,
    node: usize,
    case: &Case,
    acc: SigSpec,
) -> Result<SigSpec, PassFault>
    requires behind { slice_get by.now.table.now node ≡ Some (behind_case node case.now.switches) }
    requires table { HasSwitches by.now.table.now (node + 1) case.now.switches }
    ensures exact { IfOk result (λ value. (value, seen trees.new) ≡
        case_value by.now.given.now node entered.now.signal.now case.now.patterns case.now.switches
        entered.now.prior.now acc (seen trees.old)) }
    ensures over { result ≡ Err PassFault.Over →
        PassesLimit
        (case_value by.now.given.now node entered.now.signal.now case.now.patterns case.now.switches
        entered.now.prior.now acc (seen trees.old)).1.building }
    ensures within { IsInLimits trees.old.builder → OnOk result (IsInLimits trees.new.builder) }
{
    let start = start_of(trees.alloc, by.given, node, entered.prior)?;
    let body = switches_value(trees, by, node + 1, case.switches.as_slice(), start)?;
    trees.with_case(node, entered.signal, case.patterns.as_slice(), body, acc)
}

/// What a run has once the assigns of the case at this node have acted.
pub(crate) fn start_of(
    alloc: Global,
    given: &[Given],
    node: usize,
    prior: &[SigBit],
) -> Result<SigSpec, Memory>
    ensures value { IfOk result (λ value. value ≡ unwrap_or (value_at given.now node) prior.now) }
{
    match value_at(given, node) {
        Some(value) => SigSpec::from_slice(alloc, value),
        None => SigSpec::from_slice(alloc, prior),
    }
}

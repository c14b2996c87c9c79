//! Processes, one after another.

ghost use Rattle.std.specs.Prelude.{◌≡◌, Err, IfOk, Some, None, false, filter, if◌then◌else◌, map, true};
ghost use Rattle.std.specs.List.{list_any};
ghost use Rattle.std.specs.Option.{option_map_or};
ghost use Rattle.rtl_ir.specs.declared.process.SyncRule.{SyncRule};
ghost use Rattle.rtl_ir.specs.Rules.{acting_rules};
ghost use Rattle.net_index.specs.Builder.{IsInLimits, PassesLimit};
ghost use Rattle.net_model.specs.Proc.Latch.{is_always, latch_process, latches_step, without_always};
ghost use Rattle.process_trees.specs.Acting.{acts};
ghost use Rattle.proc_latch.specs.Steps.{always_process, lone};

use crate::chains::Chains;
use crate::reading::tables_of;
use indexmap::IndexMap;
use match_cells::Trees;
use net_index::{Builder, PassFault};
use process_trees::acts;
use rtl_bits::{Copied, Memory, Seq};
use rtl_ir::{Case, Event, Link, Process, SyncRule};
use std::alloc::Global;

/// The bits that the processes always update become latches and connections. After an error the builder is given up.
pub(crate) fn latches_step(
    alloc: Global,
    builder: Builder,
    processes: &[Process],
) -> Result<Builder, PassFault>
    ensures exact { IfOk result (λ after. after ≡ latches_step processes.now builder) }
    ensures over { result ≡ Err PassFault.Over → PassesLimit (latches_step processes.now builder) }
    ensures within { IsInLimits builder → IfOk result IsInLimits }
{
    let mut builder = builder;
    for process in processes {
        builder = latch_process(alloc, builder, process)?;
    }
    Ok(builder)
}

/// A process with one rule that acts, where that always does. Any other adds nothing.
fn latch_process(alloc: Global, builder: Builder, process: &Process) -> Result<Builder, PassFault>
    ensures exact { IfOk result (λ after. after ≡ latch_process process.now (acting_rules process.now.syncs) builder) }
    ensures over { result ≡ Err PassFault.Over →
        PassesLimit (latch_process process.now (acting_rules process.now.syncs) builder) }
    ensures within { IsInLimits builder → IfOk result IsInLimits }
{
    match only_acting(process.syncs.as_slice()) {
        Some(rule) if is_always(&rule.event) => {
            always_process(alloc, builder, &process.root, rule.updates.as_slice())
        }
        _ => Ok(builder),
    }
}

/// The lines of a rule that always acts.
fn always_process(
    alloc: Global,
    builder: Builder,
    root: &Case,
    updates: &[Link],
) -> Result<Builder, PassFault>
    ensures exact { IfOk result (λ after. after ≡ always_process root.now updates.now builder) }
    ensures over { result ≡ Err PassFault.Over → PassesLimit (always_process root.now updates.now builder) }
    ensures within { IsInLimits builder → IfOk result IsInLimits }
{
    let tables = tables_of(alloc, root)?;
    let mut chains = Chains {
        trees: Trees::of(alloc, builder, tables.nodes.len())?,
        chains: IndexMap::new(alloc),
    };
    chains.always_lines(root, &tables, updates)?;
    Ok(chains.trees.builder)
}

/// The rule that acts, where only one does.
fn only_acting(rules: &[SyncRule]) -> Option<&SyncRule>
    ensures value { option_map_or (λ (r : _). Some r.now) result None ≡ lone (acting_rules rules.now) }
{
    for at in 0..rules.len() {
        let rule = &rules[at];
        if acts(rule) {
            return alone(rule, &rules[at + 1..]);
        }
    }
    None
}

/// The rule, where none of the others acts.
fn alone<'a>(rule: &'a SyncRule, others: &[SyncRule]) -> Option<&'a SyncRule>
    ensures value { option_map_or (λ (r : _). Some r.now) result None ≡
        (if list_any acts others.now then None else Some rule.now) }
{
    if any_acts(others) { None } else { Some(rule) }
}

/// Whether one of the rules acts.
fn any_acts(rules: &[SyncRule]) -> bool
    ensures value { result ≡ list_any acts rules.now }
{
    rules.iter().any(|rule| acts(rule))
}

/// Whether the event is that of a rule that always acts.
fn is_always(event: &Event) -> bool
    ensures value { result ≡ is_always event.now }
{
    matches!(event, Event::Always)
}

/// The processes without their rules that always act.
pub(crate) fn without_always(alloc: Global, processes: &[Process]) -> Result<Vec<Process>, Memory>
    ensures value { IfOk result (λ left. left.items ≡ map without_always processes.now) }
{
    let mut left = Vec::with_capacity(alloc, processes.len())?;
    for process in processes {
        left.push(process_left(alloc, process)?)?;
    }
    Ok(left)
}

/// The process without its rules that always act.
fn process_left(alloc: Global, process: &Process) -> Result<Process, Memory>
    ensures value { IfOk result (λ left. left ≡ without_always process.now) }
{
    Ok(Process {
        name: process.name.copy()?,
        root: process.root.copy()?,
        syncs: Seq::from_vec(rules_left(alloc, process.syncs.as_slice())?),
        attributes: process.attributes.copy()?,
    })
}

/// The rules that do not always act.
fn rules_left(alloc: Global, rules: &[SyncRule]) -> Result<Vec<SyncRule>, Memory>
    ensures value { IfOk result (λ left. left.items ≡ filter (λ (r : SyncRule).
        if is_always r.event then false else true) rules.now) }
{
    let mut left = Vec::with_capacity(alloc, rules.len())?;
    for rule in rules {
        if !is_always(&rule.event) {
            left.push(rule.copy()?)?;
        }
    }
    Ok(left)
}

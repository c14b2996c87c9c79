//! Processes with their switches by the rules, and without the rules that give start values.

ghost use Rattle.std.specs.Prelude.{◌≡◌, filter, flat_map, map, not, IfOk, OnOk};
ghost use Rattle.rtl_ir.specs.declared.process.SyncRule.{SyncRule};
ghost use Rattle.rtl_ir.specs.Flat.Start.{process_starts};
ghost use Rattle.rtl_ir.specs.Rules.{is_init};
ghost use Rattle.net_model.specs.Proc.Start.{ruled_process};
ghost use Rattle.proc_tree.specs.Starts.{Adds};

use crate::starts::Starts;
use process_trees::ruled;
use rtl_bits::{Copied, Memory, Seq};
use rtl_ir::{Event, Process, SyncRule};
use std::alloc::Global;

/// The processes by the rules; the start values that they give stand behind those that were there.
pub(crate) fn ruled_processes(
    alloc: Global,
    processes: &[Process],
    starts: &mut Starts,
) -> Result<Vec<Process>, Memory>
    ensures value { IfOk result (λ ruled. ruled.items ≡ map ruled_process processes.now) }
    ensures starts { OnOk result (Adds starts.old starts.new (flat_map process_starts processes.now)) }
{
    let mut ruled = Vec::with_capacity(alloc, processes.len())?;
    for process in processes {
        ruled.push(ruled_process(alloc, process, starts)?)?;
    }
    Ok(ruled)
}

/// The process by the rules, and its start values behind the others.
fn ruled_process(alloc: Global, process: &Process, starts: &mut Starts) -> Result<Process, Memory>
    ensures value { IfOk result (λ ruled. ruled ≡ ruled_process process.now) }
    ensures starts { OnOk result (Adds starts.old starts.new (process_starts process.now)) }
{
    let rules = process.syncs.as_slice();
    let root = ruled(alloc, &process.root)?;
    starts.put_process(alloc, &root, rules)?;
    Ok(Process {
        name: process.name.copy()?,
        root,
        syncs: Seq::from_vec(rules_left(alloc, rules)?),
        attributes: process.attributes.copy()?,
    })
}

/// The rules that give no start values.
fn rules_left(alloc: Global, rules: &[SyncRule]) -> Result<Vec<SyncRule>, Memory>
    ensures value { IfOk result (λ left. left.items ≡ filter (λ (r : SyncRule). not (is_init r.event)) rules.now) }
{
    let mut left = Vec::with_capacity(alloc, rules.len())?;
    for rule in rules {
        if !matches!(rule.event, Event::Init) {
            left.push(rule.copy()?)?;
        }
    }
    Ok(left)
}

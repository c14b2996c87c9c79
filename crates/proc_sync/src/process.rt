//! Processes, one after another, by their rules that act.

ghost use Rattle.std.specs.Prelude.{◌≡◌, ◌∷◌, [], Err, List, MatchOption, OnOk};
ghost use Rattle.rtl_ir.specs.Build.{Building};
ghost use Rattle.rtl_ir.specs.Flat.Process.{edge_trigger, level_trigger};
ghost use Rattle.rtl_ir.specs.Rules.{acting_rules};
ghost use Rattle.rtl_ir.specs.declared.module.Link.{Link};
ghost use Rattle.rtl_ir.specs.declared.process.Process.{Process};
ghost use Rattle.net_index.specs.Builder.{IsInLimits, PassesLimit};
ghost use Rattle.net_model.specs.Proc.Sync.{edge_and_level, in_turn, one_rule, rules_step, two_rules};
ghost use Rattle.rtl_ir.specs.Triggers.{trigger_of};
ghost use Rattle.proc_sync.specs.Events.{both_of, form_step};

use crate::rules::{Form, lines_step};
use crate::sources::Sources;
use net_index::{Builder, PassFault};
use rtl_ir::{Event, Link, Process, SyncRule, Trigger, acts, edge_trigger, level_trigger};
use std::alloc::Global;

/// The first rule that acts, and the rules behind it.
fn next_acting(rules: &[SyncRule]) -> Option<(&SyncRule, &[SyncRule])>
    ensures value { MatchOption result (acting_rules rules.now ≡ []) (λ x. acting_rules rules.now ≡
        x.0.now ∷ acting_rules x.1.now) }
{
    for at in 0..rules.len() {
        if acts(&rules[at]) {
            return Some((&rules[at], &rules[at + 1..]));
        }
    }
    None
}

/// The form of a rule that stands alone; `None` where it adds nothing.
fn one_form(event: &Event) -> Option<Form<'_>>
    ensures value { (lines : List Link) (b : Building) →
        form_step result [] lines b ≡ one_rule (edge_trigger event.now) (level_trigger event.now) event.now lines b }
{
    if let Some(edge) = edge_trigger(event) {
        return Some(Form::AtEdge(edge));
    }
    if let Some(level) = level_trigger(event) {
        return Some(Form::AtLevel(level));
    }
    match event {
        Event::Global => Some(Form::AtSteps),
        _ => None,
    }
}

/// The cells of a rule that stands alone.
fn one_rule(alloc: Global, rule: &SyncRule, builder: &mut Builder) -> Result<(), PassFault>
    ensures exact { OnOk result (builder.new ≡
        one_rule (edge_trigger rule.now.event)
        (level_trigger rule.now.event) rule.now.event rule.now.updates builder.old) }
    ensures over { result ≡ Err PassFault.Over →
        PassesLimit (one_rule (edge_trigger rule.now.event)
        (level_trigger rule.now.event) rule.now.event rule.now.updates builder.old) }
    ensures within { IsInLimits builder.old → OnOk result (IsInLimits builder.new) }
{
    match one_form(&rule.event) {
        Some(form) => {
            let none = Sources::none(alloc);
            lines_step(alloc, &form, &none, rule.updates.as_slice(), builder)
        }
        None => Ok(()),
    }
}

/// Two controls, where both are there.
fn both_of<'a>(
    edge: Option<Trigger<'a>>,
    level: Option<Trigger<'a>>,
) -> Option<(Trigger<'a>, Trigger<'a>)>
    ensures value { result ≡ both_of edge.entry level.entry }
{
    match (edge, level) {
        (Some(edge), Some(level)) => Some((edge, level)),
        _ => None,
    }
}

/// The cells of an edge rule, and then those of the bits of a level rule that it does not have.
fn edge_and_level(
    alloc: Global,
    edge: &Trigger<'_>,
    edges: &[Link],
    level: &Trigger<'_>,
    levels: &[Link],
    builder: &mut Builder,
) -> Result<(), PassFault>
    ensures exact { OnOk result (builder.new ≡
        edge_and_level (trigger_of edge.now) edges.now (trigger_of level.now) levels.now builder.old) }
    ensures over { result ≡ Err PassFault.Over →
        PassesLimit (edge_and_level (trigger_of edge.now) edges.now (trigger_of level.now) levels.now builder.old) }
    ensures within { IsInLimits builder.old → OnOk result (IsInLimits builder.new) }
{
    let given = Sources::of(alloc, levels)?;
    let taken = Sources::of(alloc, edges)?;
    lines_step(alloc, &Form::Beside(*edge, *level), &given, edges, builder)?;
    lines_step(alloc, &Form::AtLevel(*level), &taken, levels, builder)
}

/// The cells of two rules: an edge rule and a level rule, in either order.
fn two_rules(
    alloc: Global,
    a: &SyncRule,
    b: &SyncRule,
    builder: &mut Builder,
) -> Result<(), PassFault>
    ensures exact { OnOk result (builder.new ≡
        two_rules (edge_trigger a.now.event) (edge_trigger b.now.event) (level_trigger a.now.event)
        (level_trigger b.now.event) a.now.updates b.now.updates builder.old) }
    ensures over { result ≡ Err PassFault.Over →
        PassesLimit (two_rules (edge_trigger a.now.event) (edge_trigger b.now.event) (level_trigger a.now.event)
        (level_trigger b.now.event) a.now.updates b.now.updates builder.old) }
    ensures within { IsInLimits builder.old → OnOk result (IsInLimits builder.new) }
{
    let first = a.updates.as_slice();
    let second = b.updates.as_slice();
    if let Some((edge, level)) = both_of(edge_trigger(&a.event), level_trigger(&b.event)) {
        return edge_and_level(alloc, &edge, first, &level, second, builder);
    }
    if let Some((edge, level)) = both_of(edge_trigger(&b.event), level_trigger(&a.event)) {
        return edge_and_level(alloc, &edge, second, &level, first, builder);
    }
    Ok(())
}

/// The cells of the rules of a process: of one that acts, or of two.
fn rules_step(alloc: Global, rules: &[SyncRule], builder: &mut Builder) -> Result<(), PassFault>
    ensures exact { OnOk result (builder.new ≡ rules_step (acting_rules rules.now) builder.old) }
    ensures over { result ≡ Err PassFault.Over → PassesLimit (rules_step (acting_rules rules.now) builder.old) }
    ensures within { IsInLimits builder.old → OnOk result (IsInLimits builder.new) }
{
    match next_acting(rules) {
        None => Ok(()),
        Some((a, rest)) => rules_behind(alloc, a, rest, builder),
    }
}

/// The cells of a rule that acts, with those that act behind it.
fn rules_behind(
    alloc: Global,
    a: &SyncRule,
    rest: &[SyncRule],
    builder: &mut Builder,
) -> Result<(), PassFault>
    ensures exact { OnOk result (builder.new ≡ rules_step (a.now ∷ acting_rules rest.now) builder.old) }
    ensures over { result ≡ Err PassFault.Over → PassesLimit (rules_step (a.now ∷ acting_rules rest.now) builder.old) }
    ensures within { IsInLimits builder.old → OnOk result (IsInLimits builder.new) }
{
    match next_acting(rest) {
        None => one_rule(alloc, a, builder),
        Some((b, rest)) => match next_acting(rest) {
            None => two_rules(alloc, a, b, builder),
            Some(_) => Ok(()),
        },
    }
}

/// The cells of the processes, one after another. After an error the builder holds the cells of some.
pub(crate) fn processes_step(
    alloc: Global,
    processes: &[Process],
    builder: &mut Builder,
) -> Result<(), PassFault>
    ensures exact { OnOk result (builder.new ≡
        in_turn (λ (p : Process). rules_step (acting_rules p.syncs)) processes.now builder.old) }
    ensures over { result ≡ Err PassFault.Over →
        PassesLimit (in_turn (λ (p : Process). rules_step (acting_rules p.syncs)) processes.now builder.old) }
    ensures within { IsInLimits builder.old → OnOk result (IsInLimits builder.new) }
{
    for process in processes {
        rules_step(alloc, process.syncs.as_slice(), builder)?;
    }
    Ok(())
}

//! Which rules a process may have together.

ghost use Rattle.std.specs.Prelude.{◌≡◌, ◌&&◌, List, [], ◌∷◌};
ghost use Rattle.std.specs.List.{list_any};
ghost use Rattle.rtl_ir.specs.declared.process.SyncRule.{SyncRule};
ghost use Rattle.rtl_ir.specs.Faults.RuleKinds as kinds;
ghost use Rattle.rtl_ir.specs.Rules.{is_init};
ghost use Rattle.process_trees.specs.Acting.{Acts};
ghost use Rattle.process_check.specs.Acting.{acting_stand, is_level};

use process_trees::{Acting, acting_rules, is_init, writes};
use rtl_ir::{Event, Same, SyncRule};
use rtl_sig::SigBit;

/// Whether the rules of a process may stand together, and each of their events has one bit of a wire.
pub(crate) fn rules_stand(rules: &[SyncRule]) -> bool
    ensures value { result ≡ kinds.rules_stand rules.now }
{
    acting_stand(acting_rules(rules)) && !start_writes(rules)
}

/// Whether a rule that gives start values writes a memory.
fn start_writes(rules: &[SyncRule]) -> bool
    ensures value { result ≡ list_any (λ (r : SyncRule). is_init r.event && kinds.writes r) rules.now }
{
    for rule in rules {
        if is_init(&rule.event) && writes(rule) {
            return true;
        }
    }
    false
}

/// Whether these rules may act together.
fn acting_stand(acting: Acting) -> bool
    ensures value { (rules : List SyncRule) → Acts acting.entry rules → result ≡ acting_stand rules }
{
    match acting {
        Acting::Idle => true,
        Acting::Single(rule) => stands_alone(rule),
        Acting::Pair(first, second) => stand_together(first, second),
        Acting::Several => false,
    }
}

/// Whether the rule may act alone. At one edge it may write.
fn stands_alone(rule: &SyncRule) -> bool
    ensures value { result ≡ acting_stand (rule.now ∷ []) }
{
    match &rule.event {
        Event::Posedge(signal) | Event::Negedge(signal) => is_one_bit(signal.as_slice()),
        Event::Low(signal) | Event::High(signal) => {
            is_one_bit(signal.as_slice()) && !writes(rule)
        }
        Event::Global | Event::Always => !writes(rule),
        Event::Edge(_) | Event::Init => false,
    }
}

/// Whether the two rules may act together. Neither writes.
fn stand_together(first: &SyncRule, second: &SyncRule) -> bool
    ensures value { result ≡ acting_stand (first.now ∷ second.now ∷ []) }
{
    may_pair(&first.event, &second.event)
        && edges_agree(first, second)
        && has_one_bit(&first.event)
        && has_one_bit(&second.event)
        && !writes(first)
        && !writes(second)
}

/// Whether two events may stand together: an edge and a level, or two edges.
fn may_pair(first: &Event, second: &Event) -> bool
    ensures value { result ≡ kinds.may_stand (kinds.kind_of_event first.now ∷ kinds.kind_of_event second.now ∷ []) }
{
    if is_edge(first) {
        is_edge(second) || is_level(second)
    } else {
        is_level(first) && is_edge(second)
    }
}

/// Whether the two rules have the same updates, where both are at edges.
fn edges_agree(first: &SyncRule, second: &SyncRule) -> bool
    ensures value { result ≡ kinds.edges_agree (first.now ∷ second.now ∷ []) }
{
    if is_edge(&first.event) && is_edge(&second.event) {
        return same_updates(first, second);
    }
    true
}

/// Whether the lines that update are the same, one by one.
fn same_updates(first: &SyncRule, second: &SyncRule) -> bool
    ensures value { result ≡ kinds.same_updates first.now second.now }
{
    first.updates.same(&second.updates)
}

/// Whether the event is one edge.
fn is_edge(event: &Event) -> bool
    ensures value { result ≡ kinds.is_edge (kinds.kind_of_event event.now) }
{
    matches!(event, Event::Posedge(_) | Event::Negedge(_))
}

/// Whether the event is a level.
fn is_level(event: &Event) -> bool
    ensures value { result ≡ is_level (kinds.kind_of_event event.now) }
{
    matches!(event, Event::Low(_) | Event::High(_))
}

/// Whether the signal of the event, where it has one, is one bit of a wire.
fn has_one_bit(event: &Event) -> bool
    ensures value { result ≡ kinds.has_one_bit event.now }
{
    match event {
        Event::Low(signal)
        | Event::High(signal)
        | Event::Posedge(signal)
        | Event::Negedge(signal)
        | Event::Edge(signal) => is_one_bit(signal.as_slice()),
        Event::Global | Event::Init | Event::Always => true,
    }
}

/// Whether the signal is one bit of a wire.
fn is_one_bit(signal: &[SigBit]) -> bool
    ensures value { result ≡ kinds.is_one_bit signal.now }
{
    matches!(signal, [SigBit::Wire(_)])
}

//! The rules of a process that act.

ghost use Rattle.std.specs.Prelude.{◌≡◌, ◌++◌, List, [], ◌∷◌};
ghost use Rattle.rtl_ir.specs.declared.process.SyncRule.{SyncRule};
ghost use Rattle.rtl_ir.specs.Rules.{acting_rules, is_init};
ghost use Rattle.rtl_ir.specs.Faults.RuleKinds.{writes};
ghost use Rattle.process_trees.specs.Acting.{Acts, acts};

use rtl_ir::{Event, SyncRule, has_line};

/// The rules that act, as far as a process that is taken may have them: none, one, two in order, or more.
#[derive(Clone, Copy)]
pub enum Acting<'a> {
    Idle,
    Single(&'a SyncRule),
    Pair(&'a SyncRule, &'a SyncRule),
    Several,
}

/// The rules that act: those with lines, but for those that give start values.
pub fn acting_rules(rules: &[SyncRule]) -> Acting<'_>
    ensures value { Acts result (acting_rules rules.now) }
{
    let mut acting = Acting::Idle;
    for rule in rules {
        if acts(rule) {
            acting = with_rule(acting, rule);
        }
    }
    acting
}

/// The rules that act, with one more.
fn with_rule<'a>(acting: Acting<'a>, rule: &'a SyncRule) -> Acting<'a>
    ensures value { (rules : List SyncRule) → Acts acting.entry rules → Acts result (rules ++ (rule.now ∷ [])) }
{
    match acting {
        Acting::Idle => Acting::Single(rule),
        Acting::Single(first) => Acting::Pair(first, rule),
        Acting::Pair(_, _) | Acting::Several => Acting::Several,
    }
}

/// Whether the rule acts.
pub fn acts(rule: &SyncRule) -> bool
    ensures value { result ≡ acts rule.now }
{
    has_line(rule) && !is_init(&rule.event)
}

/// Whether a rule gives start values.
pub fn is_init(event: &Event) -> bool
    ensures value { result ≡ is_init event.now }
{
    matches!(event, Event::Init)
}

/// Whether the rule has a line that writes.
pub fn writes(rule: &SyncRule) -> bool
    ensures value { result ≡ writes rule.now }
{
    !rule.writes.as_slice().is_empty()
}

//! What may be wrong with the records of a process as they are written.

ghost use Rattle.std.specs.Prelude.{◌≡◌, ◌||◌};
ghost use Rattle.std.specs.List.{list_any};
ghost use Rattle.rtl_ir.specs.Faults.ProcessLimits.{gives_to_constant, has_uneven, is_too_wide};
ghost use Rattle.process_check.specs.Flaws.{case_has, line_has, other_width, patterns_have, rule_has, signal_has};
ghost use Rattle.process_check.specs.Flaws.{switch_has, write_has};

use crate::lines::{has_constant, is_uneven};
use rtl_ir::{Case, Link, Process, Switch, SyncRule, WriteLine};
use rtl_sig::{SigBit, SigSpec};

/// The most bits of a switch signal or a written value, and patterns of a case.
const MAX_ITEMS: usize = 4_096;

/// What may be wrong.
#[derive(Clone, Copy)]
pub(crate) enum Flaw {
    /// A switch signal, the patterns of a case or a written value pass the limit.
    TooWide,
    /// A pattern, an assign, an update or the enable of a line that writes has uneven widths.
    Uneven,
    /// An assign or an update gives to a constant.
    Constant,
}

/// Whether the process has too wide a switch signal or written value, or a case with too many patterns.
pub fn is_too_wide(process: &Process) -> bool
    ensures value { result ≡ is_too_wide process.now }
{
    has(Flaw::TooWide, process)
}

/// Whether the process has a pattern, an assign, an update or an enable of uneven widths.
pub fn has_uneven(process: &Process) -> bool
    ensures value { result ≡ has_uneven process.now }
{
    has(Flaw::Uneven, process)
}

/// Whether the process has an assign or an update that gives to a constant.
pub fn gives_to_constant(process: &Process) -> bool
    ensures value { result ≡ gives_to_constant process.now }
{
    has(Flaw::Constant, process)
}

/// Whether the process has it.
fn has(flaw: Flaw, process: &Process) -> bool
    ensures value { result ≡ (case_has flaw process.now.root || list_any (rule_has flaw) process.now.syncs) }
{
    case_has(flaw, &process.root) || rules_have(flaw, process.syncs.as_slice())
}

/// Whether the case has it, or what stands below. Of its patterns nothing is said.
#[cycle(tree)]
fn case_has(flaw: Flaw, case: &Case) -> bool
    ensures value { result ≡ case_has flaw case.now }
{
    if lines_have(flaw, case.assigns.as_slice()) {
        return true;
    }
    for switch in &case.switches {
        if switch_has(flaw, switch) {
            return true;
        }
    }
    false
}

/// Whether the switch has it, or what stands below.
#[cycle(tree)]
fn switch_has(flaw: Flaw, switch: &Switch) -> bool
    ensures value { result ≡ switch_has flaw switch.now }
{
    let signal = switch.signal.as_slice();
    if signal_has(flaw, signal) {
        return true;
    }
    for case in &switch.cases {
        if patterns_have(flaw, signal.len(), case.patterns.as_slice()) {
            return true;
        }
        if case_has(flaw, case) {
            return true;
        }
    }
    false
}

/// Whether the signal of a switch has it.
fn signal_has(flaw: Flaw, signal: &[SigBit]) -> bool
    ensures value { result ≡ signal_has flaw signal.now }
{
    match flaw {
        Flaw::TooWide => signal.len() > MAX_ITEMS,
        Flaw::Uneven | Flaw::Constant => false,
    }
}

/// Whether the patterns of a case have it, of a switch on a signal of this width.
fn patterns_have(flaw: Flaw, width: usize, patterns: &[SigSpec]) -> bool
    ensures value { result ≡ patterns_have flaw width patterns.now }
{
    match flaw {
        Flaw::TooWide => patterns.len() > MAX_ITEMS,
        Flaw::Uneven => have_other_width(width, patterns),
        Flaw::Constant => false,
    }
}

/// Whether one of the patterns has another width.
fn have_other_width(width: usize, patterns: &[SigSpec]) -> bool
    ensures value { result ≡ list_any (other_width width) patterns.now }
{
    for pattern in patterns {
        if pattern.as_slice().len() != width {
            return true;
        }
    }
    false
}

/// Whether one of the rules has it.
fn rules_have(flaw: Flaw, rules: &[SyncRule]) -> bool
    ensures value { result ≡ list_any (rule_has flaw) rules.now }
{
    for rule in rules {
        if rule_has(flaw, rule) {
            return true;
        }
    }
    false
}

/// Whether a line of the rule has it.
fn rule_has(flaw: Flaw, rule: &SyncRule) -> bool
    ensures value { result ≡ rule_has flaw rule.now }
{
    lines_have(flaw, rule.updates.as_slice()) || writes_have(flaw, rule.writes.as_slice())
}

/// Whether one of the lines has it.
fn lines_have(flaw: Flaw, lines: &[Link]) -> bool
    ensures value { result ≡ list_any (line_has flaw) lines.now }
{
    for line in lines {
        if line_has(flaw, line) {
            return true;
        }
    }
    false
}

/// Whether the line has it.
fn line_has(flaw: Flaw, line: &Link) -> bool
    ensures value { result ≡ line_has flaw line.now }
{
    match flaw {
        Flaw::TooWide => false,
        Flaw::Uneven => is_uneven(line),
        Flaw::Constant => has_constant(line.left.as_slice()),
    }
}

/// Whether one of the lines that write has it.
fn writes_have(flaw: Flaw, lines: &[WriteLine]) -> bool
    ensures value { result ≡ list_any (write_has flaw) lines.now }
{
    for line in lines {
        if write_has(flaw, line) {
            return true;
        }
    }
    false
}

/// Whether the line that writes has it.
fn write_has(flaw: Flaw, line: &WriteLine) -> bool
    ensures value { result ≡ write_has flaw line.now }
{
    let width = line.value.as_slice().len();
    match flaw {
        Flaw::TooWide => width > MAX_ITEMS,
        Flaw::Uneven => line.enable.as_slice().len() != width,
        Flaw::Constant => false,
    }
}

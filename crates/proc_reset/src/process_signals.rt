//! What processes read.

ghost use Rattle.std.specs.Prelude.{◌≡◌, ◌++◌, flat_map, IfOk, OnOk};
ghost use Rattle.rtl_ir.specs.Assigns.{case_assigns, cases_assigns};
ghost use Rattle.rtl_ir.specs.Rules.{acting_rules};
ghost use Rattle.net_model.specs.Proc.Reset.{cases_signals, event_signal, switches_signals};
ghost use Rattle.proc_reset.specs.Reads.{
  control_signals,
  event_signals,
  process_signals,
  rule_signals,
  sources,
  write_signals,
};

use crate::signals::put_sources;
use process_trees::acts;
use rtl_bits::Memory;
use rtl_ir::{Case, Event, Process, Switch, SyncRule, WriteLine};
use rtl_sig::{SigBit, SigSpec};
use std::alloc::Global;

/// The signals that the process reads.
pub(crate) fn process_signals(alloc: Global, process: &Process) -> Result<Vec<SigBit>, Memory>
    ensures value { IfOk result (λ signals. signals.items ≡ process_signals process.now) }
{
    let mut signals = control_signals(alloc, process)?;
    put_assigned(&mut signals, &process.root)?;
    put_rules(&mut signals, process.syncs.as_slice())?;
    Ok(signals)
}

/// The signals of its tests, and of the events of its rules with lines.
pub(crate) fn control_signals(alloc: Global, process: &Process) -> Result<Vec<SigBit>, Memory>
    ensures value { IfOk result (λ signals. signals.items ≡ control_signals process.now) }
{
    let mut signals = Vec::new(alloc);
    put_tests(&mut signals, &process.root)?;
    put_events(&mut signals, process.syncs.as_slice())?;
    Ok(signals)
}

/// Puts the signals and patterns of the switches in the case and below it last.
#[cycle(tests)]
fn put_tests(signals: &mut Vec<SigBit>, case: &Case) -> Result<(), Memory>
    ensures ok { OnOk result (signals.new.items ≡ signals.old.items ++ switches_signals case.now.switches) }
{
    for switch in &case.switches {
        put_switch_tests(signals, switch)?;
    }
    Ok(())
}

/// Puts the signal and the patterns of the switch last, and those of the switches below it.
#[cycle(tests)]
fn put_switch_tests(signals: &mut Vec<SigBit>, switch: &Switch) -> Result<(), Memory>
    ensures ok { OnOk result (signals.new.items ≡
        signals.old.items ++ (switch.now.signal ++ cases_signals switch.now.cases)) }
{
    signals.extend_from_slice(switch.signal.as_slice())?;
    for case in &switch.cases {
        put_patterns(signals, case.patterns.as_slice())?;
        put_tests(signals, case)?;
    }
    Ok(())
}

/// Puts the patterns last.
fn put_patterns(signals: &mut Vec<SigBit>, patterns: &[SigSpec]) -> Result<(), Memory>
    ensures ok { OnOk result (signals.new.items ≡ signals.old.items ++ flat_map (λ pattern. pattern) patterns.now) }
{
    for pattern in patterns {
        signals.extend_from_slice(pattern.as_slice())?;
    }
    Ok(())
}

/// Puts the right sides of the assigns in the case and below it last.
#[cycle(assigned)]
fn put_assigned(signals: &mut Vec<SigBit>, case: &Case) -> Result<(), Memory>
    ensures ok { OnOk result (signals.new.items ≡ signals.old.items ++ sources (case_assigns case.now)) }
{
    put_sources(signals, case.assigns.as_slice())?;
    for switch in &case.switches {
        put_switch_assigned(signals, switch)?;
    }
    Ok(())
}

/// Puts the right sides of the assigns below the switch last.
#[cycle(assigned)]
fn put_switch_assigned(signals: &mut Vec<SigBit>, switch: &Switch) -> Result<(), Memory>
    ensures ok { OnOk result (signals.new.items ≡ signals.old.items ++ sources (cases_assigns switch.now.cases)) }
{
    for case in &switch.cases {
        put_assigned(signals, case)?;
    }
    Ok(())
}

/// Puts the signals of the events of the rules that act last.
fn put_events(signals: &mut Vec<SigBit>, rules: &[SyncRule]) -> Result<(), Memory>
    ensures ok { OnOk result (signals.new.items ≡ signals.old.items ++ event_signals (acting_rules rules.now)) }
{
    for rule in rules {
        if acts(rule) {
            signals.extend_from_slice(event_signal(&rule.event))?;
        }
    }
    Ok(())
}

/// The signal of the event, no bits where it has none.
fn event_signal(event: &Event) -> &[SigBit]
    ensures value { result.now ≡ event_signal event.now }
{
    match event {
        Event::Low(signal)
        | Event::High(signal)
        | Event::Posedge(signal)
        | Event::Negedge(signal)
        | Event::Edge(signal) => signal.as_slice(),
        Event::Global | Event::Init | Event::Always => &[],
    }
}

/// Puts the signals of the lines of the rules last.
fn put_rules(signals: &mut Vec<SigBit>, rules: &[SyncRule]) -> Result<(), Memory>
    ensures ok { OnOk result (signals.new.items ≡ signals.old.items ++ flat_map rule_signals rules.now) }
{
    for rule in rules {
        put_sources(signals, rule.updates.as_slice())?;
        put_writes(signals, rule.writes.as_slice())?;
    }
    Ok(())
}

/// Puts the signals of the lines that write last.
fn put_writes(signals: &mut Vec<SigBit>, lines: &[WriteLine]) -> Result<(), Memory>
    ensures ok { OnOk result (signals.new.items ≡ signals.old.items ++ write_signals lines.now) }
{
    for line in lines {
        signals.extend_from_slice(line.address.as_slice())?;
        signals.extend_from_slice(line.value.as_slice())?;
        signals.extend_from_slice(line.enable.as_slice())?;
    }
    Ok(())
}

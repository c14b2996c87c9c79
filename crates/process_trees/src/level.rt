//! Trees in which each switch that tests a bit is decided by a level of the bit.

ghost use Rattle.std.specs.Prelude.{◌≡◌, Some, None, IfOk};
ghost use Rattle.std.specs.List.{list_any};
ghost use Rattle.rtl_ir.specs.EventTests.{switch_test};
ghost use Rattle.rtl_ir.specs.Faults.TwoEdges.{takes_bit, tested_bit};
ghost use Rattle.rtl_ir.specs.SwitchRules.{matches_bit};
ghost use Rattle.rtl_ir.specs.Tree.{cases_of};
ghost use Rattle.rtl_ir.specs.Types.{Ports};
ghost use Rattle.net_model.specs.Proc.Reset.{is_taken};
ghost use Rattle.process_trees.specs.Fitting.{DoCellsFit};
ghost use Rattle.process_trees.specs.Tables.{AreTests};
ghost use Rattle.process_trees.specs.Levels.{case_at, open_case, switch_at, switch_by};

use crate::tables::EventTests;
use rtl_bits::{Bit, Copied, Memory, Seq};
use rtl_ir::{Case, Module, Switch};
use rtl_sig::{SigBit, SigSpec, WireBit};
use std::alloc::Global;

/// By what switches are decided: the tables of a module, a bit of an event, and a level of the bit, true for 1.
#[derive(Clone, Copy)]
pub struct Level<'a> {
    pub tests: &'a EventTests,
    pub module: &'a Module,
    pub event: WireBit,
    pub level: bool,
}

/// The root in which each switch that tests the bit keeps only the case that is taken with the bit at the level, as a
/// default, and none where none is taken. The root's switches are read by the rules.
pub fn at_level(alloc: Global, by: &Level, root: &Case) -> Result<Case, Memory>
    ensures value { (ports : Ports) → AreTests by.now.tests.now ports by.now.«module».now →
        DoCellsFit ports by.now.«module».now →
        IfOk result (λ made. made ≡
        open_case (switch_test ports by.now.«module».now by.now.event) by.now.level root.now) }
{
    decided_case(alloc, by, root.patterns.copy()?, root)
}

/// The case with these patterns, its switches decided.
#[cycle(tree)]
fn decided_case(
    alloc: Global,
    by: &Level,
    patterns: Seq<SigSpec>,
    case: &Case,
) -> Result<Case, Memory>
    ensures value { (ports : Ports) → AreTests by.now.tests.now ports by.now.«module».now →
        DoCellsFit ports by.now.«module».now →
        IfOk result (λ made. made ≡
        case_at (switch_test ports by.now.«module».now by.now.event) by.now.level patterns case.now) }
{
    let mut switches = Vec::with_capacity(alloc, case.switches.len())?;
    for switch in &case.switches {
        switches.push(decided_switch(alloc, by, switch)?)?;
    }
    Ok(Case {
        patterns,
        assigns: case.assigns.copy()?,
        switches,
        attributes: case.attributes.copy()?,
    })
}

/// The switch, decided where it tests the bit.
#[cycle(tree)]
fn decided_switch(alloc: Global, by: &Level, switch: &Switch) -> Result<Switch, Memory>
    ensures value { (ports : Ports) → AreTests by.now.tests.now ports by.now.«module».now →
        DoCellsFit ports by.now.«module».now →
        IfOk result (λ made. made ≡
        switch_at (switch_test ports by.now.«module».now by.now.event) by.now.level switch.now) }
{
    match by.tests.switch_test(alloc, by.module, by.event, switch)? {
        None => open_switch(alloc, by, switch),
        Some(inverse) => taken_switch(alloc, by, inverse, switch),
    }
}

/// The switch with the switches in its cases decided.
#[cycle(tree)]
fn open_switch(alloc: Global, by: &Level, switch: &Switch) -> Result<Switch, Memory>
    ensures value { (ports : Ports) → AreTests by.now.tests.now ports by.now.«module».now →
        DoCellsFit ports by.now.«module».now →
        IfOk result (λ made. made ≡
        switch_by (switch_test ports by.now.«module».now by.now.event) by.now.level None switch.now) }
{
    let mut cases = Vec::with_capacity(alloc, switch.cases.len())?;
    for case in &switch.cases {
        cases.push(decided_case(alloc, by, case.patterns.copy()?, case)?)?;
    }
    with_cases(switch, cases)
}

/// The switch with the case alone that is taken.
#[cycle(tree)]
fn taken_switch(alloc: Global, by: &Level, inverse: bool, switch: &Switch) -> Result<Switch, Memory>
    ensures value { (ports : Ports) → AreTests by.now.tests.now ports by.now.«module».now →
        DoCellsFit ports by.now.«module».now →
        IfOk result (λ made. made ≡
        switch_by (switch_test ports by.now.«module».now by.now.event) by.now.level (Some inverse) switch.now) }
{
    let bit = tested_bit(by.level, inverse);
    let mut cases = Vec::new(alloc);
    for case in &switch.cases {
        if is_taken(bit, case.patterns.as_slice()) {
            cases.push(decided_case(alloc, by, Seq::make(alloc), case)?)?;
            return with_cases(switch, cases);
        }
    }
    with_cases(switch, cases)
}

/// The switch with these cases.
fn with_cases(switch: &Switch, cases: Vec<Case>) -> Result<Switch, Memory>
    ensures value { IfOk result (λ made. made ≡ record switch.now { cases = cases_of cases.items }) }
{
    Ok(Switch {
        signal: switch.signal.copy()?,
        cases,
        attributes: switch.attributes.copy()?,
    })
}

/// The value of the bit that a switch tests, where the tested bit or its inverse has the level.
fn tested_bit(level: bool, inverse: bool) -> Bit
    ensures value { result ≡ tested_bit level inverse }
{
    if level != inverse { Bit::S1 } else { Bit::S0 }
}

/// Whether the case with these patterns is taken for a known bit: a default, or one with a pattern that matches.
fn is_taken(bit: Bit, patterns: &[SigSpec]) -> bool
    ensures value { result ≡ is_taken bit patterns.now }
{
    patterns.is_empty() || one_takes(bit, patterns)
}

/// Whether one of the patterns matches the bit.
fn one_takes(bit: Bit, patterns: &[SigSpec]) -> bool
    ensures value { result ≡ list_any (takes_bit bit) patterns.now }
{
    patterns
        .iter()
        .any(|pattern| takes_bit(bit, pattern.as_slice()))
}

/// Whether the pattern is one place that matches the bit.
fn takes_bit(bit: Bit, pattern: &[SigBit]) -> bool
    ensures value { result ≡ takes_bit bit pattern.now }
{
    match pattern {
        [place] => matches_bit(*place, bit),
        _ => false,
    }
}

/// Whether a place of a pattern of constants matches a known bit.
fn matches_bit(place: SigBit, bit: Bit) -> bool
    ensures value { result ≡ matches_bit (place, bit) }
{
    match (place, bit) {
        (SigBit::Fixed(Bit::S0), Bit::S1) | (SigBit::Fixed(Bit::S1), Bit::S0) => false,
        (SigBit::Fixed(_), _) => true,
        (SigBit::Wire(_), _) => false,
    }
}

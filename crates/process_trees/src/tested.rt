//! Switches that test an event bit.

ghost use Rattle.std.specs.Prelude.{◌≡◌, [], ◌∷◌, IfOk};
ghost use Rattle.std.specs.List.{list_all};
ghost use Rattle.rtl_sig.specs.declared.sig.SigBit.{SigBit};
ghost use Rattle.rtl_ir.specs.EventTests.{differs, switch_test, test_of};
ghost use Rattle.rtl_ir.specs.Faults.TwoEdges.{cases_patterns, switches_test};
ghost use Rattle.rtl_ir.specs.Signals.{is_all_constant};
ghost use Rattle.rtl_ir.specs.Tree.{cases_of};
ghost use Rattle.rtl_ir.specs.Types.{Ports};
ghost use Rattle.process_trees.specs.Fitting.{DoCellsFit};
ghost use Rattle.process_trees.specs.Tables.{AreTests};
ghost use Rattle.process_trees.specs.Tested.{met, only_place, switch_tests};

use crate::tables::EventTests;
use rtl_bits::Memory;
use rtl_ir::{Case, Module, Switch, is_all_constant};
use rtl_sig::{SigBit, SigSpec, WireBit};
use std::alloc::Global;

impl EventTests {
    /// Whether a place tests the event bit, and then whether it gives the inverse.
    pub fn test_of(
        &self,
        alloc: Global,
        module: &Module,
        event: WireBit,
        place: SigBit,
    ) -> Result<Option<bool>, Memory>
        ensures value { (ports : Ports) → AreTests self.now ports «module».now → DoCellsFit ports «module».now →
            IfOk result (λ test. test ≡ test_of ports «module».now event place) }
    {
        let mut at = place;
        let mut inverse = false;
        for _step in 0..4u32 {
            if self.meets(event, at) {
                return Ok(Some(inverse));
            }
            let Some(step) = self.step_at(alloc, module, self.follow(at))? else {
                return Ok(None);
            };
            inverse = differs(inverse, step.inverse);
            at = step.input;
        }
        Ok(met(self.meets(event, at), inverse))
    }

    /// Whether a switch tests the event bit, and then whether it tests its inverse: its signal is one bit that does,
    /// and its patterns are constants.
    pub fn switch_test(
        &self,
        alloc: Global,
        module: &Module,
        event: WireBit,
        switch: &Switch,
    ) -> Result<Option<bool>, Memory>
        ensures value { (ports : Ports) → AreTests self.now ports «module».now → DoCellsFit ports «module».now →
            IfOk result (λ test. test ≡
            switch_test ports «module».now event switch.now.signal (cases_patterns switch.now.cases)) }
    {
        match only_place(switch.signal.as_slice()) {
            Some(place) => self.place_test(alloc, module, event, place, &switch.cases),
            None => Ok(None),
        }
    }

    /// What a switch on one place with these cases tests of the event bit, where it tests it.
    fn place_test(
        &self,
        alloc: Global,
        module: &Module,
        event: WireBit,
        place: SigBit,
        cases: &[Case],
    ) -> Result<Option<bool>, Memory>
        ensures value { (ports : Ports) → AreTests self.now ports «module».now → DoCellsFit ports «module».now →
            IfOk result (λ test. test ≡ switch_test ports «module».now event (place ∷
            []) (cases_patterns (cases_of cases.now))) }
    {
        if have_constants(cases) {
            self.test_of(alloc, module, event, place)
        } else {
            Ok(None)
        }
    }

    /// Whether a switch below the root tests the event bit. The root's switches are read by the rules.
    pub fn is_tested(
        &self,
        alloc: Global,
        module: &Module,
        event: WireBit,
        root: &Case,
    ) -> Result<bool, Memory>
        ensures value { (ports : Ports) → AreTests self.now ports «module».now → DoCellsFit ports «module».now →
            IfOk result (λ tested. tested ≡ switches_test (switch_test ports «module».now event) root.now.switches) }
    {
        case_tests(alloc, self, module, event, root)
    }
}

/// Whether a switch in the case or below it tests the event bit.
#[cycle(tree)]
fn case_tests(
    alloc: Global,
    tests: &EventTests,
    module: &Module,
    event: WireBit,
    case: &Case,
) -> Result<bool, Memory>
    ensures value { (ports : Ports) → AreTests tests.now ports «module».now → DoCellsFit ports «module».now →
        IfOk result (λ tested. tested ≡ switches_test (switch_test ports «module».now event) case.now.switches) }
{
    for switch in &case.switches {
        if switch_tests(alloc, tests, module, event, switch)? {
            return Ok(true);
        }
    }
    Ok(false)
}

/// Whether the switch tests the event bit, or one below it.
#[cycle(tree)]
fn switch_tests(
    alloc: Global,
    tests: &EventTests,
    module: &Module,
    event: WireBit,
    switch: &Switch,
) -> Result<bool, Memory>
    ensures value { (ports : Ports) → AreTests tests.now ports «module».now → DoCellsFit ports «module».now →
        IfOk result (λ tested. tested ≡ switch_tests (switch_test ports «module».now event) switch.now) }
{
    if tests.switch_test(alloc, module, event, switch)?.is_some() {
        return Ok(true);
    }
    for case in &switch.cases {
        if case_tests(alloc, tests, module, event, case)? {
            return Ok(true);
        }
    }
    Ok(false)
}

/// The place of a signal of one bit.
fn only_place(signal: &[SigBit]) -> Option<SigBit>
    ensures value { result ≡ only_place signal.now }
{
    match signal {
        [place] => Some(*place),
        _ => None,
    }
}

/// Whether the patterns of the cases are constants.
fn have_constants(cases: &[Case]) -> bool
    ensures value { result ≡ list_all is_all_constant (cases_patterns (cases_of cases.now)) }
{
    for case in cases {
        if !are_constants(case.patterns.as_slice()) {
            return false;
        }
    }
    true
}

/// Whether these patterns are constants.
fn are_constants(patterns: &[SigSpec]) -> bool
    ensures value { result ≡ list_all is_all_constant patterns.now }
{
    patterns
        .iter()
        .all(|pattern| is_all_constant(pattern.as_slice()))
}

/// One of two, but not both.
fn differs(a: bool, b: bool) -> bool
    ensures value { result ≡ differs a b }
{
    a != b
}

/// Whether the inverse is given, where the bit is met.
fn met(meets: bool, inverse: bool) -> Option<bool>
    ensures value { result ≡ met meets inverse }
{
    if meets { Some(inverse) } else { None }
}

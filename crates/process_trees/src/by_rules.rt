//! Trees of decisions by the rules of switches. In the Yosys manual, "The RTL Intermediate Language (RTLIL)", the
//! section "RTLIL::Process".

ghost use Rattle.std.specs.Prelude.{◌≡◌, IfOk};
ghost use Rattle.rtl_ir.specs.SwitchRules.{root_by_rules};
ghost use Rattle.rtl_ir.specs.Tree.{cases_of};
ghost use Rattle.process_trees.specs.Reading.{ruled_case, ruled_switch};

use crate::reading::{Reading, read_case};
use rtl_bits::{Copied, Memory, Seq};
use rtl_ir::{Case, Switch};
use rtl_sig::SigSpec;
use std::alloc::Global;

/// The root of a process by the rules: patterns that never match or that earlier patterns cover are gone, and so are
/// cases without patterns left; a case that takes whatever reaches it is a default, and nothing stands behind it.
pub fn ruled(alloc: Global, root: &Case) -> Result<Case, Memory>
    ensures value { IfOk result (λ ruled. ruled ≡ root_by_rules root.now) }
{
    ruled_case(alloc, root.patterns.copy()?, root)
}

/// The case with these patterns and its own assigns and attributes, its switches by the rules.
#[cycle(tree)]
fn ruled_case(alloc: Global, patterns: Seq<SigSpec>, case: &Case) -> Result<Case, Memory>
    ensures value { IfOk result (λ ruled. ruled ≡ ruled_case patterns case.now) }
{
    let mut switches = Vec::with_capacity(alloc, case.switches.len())?;
    for switch in &case.switches {
        switches.push(ruled_switch(alloc, switch)?)?;
    }
    Ok(Case {
        patterns,
        assigns: case.assigns.copy()?,
        switches,
        attributes: case.attributes.copy()?,
    })
}

/// The switch by the rules.
#[cycle(tree)]
fn ruled_switch(alloc: Global, switch: &Switch) -> Result<Switch, Memory>
    ensures value { IfOk result (λ ruled. ruled ≡ ruled_switch switch.now) }
{
    let mut earlier = Vec::new(alloc);
    let mut cases = Vec::new(alloc);
    for case in &switch.cases {
        let reading = read_case(
            alloc,
            switch.signal.as_slice(),
            &mut earlier,
            case.patterns.as_slice(),
        )?;
        match reading {
            Reading::Dropped => {}
            Reading::Kept(patterns) => cases.push(ruled_case(alloc, patterns, case)?)?,
            Reading::Last => {
                cases.push(ruled_case(alloc, Seq::make(alloc), case)?)?;
                return with_cases(switch, cases);
            }
        }
    }
    with_cases(switch, cases)
}

/// The switch with these cases.
fn with_cases(switch: &Switch, cases: Vec<Case>) -> Result<Switch, Memory>
    ensures value { IfOk result (λ made. made ≡ record switch.now { cases = cases_of cases.items }) }
{
    Ok(Switch {
        signal: switch.signal.copy()?,
        cases,
        attributes: switch.attributes.copy()?,
    })
}

//! The bits that the trees and the rules of processes name. In the Yosys manual, "The RTL Intermediate Language
//! (RTLIL)", the section "RTLIL::Process".

ghost use Rattle.std.specs.Prelude.{◌≡◌, [], ◌++◌, IfOk, OnOk};
ghost use Rattle.rtl_ir.specs.Assigns.{assigned_bits, cases_assigns, left_bits, switches_assigns};
ghost use Rattle.rtl_ir.specs.SwitchRules.{cases_by_rules, root_by_rules, switches_by_rules};
ghost use Rattle.net_index.specs.DriverTree.{rule_lefts};

use crate::driver_rules::{Reading, read_case};
use rtl_bits::Memory;
use rtl_ir::{Case, Switch, SyncRule, acts, add_left_bits};
use rtl_sig::WireBit;
use std::alloc::Global;

/// The bits that the assigns of a tree name, those of cases that never act left out.
pub fn assigned_bits(alloc: Global, root: &Case) -> Result<Vec<WireBit>, Memory>
    ensures value { IfOk result (λ bits. bits.items ≡ assigned_bits (root_by_rules root.now)) }
{
    let mut bits = Vec::new(alloc);
    put_case(alloc, &mut bits, root)?;
    Ok(bits)
}

/// Puts the bits last that the assigns in the case and below it name.
#[cycle(tree)]
fn put_case(alloc: Global, bits: &mut Vec<WireBit>, case: &Case) -> Result<(), Memory>
    ensures ok { OnOk result (bits.new.items ≡ bits.old.items
        ++ left_bits (case.now.assigns ++ switches_assigns (switches_by_rules case.now.switches))) }
{
    add_left_bits(bits, case.assigns.as_slice())?;
    for switch in &case.switches {
        put_switch(alloc, bits, switch)?;
    }
    Ok(())
}

/// Puts the bits last that the assigns below the switch name.
#[cycle(tree)]
fn put_switch(alloc: Global, bits: &mut Vec<WireBit>, switch: &Switch) -> Result<(), Memory>
    ensures ok { OnOk result (bits.new.items ≡ bits.old.items
        ++ left_bits (cases_assigns (cases_by_rules switch.now.signal [] switch.now.cases))) }
{
    let mut earlier = Vec::new(alloc);
    for case in &switch.cases {
        let reading = read_case(
            alloc,
            switch.signal.as_slice(),
            &mut earlier,
            case.patterns.as_slice(),
        )?;
        if let Reading::Dropped = reading {
            continue;
        }
        put_case(alloc, bits, case)?;
        if let Reading::Last = reading {
            return Ok(());
        }
    }
    Ok(())
}

/// The bits that the rules update: those with lines, but for those that give start values.
pub(crate) fn ruled_bits(alloc: Global, rules: &[SyncRule]) -> Result<Vec<WireBit>, Memory>
    ensures value { IfOk result (λ bits. bits.items ≡ rule_lefts rules.now) }
{
    let mut bits = Vec::new(alloc);
    for rule in rules {
        if acts(rule) {
            add_left_bits(&mut bits, rule.updates.as_slice())?;
        }
    }
    Ok(bits)
}

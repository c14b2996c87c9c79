//! Processes: trees of decisions, and the rules that take over what they decide.

ghost use Rattle.std.specs.Prelude.{◌≡◌, IfOk};

use crate::module::Link;
use crate::value::{Attribute, Value};
use rtl_bits::{Copied, Memory, Seq, Text};
use rtl_sig::SigSpec;
use std::alloc::Global;
use std::marker::Model;

/// What happens where one of the patterns matches. A case without patterns is a default.
#[cycle(tree)]
#[derive(Drop)]
pub struct Case {
    pub patterns: Seq<SigSpec>,
    /// The assigns act in order, and before the switches, wherever they were written.
    pub assigns: Seq<Link>,
    pub switches: Vec<Switch>,
    pub attributes: Seq<Attribute>,
}

/// A choice of the first case that matches the signal.
#[cycle(tree)]
#[derive(Drop)]
pub struct Switch {
    pub signal: SigSpec,
    pub cases: Vec<Case>,
    pub attributes: Seq<Attribute>,
}

impl Model for Case {
    ghost use Rattle.rtl_ir.specs.Tree.{CaseView, case_depth, switches_of};
    ghost use Rattle.rtl_ir.specs.TreeCode.{coded_case, case_falls};

    ghost Value = { CaseView };

    ghost coded = { coded_case };

    ghost view = { λ c.
        record {
          patterns = c.patterns;
          assigns = c.assigns;
          switches = switches_of c.switches.items;
          attributes =
              c.attributes;
        } };

    ghost size = { case_depth };

    ghost size_decreases = { λ c _. case_falls c.switches.items };
}

impl Model for Switch {
    ghost use Rattle.rtl_ir.specs.Tree.{SwitchView, switch_depth, cases_of};
    ghost use Rattle.rtl_ir.specs.TreeCode.{coded_switch, switch_falls};

    ghost Value = { SwitchView };

    ghost coded = { coded_switch };

    ghost view = { λ s. record { signal = s.signal; cases = cases_of s.cases.items; attributes = s.attributes } };

    ghost size = { switch_depth };

    ghost size_decreases = { λ s _. switch_falls s.cases.items };
}

/// When a rule acts.
#[derive(Drop)]
pub enum Event {
    Low(SigSpec),
    High(SigSpec),
    Posedge(SigSpec),
    Negedge(SigSpec),
    Edge(SigSpec),
    Global,
    Init,
    Always,
}

/// A line that writes a word of a memory.
#[derive(Drop)]
pub struct WriteLine {
    /// The memory's name.
    pub memory: Text,
    pub address: SigSpec,
    pub value: SigSpec,
    pub enable: SigSpec,
    /// Bit `j` says that this line is to win over line `j` of its rule.
    pub mask: Value,
    pub attributes: Seq<Attribute>,
}

/// A rule with its lines.
#[derive(Drop)]
pub struct SyncRule {
    pub event: Event,
    pub updates: Seq<Link>,
    pub writes: Seq<WriteLine>,
}

/// A tree of decisions with its rules.
#[derive(Drop)]
pub struct Process {
    pub name: Text,
    pub root: Case,
    pub syncs: Seq<SyncRule>,
    pub attributes: Seq<Attribute>,
}

/// A copy of the case.
#[cycle(tree)]
fn copy_case(alloc: Global, case: &Case) -> Result<Case, Memory>
    ensures value { IfOk result (λ copy. copy ≡ case.now) }
{
    let mut switches = Vec::with_capacity(alloc, case.switches.len())?;
    for switch in &case.switches {
        switches.push(copy_switch(alloc, switch)?)?;
    }
    Ok(Case {
        patterns: case.patterns.copy()?,
        assigns: case.assigns.copy()?,
        switches,
        attributes: case.attributes.copy()?,
    })
}

/// A copy of the switch.
#[cycle(tree)]
fn copy_switch(alloc: Global, switch: &Switch) -> Result<Switch, Memory>
    ensures value { IfOk result (λ copy. copy ≡ switch.now) }
{
    let mut cases = Vec::with_capacity(alloc, switch.cases.len())?;
    for case in &switch.cases {
        cases.push(copy_case(alloc, case)?)?;
    }
    Ok(Switch {
        signal: switch.signal.copy()?,
        cases,
        attributes: switch.attributes.copy()?,
    })
}

impl Copied for Case {
    fn copy(&self) -> Result<Case, Memory> {
        copy_case(*self.switches.allocator(), self)
    }
}

impl Copied for Switch {
    fn copy(&self) -> Result<Switch, Memory> {
        copy_switch(*self.cases.allocator(), self)
    }
}

impl Copied for Event {
    fn copy(&self) -> Result<Event, Memory> {
        match self {
            Event::Low(signal) => Ok(Event::Low(signal.copy()?)),
            Event::High(signal) => Ok(Event::High(signal.copy()?)),
            Event::Posedge(signal) => Ok(Event::Posedge(signal.copy()?)),
            Event::Negedge(signal) => Ok(Event::Negedge(signal.copy()?)),
            Event::Edge(signal) => Ok(Event::Edge(signal.copy()?)),
            Event::Global => Ok(Event::Global),
            Event::Init => Ok(Event::Init),
            Event::Always => Ok(Event::Always),
        }
    }
}

impl Copied for WriteLine {
    fn copy(&self) -> Result<WriteLine, Memory> {
        Ok(WriteLine {
            memory: self.memory.copy()?,
            address: self.address.copy()?,
            value: self.value.copy()?,
            enable: self.enable.copy()?,
            mask: self.mask.copy()?,
            attributes: self.attributes.copy()?,
        })
    }
}

impl Copied for SyncRule {
    fn copy(&self) -> Result<SyncRule, Memory> {
        Ok(SyncRule {
            event: self.event.copy()?,
            updates: self.updates.copy()?,
            writes: self.writes.copy()?,
        })
    }
}

impl Copied for Process {
    fn copy(&self) -> Result<Process, Memory> {
        Ok(Process {
            name: self.name.copy()?,
            root: self.root.copy()?,
            syncs: self.syncs.copy()?,
            attributes: self.attributes.copy()?,
        })
    }
}

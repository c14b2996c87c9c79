//! The parts of processes.

ghost use Rattle.std.specs.Prelude.{◌≡◌, ◌<◌, Some, OnOk, length, reverse, slice_get};
ghost use Rattle.rtl_bits.specs.declared.bit.Bit.{Bit};
ghost use Rattle.rtl_sig.specs.declared.sig.SigBit.{SigBit};
ghost use Rattle.rtl_ir.specs.Flat.Place.{Path};
ghost use Rattle.rtl_ir.specs.Flat.Process.{
  edge_trigger,
  level_trigger,
  one_rule_rows,
  pair_by,
  process_rows,
  processes_rows,
  rules_rows,
  tree_bit_rows,
  two_rules_rows,
};
ghost use Rattle.rtl_ir.specs.Rules.{acting_rules};
ghost use Rattle.flat_net.specs.Adds.{Adds};
ghost use Rattle.flat_net.specs.Known.{Extends};
ghost use Rattle.flat_net.specs.Resets.{KnowsTests};
ghost use Rattle.flat_net.specs.Starts.{IsStart};

use crate::builder::Builder;
use crate::net::Part;
use crate::resets::{Tested, Tests, tests_of};
use crate::rooted::Rooted;
use crate::rules::{Paired, pairing};
use crate::scope::Scope;
use cell_types::Level;
use process_trees::{Acting, acting_rules};
use rtl_bits::Memory;
use rtl_ir::{
    Event, Join, Module, Process, SyncRule, all_joins, edge_trigger, level_trigger, trigger_at,
};

impl Builder {
    /// The processes of a module.
    pub(crate) fn add_processes(&mut self, scope: &Scope, body: &Module) -> Result<(), Memory>
        requires in_range { scope.now.path < length self.old.places.paths }
        ensures grows { OnOk result (Extends self.old.places self.new.places) }
        ensures rows { (p : Path) → slice_get self.old.places.paths scope.now.path ≡ Some p → (start : SigBit → Bit) →
            IsStart scope.now.starts.now start →
            OnOk result (Adds self.old self.new (processes_rows start p scope.now.wires.now body.now
            body.now.processes)) }
    {
        let processes = body.processes.as_slice();
        if processes.is_empty() {
            return Ok(());
        }
        let table = tests_of(scope.alloc, body)?;
        let tests = Tests {
            table: &table,
            body,
        };
        for process in processes {
            self.add_process(scope, tests, process)?;
        }
        Ok(())
    }

    /// A process.
    fn add_process(&mut self, scope: &Scope, tests: Tests, process: &Process) -> Result<(), Memory>
        requires in_range { scope.now.path < length self.old.places.paths }
        ensures grows { OnOk result (Extends self.old.places self.new.places) }
        ensures rows { (p : Path) → slice_get self.old.places.paths scope.now.path ≡ Some p → (start : SigBit → Bit) →
            IsStart scope.now.starts.now start →
            KnowsTests tests.entry.table.now tests.entry.body.now →
            OnOk result (Adds self.old self.new (process_rows start p scope.now.wires.now tests.entry.body.now
            process.now)) }
    {
        let rooted = Rooted::of(scope.alloc, &process.root)?;
        self.add_decisions(scope, &rooted)?;
        let tree = Tested {
            rooted: &rooted,
            tests,
        };
        self.add_rules(scope, tree, process.syncs.as_slice())
    }

    /// The tree of a process, which drives its tree bits.
    fn add_decisions(&mut self, scope: &Scope, rooted: &Rooted) -> Result<(), Memory>
        requires in_range { scope.now.path < length self.old.places.paths }
        ensures grows { OnOk result (Extends self.old.places self.new.places) }
        ensures rows { (p : Path) → slice_get self.old.places.paths scope.now.path ≡ Some p → (start : SigBit → Bit) →
            OnOk result (Adds self.old self.new (tree_bit_rows start p scope.now.wires.now rooted.now.root
            (reverse rooted.now.bits))) }
    {
        let tree = self.places.tree(scope, rooted)?;
        self.parts.push(Part::Tree(Box::new(scope.alloc, tree)?))?;
        Ok(())
    }

    /// The rules of a process that act.
    fn add_rules(&mut self, scope: &Scope, tree: Tested, rules: &[SyncRule]) -> Result<(), Memory>
        requires in_range { scope.now.path < length self.old.places.paths }
        ensures grows { OnOk result (Extends self.old.places self.new.places) }
        ensures rows { (p : Path) → slice_get self.old.places.paths scope.now.path ≡ Some p → (start : SigBit → Bit) →
            IsStart scope.now.starts.now start →
            KnowsTests tree.entry.tests.table.now tree.entry.tests.body.now →
            OnOk result (Adds self.old self.new (rules_rows start p scope.now.wires.now tree.entry.tests.body.now
            tree.entry.rooted.now.root (reverse tree.entry.rooted.now.bits) (acting_rules rules.now))) }
    {
        match acting_rules(rules) {
            Acting::Single(rule) => {
                let lines = all_joins(scope.alloc, rule.updates.as_slice())?;
                let event = &rule.event;
                self.add_rule(scope, tree.rooted, event, lines.as_slice())
            }
            Acting::Pair(a, b) => self.add_pair(scope, tree, a, b),
            Acting::Idle | Acting::Several => Ok(()),
        }
    }

    /// One rule, with its places.
    fn add_rule(
        &mut self,
        scope: &Scope,
        rooted: &Rooted,
        event: &Event,
        lines: &[Join],
    ) -> Result<(), Memory>
        requires in_range { scope.now.path < length self.old.places.paths }
        ensures grows { OnOk result (Extends self.old.places self.new.places) }
        ensures rows { (p : Path) → slice_get self.old.places.paths scope.now.path ≡ Some p → (start : SigBit → Bit) →
            IsStart scope.now.starts.now start →
            OnOk result (Adds self.old self.new (one_rule_rows start p scope.now.wires.now rooted.now.root
            (reverse rooted.now.bits) lines.now event.now)) }
    {
        match event {
            Event::Always => self.add_always(scope, rooted, lines),
            Event::Global => self.add_steps(scope, lines),
            Event::Posedge(signal) => {
                self.add_edge(scope, trigger_at(signal.as_slice(), Level::High), lines)
            }
            Event::Negedge(signal) => {
                self.add_edge(scope, trigger_at(signal.as_slice(), Level::Low), lines)
            }
            Event::High(signal) => {
                self.add_level(scope, trigger_at(signal.as_slice(), Level::High), lines)
            }
            Event::Low(signal) => {
                self.add_level(scope, trigger_at(signal.as_slice(), Level::Low), lines)
            }
            Event::Edge(_) | Event::Init => Ok(()),
        }
    }

    /// Two rules: an edge and a level, in either order, or two edges.
    fn add_pair(
        &mut self,
        scope: &Scope,
        tree: Tested,
        a: &SyncRule,
        b: &SyncRule,
    ) -> Result<(), Memory>
        requires in_range { scope.now.path < length self.old.places.paths }
        ensures grows { OnOk result (Extends self.old.places self.new.places) }
        ensures rows { (p : Path) → slice_get self.old.places.paths scope.now.path ≡ Some p → (start : SigBit → Bit) →
            IsStart scope.now.starts.now start →
            KnowsTests tree.entry.tests.table.now tree.entry.tests.body.now →
            OnOk result (Adds self.old self.new (two_rules_rows start p scope.now.wires.now tree.entry.tests.body.now
            tree.entry.rooted.now.root (reverse tree.entry.rooted.now.bits) (pair_by a.now b.now
            (edge_trigger a.now.event) (edge_trigger b.now.event) (level_trigger a.now.event)
            (level_trigger b.now.event)))) }
    {
        let of_a = all_joins(scope.alloc, a.updates.as_slice())?;
        let of_b = all_joins(scope.alloc, b.updates.as_slice())?;
        let (of_a, of_b) = (of_a.as_slice(), of_b.as_slice());
        let (edge_a, edge_b) = (edge_trigger(&a.event), edge_trigger(&b.event));
        let (level_a, level_b) = (level_trigger(&a.event), level_trigger(&b.event));
        match pairing(edge_a, edge_b, level_a, level_b) {
            Paired::First(edge, level) => { self.add_loaded(scope, edge, of_a, level, of_b) }
            Paired::Second(edge, level) => { self.add_loaded(scope, edge, of_b, level, of_a) }
            Paired::Edges => self.add_edges(scope, tree, &a.event, &b.event, of_a),
        }
    }
}

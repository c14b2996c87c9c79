//! The parts of processes with two edges.

ghost use Rattle.std.specs.Prelude.{◌≡◌, ◌<◌, Some, OnOk, length, map, reverse, slice_get};
ghost use Rattle.rtl_bits.specs.declared.bit.Bit.{Bit};
ghost use Rattle.rtl_sig.specs.declared.sig.SigBit.{SigBit};
ghost use Rattle.rtl_ir.specs.Faults.TwoEdges as edges;
ghost use Rattle.rtl_ir.specs.Flat.Place.{Path};
ghost use Rattle.rtl_ir.specs.Flat.Process.{level_after, raced_row, raced_rows};
ghost use Rattle.process_trees.specs.Edge.{edge_as};
ghost use Rattle.flat_net.specs.Adds.{Adds};
ghost use Rattle.flat_net.specs.Known.{Extends};
ghost use Rattle.flat_net.specs.Resets.{KnowsTests};
ghost use Rattle.flat_net.specs.Starts.{IsStart};

use crate::builder::Builder;
use crate::leaves::Raced;
use crate::net::{Part, Point};
use crate::resets::{Reset, Tested};
use crate::scope::Scope;
use cell_types::Level;
use process_trees::{EdgeBit, edge_bit};
use rtl_bits::Memory;
use rtl_ir::{Event, Join};

/// The level after an edge, true for a rising one.
fn level_after(rising: bool) -> Level
    ensures value { result ≡ level_after rising }
{
    if rising { Level::High } else { Level::Low }
}

impl Builder {
    /// Two rules at edges, with the same places. The edge that is tested is that of the reset.
    pub(crate) fn add_edges(
        &mut self,
        scope: &Scope,
        tree: Tested,
        a: &Event,
        b: &Event,
        lines: &[Join],
    ) -> Result<(), Memory>
        requires in_range { scope.now.path < length self.old.places.paths }
        ensures grows { OnOk result (Extends self.old.places self.new.places) }
        ensures rows { (p : Path) → slice_get self.old.places.paths scope.now.path ≡ Some p → (start : SigBit → Bit) →
            IsStart scope.now.starts.now start →
            KnowsTests tree.entry.tests.table.now tree.entry.tests.body.now →
            OnOk result (Adds self.old self.new (raced_rows start p scope.now.wires.now tree.entry.tests.body.now
            tree.entry.rooted.now.root (reverse tree.entry.rooted.now.bits) lines.now (edges.edge_bit a.now)
            (edges.edge_bit b.now))) }
    {
        let (Some(a), Some(b)) = (edge_bit(a), edge_bit(b)) else {
            return Ok(());
        };
        let tests = tree.tests;
        if tests
            .table
            .is_tested(scope.alloc, tests.body, a.bit, &tree.rooted.root)?
        {
            self.add_race(scope, tree, b, a, lines)
        } else {
            self.add_race(scope, tree, a, b, lines)
        }
    }

    /// The bits that a process with this clock and this reset updates.
    fn add_race(
        &mut self,
        scope: &Scope,
        tree: Tested,
        clock: EdgeBit,
        reset: EdgeBit,
        lines: &[Join],
    ) -> Result<(), Memory>
        requires in_range { scope.now.path < length self.old.places.paths }
        ensures grows { OnOk result (Extends self.old.places self.new.places) }
        ensures rows { (p : Path) → slice_get self.old.places.paths scope.now.path ≡ Some p → (start : SigBit → Bit) →
            IsStart scope.now.starts.now start →
            KnowsTests tree.entry.tests.table.now tree.entry.tests.body.now →
            OnOk result (Adds self.old self.new (map (raced_row start p scope.now.wires.now tree.entry.tests.body.now
            tree.entry.rooted.now.root (reverse tree.entry.rooted.now.bits) (edge_as clock) (edge_as reset))
            lines.now)) }
    {
        let by = Some(Reset {
            tests: tree.tests,
            bit: reset.bit,
        });
        let root = self.places.root(scope, by, tree.rooted)?;
        let clock_at = self.places.bit(scope, clock.bit)?;
        let reset_at = self.places.bit(scope, reset.bit)?;
        let bits = self.places.held_bits(scope, &tree.rooted.bits, lines)?;
        let raced = Raced {
            tree: root,
            clock: Point::At(clock_at),
            clock_level: level_after(clock.level),
            reset: Point::At(reset_at),
            reset_level: level_after(reset.level),
            bits,
        };
        self.parts.push(Part::Raced(Box::new(scope.alloc, raced)?))?;
        Ok(())
    }
}

//! The sweep: one cell after another, over the connections as they are by then.

ghost use Rattle.std.specs.Prelude.{◌≡◌, ◌<◌, List, IfOk, OnOk, length, Some, None};
ghost use Rattle.rtl_ir.specs.declared.cell.Cell.{Cell};
ghost use Rattle.rtl_ir.specs.declared.module.Link.{Link};
ghost use Rattle.rtl_ir.specs.declared.wire.Wire.{Wire};
ghost use Rattle.opt_merge.specs.Merge.{first_of};
ghost use Rattle.opt_merge.specs.Entries.{JoinsEntries, linked};
ghost use Rattle.opt_merge.specs.Readers.{readers_of_signal};
ghost use Rattle.opt_merge.specs.State.{IsDrivenOnce, IsState};
ghost use Rattle.opt_merge.specs.View.{IsView};
ghost use Rattle.opt_merge.specs.Visits.{Visits, VisitsAll, VisitsAs, VisitsFirst, VisitsSame};

use crate::entries::Entries;
use crate::kinds::merging_kind;
use crate::late::Late;
use crate::readers::Readers;
use crate::reading::readers_of;
use crate::rows::View;
use crate::signals::output_of;
use crate::table::Table;
use cell_types::CellKind;
use net_alias::Aliases;
use rtl_bits::{Copied, Memory, Seq};
use rtl_ir::{Cell, Link, Module, inits};
use rtl_sig::{SigBit, SigSpec};
use std::alloc::Global;

/// The sweep over the cells of a module.
#[derive(Drop)]
pub(crate) struct Merger {
    pub(crate) alloc: Global,
    pub(crate) readers: Readers,
    pub(crate) entries: Entries,
    /// The places of the cells that stay.
    pub(crate) kept: Vec<usize>,
    pub(crate) links: Seq<Link>,
}

impl Merger {
    /// Before the first cell.
    pub(crate) fn of(alloc: Global, module: &Module) -> Result<Merger, Memory>
        ensures state { IfOk result (λ merger. IsDrivenOnce (first_of «module».now) «module».now.cells →
            IsState merger «module».now.wires «module».now.links «module».now.cells 0 (first_of «module».now)) }
    {
        let mut view = View {
            alloc,
            inits: inits(alloc, module.wires.as_slice())?,
            aliases: Aliases::of(alloc, module)?,
        };
        let readers = readers_of(alloc, &mut view.aliases, module)?;
        Ok(Merger {
            alloc,
            readers,
            entries: Entries {
                view,
                table: Table::of(alloc),
                kinds: vec![in alloc; None; module.cells.as_slice().len()]?,
                lengths: vec![in alloc; 0; module.cells.as_slice().len()]?,
                late: Late::of(alloc)?,
            },
            kept: Vec::new(alloc),
            links: module.links.copy()?,
        })
    }

    /// The cells in order.
    pub(crate) fn visit_all(&mut self, cells: &[Cell]) -> Result<(), Memory>
        ensures state { OnOk result (VisitsAll self.old self.new cells.now) }
    {
        for at in 0..cells.len() {
            self.visit(cells, at)?;
        }
        Ok(())
    }

    /// The cell at a place.
    fn visit(&mut self, cells: &[Cell], at: usize) -> Result<(), Memory>
        requires inside { at < length cells.now }
        ensures state { OnOk result (Visits self.old self.new cells.now at) }
    {
        match merging_kind(self.alloc, &cells[at])? {
            Some(kind) => {
                self.compare(cells, at, kind)?;
                Ok(())
            }
            None => {
                self.stay(at)?;
                Ok(())
            }
        }
    }

    /// The cell stays, and may not be merged with.
    fn stay(&mut self, at: usize) -> Result<(), Memory>
        ensures state { OnOk result ((cells : List Cell) → VisitsAs self.old self.new cells at None) }
    {
        self.kept.push(at)?;
        Ok(())
    }

    /// The cell goes where an earlier one is the same.
    fn compare(&mut self, cells: &[Cell], at: usize, kind: CellKind) -> Result<(), Memory>
        requires inside { at < length cells.now }
        ensures state { OnOk result (VisitsAs self.old self.new cells.now at (Some kind)) }
    {
        let row = self.entries.view.row(kind, &cells[at])?;
        self.entries.settle(cells, row.len())?;
        match self.entries.table.get(row.as_slice()) {
            Some(first) => {
                self.merge(cells, first, at, kind)?;
                Ok(())
            }
            None => {
                self.first(at, kind, row)?;
                Ok(())
            }
        }
    }

    /// The cell is the first with this row.
    fn first(&mut self, at: usize, kind: CellKind, row: Vec<u32>) -> Result<(), Memory>
        ensures state { OnOk result ((cells : List Cell) → VisitsFirst self.old self.new cells at kind row.items) }
    {
        self.entries.note(row, at, kind)?;
        self.kept.push(at)?;
        Ok(())
    }

    /// The cell goes, and its output is connected to that of the earlier one.
    fn merge(
        &mut self,
        cells: &[Cell],
        first: usize,
        at: usize,
        kind: CellKind,
    ) -> Result<(), Memory>
        requires inside { at < length cells.now }
        ensures state { OnOk result (VisitsSame self.old self.new cells.now at kind first) }
    {
        if first >= cells.len() {
            return Ok(());
        }
        self.join(output_of(kind, &cells[at]), output_of(kind, &cells[first]))?;
        Ok(())
    }

    /// The right drives the left, and the cells that read the left are late.
    fn join(&mut self, left: &[SigBit], right: &[SigBit]) -> Result<(), Memory>
        ensures links { OnOk result (self.new.links ≡ linked self.old.links left.now right.now) }
        ensures rest { OnOk result ((self.new.kept ≡ self.old.kept) × (self.new.readers ≡ self.old.readers)) }
        ensures entries { OnOk result ((wires : List Wire) (links : List Link) →
            IsView self.old.entries.view wires links →
            JoinsEntries self.old.entries self.new.entries wires (linked links left.now right.now)
            (readers_of_signal self.old.readers left.now)) }
    {
        self.entries.connect(left, right)?;
        self.entries.mark_signal(&self.readers, left)?;
        self.links.push(Link {
            left: SigSpec::from_slice(self.alloc, left)?,
            right: SigSpec::from_slice(self.alloc, right)?,
        })?;
        Ok(())
    }
}

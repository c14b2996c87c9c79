//! A module with all its instances.

ghost use Rattle.std.specs.Prelude.{◌≡◌, ◌<◌, suc, [], ◌∷◌, Some, OnOk, length, slice_get};
ghost use Rattle.rtl_ir.specs.declared.module.Design.{Design};
ghost use Rattle.rtl_ir.specs.Flat.Place.{Path};
ghost use Rattle.rtl_ir.specs.Flat.Tree.{design_ports, in_tree};
ghost use Rattle.flat_net.specs.Adds.{Adds};
ghost use Rattle.flat_net.specs.Known.{Extends};
ghost use Rattle.flat_net.specs.Tables.{IsTable};
ghost use Rattle.rtl_ir.specs.Flat.Rows.{rows_of};
ghost use Rattle.flat_net.specs.Visits.{ArePathed, Opens};

use crate::builder::Builder;
use crate::modules::Table;
use crate::places::Places;
use cell_types::kind_of;
use rtl_bits::Memory;
use rtl_ir::{Cell, Module};
use std::alloc::Global;

/// A module that is to be added: its path, and how many levels of instances may stand below it.
#[derive(Clone, Copy)]
pub(crate) struct Visit<'a> {
    pub(crate) body: &'a Module,
    pub(crate) path: u32,
    pub(crate) below: usize,
}

impl Builder {
    /// A module in this path with all its instances, so many levels deep. More than 2^64 steps are taken for want of
    /// memory.
    pub(crate) fn add_tree<'a>(
        &mut self,
        alloc: Global,
        table: &Table<'a>,
        body: &'a Module,
        path: u32,
        below: usize,
    ) -> Result<(), Memory>
        requires in_range { path < length self.old.places.paths }
        ensures grows { OnOk result (Extends self.old.places self.new.places) }
        ensures rows { (d : Design) → IsTable table.now d.modules → (p : Path) →
            slice_get self.old.places.paths path ≡ Some p →
            OnOk result (Adds self.old self.new (in_tree d (rows_of (design_ports d)) (suc below) p body.now)) }
    {
        let mut visits = Vec::new(alloc);
        visits.push(Visit { body, path, below })?;
        for _step in 0..u64::MAX {
            let Some(visit) = visits.pop() else {
                return Ok(());
            };
            self.add_module(alloc, table, visit.path, visit.body)?;
            let cells = visit.body.cells.as_slice();
            self.places
                .open_instances(table, visit.path, visit.below, cells, &mut visits)?;
        }
        Err(Memory)
    }
}

impl Places {
    /// Opens the instances among the cells of a module in this path, where levels are left, the first on top.
    fn open_instances<'a>(
        &mut self,
        table: &Table<'a>,
        path: u32,
        below: usize,
        cells: &[Cell],
        visits: &mut Vec<Visit<'a>>,
    ) -> Result<(), Memory>
        requires in_range { path < length self.old.paths }
        ensures grows { OnOk result (Extends self.old self.new) }
        ensures opens { (d : Design) → IsTable table.now d.modules → (p : Path) →
            slice_get self.old.paths path ≡ Some p →
            OnOk result (Opens d self.new.paths visits.old.items visits.new.items below p cells.now) }
        ensures pathed { ArePathed self.old.paths visits.old.items →
            OnOk result (ArePathed self.new.paths visits.new.items) }
    {
        for at in (0..cells.len()).rev() {
            self.open_instance(table, path, below, &cells[at], visits)?;
        }
        Ok(())
    }

    /// Opens the module that a cell is an instance of, where the design has it and levels are left.
    fn open_instance<'a>(
        &mut self,
        table: &Table<'a>,
        path: u32,
        below: usize,
        cell: &Cell,
        visits: &mut Vec<Visit<'a>>,
    ) -> Result<(), Memory>
        requires in_range { path < length self.old.paths }
        ensures grows { OnOk result (Extends self.old self.new) }
        ensures opens { (d : Design) → IsTable table.now d.modules → (p : Path) →
            slice_get self.old.paths path ≡ Some p →
            OnOk result (Opens d self.new.paths visits.old.items visits.new.items below p (cell.now ∷ [])) }
        ensures pathed { ArePathed self.old.paths visits.old.items →
            OnOk result (ArePathed self.new.paths visits.new.items) }
    {
        let id = cell.kind_name.as_slice();
        if below == 0 || kind_of(id).is_some() {
            return Ok(());
        }
        let Some(entry) = table.find(id) else {
            return Ok(());
        };
        visits.push(Visit {
            body: entry.body,
            path: self.enter(path, cell.name.as_slice(), id)?,
            below: below - 1,
        })?;
        Ok(())
    }
}

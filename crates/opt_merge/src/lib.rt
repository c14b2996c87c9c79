//! The pass `opt_merge`: a cell goes where an earlier one gives the same.
#![tactic(auto)]

mod entries;
mod kinds;
mod late;
mod merger;
mod readers;
mod reading;
mod rows;
mod signals;
mod table;

ghost use Rattle.std.specs.Prelude.{◌≡◌, ◌==◌, ◌∷◌, ◌++◌, [], false, IfOk, OnOk, if◌then◌else◌, length, slice_get};
ghost use Rattle.std.specs.Option.{option_map_or};
ghost use Rattle.rtl_ir.specs.Flat.Tree as flat;
ghost use Rattle.rtl_ir.specs.Types.{table_ports};
ghost use Rattle.net_model.specs.Refine.{IsWellDriven};
ghost use Rattle.pass_laws.specs.Pass.{IsPass};
ghost use Rattle.pass_laws.specs.Ready.{IsReady};
ghost use Rattle.opt_merge.specs.Merge.{first_of, merge_of, merging_of, swept_of, with_merging};
ghost use Rattle.opt_merge.specs.Picked.{AreThese, picked};
ghost use Rattle.opt_merge.specs.State.{IsDrivenOnce};

use crate::merger::Merger;
use rtl_bits::{Copied, Memory, Seq};
use rtl_ir::{Cell, Link, Module, PortTable};
use std::alloc::Global;

/// The module in which a cell goes, its output connected to that of an earlier cell, where both give the same: cells of
/// one type with equal parameters, inputs that lead back to the same bits, and for storage equal start values. Cells of
/// memories, instances and cells with a nonzero `\keep` stay. In the Yosys manual, `opt_merge`.
pub fn apply(alloc: Global, module: &Module, ports: &PortTable) -> Result<Module, Memory>
    requires ready { IsReady (table_ports ports.now.modules) «module».now }
    requires driven { IsWellDriven (flat.table_ports ports.now) «module».now }
    ensures exact { IfOk result (λ after. after ≡ merge_of «module».now) }
    ensures pass { IfOk result (IsPass ports.now «module».now) }
{
    apply_owned(alloc, module.copy()?, ports)
}

/// As `apply`, of a module that is given away: the cells that stay are moved, and none is copied. The answer has as
/// many cells as the module only where it is the module.
pub fn apply_owned(alloc: Global, module: Module, ports: &PortTable) -> Result<Module, Memory>
    requires ready { IsReady (table_ports ports.now.modules) «module» }
    requires driven { IsWellDriven (flat.table_ports ports.now) «module» }
    ensures exact { IfOk result (λ after. after ≡ merge_of «module») }
    ensures pass { IfOk result (IsPass ports.now «module») }
    ensures fewer { IfOk result (λ after. length after.cells ≡ length «module».cells → after ≡ «module») }
{
    merged(alloc, module)
}

/// What a sweep over the cells leaves: the places of the cells that stay, and the connections.
#[derive(Drop)]
struct Sweep {
    kept: Vec<usize>,
    links: Seq<Link>,
}

/// The sweep over the cells of a module. What it compares them by is freed at its end.
fn swept(alloc: Global, module: &Module) -> Result<Sweep, Memory>
    ensures kept { IfOk result (λ sweep. IsDrivenOnce (first_of «module».now) «module».now.cells →
        AreThese «module».now.cells sweep.kept.items (swept_of «module».now).cells) }
    ensures links { IfOk result (λ sweep. IsDrivenOnce (first_of «module».now) «module».now.cells →
        sweep.links ≡ (swept_of «module».now).links) }
{
    let mut merger = Merger::of(alloc, module)?;
    merger.visit_all(module.cells.as_slice())?;
    Ok(Sweep {
        kept: merger.kept,
        links: merger.links,
    })
}

/// The sweep, and the module that it leaves.
fn merged(alloc: Global, module: Module) -> Result<Module, Memory>
    ensures exact { IfOk result (λ after. IsDrivenOnce (first_of «module») «module».cells → «module».processes ≡ [] →
        after ≡ with_merging «module» (merging_of «module»)) }
{
    let sweep = swept(alloc, &module)?;
    let cells = kept_cells(alloc, module.cells.into_vec(), sweep.kept.as_slice())?;
    Ok(Module {
        cells,
        links: sweep.links,
        ..module
    })
}

/// The cells at these places, which rise.
fn kept_cells(alloc: Global, cells: Vec<Cell>, places: &[usize]) -> Result<Seq<Cell>, Memory>
    ensures value { IfOk result (λ kept. kept ≡ picked 0 cells.items places.now) }
{
    let mut kept = Vec::with_capacity(alloc, places.len())?;
    for (at, cell) in cells.into_iter().enumerate() {
        let is_next = stands_at(places, kept.len(), at);
        add_if(&mut kept, cell, is_next)?;
    }
    Ok(Seq::from_vec(kept))
}

/// Whether the place of this number is this one.
fn stands_at(places: &[usize], number: usize, at: usize) -> bool
    ensures value { result ≡ option_map_or (λ p. p == at) (slice_get places.now number) false }
{
    match places.get(number) {
        Some(place) => *place == at,
        None => false,
    }
}

/// Puts the cell last, if it is to stay.
fn add_if(kept: &mut Vec<Cell>, cell: Cell, stays: bool) -> Result<(), Memory>
    ensures ok { OnOk result (kept.new.items ≡ kept.old.items ++ (if stays then cell ∷ [] else [])) }
{
    if stays {
        kept.push(cell)?;
    }
    Ok(())
}

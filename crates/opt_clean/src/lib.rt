//! The pass `opt_clean`: cells, connections and wires that the outside does not need go.
#![tactic(auto)]

mod followed;
mod keep;
mod kept;
pub mod laws;
mod links;
mod turned;
mod wires;

ghost use Rattle.std.specs.Prelude.{◌≡◌, [], ◌∷◌, ◌++◌, true, IfOk, OnOk, if◌then◌else◌};
ghost use Rattle.rtl_ir.specs.Types as rtl;
ghost use Rattle.rtl_ir.specs.Types.{table_ports};
ghost use Rattle.net_index.specs.Drivers.{AreDrivers};
ghost use Rattle.net_index.specs.Types.{AreTypes};
ghost use Rattle.follow_laws.specs.Inputs.{followed};
ghost use Rattle.pass_laws.specs.Pass.{IsPass};
ghost use Rattle.pass_laws.specs.Ready.{IsReady};
ghost use Rattle.opt_clean.specs.Clean.{clean_of, reduced};
ghost use Rattle.opt_clean.specs.Kept.{marked};
ghost use Rattle.opt_clean.specs.Linked.{IsOnce};
ghost use Rattle.opt_clean.specs.Wires.{trimmed};

use crate::followed::followed_cells;
use crate::keep::shown_wires;
use crate::kept::kept_marks;
use crate::links::links_of;
use crate::turned::{Turned, are_all, both, count_of, has_count};
use crate::wires::{Moves, wire_marks};
use net_index::{Drivers, Types};
use rtl_bits::{Copied, Memory, Seq};
use rtl_ir::{Cell, Module, PortTable, Same};
use std::alloc::Global;

/// The module with what the outside needs: the cells that are kept, with followed inputs, one connection for each run
/// of connected bits of an output port or a wire with `\keep`, and the wires that are left. Instances, memories and
/// their cells are kept whatever reads them. In the Yosys manual, the command `opt_clean`.
pub fn apply(alloc: Global, module: &Module, ports: &PortTable) -> Result<Module, Memory>
    requires ready { IsReady (table_ports ports.now.modules) «module».now }
    ensures exact { IfOk result (λ after. after ≡ clean_of (table_ports ports.now.modules) «module».now) }
    ensures pass { IfOk result (IsPass ports.now «module».now) }
{
    let cleaned = apply_owned(alloc, module.copy()?, ports)?;
    Ok(cleaned.after)
}

/// What the pass makes of a module, and whether that is the module itself.
#[derive(Drop)]
pub struct Cleaned {
    pub after: Module,
    pub is_same: bool,
}

/// As `apply`, of a module that is given away: each of its cells is freed when its turn comes, so that the cells before
/// the pass and after it do not stand beside each other.
pub fn apply_owned(alloc: Global, module: Module, ports: &PortTable) -> Result<Cleaned, Memory>
    requires ready { IsReady (table_ports ports.now.modules) «module» }
    ensures exact { IfOk result (λ cleaned. cleaned.after ≡ clean_of (table_ports ports.now.modules) «module») }
    ensures pass { IfOk result (λ cleaned. IsPass ports.now «module» cleaned.after) }
    ensures same { IfOk result (λ cleaned. cleaned.is_same ≡ true → cleaned.after ≡ «module») }
{
    let count = count_of(&module.wires);
    let kept = kept_parts(alloc, module, ports)?;
    let after = with_wires_left(alloc, kept.value)?;
    let has_all = has_count(&after.wires, count);
    Ok(Cleaned {
        after,
        is_same: both(kept.is_same, has_all),
    })
}

/// The module with what is kept of its cells and connections, and whether that is the module itself. The tables by
/// which it is found are freed at the end.
fn kept_parts(alloc: Global, module: Module, ports: &PortTable) -> Result<Turned<Module>, Memory>
    requires ready { IsReady (table_ports ports.now.modules) «module» }
    ensures exact { IfOk result (λ kept. kept.value ≡
        reduced (table_ports ports.now.modules) (followed (table_ports ports.now.modules) «module»)) }
    ensures same { IfOk result (λ kept. kept.is_same ≡ true → kept.value ≡ «module») }
{
    let types = Types::of_table(alloc, ports)?;
    let index = Drivers::of(alloc, &module, ports)?;
    let kept = kept_by(alloc, module, &types, &index)?;
    Ok(kept)
}

/// As `kept_parts`, by the types of the module's cells and its index.
fn kept_by(
    alloc: Global,
    module: Module,
    types: &Types,
    index: &Drivers,
) -> Result<Turned<Module>, Memory>
    ensures exact { IfOk result (λ kept. (ports : rtl.Ports) → AreTypes types.now ports →
        AreDrivers index.now ports «module» → IsOnce ports «module» →
        kept.value ≡ reduced ports (followed ports «module»)) }
    ensures same { IfOk result (λ kept. kept.is_same ≡ true → kept.value ≡ «module») }
{
    let wires = module.wires.as_slice();
    let shown = shown_wires(alloc, wires)?;
    let links = links_of(alloc, wires, shown.as_slice(), index)?;
    let count = count_of(&module.cells);
    let all = followed_cells(alloc, module.cells.into_vec(), types, index)?;
    let marks = kept_marks(
        alloc,
        shown.as_slice(),
        all.value.as_slice(),
        links.as_slice(),
        types,
        index,
    )?;
    let left = marked_cells(alloc, all.value, marks.as_slice())?;
    let cells = Seq::from_vec(left);
    let links = Seq::from_vec(links);
    let has_all = has_count(&cells, count);
    let has_same = links.same(&module.links);
    Ok(Turned {
        value: Module {
            cells,
            links,
            ..module
        },
        is_same: are_all(all.is_same, has_all, has_same),
    })
}

/// The marked cells.
fn marked_cells(alloc: Global, cells: Vec<Cell>, marks: &[bool]) -> Result<Vec<Cell>, Memory>
    ensures value { IfOk result (λ kept. kept.items ≡ marked marks.now cells.items) }
{
    let mut kept = Vec::with_capacity(alloc, cells.len())?;
    let mut place = 0;
    for cell in cells {
        if place < marks.len() {
            add_if_marked(&mut kept, cell, marks[place])?;
            place += 1;
        }
    }
    Ok(kept)
}

/// Puts the cell last, where it is marked.
fn add_if_marked(kept: &mut Vec<Cell>, cell: Cell, mark: bool) -> Result<(), Memory>
    ensures value { OnOk result (kept.new.items ≡ kept.old.items ++ (if mark then cell ∷ [] else [])) }
{
    if mark {
        kept.push(cell)?;
    }
    Ok(())
}

/// The module with the wires that are left.
fn with_wires_left(alloc: Global, module: Module) -> Result<Module, Memory>
    ensures exact { IfOk result (λ after. after ≡ trimmed «module») }
{
    let wires = module.wires.as_slice();
    let marks = wire_marks(
        alloc,
        wires,
        module.cells.as_slice(),
        module.links.as_slice(),
    )?;
    let moves = Moves::of(alloc, marks.as_slice())?;
    let wires = moves.wires(alloc, wires, marks.as_slice())?;
    let links = moves.links(alloc, module.links.as_slice())?;
    let cells = moves.cells(alloc, module.cells.into_vec())?;
    Ok(Module {
        wires: Seq::from_vec(wires),
        cells: Seq::from_vec(cells),
        links: Seq::from_vec(links),
        ..module
    })
}

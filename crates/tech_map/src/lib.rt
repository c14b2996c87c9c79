//! The pass `techmap`: cells become gates, each in its place.
#![tactic(auto)]

mod expand;
mod in_place;
mod taken;

ghost use Rattle.std.specs.Prelude.{◌≡◌, ◌++◌, ◌∷◌, [], Err, OnOk, IfOk, length};
ghost use Rattle.rtl_ir.specs.Types.{table_ports};
ghost use Rattle.net_index.specs.Builder.{IsInLimits, PassesLimit};
ghost use Rattle.net_model.specs.Within.{Each};
ghost use Rattle.pass_laws.specs.Pass.{IsPass, StaysDriven};
ghost use Rattle.pass_laws.specs.Ready.{IsReady};
ghost use Rattle.pass_laws.specs.Replaces.{IsOutside};
ghost use Rattle.pass_laws.specs.Stays.{StaysFaultless};
ghost use Rattle.map_laws.specs.Expansion.{IsWholeCell};
ghost use Rattle.tech_map.specs.Gates.{HasGatesAlone};
ghost use Rattle.tech_map.specs.InPlace.{count_of, counts_of};
ghost use Rattle.tech_map.specs.Techmap.{TechmapPassesLimit, beside, taken_kind, techmap_of};
ghost use Rattle.tech_map.specs.Techmap.{with_all_gates, with_gates};

use crate::expand::expand_by_kind;
use crate::in_place::with_gates_in_place;
use crate::taken::taken_kind;
use net_index::{Builder, PassFault, check_limits};
use rtl_bits::{Copied, Memory};
use rtl_ir::{Cell, Module, PortTable};
use std::alloc::Global;

/// The module with each cell of a kind that becomes gates replaced in its place by them. The cells that
/// are replaced count for the limits beside the gates; fresh wires and connections stay last.
pub fn apply(alloc: Global, module: &Module, ports: &PortTable) -> Result<Module, PassFault>
    requires ready { IsReady (table_ports ports.now.modules) «module».now }
    ensures exact { IfOk result (λ after. after ≡ techmap_of «module».now) }
    ensures over { result ≡ Err PassFault.Over → TechmapPassesLimit «module».now }
    ensures within { OnOk result (IsInLimits (beside «module».now)) }
    ensures pass { IfOk result (IsPass ports.now «module».now) }
    ensures driven { IfOk result (StaysDriven «module».now) }
    ensures faultless { IfOk result (StaysFaultless «module».now) }
    // Where no cell is one of a memory, the answer has gates and instances alone.
    ensures gates { IfOk result (λ after. Each IsOutside «module».now.cells → HasGatesAlone after) }
{
    apply_owned(alloc, module.copy()?, ports)
}

/// As `apply`, of a module that is given away: only its cells are copied, and each copy is let go as soon as its gates
/// are there.
pub fn apply_owned(alloc: Global, module: Module, ports: &PortTable) -> Result<Module, PassFault>
    requires ready { IsReady (table_ports ports.now.modules) «module» }
    ensures exact { IfOk result (λ after. after ≡ techmap_of «module») }
    ensures over { result ≡ Err PassFault.Over → TechmapPassesLimit «module» }
    ensures within { OnOk result (IsInLimits (beside «module»)) }
    ensures pass { IfOk result (IsPass ports.now «module») }
    ensures driven { IfOk result (StaysDriven «module») }
    ensures faultless { IfOk result (StaysFaultless «module») }
    // Where no cell is one of a memory, the answer has gates and instances alone.
    ensures gates { IfOk result (λ after. Each IsOutside «module».cells → HasGatesAlone after) }
{
    mapped(alloc, module)
}

/// The gates go last, and then into the places of the cells that they replace.
#[tactic(auto, using(crate::proofs::Growing::over_later))]
fn mapped(alloc: Global, module: Module) -> Result<Module, PassFault>
    requires whole { Each (IsWholeCell (length «module».wires)) «module».cells }
    ensures exact { IfOk result (λ after. after ≡ techmap_of «module») }
    ensures over { result ≡ Err PassFault.Over → TechmapPassesLimit «module» }
    ensures within { OnOk result (IsInLimits (beside «module»)) }
{
    check_limits(&module)?;
    let cells = module.cells.copy()?.into_vec();
    let count = cells.len();
    let mut builder = Builder::of(alloc, module)?;
    let counts = add_gates(alloc, cells, &mut builder)?;
    let after = with_gates_in_place(alloc, builder.finish(), count, counts)?;
    Ok(after)
}

/// The gates of all of these cells go last, and each cell is let go once its own are there. The answer is
/// how many gates there are of each cell that becomes gates. After an error the builder holds some of them.
fn add_gates(
    alloc: Global,
    cells: Vec<Cell>,
    builder: &mut Builder,
) -> Result<Vec<usize>, PassFault>
    requires whole { Each (IsWholeCell (length builder.old.body.wires)) cells.items }
    ensures exact { OnOk result (builder.new ≡ with_all_gates cells.items builder.old) }
    ensures counts { IfOk result (λ counts. counts.items ≡ counts_of cells.items builder.old) }
    ensures over { result ≡ Err PassFault.Over → PassesLimit (with_all_gates cells.items builder.old) }
    ensures within { IsInLimits builder.old → OnOk result (IsInLimits builder.new) }
{
    let mut counts = Vec::new(alloc);
    for cell in cells {
        add_gates_of(alloc, &cell, builder, &mut counts)?;
    }
    Ok(counts)
}

/// The gates of a cell go last, where it becomes gates, and how many they are goes last among the counts.
fn add_gates_of(
    alloc: Global,
    cell: &Cell,
    builder: &mut Builder,
    counts: &mut Vec<usize>,
) -> Result<(), PassFault>
    ensures exact { OnOk result (builder.new ≡ with_gates (taken_kind cell.now) cell.now builder.old) }
    ensures counts { OnOk result (counts.new.items ≡
        counts.old.items ++ count_of (taken_kind cell.now) cell.now builder.old) }
    ensures over { result ≡ Err PassFault.Over → PassesLimit (with_gates (taken_kind cell.now) cell.now builder.old) }
    ensures within { IsInLimits builder.old → OnOk result (IsInLimits builder.new) }
{
    let Some(kind) = taken_kind(cell) else {
        return Ok(());
    };
    let before = builder.cell_count();
    expand_by_kind(alloc, kind, cell, builder)?;
    put_count(counts, builder.cell_count().saturating_sub(before))?;
    Ok(())
}

/// A count goes last.
fn put_count(counts: &mut Vec<usize>, count: usize) -> Result<(), Memory>
    ensures all { OnOk result (counts.new.items ≡ counts.old.items ++ count ∷ []) }
{
    counts.push(count)?;
    Ok(())
}

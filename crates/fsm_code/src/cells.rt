//! The cells of a module in the code.

ghost use Rattle.std.specs.Prelude.{◌≡◌, ◌<◌, ℕ, IfOk, OnOk, length};
ghost use Rattle.rtl_ir.specs.Build.{Building};
ghost use Rattle.rtl_ir.specs.declared.module.Module.{Module};
ghost use Rattle.rtl_ir.specs.Types.{Ports};
ghost use Rattle.net_index.specs.Drivers.{AreDrivers};
ghost use Rattle.net_model.specs.Fsm.Code.{coded_cell, coded_cells};
ghost use Rattle.fsm_code.specs.Links.{behind, linked, with_cells};
ghost use Rattle.fsm_code.specs.Outputs.{IsTabled, coding_of};
ghost use Rattle.fsm_code.specs.Places.{ArePlaces};

use crate::coding::Coding;
use crate::compare::push_compare;
use crate::flop::coded_flop;
use crate::fork::coded_fork;
use crate::marks::{Places, is_marked};
use net_index::Drivers;
use rtl_bits::{Memory, Seq};
use rtl_ir::{Cell, Link, Machine, Module};
use std::alloc::Global;

/// What cells are recoded by: the index of their module, the codes, the machine, and the places of its cells.
#[derive(Clone, Copy)]
struct Recoding<'a> {
    index: &'a Drivers,
    coding: &'a Coding<'a>,
    machine: &'a Machine,
    places: &'a Places,
}

/// The cell at a place, by its part in the machine: what stands in its place goes last, and what is connected.
fn push_coded(
    alloc: Global,
    by: &Recoding<'_>,
    at: usize,
    cell: Cell,
    cells: &mut Vec<Cell>,
    links: &mut Seq<Link>,
) -> Result<(), Memory>
    ensures ok { OnOk result ((ports : Ports) (m : Module) (b : Building) (count : ℕ) →
        AreDrivers by.now.index.now ports m →
        IsTabled by.now.coding.now.outputs → ArePlaces count by.now.machine.now by.now.places.now → at < count →
        (cells.new.items, linked b links.new) ≡ behind cells.old.items
        (coded_cell m by.now.machine.now (coding_of by.now.coding.now) at cell (linked b links.old))) }
{
    let places = by.places;
    if at == places.flop {
        let flop = coded_flop(alloc, by.index, by.coding, &by.machine.reset, cell)?;
        cells.push(flop)?;
        return Ok(());
    }
    if is_marked(places.forks.as_slice(), at) {
        let fork = coded_fork(alloc, by.index, by.coding, cell)?;
        cells.push(fork)?;
        return Ok(());
    }
    if is_marked(places.compares.as_slice(), at) {
        push_compare(alloc, by.index, by.coding, cell, cells, links)?;
        return Ok(());
    }
    cells.push(cell)?;
    Ok(())
}

/// The module with its cells in the code, each in its place. A cell past the marks is taken for want of memory.
pub(crate) fn recoded_cells(
    alloc: Global,
    index: &Drivers,
    coding: &Coding,
    machine: &Machine,
    places: &Places,
    module: Module,
) -> Result<Module, Memory>
    ensures exact { IfOk result (λ after. (ports : Ports) (m : Module) (next : ℕ) → AreDrivers index.now ports m →
        IsTabled coding.now.outputs → ArePlaces (length m.cells) machine.now places.now → «module».cells ≡ m.cells →
        after ≡ with_cells
        (coded_cells m machine.now (coding_of coding.now) 0 m.cells (record { body = «module»; next = next }))) }
{
    let mut links = module.links;
    let mut cells = Vec::new(alloc);
    let mut at = 0;
    let by = Recoding {
        index,
        coding,
        machine,
        places,
    };
    for cell in module.cells.into_vec() {
        if at >= places.forks.len() {
            return Err(Memory);
        }
        push_coded(alloc, &by, at, cell, &mut cells, &mut links)?;
        at += 1;
    }
    Ok(Module {
        cells: Seq::from_vec(cells),
        links,
        ..module
    })
}

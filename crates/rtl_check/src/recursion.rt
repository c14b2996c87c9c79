//! Modules that instantiate themselves.

ghost use Rattle.std.specs.Prelude.{◌≡◌, ◌<◌, List, length, IfOk, OnOk};
ghost use Rattle.rtl_ir.specs.declared.module.Module.{Module};
ghost use Rattle.rtl_ir.specs.Faults.Recursion.{instance_graph, instance_place, instance_places, leads_within};
ghost use Rattle.rtl_ir.specs.Faults.Recursion.{recursion_faults};
ghost use Rattle.process_check.specs.Ends.{AreEnding};
ghost use Rattle.rtl_check.specs.Finds.{Finds};
ghost use Rattle.rtl_check.specs.Places.{with_place};
ghost use Rattle.design_edit.specs.Table.{ArePlaces};
ghost use Rattle.process_check.specs.Search.{IsGraph, rows_of};

use crate::fault::CheckFault;
use design_edit::{Places, places_of};
use process_check::{Graph, ending_places, is_recursive};
use rtl_bits::{Copied, Memory};
use rtl_ir::{Cell, Module, is_library_cell};
use std::alloc::Global;

/// The first module that instantiates itself, through other modules or not.
pub(crate) fn check_recursion(alloc: Global, modules: &[Module]) -> Result<(), CheckFault>
    ensures first { Finds result (recursion_faults modules.now) }
{
    let graph = graph_of(alloc, modules)?;
    let ending = ending_places(alloc, graph.as_slice())?;
    for at in 0..modules.len() {
        if is_recursive(alloc, graph.as_slice(), ending.as_slice(), at)? {
            return Err(CheckFault::Recursion(modules[at].id.copy()?));
        }
    }
    Ok(())
}

/// For each module the places of those that it has instances of.
fn graph_of(alloc: Global, modules: &[Module]) -> Result<Graph, Memory>
    ensures rows { IfOk result (λ graph. rows_of graph.items ≡ instance_graph modules.now) }
{
    let places = places_of(alloc, modules)?;
    let mut graph = Vec::with_capacity(alloc, modules.len())?;
    for module in modules {
        let row = instance_places(alloc, &places, module.cells.as_slice())?;
        graph.push(row)?;
    }
    Ok(graph)
}

/// The places of the modules that these cells are instances of.
fn instance_places(alloc: Global, places: &Places, cells: &[Cell]) -> Result<Vec<usize>, Memory>
    ensures value { IfOk result (λ found. (modules : List Module) → ArePlaces places.now modules →
        found.items ≡ instance_places modules cells.now) }
{
    let mut found = Vec::new(alloc);
    for cell in cells {
        let place = instance_place(places, cell.kind_name.as_slice());
        put_place(&mut found, place)?;
    }
    Ok(found)
}

/// Puts a place behind the others, where there is one.
fn put_place(found: &mut Vec<usize>, place: Option<usize>) -> Result<(), Memory>
    ensures found { OnOk result (found.new.items ≡ with_place found.old.items place) }
{
    if let Some(place) = place {
        found.push(place)?;
    }
    Ok(())
}

/// The place of the module that a cell of this type is an instance of.
fn instance_place(places: &Places, name: &[u8]) -> Option<usize>
    ensures value { (modules : List Module) → ArePlaces places.now modules → result ≡ instance_place modules name.now }
{
    if is_library_cell(name) {
        None
    } else {
        places.get(name).copied()
    }
}

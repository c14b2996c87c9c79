//! One sweep over the cells, each as the module stands when its turn comes.

ghost use Rattle.std.specs.Prelude.{◌≡◌, ◌++◌, [], List, IfOk, OnOk};
ghost use Rattle.rtl_ir.specs.Types as rtl;
ghost use Rattle.rtl_ir.specs.Types.{table_ports};
ghost use Rattle.rtl_ir.specs.declared.cell.Cell.{Cell};
ghost use Rattle.rtl_ir.specs.declared.wire.Wire.{Wire};
ghost use Rattle.net_index.specs.Types.{AreTypes};
ghost use Rattle.net_alias.specs.Aliases.{IsAliases};
ghost use Rattle.opt_expr.specs.Places.{ArePlaces};
ghost use Rattle.opt_more.specs.Sweep.{swept_by, swept_of};
ghost use Rattle.opt_more.specs.Registers.{visit_of};
ghost use Rattle.rtl_ir.specs.Starts.{AreInits};
ghost use Rattle.opt_more.specs.Visits.{visit_by};

use crate::folds::reduced;
use crate::others::Others;
use crate::registers::{Visited, registered};
use net_alias::Aliases;
use net_index::Types;
use opt_expr::{Places, places_of, standing};
use rtl_bits::{Bits, Memory, Seq};
use rtl_ir::{Cell, Link, Module, PortTable, inits};
use std::alloc::Global;
use std::collections::VecDeque;

/// A pass over the cells.
#[derive(Clone, Copy)]
pub(crate) enum Pass {
    /// Folds read what other folds read.
    Reduce,
    /// Registers that never change go, and those that are always enabled lose their enable.
    Dff,
}

/// What the visits of a sweep go by: the pass, the types of the cells, and the start values of the wires.
#[derive(Clone, Copy)]
struct By<'a, 't> {
    pass: Pass,
    types: &'a Types<'t>,
    inits: &'a [Bits],
}

/// What a sweep leaves: the cells, each in its place unless it went, and the connections.
#[derive(Drop)]
struct Swept {
    slots: Vec<Option<Cell>>,
    links: Seq<Link>,
}

/// The module after a sweep over its cells.
pub(crate) fn sweep(
    alloc: Global,
    pass: Pass,
    module: Module,
    ports: &PortTable,
) -> Result<Module, Memory>
    ensures exact { IfOk result (λ after.
        after ≡ swept_of (visit_by pass (table_ports ports.now.modules) «module».wires «module».cells) «module») }
{
    let aliases = Aliases::of(alloc, &module)?;
    let inits = inits(alloc, module.wires.as_slice())?;
    let types = Types::of_table(alloc, ports)?;
    let by = By {
        pass,
        types: &types,
        inits: inits.as_slice(),
    };
    let swept = sweep_cells(alloc, &by, aliases, module.cells.into_vec(), module.links)?;
    let cells = standing(alloc, swept.slots)?;
    Ok(Module {
        cells,
        links: swept.links,
        ..module
    })
}

/// The sweep over these cells. The tables that it needs of them are gone when it ends.
fn sweep_cells(
    alloc: Global,
    by: &By<'_, '_>,
    aliases: Aliases,
    cells: Vec<Cell>,
    links: Seq<Link>,
) -> Result<Swept, Memory>
    requires aliases { IsAliases aliases links }
    ensures swept { IfOk result (λ after. (ports : rtl.Ports) (wires : List Wire) → AreTypes by.now.types.now ports →
        AreInits by.now.inits.now wires → record { cells = after.slots.items; links = after.links } ≡
        swept_by (visit_by by.now.pass ports wires cells.items) [] cells.items links) }
{
    let places = places_of(alloc, cells.as_slice())?;
    let mut aliases = aliases;
    let mut links = links;
    let slots = visit_all(alloc, by, &places, &mut aliases, cells, &mut links)?;
    Ok(Swept { slots, links })
}

/// What stays of the cells, each in its place, once all are visited in order. After an error some visits are missing.
fn visit_all(
    alloc: Global,
    by: &By<'_, '_>,
    places: &Places,
    aliases: &mut Aliases,
    cells: Vec<Cell>,
    links: &mut Seq<Link>,
) -> Result<Vec<Option<Cell>>, Memory>
    requires places { ArePlaces places.now cells.items }
    requires aliases { IsAliases aliases.old links.old }
    ensures swept { IfOk result (λ slots. (ports : rtl.Ports) (wires : List Wire) → AreTypes by.now.types.now ports →
        AreInits by.now.inits.now wires → record { cells = slots.items; links = links.new } ≡
        swept_by (visit_by by.now.pass ports wires cells.items) [] cells.items links.old) }
{
    let mut done = Vec::with_capacity(alloc, cells.len())?;
    let mut rest = VecDeque::from_vec(cells);
    while let Some(cell) = rest.pop_front() {
        let others = Others {
            places,
            done: done.as_slice(),
            rest: &rest,
        };
        let slot = visit(alloc, by, &others, aliases, cell, links)?;
        done.push(slot)?;
    }
    Ok(done)
}

/// Visits a cell among the others. Connections that come of it go last. After an error its visit is not whole.
fn visit(
    alloc: Global,
    by: &By<'_, '_>,
    others: &Others<'_>,
    aliases: &mut Aliases,
    cell: Cell,
    links: &mut Seq<Link>,
) -> Result<Option<Cell>, Memory>
    ensures cell { IfOk result (λ slot. (ports : rtl.Ports) (wires : List Wire) (cells : List Cell) →
        AreTypes by.now.types.now ports → AreInits by.now.inits.now wires →
        ArePlaces others.now.places.now cells → IsAliases aliases.old links.old →
        slot ≡ (visit_by by.now.pass ports wires cells others.now.done.now others.now.rest.now.items
        links.old cell).cell) }
    ensures links { OnOk result ((ports : rtl.Ports) (wires : List Wire) (cells : List Cell) →
        AreTypes by.now.types.now ports → AreInits by.now.inits.now wires →
        ArePlaces others.now.places.now cells → IsAliases aliases.old links.old →
        links.new ≡ links.old ++ (visit_by by.now.pass ports wires cells others.now.done.now others.now.rest.now.items
        links.old cell).links) }
    ensures aliases { OnOk result (IsAliases aliases.old links.old → IsAliases aliases.new links.new) }
{
    match by.pass {
        Pass::Reduce => {
            let after = reduced(alloc, by.types, others, aliases, cell)?;
            Ok(Some(after))
        }
        Pass::Dff => {
            let visited = registered(alloc, by.types, by.inits, aliases, cell)?;
            leave(visited, aliases, links)
        }
    }
}

/// What stays in the place of a cell. A connection that it leaves goes last.
fn leave(
    visited: Visited,
    aliases: &mut Aliases,
    links: &mut Seq<Link>,
) -> Result<Option<Cell>, Memory>
    ensures cell { IfOk result (λ slot. slot ≡ (visit_of visited).cell) }
    ensures links { OnOk result (links.new ≡ links.old ++ (visit_of visited).links) }
    ensures aliases { OnOk result (IsAliases aliases.old links.old → IsAliases aliases.new links.new) }
{
    match visited {
        Visited::Stays(cell) => Ok(Some(cell)),
        Visited::Goes(link) => {
            aliases.connect(link.left.as_slice(), link.right.as_slice())?;
            links.push(link)?;
            Ok(None)
        }
    }
}

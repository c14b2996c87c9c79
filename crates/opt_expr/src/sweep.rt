//! One sweep over the cells, each as the module stands when its turn comes.

ghost use Rattle.std.specs.Prelude.{◌≡◌, [], true, IfOk, Some, map};
ghost use Rattle.rtl_ir.specs.Types as rtl;
ghost use Rattle.rtl_ir.specs.Types.{table_ports};
ghost use Rattle.net_index.specs.Types.{AreTypes};
ghost use Rattle.net_alias.specs.Aliases.{IsAliases};
ghost use Rattle.opt_expr.specs.Places.{ArePlaces};
ghost use Rattle.opt_expr.specs.Sweep.{expr_of, standing, swept};

use crate::Turn;
use crate::places::{Places, places_of};
use crate::visit::{Around, visit};
use net_alias::Aliases;
use net_index::Types;
use rtl_bits::{Memory, Seq};
use rtl_ir::{Cell, Link, Module, PortTable};
use std::alloc::Global;
use std::collections::VecDeque;

/// What a sweep leaves: the cells, each in its place unless it went, and the connections.
#[derive(Drop)]
struct Swept {
    slots: Vec<Option<Cell>>,
    links: Seq<Link>,
    /// Whether each cell is as it was, and no connection came.
    is_same: bool,
}

/// The module after a sweep over its cells. When a cell's turn comes, what stays of it moves and the rest is freed.
pub(crate) fn sweep(alloc: Global, module: Module, ports: &PortTable) -> Result<Turn, Memory>
    ensures exact { IfOk result (λ turn. turn.after ≡ expr_of (table_ports ports.now.modules) «module») }
    ensures same { IfOk result (λ turn. turn.is_same ≡ true → turn.after ≡ «module») }
{
    let aliases = Aliases::of(alloc, &module)?;
    let swept = sweep_cells(alloc, ports, aliases, module.cells.into_vec(), module.links)?;
    let cells = standing(alloc, swept.slots)?;
    Ok(Turn {
        after: Module {
            cells,
            links: swept.links,
            ..module
        },
        is_same: swept.is_same,
    })
}

/// The sweep over these cells. The tables that it needs are gone when it ends.
fn sweep_cells(
    alloc: Global,
    ports: &PortTable,
    aliases: Aliases,
    cells: Vec<Cell>,
    links: Seq<Link>,
) -> Result<Swept, Memory>
    requires aliases { IsAliases aliases links }
    ensures swept { IfOk result (λ after.
        record { cells = after.slots.items; links = after.links } ≡
        swept (table_ports ports.now.modules) cells.items [] cells.items links) }
    ensures same { IfOk result (λ after. after.is_same ≡ true →
        (after.slots.items ≡ map Some cells.items) × (after.links ≡ links)) }
{
    let types = Types::of_table(alloc, ports)?;
    let places = places_of(alloc, cells.as_slice())?;
    let mut aliases = aliases;
    let swept = visit_all(alloc, &types, &places, &mut aliases, cells, links)?;
    Ok(swept)
}

/// Visits the cells in order, and tells whether each is as it was. After an error some visits are missing.
fn visit_all(
    alloc: Global,
    types: &Types,
    places: &Places,
    aliases: &mut Aliases,
    cells: Vec<Cell>,
    mut links: Seq<Link>,
) -> Result<Swept, Memory>
    requires places { ArePlaces places.now cells.items }
    requires aliases { IsAliases aliases.old links }
    ensures swept { IfOk result (λ after. (ports : rtl.Ports) → AreTypes types.now ports →
        record { cells = after.slots.items; links = after.links } ≡ swept ports cells.items [] cells.items links) }
    ensures same { IfOk result (λ after. after.is_same ≡ true →
        (after.slots.items ≡ map Some cells.items) × (after.links ≡ links)) }
{
    let mut is_same = true;
    let mut done = Vec::with_capacity(alloc, cells.len())?;
    let mut rest = VecDeque::from_vec(cells);
    while let Some(cell) = rest.pop_front() {
        let around = Around {
            places,
            done: done.as_slice(),
            rest: &rest,
        };
        let visited = visit(alloc, types, aliases, &around, cell, &mut links)?;
        is_same = is_same && visited.is_same;
        done.push(visited.slot)?;
    }
    Ok(Swept {
        slots: done,
        links,
        is_same,
    })
}

/// The cells that have not gone.
pub fn standing(alloc: Global, slots: Vec<Option<Cell>>) -> Result<Seq<Cell>, Memory>
    ensures value { IfOk result (λ cells. cells ≡ standing slots.items) }
{
    let mut cells = Vec::with_capacity(alloc, slots.len())?;
    for slot in slots {
        if let Some(cell) = slot {
            cells.push(cell)?;
        }
    }
    Ok(Seq::from_vec(cells))
}

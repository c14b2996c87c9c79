//! One sweep over the multiplexers, each as the module stands when its turn comes.

ghost use Rattle.std.specs.Prelude.{◌≡◌, [], IfOk, List};
ghost use Rattle.rtl_ir.specs.Types.{table_ports};
ghost use Rattle.rtl_ir.specs.declared.module.Link.{Link};
ghost use Rattle.net_alias.specs.Aliases.{IsAliases};
ghost use Rattle.opt_more.specs.Muxtree.{muxtree_of, muxtree_visit};
ghost use Rattle.opt_more.specs.Sweep.{swept_by};

use crate::ends::Arms;
use crate::muxes::muxed;
use crate::others::Others;
use net_alias::Aliases;
use net_index::Types;
use opt_expr::{places_of, standing};
use rtl_bits::Memory;
use rtl_ir::{Cell, Module, PortTable};
use std::alloc::Global;
use std::collections::VecDeque;

/// The module after a sweep over its multiplexers.
pub(crate) fn sweep_trees(
    alloc: Global,
    module: Module,
    ports: &PortTable,
) -> Result<Module, Memory>
    ensures exact { IfOk result (λ after. after ≡ muxtree_of (table_ports ports.now.modules) «module») }
{
    let aliases = Aliases::of(alloc, &module)?;
    let slots = visit_trees(alloc, ports, aliases, module.cells.into_vec())?;
    let cells = standing(alloc, slots)?;
    Ok(Module { cells, ..module })
}

/// What comes of these cells, each in its place. The tables that this needs are gone when it ends.
fn visit_trees(
    alloc: Global,
    ports: &PortTable,
    aliases: Aliases,
    cells: Vec<Cell>,
) -> Result<Vec<Option<Cell>>, Memory>
    ensures swept { IfOk result (λ slots. (links : List Link) → IsAliases aliases links →
        record { cells = slots.items; links = links } ≡
        swept_by (muxtree_visit (table_ports ports.now.modules) cells.items) [] cells.items links) }
{
    let types = Types::of_table(alloc, ports)?;
    let places = places_of(alloc, cells.as_slice())?;
    let mut aliases = aliases;
    let mut arms = Arms::make(alloc);
    let mut done = Vec::with_capacity(alloc, cells.len())?;
    let mut rest = VecDeque::from_vec(cells);
    while let Some(cell) = rest.pop_front() {
        let others = Others {
            places: &places,
            done: done.as_slice(),
            rest: &rest,
        };
        let after = muxed(alloc, &types, &others, &mut arms, &mut aliases, cell)?;
        done.push(Some(after))?;
    }
    Ok(done)
}

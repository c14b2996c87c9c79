//! The nodes of a tree of decisions, switches and cases, by numbers.

ghost use Rattle.std.specs.Prelude.{◌≡◌, ◌++◌, IfOk, OnOk, length, slice_set};
ghost use Rattle.match_cells.specs.Numbers.{case_behind, switch_behind};

use rtl_bits::Memory;
use rtl_ir::{Case, Switch};
use std::alloc::Global;

/// Of each node of the tree the first node behind it. The case is node 0; a node comes before the nodes below it.
pub fn nodes_behind(alloc: Global, root: &Case) -> Result<Vec<usize>, Memory>
    ensures value { IfOk result (λ table. table.items ≡ case_behind 0 root.now) }
{
    let mut table = Vec::new(alloc);
    put_case(&mut table, root)?;
    Ok(table)
}

/// Puts the node of the case and those below it last.
#[cycle(nodes)]
fn put_case(table: &mut Vec<usize>, case: &Case) -> Result<(), Memory>
    ensures ok { OnOk result (table.new.items ≡ table.old.items ++ case_behind (length table.old.items) case.now) }
{
    let node = table.len();
    table.push(0)?;
    for switch in &case.switches {
        put_switch(table, switch)?;
    }
    close(table, node);
    Ok(())
}

/// Puts the node of the switch and those below it last.
#[cycle(nodes)]
fn put_switch(table: &mut Vec<usize>, switch: &Switch) -> Result<(), Memory>
    ensures ok { OnOk result (table.new.items ≡ table.old.items ++ switch_behind (length table.old.items) switch.now) }
{
    let node = table.len();
    table.push(0)?;
    for case in &switch.cases {
        put_case(table, case)?;
    }
    close(table, node);
    Ok(())
}

/// No more nodes are below the node.
fn close(table: &mut Vec<usize>, node: usize)
    ensures value { table.new.items ≡ slice_set table.old.items node (length table.old.items) }
{
    let behind = table.len();
    if let Some(slot) = table.get_mut(node) {
        *slot = behind;
    }
}

//! The numbers of the nodes of a tree, by a table of what is behind each.

ghost use Rattle.std.specs.Prelude.{◌≡◌, IfOk, slice_get, unwrap_or};
ghost use Rattle.rtl_ir.specs.Tree.{cases_of};
ghost use Rattle.match_cells.specs.Numbers.{HasCases, case_nodes};

use rtl_bits::Memory;
use rtl_ir::Case;
use std::alloc::Global;

/// The first node behind a node.
pub fn behind(table: &[usize], node: usize) -> usize
    ensures value { result ≡ unwrap_or (slice_get table.now node) node }
{
    match table.get(node) {
        Some(behind) => *behind,
        None => node,
    }
}

/// The nodes of the cases.
pub fn case_nodes(
    alloc: Global,
    table: &[usize],
    node: usize,
    cases: &[Case],
) -> Result<Vec<usize>, Memory>
    requires table { HasCases table.now node (cases_of cases.now) }
    ensures value { IfOk result (λ nodes. nodes.items ≡ case_nodes node (cases_of cases.now)) }
{
    let mut nodes = Vec::with_capacity(alloc, cases.len())?;
    let mut node = node;
    for _ in cases {
        nodes.push(node)?;
        node = behind(table, node);
    }
    Ok(nodes)
}

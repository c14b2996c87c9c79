//! Tree bits that depend on themselves.

ghost use Rattle.std.specs.Prelude.{◌≡◌, IfOk, length};
ghost use Rattle.rtl_ir.specs.Faults.SelfReading.{reads_itself};
ghost use Rattle.process_check.specs.Readings.{AreBetween, HasEdges};
ghost use Rattle.process_check.specs.Search.{IsGraph, rows_of};

use crate::ends::{ending_places, is_recursive, link, unlinked};
use crate::readings::{Edge, readings};
use crate::search::Graph;
use rtl_bits::Memory;
use rtl_ir::Case;
use rtl_sig::WireBit;
use std::alloc::Global;

/// Whether one of the tree bits depends on itself, below a root whose switches are read by the rules.
pub(crate) fn reads_itself(alloc: Global, root: &Case, bits: &[WireBit]) -> Result<bool, Memory>
    ensures value { IfOk result (λ itself. itself ≡ reads_itself root.now bits.now) }
{
    let edges = readings(alloc, root, bits)?;
    let graph = graph_of(alloc, bits.len(), edges.as_slice())?;
    let ending = ending_places(alloc, graph.as_slice())?;
    for at in 0..bits.len() {
        if is_recursive(alloc, graph.as_slice(), ending.as_slice(), at)? {
            return Ok(true);
        }
    }
    Ok(false)
}

/// For each of so many bits those that it reads.
fn graph_of(alloc: Global, count: usize, edges: &[Edge]) -> Result<Graph, Memory>
    requires between { AreBetween count edges.now }
    ensures graph { IfOk result (λ graph. IsGraph (rows_of graph.items)) }
    ensures size { IfOk result (λ graph. length graph.items ≡ count) }
    ensures edges { IfOk result (λ graph. HasEdges (rows_of graph.items) edges.now) }
{
    let mut graph = unlinked(alloc, count)?;
    for edge in edges {
        link(&mut graph, edge.from, edge.to)?;
    }
    Ok(graph)
}

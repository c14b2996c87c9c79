//! Ways back to a place of a graph.

ghost use Rattle.std.specs.Prelude.{◌≡◌, ◌<◌, length, true, slice_set, IfOk, OnOk};
ghost use Rattle.std.specs.Bool.{OnFalse, OnTrue};
ghost use Rattle.rtl_ir.specs.Faults.Recursion.{leads_within};
ghost use Rattle.process_check.specs.Search.{IsGraph, Searching, Visiting, Within, followers, rows_of, with_new};
ghost use Rattle.process_check.specs.Search.{work_left};

use rtl_bits::Memory;
use std::alloc::Global;

/// For each place those that follow it.
pub type Graph = Vec<Vec<usize>>;

/// The places that were found, and those among them that are to be looked at.
#[derive(Drop)]
struct Search {
    seen: Vec<bool>,
    waiting: Vec<usize>,
}

/// Whether a chain of steps leads from the place back to it.
pub(crate) fn leads_back(alloc: Global, graph: &[Vec<usize>], start: usize) -> Result<bool, Memory>
    requires graph { IsGraph (rows_of graph.now) }
    requires in_range { start < length graph.now }
    ensures value { IfOk result (λ back. back ≡ leads_within (rows_of graph.now) (length graph.now) start start) }
{
    let mut search = Search {
        seen: vec![in alloc; false; graph.len()]?,
        waiting: Vec::new(alloc),
    };
    search.waiting.push(start)?;
    while let Some(at) = search.waiting.pop() {
        if visit(&mut search, graph, start, at)? {
            return Ok(true);
        }
    }
    Ok(false)
}

/// Puts the followers of a place that are new among those that wait. Answers whether the start is among them.
fn visit(search: &mut Search, graph: &[Vec<usize>], start: usize, at: usize) -> Result<bool, Memory>
    requires graph { IsGraph (rows_of graph.now) }
    requires visiting { Visiting (rows_of graph.now) start search.old.seen.items search.old.waiting.items at
        (followers (rows_of graph.now) at) }
    ensures back { IfOk result (λ back. OnTrue back (Within (rows_of graph.now) (length graph.now) start start)) }
    ensures work { IfOk result (λ back. OnFalse back (work_left search.new.seen.items search.new.waiting.items ≡
        work_left search.old.seen.items search.old.waiting.items)) }
    ensures searching { IfOk result (λ back.
        OnFalse back (Searching (rows_of graph.now) start search.new.seen.items search.new.waiting.items)) }
{
    for next in &graph[at] {
        let next = *next;
        if next == start {
            return Ok(true);
        }
        look_at(search, next)?;
    }
    Ok(false)
}

/// Puts the place among those that wait, where it is new.
fn look_at(search: &mut Search, place: usize) -> Result<(), Memory>
    requires in_range { place < length search.old.seen.items }
    ensures seen { OnOk result (search.new.seen.items ≡ slice_set search.old.seen.items place true) }
    ensures waiting { OnOk result (search.new.waiting.items ≡
        with_new search.old.seen.items search.old.waiting.items place) }
{
    if search.seen[place] {
        return Ok(());
    }
    search.seen[place] = true;
    search.waiting.push(place)?;
    Ok(())
}

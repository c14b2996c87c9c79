//! Places of a graph from which each chain ends.

ghost use Rattle.std.specs.Prelude.{◌≡◌, ◌<◌, ◌+◌, ℕ, length, true, IfOk, OnOk};
ghost use Rattle.std.specs.Bool.{OnTrue};
ghost use Rattle.rtl_ir.specs.Faults.Recursion.{leads_within};
ghost use Rattle.process_check.specs.Ends.{AreBelow, AreEnding, AreMarked, AreUnlinked, Links, to_do};
ghost use Rattle.process_check.specs.Search.{IsGraph, rows_of};

use crate::search::{Graph, leads_back};
use rtl_bits::Memory;
use std::alloc::Global;

/// What is known of the places: from which each chain ends, how many followers of each are left to look at,
/// and those of which none is.
#[derive(Drop)]
struct Ends {
    ending: Vec<bool>,
    left: Vec<usize>,
    waiting: Vec<usize>,
}

/// Marks the places from which each chain ends, in time linear in the graph.
pub fn ending_places(alloc: Global, graph: &[Vec<usize>]) -> Result<Vec<bool>, Memory>
    requires graph { IsGraph (rows_of graph.now) }
    ensures ending { IfOk result (λ marks. AreEnding (rows_of graph.now) marks.items) }
{
    let leading = leading_to(alloc, graph)?;
    let mut ends = Ends::of(alloc, graph)?;
    while let Some(at) = ends.waiting.pop() {
        ends.end(graph, at);
        ends.free_all(leading[at].as_slice())?;
    }
    Ok(ends.ending)
}

/// For each place those that it follows.
fn leading_to(alloc: Global, graph: &[Vec<usize>]) -> Result<Graph, Memory>
    requires graph { IsGraph (rows_of graph.now) }
    ensures size { IfOk result (λ leading. length leading.items ≡ length graph.now) }
    ensures graph { IfOk result (λ leading. IsGraph (rows_of leading.items)) }
{
    let mut leading = unlinked(alloc, graph.len())?;
    for at in 0..graph.len() {
        link_all(&mut leading, graph[at].as_slice(), at)?;
    }
    Ok(leading)
}

/// So many places, of which none follows another.
pub(crate) fn unlinked(alloc: Global, count: usize) -> Result<Graph, Memory>
    ensures size { IfOk result (λ graph. length graph.items ≡ count) }
    ensures none { IfOk result (λ graph. AreUnlinked (rows_of graph.items)) }
    ensures graph { IfOk result (λ graph. IsGraph (rows_of graph.items)) }
{
    let mut graph = Vec::with_capacity(alloc, count)?;
    for _ in 0..count {
        graph.push(Vec::new(alloc))?;
    }
    Ok(graph)
}

/// Puts a place among those that follow each of these.
fn link_all(graph: &mut Graph, places: &[usize], at: usize) -> Result<(), Memory>
    requires graph { IsGraph (rows_of graph.old.items) }
    requires below { AreBelow (length graph.old.items) places.now }
    requires in_range { at < length graph.old.items }
    ensures size { length graph.new.items ≡ length graph.old.items }
    ensures graph { OnOk result (IsGraph (rows_of graph.new.items)) }
{
    for place in places {
        link(graph, *place, at)?;
    }
    Ok(())
}

/// Puts a place among those that follow another.
pub(crate) fn link(graph: &mut Graph, place: usize, at: usize) -> Result<(), Memory>
    requires graph { IsGraph (rows_of graph.old.items) }
    requires place { place < length graph.old.items }
    requires in_range { at < length graph.old.items }
    ensures size { length graph.new.items ≡ length graph.old.items }
    ensures graph { OnOk result (IsGraph (rows_of graph.new.items)) }
    ensures links { OnOk result (Links (rows_of graph.old.items) place at (rows_of graph.new.items)) }
{
    graph[place].push(at)?;
    Ok(())
}

impl Ends {
    /// At first each place without followers waits.
    fn of(alloc: Global, graph: &[Vec<usize>]) -> Result<Ends, Memory>
        ensures ending { IfOk result (λ ends. AreEnding (rows_of graph.now) ends.ending.items) }
        ensures left { IfOk result (λ ends. length ends.left.items ≡ length graph.now) }
        ensures waiting { IfOk result (λ ends. AreBelow (length graph.now) ends.waiting.items) }
    {
        let mut ends = Ends {
            ending: vec![in alloc; false; graph.len()]?,
            left: Vec::with_capacity(alloc, graph.len())?,
            waiting: Vec::new(alloc),
        };
        for (at, next) in graph.iter().enumerate() {
            ends.add(at, next.len())?;
        }
        Ok(ends)
    }

    /// Puts a place with so many followers behind the others.
    fn add(&mut self, at: usize, count: usize) -> Result<(), Memory>
        ensures ending { self.new.ending ≡ self.old.ending }
        ensures left { OnOk result (length self.new.left.items ≡ length self.old.left.items + 1) }
        ensures waiting { OnOk result ((n : ℕ) → at < n → AreBelow n self.old.waiting.items →
            AreBelow n self.new.waiting.items) }
    {
        self.left.push(count)?;
        if count == 0 {
            self.waiting.push(at)?;
        }
        Ok(())
    }

    /// Marks the place, where all that follow it are marked.
    fn end(&mut self, graph: &[Vec<usize>], at: usize)
        requires graph { IsGraph (rows_of graph.now) }
        requires in_range { at < length graph.now }
        requires ending { AreEnding (rows_of graph.now) self.old.ending.items }
        ensures ending { AreEnding (rows_of graph.now) self.new.ending.items }
        ensures left { self.new.left ≡ self.old.left }
        ensures waiting { self.new.waiting ≡ self.old.waiting }
    {
        if are_marked(self.ending.as_slice(), graph[at].as_slice()) {
            self.ending[at] = true;
        }
    }

    /// Of each of these places one follower less is left.
    fn free_all(&mut self, places: &[usize]) -> Result<(), Memory>
        requires below { AreBelow (length self.old.left.items) places.now }
        requires waiting { AreBelow (length self.old.left.items) self.old.waiting.items }
        ensures ending { OnOk result (self.new.ending ≡ self.old.ending) }
        ensures left { OnOk result (length self.new.left.items ≡ length self.old.left.items) }
        ensures waiting { OnOk result (AreBelow (length self.old.left.items) self.new.waiting.items) }
        ensures work { OnOk result (to_do self.new.left.items self.new.waiting.items ≡
            to_do self.old.left.items self.old.waiting.items) }
    {
        for place in places {
            self.free(*place)?;
        }
        Ok(())
    }

    /// Of this place one follower less is left. It waits, where there are none.
    fn free(&mut self, place: usize) -> Result<(), Memory>
        requires in_range { place < length self.old.left.items }
        ensures ending { OnOk result (self.new.ending ≡ self.old.ending) }
        ensures left { OnOk result (length self.new.left.items ≡ length self.old.left.items) }
        ensures waiting { OnOk result ((n : ℕ) → place < n → AreBelow n self.old.waiting.items →
            AreBelow n self.new.waiting.items) }
        ensures work { OnOk result (to_do self.new.left.items self.new.waiting.items ≡
            to_do self.old.left.items self.old.waiting.items) }
    {
        match self.left[place] {
            0 => {}
            1 => {
                self.left[place] = 0;
                self.waiting.push(place)?;
            }
            more => self.left[place] = more - 1,
        }
        Ok(())
    }
}

/// Whether a chain leads from the place back to it. From those in `ending` each chain is known to end.
pub fn is_recursive(
    alloc: Global,
    graph: &[Vec<usize>],
    ending: &[bool],
    at: usize,
) -> Result<bool, Memory>
    requires graph { IsGraph (rows_of graph.now) }
    requires ending { AreEnding (rows_of graph.now) ending.now }
    requires in_range { at < length graph.now }
    ensures value { IfOk result (λ back. back ≡ leads_within (rows_of graph.now) (length graph.now) at at) }
{
    if ending[at] {
        return Ok(false);
    }
    leads_back(alloc, graph, at)
}

/// Whether all these places are marked.
fn are_marked(marks: &[bool], places: &[usize]) -> bool
    requires below { AreBelow (length marks.now) places.now }
    ensures value { OnTrue result (AreMarked marks.now places.now) }
{
    for place in places {
        if !marks[*place] {
            return false;
        }
    }
    true
}

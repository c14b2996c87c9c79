//! Gates in the places of the cells that they replace.

ghost use Rattle.std.specs.Prelude.{◌≡◌, ◌≤◌, ◌++◌, IfOk, OnOk, length, take, drop};
ghost use Rattle.tech_map.specs.InPlace.{counts_after, first_of, put_in, rest_of};
ghost use Rattle.tech_map.specs.Techmap.{taken_kind};

use crate::taken::taken_kind;
use rtl_bits::{Memory, Seq};
use rtl_ir::{Cell, Module};
use std::alloc::Global;
use std::collections::VecDeque;

/// The module with the gates, which stand behind so many cells, in the places of those that become
/// gates. Of each of these it is told how many gates it has. No cell is copied.
pub(crate) fn with_gates_in_place(
    alloc: Global,
    module: Module,
    count: usize,
    counts: Vec<usize>,
) -> Result<Module, Memory>
    requires all_there { count ≤ length «module».cells }
    ensures value { IfOk result (λ after. after ≡ record «module» {
      cells = put_in (take count «module».cells) counts.items (drop count «module».cells);
    }) }
{
    // The gates stay in the room in which they were added.
    let mut gates = VecDeque::from_vec(module.cells.into_vec());
    let mut cells = Vec::with_capacity(alloc, count)?;
    move_cells(count, &mut gates, &mut cells)?;
    let counts = VecDeque::from_vec(counts);
    Ok(Module {
        cells: Seq::from_vec(put_in(alloc, cells, counts, gates)?),
        ..module
    })
}

/// The cells in order, with the gates in the places of those that become gates.
fn put_in(
    alloc: Global,
    cells: Vec<Cell>,
    counts: VecDeque<usize>,
    gates: VecDeque<Cell>,
) -> Result<Vec<Cell>, Memory>
    ensures value { IfOk result (λ all. all.items ≡ put_in cells.items counts.items gates.items) }
{
    let mut counts = counts;
    let mut gates = gates;
    // As many stand there as there are cells that stay, and gates.
    let room = (cells.len() + gates.len()).saturating_sub(counts.len());
    let mut all = Vec::with_capacity(alloc, room)?;
    for cell in cells {
        put_one(cell, &mut counts, &mut gates, &mut all)?;
    }
    Ok(all)
}

/// Puts the cell last, or its gates, which leave theirs as their count does.
fn put_one(
    cell: Cell,
    counts: &mut VecDeque<usize>,
    gates: &mut VecDeque<Cell>,
    all: &mut Vec<Cell>,
) -> Result<(), Memory>
    ensures all { OnOk result (all.new.items ≡
        all.old.items ++ first_of (taken_kind cell) cell counts.old.items gates.old.items) }
    ensures counts { OnOk result (counts.new.items ≡ counts_after (taken_kind cell) counts.old.items) }
    ensures gates { OnOk result (gates.new.items ≡ rest_of (taken_kind cell) counts.old.items gates.old.items) }
{
    match taken_kind(&cell) {
        Some(_) => move_cells(counts.pop_front().unwrap_or(0), gates, all)?,
        None => all.push(cell)?,
    }
    Ok(())
}

/// Moves so many cells from the front of the one list behind the other, as far as there are any.
fn move_cells(count: usize, from: &mut VecDeque<Cell>, to: &mut Vec<Cell>) -> Result<(), Memory>
    ensures moved { OnOk result (to.new.items ≡ to.old.items ++ take count from.old.items) }
    ensures left { OnOk result (from.new.items ≡ drop count from.old.items) }
{
    for _ in 0..count {
        move_cell(from, to)?;
    }
    Ok(())
}

/// Moves the first cell, where there is one.
fn move_cell(from: &mut VecDeque<Cell>, to: &mut Vec<Cell>) -> Result<(), Memory>
    ensures moved { OnOk result (to.new.items ≡ to.old.items ++ take 1 from.old.items) }
    ensures left { OnOk result (from.new.items ≡ drop 1 from.old.items) }
{
    if let Some(cell) = from.pop_front() {
        to.push(cell)?;
    }
    Ok(())
}

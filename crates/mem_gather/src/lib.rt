//! A memory gathered from the cells of a module: its words, its ports and their clock.
#![tactic(auto)]

mod inits;
mod priority;
mod reads;
mod starts;
mod writes;

ghost use Rattle.std.specs.Prelude.{◌≡◌, ◌<◌, IfOk, Some, drop, false, length};
ghost use Rattle.rtl_ir.specs.Flat.Cell.{cell_kind};
ghost use Rattle.rtl_ir.specs.declared.cell.Cell.{Cell};
ghost use Rattle.net_model.specs.Mem.Expand.{is_memory_kind};
ghost use Rattle.net_model.specs.Mem.Gather.{plan_of};
ghost use Rattle.net_model.specs.Within.{Each};
ghost use Rattle.mem_gather.specs.First.{gathered_from};

use crate::reads::read_ports;
use crate::starts::start_words;
use crate::writes::{clock_of, is_rising, plain_ports, write_ports};
use rtl_bits::Memory;
use rtl_ir::{Cell, MemPlan, Module, Store};
use std::alloc::Global;

/// The plan of the memory at this place of the module's list: its start words, its read ports in the order of their
/// cells and its write ports in rising number, with the clock of the write port that has the lowest number. In the
/// Yosys manual, the command `memory_collect`.
pub fn gather(alloc: Global, module: &Module, store: u64) -> Result<MemPlan, Memory>
    requires in_range { store < length «module».now.memories }
    ensures exact { IfOk result (λ plan. Some plan ≡ plan_of «module».now store) }
{
    let cells = module.cells.as_slice();
    gather_first(alloc, module, store, cells.len())
}

/// The plan of the memory at this place of the module's list, as `gather` gives it, where no cell after the first
/// `count` cells is one of a memory: these are not looked at.
pub fn gather_first(
    alloc: Global,
    module: &Module,
    store: u64,
    count: usize,
) -> Result<MemPlan, Memory>
    requires in_range { store < length «module».now.memories }
    requires first { Each (λ (c : Cell). is_memory_kind (cell_kind c) ≡ false) (drop count «module».now.cells) }
    ensures exact { IfOk result (λ plan. Some plan ≡ plan_of «module».now store) }
{
    let memory = &module.memories.as_slice()[store as usize];
    let cells = module.cells.as_slice();
    let first = cells.len().min(count);
    let plan = gathered(alloc, &cells[..first], store, memory)?;
    Ok(plan)
}

/// The plan of this memory from these cells.
fn gathered(alloc: Global, cells: &[Cell], place: u64, store: &Store) -> Result<MemPlan, Memory>
    ensures exact { IfOk result (λ plan. plan ≡ gathered_from cells.now place store.now) }
{
    let name = store.name.as_slice();
    let ports = write_ports(alloc, name, cells)?;
    let clock = clock_of(ports.as_slice());
    let rising = is_rising(ports.as_slice());
    Ok(MemPlan {
        store: place,
        words: start_words(alloc, store, cells)?,
        reads: read_ports(alloc, name, cells)?,
        writes: plain_ports(alloc, ports)?,
        clock,
        rising,
    })
}

//! The pass `memory`: each memory of a module becomes words, write chains and read trees.
#![tactic(auto)]

ghost use Rattle.std.specs.Prelude.{
  ◌≡◌,
  ◌<◌,
  [],
  true,
  false,
  Err,
  IfOk,
  None,
  OnOk,
  Some,
  filter,
  length,
  slice_get,
  take,
};
ghost use Rattle.rtl_ir.specs.Flat.Cell.{cell_kind};
ghost use Rattle.rtl_ir.specs.Types.{table_ports};
ghost use Rattle.rtl_ir.specs.declared.cell.Cell.{Cell};
ghost use Rattle.rtl_ir.specs.declared.store.Store.{Store};
ghost use Rattle.net_model.specs.Mem.Expand.{is_memory_kind, memory_of};
ghost use Rattle.net_model.specs.Within.{Each};
ghost use Rattle.pass_laws.specs.OwnNames.{HaveOwnNames};
ghost use Rattle.pass_laws.specs.Pass.{IsPass, StaysDriven};
ghost use Rattle.pass_laws.specs.Ready.{IsReady};
ghost use Rattle.mem_steps.specs.Staying.{stays};
ghost use Rattle.mem_steps.specs.Within.{are_within, memory_within};

use mem_gather::gather_first;
use mem_map::{expand, staying};
use net_index::PassFault;
use rtl_ir::{Module, PortTable};
use std::alloc::Global;

/// The module in which all memories are words: in the order of the list each one is gathered from its cells and
/// expanded. No memory is left, and no cell of one. `Over` comes where the module after one of the memories would pass
/// a limit on cells, on bits of wires or on fresh names: its own cells count no more. In the Yosys manual, the commands
/// `memory_collect` and `memory_map`.
pub fn apply(alloc: Global, module: Module, ports: &PortTable) -> Result<Module, PassFault>
    requires ready { IsReady (table_ports ports.now.modules) «module» }
    requires named { HaveOwnNames «module» }
    ensures exact { IfOk result (λ after. after ≡ memory_of «module») }
    ensures over { result ≡ Err PassFault.Over → memory_within «module» ≡ None }
    ensures within { IfOk result (λ after. memory_within «module» ≡ Some after) }
    ensures pass { IfOk result (IsPass ports.now «module») }
    ensures driven { IfOk result (StaysDriven «module») }
    ensures memories_gone { IfOk result (λ after. after.memories ≡ []) }
    ensures cells_gone { IfOk result (λ after. Each (λ (c : Cell). is_memory_kind (cell_kind c) ≡ false) after.cells) }
{
    each_memory(alloc, module)
}

/// The memories in turn, each the first of the module that the one before it left.
fn each_memory(alloc: Global, module: Module) -> Result<Module, PassFault>
    ensures exact { IfOk result (λ after. after ≡ memory_of «module») }
    ensures over { result ≡ Err PassFault.Over → are_within (length «module».memories) «module» ≡ false }
    ensures within { OnOk result (are_within (length «module».memories) «module» ≡ true) }
{
    // What is made of a memory goes last, and none of it is a cell of a memory, so only these first cells are looked
    // at.
    let mut first = module.cells.as_slice().len();
    let mut after = module;
    while !after.memories.as_slice().is_empty() {
        let plan = gather_first(alloc, &after, 0, first)?;
        let left = staying_first(&after, first);
        after = expand(alloc, after, &plan, first)?;
        first = left;
    }
    Ok(after)
}

/// How many of the first `count` cells are none of the module's first memory.
fn staying_first(module: &Module, count: usize) -> usize
    requires some { 0 < length «module».now.memories }
    ensures value { (s : Store) → slice_get «module».now.memories 0 ≡ Some s →
        result ≡ length (filter (stays s) (take count «module».now.cells)) }
{
    let name = module.memories.as_slice()[0].name.as_slice();
    let cells = module.cells.as_slice();
    let first = cells.len().min(count);
    staying(name, &cells[..first])
}

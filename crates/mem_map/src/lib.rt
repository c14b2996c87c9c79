//! A memory becomes words, write chains and read trees.
#![tactic(auto)]

mod cells;
mod chain;
mod reach;
mod reads;
mod runs;
mod without;
mod words;

ghost use Rattle.std.specs.Prelude.{◌≡◌, ◌<◌, Err, IfOk, OnOk, drop, false, length, nat_abs};
ghost use Rattle.rtl_ir.specs.Flat.Cell.{cell_kind};
ghost use Rattle.rtl_ir.specs.declared.cell.Cell.{Cell};
ghost use Rattle.rtl_ir.specs.declared.ports.PortTable.{PortTable};
ghost use Rattle.net_index.specs.Builder.{IsInLimits, PassesLimit};
ghost use Rattle.net_model.specs.Mem.Expand.{expanded_memory, is_memory_kind, memory_step, words_made};
ghost use Rattle.net_model.specs.Within.{Each};
ghost use Rattle.pass_laws.specs.OwnNames.{HaveOwnNames};
ghost use Rattle.pass_laws.specs.Pass.{IsPass, KeepsInterface, StaysDriven};
ghost use Rattle.mem_map.specs.Gathered.{IsGathered};
ghost use Rattle.mem_map.specs.Limits.{ExpandPassesLimit, expanded, planned_store};
ghost use Rattle.mem_map.specs.Words.{words_of};

use crate::chain::words_step;
use crate::reads::reads_step;
pub use crate::without::staying;
use crate::without::without_memory;
use crate::words::{Words, fixed_words, word_wires};
use net_index::{Builder, PassFault, first_number};
use rtl_bits::Copied;
use rtl_ir::{MemPlan, Module, Store};
use std::alloc::Global;

/// The module in which this memory is expanded by its plan, which is gathered from the module: each word becomes a
/// register with a chain of multiplexers, one for each write port that reaches it, and each read port a tree of
/// multiplexers; without write ports the words are constants. The memory and its cells go. Where the module may be
/// given to a pass, so may the answer, its next memory may be expanded, and no known output bit is lost. `Over` comes
/// where the module after the memory would pass a limit on cells, on bits of wires or on fresh names. After an error
/// the module is given up. In the Yosys manual, the command `memory_map`.
pub fn expand(
    alloc: Global,
    module: Module,
    plan: &MemPlan,
    count: usize,
) -> Result<Module, PassFault>
    requires in_range { plan.now.store < length «module».memories }
    requires first { Each (λ (c : Cell). is_memory_kind (cell_kind c) ≡ false) (drop count «module».cells) }
    ensures exact { IfOk result (λ after. after ≡ expanded_memory «module» plan.now (planned_store «module» plan.now)) }
    ensures over { result ≡ Err PassFault.Over → ExpandPassesLimit «module» plan.now }
    ensures within { OnOk result (IsInLimits (expanded «module» plan.now)) }
    ensures kept { IfOk result (KeepsInterface «module») }
    ensures pass { IfOk result (λ after. (table : PortTable) → IsGathered table «module» plan.now →
        IsPass table «module» after) }
    ensures driven { IfOk result (λ after. (table : PortTable) → IsGathered table «module» plan.now →
        StaysDriven «module» after) }
    ensures named { IfOk result (λ after. (table : PortTable) → IsGathered table «module» plan.now →
        HaveOwnNames after) }
{
    replace_memory(alloc, module, plan, count)
}

/// Words, write chains and read trees take the place of the memory.
fn replace_memory(
    alloc: Global,
    module: Module,
    plan: &MemPlan,
    count: usize,
) -> Result<Module, PassFault>
    requires in_range { plan.now.store < length «module».memories }
    requires first { Each (λ (c : Cell). is_memory_kind (cell_kind c) ≡ false) (drop count «module».cells) }
    ensures exact { IfOk result (λ after. after ≡ expanded_memory «module» plan.now (planned_store «module» plan.now)) }
    ensures over { result ≡ Err PassFault.Over → ExpandPassesLimit «module» plan.now }
    ensures within { OnOk result (IsInLimits (expanded «module» plan.now)) }
{
    let at = plan.store as usize;
    let store = module.memories.as_slice()[at].copy()?;
    // Fresh names go on from those of the whole module, the memory's among them.
    let next = first_number(&module);
    let rest = without_memory(alloc, at, store.name.as_slice(), module, count)?;
    let builder = Builder::numbered_from(alloc, next, rest);
    builder.check_limits()?;
    let after = memory_step(alloc, plan, &store, builder)?;
    Ok(after.finish())
}

/// Words, write chains and read trees are added. After an error the builder is given up.
fn memory_step(
    alloc: Global,
    plan: &MemPlan,
    store: &Store,
    builder: Builder,
) -> Result<Builder, PassFault>
    ensures exact { IfOk result (λ after. after ≡ memory_step plan.now store.now builder) }
    ensures over { result ≡ Err PassFault.Over → PassesLimit (memory_step plan.now store.now builder) }
    ensures within { IsInLimits builder → IfOk result IsInLimits }
{
    let mut builder = builder;
    let words = words_made(alloc, plan, store, &mut builder)?;
    if !plan.writes.as_slice().is_empty() {
        words_step(alloc, plan, &words, &mut builder)?;
    }
    reads_step(alloc, &words, plan.reads.as_slice(), &mut builder)?;
    Ok(builder)
}

/// The words: constants without write ports, else fresh wires.
fn words_made(
    alloc: Global,
    plan: &MemPlan,
    store: &Store,
    builder: &mut Builder,
) -> Result<Words, PassFault>
    ensures exact { IfOk result (λ words. (words_of words, builder.new) ≡
        words_made plan.now (nat_abs store.now.offset) builder.old) }
    ensures over { result ≡ Err PassFault.Over →
        PassesLimit (words_made plan.now (nat_abs store.now.offset) builder.old).1 }
    ensures within { IsInLimits builder.old → OnOk result (IsInLimits builder.new) }
{
    let first = store.offset.unsigned_abs();
    let starts = plan.words.as_slice();
    if plan.writes.as_slice().is_empty() {
        Ok(fixed_words(alloc, first, starts)?)
    } else {
        word_wires(alloc, first, starts, builder)
    }
}

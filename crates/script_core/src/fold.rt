//! The passes of a script, in order.

ghost use Rattle.std.specs.Prelude.{◌≡◌, false, Err, IfOk, None, Some};
ghost use Rattle.flat_pass.specs.Flat.{flat_of};
ghost use Rattle.script_core.specs.Fold.{
  AfterWord,
  AreApplicable,
  AreFlatApplicable,
  IsApplicable,
  IsSettledIf,
  MayBeGiven,
  MayEachStart,
  after_word,
  all_proc,
  each_proc,
  fold_flat,
  fold_script,
  fold_words,
  pass_of,
  techmap_within,
};
ghost use Rattle.script_core.specs.Words.{IsScript};
ghost use Rattle.script_core.specs.declared.word.Word.TheVariants.{Flatten, Fsm, Opt, Proc, Techmap};

use crate::outcome::Outcome;
use crate::script::Script;
use crate::word::Word;
use flat_pass::flatten;
use net_index::PassFault;
use rtl_bits::{Copied, Memory, Seq};
use rtl_ir::{Design, DesignPorts, Module, PortTable};
use std::alloc::Global;

/// The module without processes. `Over` where what stands for them would pass a limit.
fn without_processes(alloc: Global, module: Module, ports: &PortTable) -> Result<Module, PassFault>
    requires ready { MayBeGiven ports.now Proc «module» }
    ensures exact { IfOk result (λ after. pass_of ports.now Proc «module» ≡ Some after) }
    ensures over { result ≡ Err PassFault.Over → pass_of ports.now Proc «module» ≡ None }
{
    if module.processes.as_slice().is_empty() {
        return Ok(module);
    }
    proc_steps::apply(alloc, module, ports)
}

/// The module with its cells mapped. `Over` where the gates would pass a limit.
fn mapped(alloc: Global, module: Module, ports: &PortTable) -> Result<Module, PassFault>
    requires ready { MayBeGiven ports.now Techmap «module» }
    ensures exact { IfOk result (λ after. techmap_within «module» ≡ Some after) }
    ensures over { result ≡ Err PassFault.Over → techmap_within «module» ≡ None }
{
    tech_map::apply_owned(alloc, module, ports)
}

/// A module after a word.
#[derive(Drop)]
struct Passed {
    after: Module,
    /// Whether it is known that `opt` changes nothing of it.
    is_settled: bool,
}

/// A module of which nothing is known.
fn unsettled(after: Module) -> Passed
    ensures after { result.after ≡ after }
    ensures unknown { result.is_settled ≡ false }
{
    Passed {
        after,
        is_settled: false,
    }
}

/// What `opt` makes of the module.
fn optimised(alloc: Global, module: Module, ports: &PortTable) -> Result<Passed, Memory>
    requires ready { MayBeGiven ports.now Opt «module» }
    ensures exact { IfOk result (λ step. pass_of ports.now Opt «module» ≡ Some step.after) }
    ensures settled { IfOk result (λ step. IsSettledIf step.is_settled ports.now step.after) }
{
    let done = opt_rounds::settle(alloc, module, ports)?;
    Ok(Passed {
        after: done.after,
        is_settled: done.is_settled,
    })
}

/// What `fsm` makes of the module. `Over` where that would pass a limit.
fn with_codes(
    alloc: Global,
    module: Module,
    is_settled: bool,
    ports: &PortTable,
) -> Result<Passed, PassFault>
    requires ready { MayBeGiven ports.now Fsm «module» }
    requires settled { IsSettledIf is_settled ports.now «module» }
    ensures exact { IfOk result (λ step. pass_of ports.now Fsm «module» ≡ Some step.after) }
    ensures settled { IfOk result (λ step. IsSettledIf step.is_settled ports.now step.after) }
    ensures over { result ≡ Err PassFault.Over → pass_of ports.now Fsm «module» ≡ None }
{
    let done = fsm_steps::recode_all(alloc, module, ports)?;
    if done.is_same {
        return Ok(Passed {
            after: done.after,
            is_settled,
        });
    }
    Ok(unsettled(done.after))
}

/// The module without memories. `Over` where the words would pass a limit.
fn without_memories(
    alloc: Global,
    module: Module,
    is_settled: bool,
    ports: &PortTable,
) -> Result<Passed, PassFault>
    requires ready { MayBeGiven ports.now Word.Memory «module» }
    requires settled { IsSettledIf is_settled ports.now «module» }
    ensures exact { IfOk result (λ step. pass_of ports.now Word.Memory «module» ≡ Some step.after) }
    ensures settled { IfOk result (λ step. IsSettledIf step.is_settled ports.now step.after) }
    ensures over { result ≡ Err PassFault.Over → pass_of ports.now Word.Memory «module» ≡ None }
{
    if module.memories.as_slice().is_empty() {
        return Ok(Passed {
            after: module,
            is_settled,
        });
    }
    let after = mem_steps::apply(alloc, module, ports)?;
    Ok(unsettled(after))
}

/// What the pass of a word makes of the module. `Over` where that would pass a limit.
fn pass(alloc: Global, word: Word, module: Module, ports: &PortTable) -> Result<Module, PassFault>
    requires ready { MayBeGiven ports.now word «module» }
    ensures exact { IfOk result (λ after. pass_of ports.now word «module» ≡ Some after) }
    ensures over { result ≡ Err PassFault.Over → pass_of ports.now word «module» ≡ None }
{
    match word {
        Word::Proc => without_processes(alloc, module, ports),
        Word::OptExpr => Ok(opt_expr::apply_owned(alloc, module, ports)?.after),
        Word::OptMerge => Ok(opt_merge::apply_owned(alloc, module, ports)?),
        Word::OptClean => Ok(opt_clean::apply_owned(alloc, module, ports)?.after),
        Word::Opt => Ok(opt_rounds::apply(alloc, module, ports)?),
        Word::Techmap => mapped(alloc, module, ports),
        Word::Memory => mem_steps::apply(alloc, module, ports),
        Word::Fsm => fsm_steps::apply(alloc, module, ports),
        Word::Muxtree => Ok(opt_more::muxtree(alloc, &module, ports)?),
        Word::Reduce => Ok(opt_more::reduce(alloc, &module, ports)?),
        Word::Dff => Ok(opt_more::dff(alloc, &module, ports)?),
        // It acts in scripts that flatten, as the second word.
        Word::Flatten => Ok(module),
    }
}

/// What the pass of a word makes of a module, of which it may be known that `opt` changes nothing: behind an `opt` that
/// came to an end, and passes that found nothing to do. Then `opt` is left out. `Over` where a limit would be passed.
fn step(
    alloc: Global,
    word: Word,
    module: Module,
    is_settled: bool,
    ports: &PortTable,
) -> Result<Passed, PassFault>
    requires ready { MayBeGiven ports.now word «module» }
    requires settled { IsSettledIf is_settled ports.now «module» }
    ensures exact { IfOk result (λ step. pass_of ports.now word «module» ≡ Some step.after) }
    ensures settled { IfOk result (λ step. IsSettledIf step.is_settled ports.now step.after) }
    ensures over { result ≡ Err PassFault.Over → pass_of ports.now word «module» ≡ None }
{
    match word {
        Word::Opt if is_settled => Ok(Passed {
            after: module,
            is_settled,
        }),
        Word::Opt => Ok(optimised(alloc, module, ports)?),
        Word::Fsm => with_codes(alloc, module, is_settled, ports),
        Word::Memory => without_memories(alloc, module, is_settled, ports),
        word => {
            let after = pass(alloc, word, module, ports)?;
            Ok(unsettled(after))
        }
    }
}

/// What the words make of the module, in order, up to the first word whose result would pass a limit.
fn fold_words(
    alloc: Global,
    words: &[Word],
    module: Module,
    ports: &PortTable,
) -> Result<Outcome, Memory>
    requires applicable { AreApplicable words.now ports.now «module» }
    ensures exact { IfOk result (λ outcome. outcome ≡ fold_words words.now ports.now «module») }
{
    let mut module = module;
    let mut is_settled = false;
    for word in words {
        match step(alloc, *word, module, is_settled, ports) {
            Ok(done) => {
                module = done.after;
                is_settled = done.is_settled;
            }
            Err(PassFault::Over) => return Ok(Outcome::Over(*word)),
            Err(PassFault::Memory) => return Err(Memory),
        }
    }
    Ok(Outcome::Done(module))
}

/// Each of the modules without processes. `Over` where what stands for those of one would pass a limit.
fn each_without_processes(alloc: Global, design: &Design) -> Result<Seq<Module>, PassFault>
    requires ready { MayEachStart design.now.modules }
    ensures exact { IfOk result (λ all. each_proc design.now.modules design.now.modules ≡ Some all) }
    ensures over { result ≡ Err PassFault.Over → each_proc design.now.modules design.now.modules ≡ None }
{
    let tables = DesignPorts::of(alloc, design)?;
    let modules = design.modules.as_slice();
    let mut all = Seq::make(alloc);
    for at in 0..modules.len() {
        let place = u32::try_from(at).ok().ok_or(Memory)?;
        let ports = tables.table_of(alloc, place)?;
        let module = modules[at].copy()?;
        let after = without_processes(alloc, module, &ports)?;
        all.push(after)?;
    }
    Ok(all)
}

/// The module and each of those that it reaches without processes. `Over` where one would pass a limit.
fn all_without_processes(
    alloc: Global,
    module: Module,
    ports: &PortTable,
    below: &Design,
) -> Result<(Module, Seq<Module>), PassFault>
    requires given { MayBeGiven ports.now Proc «module» }
    requires below { MayEachStart below.now.modules }
    ensures exact { IfOk result (λ all. all_proc ports.now below.now.modules «module» ≡ Some all) }
    ensures over { result ≡ Err PassFault.Over → all_proc ports.now below.now.modules «module» ≡ None }
{
    let body = without_processes(alloc, module, ports)?;
    let all = each_without_processes(alloc, below)?;
    Ok((body, all))
}

/// What `flatten` and the words after it make of a module without processes, over those that it reaches.
fn flatten_and_fold(
    alloc: Global,
    words: &[Word],
    body: &Module,
    ports: &PortTable,
    all: &[Module],
) -> Result<Outcome, Memory>
    requires applicable { AfterWord (AreApplicable words.now ports.now) (flat_of all.now body.now) }
    ensures exact { IfOk result (λ outcome.
        outcome ≡ after_word Flatten (fold_words words.now ports.now) (flat_of all.now body.now)) }
{
    match flatten(alloc, body, all) {
        Ok(flat) => fold_words(alloc, words, flat, ports),
        Err(PassFault::Over) => Ok(Outcome::Over(Word::Flatten)),
        Err(PassFault::Memory) => Err(Memory),
    }
}

/// What `proc`, `flatten` and then the words make of the module, over those that it reaches.
fn fold_flat(
    alloc: Global,
    words: &[Word],
    module: Module,
    ports: &PortTable,
    below: &Design,
) -> Result<Outcome, Memory>
    requires applicable { AreFlatApplicable words.now ports.now below.now.modules «module» }
    ensures exact { IfOk result (λ outcome. outcome ≡ fold_flat words.now ports.now below.now.modules «module») }
{
    match all_without_processes(alloc, module, ports, below) {
        Ok((body, all)) => flatten_and_fold(alloc, words, &body, ports, all.as_slice()),
        Err(PassFault::Over) => Ok(Outcome::Over(Word::Proc)),
        Err(PassFault::Memory) => Err(Memory),
    }
}

/// What a script makes of the module, over the ports of those that it instantiates and, where the script flattens, over
/// those that it reaches.
pub(crate) fn fold(
    alloc: Global,
    script: &Script,
    module: Module,
    ports: &PortTable,
    below: &Design,
) -> Result<Outcome, Memory>
    requires applicable { IsScript script.now → IsApplicable script.now ports.now below.now.modules «module» }
    ensures exact { IfOk result (λ outcome. outcome ≡ fold_script script.now ports.now below.now.modules «module») }
{
    if script.flattens() {
        fold_flat(alloc, &script.as_slice()[2..], module, ports, below)
    } else {
        fold_words(alloc, script.as_slice(), module, ports)
    }
}

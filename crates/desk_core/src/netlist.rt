//! The netlist that results are, or the first module that passes a limit.

ghost use Rattle.std.specs.Prelude.{◌≡◌, ◌≤◌, ◌-◌, ◌++◌, IfOk, OnOk, codes};
ghost use Rattle.std.specs.List.{flat_map};
ghost use Rattle.flat_net.specs.Titled.{titled_design};
ghost use Rattle.rtl_write.specs.Text.{module_text, text_of};
ghost use Rattle.reply_lines.specs.Lines.{counted};
ghost use Rattle.script_core.specs.Words.{spelling_of};
ghost use Rattle.desk_core.specs.Netlist.{done_modules};
ghost use Rattle.desk_core.specs.Results.{outcome_beside, outcomes_of, over_beside, over_of};

use crate::kept::Kept;
use flat_net::Titled;
use reply_lines::put_counted;
use rtl_bits::{Memory, Text};
use rtl_ir::Module;
use rtl_write::put_named;
use script_core::{Outcome, Word};
use std::alloc::Global;

/// How many keys were built, and for how many of the modules the result was there.
pub fn built_words(alloc: Global, built: usize, modules: usize) -> Result<Text, Memory>
    requires few { built ≤ modules }
    ensures value { IfOk result (λ words. words ≡ counted (codes "built") built ++
        counted (codes "reused") (modules - built)) }
{
    let mut words = Text::make(alloc);
    put_counted(&mut words, b"built", built)?;
    put_counted(&mut words, b"reused", modules - built)?;
    Ok(words)
}

/// The error's number, the module and the word whose result would pass a limit.
fn words_of(alloc: Global, module: &Module, word: Word) -> Result<Text, Memory>
    ensures value { IfOk result (λ words. words ≡ codes "20 " ++ «module».now.id ++ codes " " ++ spelling_of word) }
{
    let mut words = Text::from_slice(alloc, b"20 ")?;
    words.extend(module.id.as_slice())?;
    words.extend(b" ")?;
    words.extend(word.spelling())?;
    Ok(words)
}

/// The words of the error of a module, where its result passes a limit.
fn over_beside(alloc: Global, module: &Module, found: &Option<Kept>) -> Result<Option<Text>, Memory>
    ensures value { IfOk result (λ words. words ≡ over_beside «module».now found.now) }
{
    let Some(kept) = found else {
        return Ok(None);
    };
    match kept.built().outcome() {
        Outcome::Done(_) => Ok(None),
        Outcome::Over(word) => Ok(Some(words_of(alloc, module, *word)?)),
    }
}

/// The words of the error of the first of the modules whose result passes a limit, where one does.
#[tactic(auto, using(crate::proofs::Outcomes::over_passes, crate::proofs::Outcomes::over_stops, crate::proofs::Outcomes::over_ends))]
pub fn over_words(
    alloc: Global,
    modules: &[Module],
    found: &[Option<Kept>],
) -> Result<Option<Text>, Memory>
    ensures value { IfOk result (λ words. words ≡ over_of modules.now found.now) }
{
    for at in 0..modules.len().min(found.len()) {
        let words = over_beside(alloc, &modules[at], &found[at])?;
        if words.is_some() {
            return Ok(words);
        }
    }
    Ok(None)
}

/// Puts the module that the result beside a module is last, under that one's name.
#[tactic(auto, using(crate::proofs::Outcomes::lent_done, crate::proofs::Outcomes::lent_none))]
fn push_beside<'a>(
    lent: &mut Vec<Titled<'a>>,
    module: &'a Module,
    found: &'a Option<Kept>,
) -> Result<(), Memory>
    ensures ok { OnOk result ((titled_design lent.new.items).modules ≡
        (titled_design lent.old.items).modules ++ done_modules (outcome_beside «module».now found.now)) }
{
    let Some(kept) = found else {
        return Ok(());
    };
    if let Outcome::Done(body) = kept.built().outcome() {
        lent.push(Titled {
            id: module.id.as_slice(),
            body,
        })?;
    }
    Ok(())
}

/// The modules that the results beside modules are, each under the name of its module. None is copied.
#[tactic(auto, using(crate::proofs::Outcomes::copies_next, crate::proofs::Outcomes::copies_end))]
pub fn netlist_modules<'a>(
    alloc: Global,
    modules: &'a [Module],
    found: &'a [Option<Kept>],
) -> Result<Vec<Titled<'a>>, Memory>
    ensures value { IfOk result (λ lent. (titled_design lent.items).modules ≡
        done_modules (outcomes_of modules.now found.now)) }
{
    let mut lent = Vec::new(alloc);
    for at in 0..modules.len().min(found.len()) {
        push_beside(&mut lent, &modules[at], &found[at])?;
    }
    Ok(lent)
}

/// Writes the text of the module that the result beside a module is, under that one's name.
fn put_beside(out: &mut Text, module: &Module, found: &Option<Kept>) -> Result<(), Memory>
    ensures ok { OnOk result (out.new ≡
        out.old ++ flat_map module_text (done_modules (outcome_beside «module».now found.now))) }
{
    let Some(kept) = found else {
        return Ok(());
    };
    match kept.built().outcome() {
        Outcome::Done(done) => put_named(out, module.id.as_slice(), done),
        Outcome::Over(_) => Ok(()),
    }
}

/// The text of the netlist that the results beside modules are, each under the name of its module.
#[tactic(auto, using(crate::proofs::Outcomes::texts_next, crate::proofs::Outcomes::texts_end))]
pub fn netlist_text(
    alloc: Global,
    modules: &[Module],
    found: &[Option<Kept>],
) -> Result<Text, Memory>
    ensures value { IfOk result (λ text. text ≡
        text_of (record { modules = done_modules (outcomes_of modules.now found.now) })) }
{
    let mut out = Text::make(alloc);
    for at in 0..modules.len().min(found.len()) {
        put_beside(&mut out, &modules[at], &found[at])?;
    }
    Ok(out)
}

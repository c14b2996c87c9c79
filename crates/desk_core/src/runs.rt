//! Commands that need the netlist.

ghost use Rattle.std.specs.Prelude.{◌≡◌, ◌≤◌, ◌-◌, ◌++◌, IfOk, OnErr, OnOk, codes, length};
ghost use Rattle.rtl_write.specs.Text.{text_of};
ghost use Rattle.result_cache.specs.Filled.{with_keys};
ghost use Rattle.script_core.specs.Cold.{cold};
ghost use Rattle.build_crew.specs.Kept.{kept_by};
ghost use Rattle.build_crew.specs.Rises.{RisesUpTo};
ghost use Rattle.reply_lines.specs.Lines.{counted, error_reply, ok_line, ok_reply};
ghost use Rattle.desk_core.specs.Answers.{print_answer, printed_reply, run_answer};
ghost use Rattle.desk_core.specs.Builds.{BuildsOrReturns, HasClaims, KeepsAll, present_keys};
ghost use Rattle.desk_core.specs.Needed.{IsNeeded};
ghost use Rattle.desk_core.specs.Netlist.{built_count, done_modules, key_texts};
ghost use Rattle.desk_core.specs.Results.{AreFound, AreSound, outcomes_of, over_of, state_of};
ghost use Rattle.desk_core.specs.State.{State, answer};
ghost use Rattle.desk_core.specs.Told.{told_by, told_of};

use crate::crew::Crew;
use crate::desk::Desk;
use crate::kept::Kept;
use crate::keys::Keys;
use crate::needed::{Needed, needed_by};
use crate::netlist::{built_words, netlist_text, over_words};
use crate::results::{Results, find_all};
use reply_lines::{Reply, error_reply, ok_line, ok_reply, put_counted, text_reply};
use rtl_bits::{Memory, Steps, Text};
use rtl_check::Checked;
use script_core::{KeyTable, Script};
use std::alloc::Global;
use std::marker::{Send, Sync};
use std::sync::Wait;
use std::thread::Threads;
use work_crew::Gate;

/// What is told where the netlist is needed.
#[derive(Drop)]
pub enum Told {
    /// How many keys were built, and for how many modules the result was there.
    Built(Text),
    /// The words of the error of the first module that passes a limit.
    Over(Text),
}

/// The words of the error, or those of what was built where there is none.
fn told_by(over: Option<Text>, words: Text) -> Result<Told, Memory>
    ensures value { IfOk result (λ told. told ≡ told_by words over) }
{
    match over {
        None => Ok(Told::Built(words)),
        Some(mut over) => {
            over.extend(words.as_slice())?;
            Ok(Told::Over(over))
        }
    }
}

/// What is told of the results beside the modules of a design, where so many of their keys were not kept.
pub fn tell_found(
    alloc: Global,
    design: &Checked,
    found: &[Option<Kept>],
    built: usize,
) -> Result<Told, Memory>
    requires few { built ≤ length design.now.design.modules }
    ensures value { IfOk result (λ told. told ≡ told_by
        (counted (codes "built") built ++ counted (codes "reused") (length design.now.design.modules - built))
        (over_of design.now.design.modules found.now)) }
{
    let modules = design.design().modules.as_slice();
    let words = built_words(alloc, built, modules.len())?;
    let over = over_words(alloc, modules, found)?;
    told_by(over, words)
}

/// The reply of the line with these words.
fn built_reply(alloc: Global, words: Text) -> Result<Reply, Memory>
    ensures value { IfOk result (λ reply. reply ≡ ok_reply (ok_line words)) }
{
    Ok(ok_reply(ok_line(alloc, words.as_slice())?))
}

/// The reply of the error with these words.
pub fn over_reply(alloc: Global, words: Text) -> Result<Reply, Memory>
    ensures value { IfOk result (λ reply. reply ≡ error_reply words) }
{
    error_reply(alloc, words.as_slice())
}

/// The reply to `run` by what was told.
pub fn run_reply(alloc: Global, told: Told) -> Result<Reply, Memory>
    ensures value { IfOk result (λ reply. (s : State) → told ≡ told_of s → reply ≡ (run_answer s).reply) }
{
    match told {
        Told::Built(words) => built_reply(alloc, words),
        Told::Over(words) => over_reply(alloc, words),
    }
}

/// The reply of the netlist's text, behind a line with these words.
pub fn printed(
    alloc: Global,
    design: &Checked,
    found: &[Option<Kept>],
    words: Text,
) -> Result<Reply, Memory>
    ensures value { IfOk result (λ reply. reply ≡
        printed_reply words
        (text_of (record { modules = done_modules (outcomes_of design.now.design.modules found.now) }))) }
{
    let modules = design.design().modules.as_slice();
    let text = netlist_text(alloc, modules, found)?;
    let mut words = words;
    put_counted(&mut words, b"bytes", text.as_slice().len())?;
    text_reply(alloc, words.as_slice(), text)
}

/// The reply to `print` by what was told.
pub fn print_reply(
    alloc: Global,
    design: &Checked,
    found: &[Option<Kept>],
    told: Told,
) -> Result<Reply, Memory>
    ensures value { IfOk result (λ reply. (s : State) → told ≡ told_of s →
        outcomes_of design.now.design.modules found.now ≡ cold s.script s.design → reply ≡ (print_answer s).reply) }
{
    match told {
        Told::Built(words) => printed(alloc, design, found, words),
        Told::Over(words) => over_reply(alloc, words),
    }
}

/// Finds the results of all modules, and tells how many keys were not kept, or which module passes a limit; and what
/// the command needs of the kept keys, which are as before.
pub fn tell<R: Threads + Wait + Sync, G: Gate, L: Send>(
    crew: &Crew<R, G>,
    design: &Checked,
    script: &Script,
    results: &mut Results,
    meter: &mut Steps<L>,
) -> Result<(Told, Needed), Memory>
    requires sound { AreSound design.now.design script.now results.old }
    ensures sound { AreSound design.now.design script.now results.new }
    ensures state { state_of design.now.design script.now results.new ≡
        state_of design.now.design script.now results.old }
    ensures told { IfOk result (λ told. told.0 ≡ told_of (state_of design.now.design script.now results.old)) }
    ensures needed { IfOk result (λ told.
        IsNeeded (key_texts script.now design.now.design.modules) results.new.ages told.1) }
    ensures filled { OnOk result (kept_by results.new.seats.items ≡
        with_keys (kept_by results.old.seats.items) (key_texts script.now design.now.design.modules)) }
    ensures found { OnOk result (AreFound results.new.found.items) }
    ensures claims { OnOk result (HasClaims (key_texts script.now design.now.design.modules)
        results.old.seats.items results.new.seats.items) }
    ensures ticks { OnOk result (RisesUpTo (built_count (state_of design.now.design script.now results.old)) meter.old
        meter.new) }
    ensures returned { BuildsOrReturns (built_count (state_of design.now.design script.now results.old))
        results.old.seats.items results.new.seats.items meter.old meter.new }
{
    let alloc = crew.alloc;
    let table = KeyTable::of(alloc, design.design())?;
    let keys = Keys {
        design,
        table: &table,
        script,
    };
    let all = keys.all(alloc, results.found.as_slice())?;
    let needed = needed_by(alloc, all.as_slice(), &mut results.ages)?;
    find_all(crew, &keys, all.as_slice(), results, meter)?;
    let told = tell_found(alloc, design, results.found.as_slice(), needed.built)?;
    Ok((told, needed))
}

impl Desk {
    /// Builds what is not kept. Afterwards all keys of the present design are kept, and the others are older by one.
    #[tactic(auto, using(crate::proofs::Told::keeps_all))]
    pub fn run<R: Threads + Wait + Sync, G: Gate, L: Send>(
        &mut self,
        crew: &Crew<R, G>,
        meter: &mut Steps<L>,
    ) -> Result<Reply, Memory>
        ensures ok { IfOk result (λ reply. answer reply self.new.state ≡ run_answer self.old.state) }
        ensures claims { OnOk result (HasClaims (present_keys self.old.state) self.old.seats self.new.seats) }
        ensures ticks { OnOk result (RisesUpTo (built_count self.old.state) meter.old meter.new) }
        ensures err { OnErr result (KeepsAll self.old.state self.new.state) }
        ensures returned { BuildsOrReturns (built_count self.old.state) self.old.seats self.new.seats
            meter.old meter.new }
    {
        let (told, needed) = tell(
            crew,
            &self.present.design,
            &self.present.script,
            &mut self.results,
            meter,
        )?;
        let reply = run_reply(self.present.alloc, told)?;
        self.results.end(crew.rt, &needed);
        Ok(reply)
    }

    /// As `run`, and then the netlist is written.
    #[tactic(auto, using(crate::proofs::Told::keeps_all))]
    pub fn print<R: Threads + Wait + Sync, G: Gate, L: Send>(
        &mut self,
        crew: &Crew<R, G>,
        meter: &mut Steps<L>,
    ) -> Result<Reply, Memory>
        ensures ok { IfOk result (λ reply. answer reply self.new.state ≡ print_answer self.old.state) }
        ensures claims { OnOk result (HasClaims (present_keys self.old.state) self.old.seats self.new.seats) }
        ensures ticks { OnOk result (RisesUpTo (built_count self.old.state) meter.old meter.new) }
        ensures err { OnErr result (KeepsAll self.old.state self.new.state) }
        ensures returned { BuildsOrReturns (built_count self.old.state) self.old.seats self.new.seats
            meter.old meter.new }
    {
        let (told, needed) = tell(
            crew,
            &self.present.design,
            &self.present.script,
            &mut self.results,
            meter,
        )?;
        let found = self.results.found.as_slice();
        let reply = print_reply(self.present.alloc, &self.present.design, found, told)?;
        self.results.end(crew.rt, &needed);
        Ok(reply)
    }
}

//! A summary of the netlist.

ghost use Rattle.std.specs.Prelude.{◌≡◌, ◌++◌, ◌<◌, ◌^◌, IfOk, OnErr, OnOk, codes, length};
ghost use Rattle.reply_lines.specs.Lines.{counted, ok_reply};
ghost use Rattle.build_crew.specs.Rises.{RisesUpTo};
ghost use Rattle.desk_core.specs.Builds.{BuildsOrReturns, HasClaims, KeepsAll, present_keys};
ghost use Rattle.desk_core.specs.Netlist.{built_count, netlist_of};
ghost use Rattle.desk_core.specs.State.{State, answer};
ghost use Rattle.desk_core.specs.Summary.{cells_beside, cells_found, cells_in, summary_answer, summary_line};
ghost use Rattle.desk_core.specs.Told.{told_of};

use crate::crew::Crew;
use crate::desk::Desk;
use crate::kept::Kept;
use crate::runs::{Told, over_reply, tell};
use reply_lines::{Reply, ok_reply};
use rtl_bits::{Memory, Steps, Text};
use rtl_check::Checked;
use script_core::Outcome;
use std::alloc::Global;
use std::marker::{Send, Sync};
use std::sync::Wait;
use std::thread::Threads;
use work_crew::Gate;

/// How many cells the result beside a module has.
fn cells_beside(found: &Option<Kept>) -> u128
    ensures value { result ≡ cells_beside found.now }
    ensures small { result < 2 ^ 64 }
{
    let Some(kept) = found else {
        return 0;
    };
    match kept.built().outcome() {
        Outcome::Done(done) => done.cells.as_slice().len() as u128,
        Outcome::Over(_) => 0,
    }
}

/// How many cells the results beside modules have together.
fn count_cells(found: &[Option<Kept>]) -> u128
    ensures value { result ≡ cells_found found.now }
{
    // Fewer than 2^64 results are there, so the sum fits.
    let _results = found.len();
    let mut cells = 0;
    for beside in found {
        cells += cells_beside(beside);
    }
    cells
}

/// Writes how many cells there are, behind a blank and the word.
fn put_cells(out: &mut Text, cells: u128) -> Result<(), Memory>
    ensures ok { OnOk result (out.new ≡ out.old ++ counted (codes "cells") cells) }
{
    let digits = cells.to_string(out.allocator())?;
    out.extend(b" ")?;
    out.extend(b"cells")?;
    out.extend(b" ")?;
    out.extend(digits.as_bytes())
}

/// The line of a summary, behind how many modules there are the words of what was built.
fn summary_line(alloc: Global, modules: usize, built: &[u8], cells: u128) -> Result<Text, Memory>
    ensures value { IfOk result (λ line. line ≡ summary_line modules built.now cells) }
{
    let digits = modules.to_string(alloc)?;
    let mut line = Text::from_slice(alloc, b"modules ")?;
    line.extend(digits.as_bytes())?;
    line.extend(built)?;
    put_cells(&mut line, cells)?;
    line.extend(b"\n")?;
    Ok(line)
}

/// The reply of a summary of the netlist that results are, with the words of what was built.
fn summed(
    alloc: Global,
    design: &Checked,
    found: &[Option<Kept>],
    words: Text,
) -> Result<Reply, Memory>
    ensures value { IfOk result (λ reply. reply ≡
        ok_reply (summary_line (length design.now.design.modules) words (cells_found found.now))) }
{
    let cells = count_cells(found);
    let modules = design.design().modules.as_slice().len();
    let line = summary_line(alloc, modules, words.as_slice(), cells)?;
    Ok(ok_reply(line))
}

/// The summary by what was told.
fn summary_reply(
    alloc: Global,
    design: &Checked,
    found: &[Option<Kept>],
    told: Told,
) -> Result<Reply, Memory>
    ensures value { IfOk result (λ reply. (s : State) → told ≡ told_of s → design.now.design ≡ s.design →
        cells_found found.now ≡ cells_in (netlist_of s).modules → reply ≡ (summary_answer s).reply) }
{
    match told {
        Told::Built(words) => summed(alloc, design, found, words),
        Told::Over(words) => over_reply(alloc, words),
    }
}

impl Desk {
    /// As `run`, and then the cells of the netlist are counted.
    #[tactic(auto, using(crate::proofs::Told::keeps_all))]
    pub fn summarise<R: Threads + Wait + Sync, G: Gate, L: Send>(
        &mut self,
        crew: &Crew<R, G>,
        meter: &mut Steps<L>,
    ) -> Result<Reply, Memory>
        ensures ok { IfOk result (λ reply. answer reply self.new.state ≡ summary_answer self.old.state) }
        ensures claims { OnOk result (HasClaims (present_keys self.old.state) self.old.seats self.new.seats) }
        ensures ticks { OnOk result (RisesUpTo (built_count self.old.state) meter.old meter.new) }
        ensures err { OnErr result (KeepsAll self.old.state self.new.state) }
        ensures returned { BuildsOrReturns (built_count self.old.state) self.old.seats self.new.seats
            meter.old meter.new }
    {
        let (told, needed) = tell(
            crew,
            &self.present.design,
            &self.present.script,
            &mut self.results,
            meter,
        )?;
        let found = self.results.found.as_slice();
        let reply = summary_reply(self.present.alloc, &self.present.design, found, told)?;
        self.results.end(crew.rt, &needed);
        Ok(reply)
    }
}

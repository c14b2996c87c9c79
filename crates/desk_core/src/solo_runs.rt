//! Commands that need the netlist, of a desk that asks a shared cache.

ghost use Rattle.std.specs.Prelude.{◌≡◌, ◌<◌, ℕ, IfOk, List, OnErr, OnOk, Some, length};
ghost use Rattle.desk_read.specs.declared.command.Command.TheVariants.{SimNetlist};
ghost use Rattle.rtl_ir.specs.Faults.Recursion.{place_named};
ghost use Rattle.rtl_ir.specs.Types.{module_named};
ghost use Rattle.result_cache.specs.Filled.{filled_keys, with_keys};
ghost use Rattle.result_cache.specs.Seats.{IsIdle};
ghost use Rattle.build_crew.specs.Rises.{RisesUpTo};
ghost use Rattle.desk_core.specs.Ages.{texts_of};
ghost use Rattle.desk_core.specs.Answers.{netlist_reply, netlist_run_answer, print_answer, run_answer};
ghost use Rattle.desk_core.specs.Builds.{KeepsAll, asked_by, builds_of, present_keys};
ghost use Rattle.desk_core.specs.Needed.{IsNeeded};
ghost use Rattle.desk_core.specs.Netlist.{built_count, key_texts, netlist_answer, netlist_of};
ghost use Rattle.desk_core.specs.Results.{AreFound};
ghost use Rattle.desk_core.specs.Solo.{AreOwn, Builds, own_state};
ghost use Rattle.desk_core.specs.State.{answer};
ghost use Rattle.desk_core.specs.Told.{told_of};

use crate::keys::Keys;
use crate::needed::{Needed, needed_by};
use crate::own_results::{Access, OwnResults, find_own};
use crate::present::Present;
use crate::runs::{Told, print_reply, run_reply, tell_found};
use crate::simulate::trace_reply;
use crate::solo::SoloDesk;
use design_edit::place_named;
use desk_read::SimAsk;
use net_model::Order;
use reply_lines::{Reply, number_reply, told_reply};
use result_cache::Seat;
use rtl_bits::{Bits, Memory, Steps};
use script_core::KeyTable;
use sim_trace::{StimulusFault, stimulus_of};
use std::sync::Wait;

/// Finds the results of all modules, and tells how many keys were not kept, or which module passes a limit; and what
/// the command needs of the kept keys, which are as before.
#[tactic(auto, using(crate::proofs::Rises::rises_none))]
fn tell<R: Wait, L>(
    access: &Access<R>,
    present: &Present,
    results: &mut OwnResults,
    seat: &mut Seat,
    meter: &mut Steps<L>,
) -> Result<(Told, Needed), Memory>
    requires own { AreOwn present.now.design.design present.now.script results.old }
    requires idle { IsIdle access.now.cache.now.table.shared.table_id seat.old }
    ensures own { AreOwn present.now.design.design present.now.script results.new }
    ensures idle { IsIdle access.now.cache.now.table.shared.table_id seat.new }
    ensures state { own_state present.now.design.design present.now.script results.new ≡
        own_state present.now.design.design present.now.script results.old }
    ensures told { IfOk result (λ told. told.0 ≡
        told_of (own_state present.now.design.design present.now.script results.old)) }
    ensures needed { IfOk result (λ told.
        IsNeeded (key_texts present.now.script present.now.design.design.modules) results.new.ages told.1) }
    ensures filled { OnOk result (filled_keys results.new.shard ≡
        with_keys (filled_keys results.old.shard) (key_texts present.now.script present.now.design.design.modules)) }
    ensures found { OnOk result (AreFound results.new.found.items) }
    ensures built { OnOk result (Builds (filled_keys results.old.shard) (key_texts present.now.script
        present.now.design.design.modules) seat.old seat.new meter.old meter.new) }
    ensures ticks { RisesUpTo (built_count (own_state present.now.design.design present.now.script results.old))
        meter.old meter.new }
{
    let alloc = access.alloc;
    let table = KeyTable::of(alloc, present.design.design())?;
    let keys = Keys {
        design: &present.design,
        table: &table,
        script: &present.script,
    };
    let all = keys.all(alloc, results.found.as_slice())?;
    let needed = needed_by(alloc, all.as_slice(), &mut results.ages)?;
    find_own(access, &keys, all.as_slice(), results, seat, meter)?;
    let told = tell_found(
        alloc,
        &present.design,
        results.found.as_slice(),
        needed.built,
    )?;
    Ok((told, needed))
}

impl SoloDesk {
    /// Builds what is not kept.
    #[tactic(auto, using(crate::proofs::Told::keeps_same))]
    pub fn run<R: Wait, L>(
        &mut self,
        access: &Access<R>,
        seat: &mut Seat,
        meter: &mut Steps<L>,
    ) -> Result<Reply, Memory>
        requires idle { IsIdle access.now.cache.now.table.shared.table_id seat.old }
        ensures idle { IsIdle access.now.cache.now.table.shared.table_id seat.new }
        ensures ok { IfOk result (λ reply. answer reply self.new ≡ run_answer self.old) }
        ensures built { OnOk result (Builds (texts_of self.old.kept) (present_keys self.old) seat.old seat.new
            meter.old meter.new) }
        ensures ticks { RisesUpTo (built_count self.old) meter.old meter.new }
        ensures err { OnErr result (KeepsAll self.old self.new) }
    {
        let (told, needed) = tell(access, &self.present, &mut self.results, seat, meter)?;
        let reply = run_reply(access.alloc, told)?;
        self.results.end(&needed);
        Ok(reply)
    }

    /// As `run`, and then the netlist is written.
    #[tactic(auto, using(crate::proofs::Told::keeps_same))]
    pub fn print<R: Wait, L>(
        &mut self,
        access: &Access<R>,
        seat: &mut Seat,
        meter: &mut Steps<L>,
    ) -> Result<Reply, Memory>
        requires idle { IsIdle access.now.cache.now.table.shared.table_id seat.old }
        ensures idle { IsIdle access.now.cache.now.table.shared.table_id seat.new }
        ensures ok { IfOk result (λ reply. answer reply self.new ≡ print_answer self.old) }
        ensures built { OnOk result (Builds (texts_of self.old.kept) (present_keys self.old) seat.old seat.new
            meter.old meter.new) }
        ensures ticks { RisesUpTo (built_count self.old) meter.old meter.new }
        ensures err { OnErr result (KeepsAll self.old self.new) }
    {
        let (told, needed) = tell(access, &self.present, &mut self.results, seat, meter)?;
        let found = self.results.found.as_slice();
        let reply = print_reply(access.alloc, &self.present.design, found, told)?;
        self.results.end(&needed);
        Ok(reply)
    }

    /// As `run`, and then a module of the netlist is run.
    #[tactic(auto, using(crate::proofs::Showing::unknown, crate::proofs::Told::keeps_same, crate::proofs::Rises::rises_none))]
    pub fn run_netlist<R: Wait, L>(
        &mut self,
        access: &Access<R>,
        ask: &SimAsk,
        seat: &mut Seat,
        meter: &mut Steps<L>,
    ) -> Result<Reply, Memory>
        requires idle { IsIdle access.now.cache.now.table.shared.table_id seat.old }
        ensures idle { IsIdle access.now.cache.now.table.shared.table_id seat.new }
        ensures ok { IfOk result (λ reply. answer reply self.new ≡
            netlist_run_answer self.old ask.now.order ask.now.module ask.now.steps) }
        ensures built { OnOk result (Builds (texts_of self.old.kept) (asked_by (SimNetlist ask.now) self.old) seat.old
            seat.new meter.old meter.new) }
        ensures ticks { RisesUpTo (builds_of (SimNetlist ask.now) self.old) meter.old meter.new }
        ensures err { OnErr result (KeepsAll self.old self.new) }
    {
        let alloc = access.alloc;
        let modules = self.present.design.design().modules.as_slice();
        let Some(at) = place_named(modules, ask.module.as_slice()) else {
            return told_reply(alloc, b"18 ", ask.module.as_slice());
        };
        match stimulus_of(alloc, &modules[at], ask.steps.as_slice()) {
            Ok(stimulus) => {
                self.netlist_trace(access, at, ask.order, stimulus.as_slice(), seat, meter)
            }
            Err(StimulusFault::Bad(number)) => number_reply(alloc, b"23 ", number),
            Err(StimulusFault::Memory) => Err(Memory),
        }
    }

    /// As `run`, and then the module at this place of the netlist is run.
    #[tactic(auto, using(crate::proofs::Told::keeps_same))]
    fn netlist_trace<R: Wait, L>(
        &mut self,
        access: &Access<R>,
        at: usize,
        order: Order,
        stimulus: &[Bits],
        seat: &mut Seat,
        meter: &mut Steps<L>,
    ) -> Result<Reply, Memory>
        requires in_range { at < length self.old.design.modules }
        requires idle { IsIdle access.now.cache.now.table.shared.table_id seat.old }
        ensures idle { IsIdle access.now.cache.now.table.shared.table_id seat.new }
        ensures ok { (name : List ℕ) → place_named self.old.design.modules name ≡ Some at →
            IfOk result (λ reply. answer reply self.new ≡ netlist_answer self.old
            (netlist_reply self.old order name stimulus.now (module_named (netlist_of self.old).modules name))) }
        ensures built { OnOk result (Builds (texts_of self.old.kept) (present_keys self.old) seat.old seat.new
            meter.old meter.new) }
        ensures ticks { RisesUpTo (built_count self.old) meter.old meter.new }
        ensures err { OnErr result (KeepsAll self.old self.new) }
    {
        // The netlist comes of a script, which begins with `proc`: so it has no process.
        let _words = self.present.script.as_slice();
        let (told, needed) = tell(access, &self.present, &mut self.results, seat, meter)?;
        let found = self.results.found.as_slice();
        let design = &self.present.design;
        let reply = trace_reply(access.alloc, design, found, at, order, stimulus, told)?;
        self.results.end(&needed);
        Ok(reply)
    }
}

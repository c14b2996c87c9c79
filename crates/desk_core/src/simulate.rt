//! The command that runs a module of the netlist.

ghost use Rattle.std.specs.Prelude.{◌≡◌, ◌<◌, ◌^◌, ◌++◌, ℕ, IfOk, List, OnErr, OnOk, Some, codes, length, slice_get};
ghost use Rattle.desk_read.specs.declared.command.Command.TheVariants.{SimNetlist};
ghost use Rattle.rtl_ir.specs.declared.module.Module.{Module};
ghost use Rattle.rtl_ir.specs.Faults.Recursion.{place_named};
ghost use Rattle.rtl_ir.specs.Types.{module_named};
ghost use Rattle.net_model.specs.Within.{Each};
ghost use Rattle.reply_lines.specs.Lines.{counted, ok_line, ok_reply};
ghost use Rattle.script_core.specs.Cold.{cold};
ghost use Rattle.sim_trace.specs.Stimulus.{trace_text};
ghost use Rattle.desk_core.specs.Answers.{netlist_reply, netlist_run_answer};
ghost use Rattle.build_crew.specs.Rises.{RisesUpTo};
ghost use Rattle.desk_core.specs.Builds.{BuildsOrReturns, HasClaims, KeepsAll, asked_by, builds_of, present_keys};
ghost use Rattle.desk_core.specs.Netlist.{built_count, done_modules, netlist_answer, netlist_of};
ghost use Rattle.desk_core.specs.Results.{outcomes_of};
ghost use Rattle.desk_core.specs.Shaped.{IsShaped};
ghost use Rattle.desk_core.specs.State.{State, answer};
ghost use Rattle.desk_core.specs.Told.{IsBuilt, told_of};

use crate::crew::Crew;
use crate::desk::Desk;
use crate::kept::Kept;
use crate::netlist::netlist_modules;
use crate::runs::{Told, over_reply, tell};
use design_edit::place_named;
use desk_read::SimAsk;
use net_model::Order;
use reply_lines::{Reply, number_reply, ok_line, ok_reply, put_counted, told_reply};
use rtl_bits::{Bits, Memory, Steps, Text};
use rtl_check::Checked;
use sim_trace::{StimulusFault, put_titled_trace_in, stimulus_of};
use std::alloc::Global;
use std::marker::{Send, Sync};
use std::sync::Wait;
use std::thread::Threads;
use work_crew::Gate;

impl Desk {
    /// As `run`, and then a module of the netlist is run.
    #[tactic(auto, using(crate::proofs::Showing::unknown, crate::proofs::Showing::bad_line, crate::proofs::Simulating::simulated, crate::proofs::Told::keeps_same, crate::proofs::Rises::rises_none))]
    pub fn run_netlist<R: Threads + Wait + Sync, G: Gate, L: Send>(
        &mut self,
        crew: &Crew<R, G>,
        ask: &SimAsk,
        meter: &mut Steps<L>,
    ) -> Result<Reply, Memory>
        ensures ok { IfOk result (λ reply. answer reply self.new.state ≡
            netlist_run_answer self.old.state ask.now.order ask.now.module ask.now.steps) }
        ensures claims { OnOk result (HasClaims (asked_by (SimNetlist ask.now) self.old.state) self.old.seats
            self.new.seats) }
        ensures ticks { OnOk result (RisesUpTo (builds_of (SimNetlist ask.now) self.old.state) meter.old meter.new) }
        ensures err { OnErr result (KeepsAll self.old.state self.new.state) }
        ensures returned { BuildsOrReturns (builds_of (SimNetlist ask.now) self.old.state) self.old.seats self.new.seats
            meter.old meter.new }
    {
        let modules = self.present.design.design().modules.as_slice();
        let Some(at) = place_named(modules, ask.module.as_slice()) else {
            return told_reply(self.present.alloc, b"18 ", ask.module.as_slice());
        };
        match stimulus_of(self.present.alloc, &modules[at], ask.steps.as_slice()) {
            Ok(stimulus) => self.netlist_trace(crew, at, ask.order, stimulus.as_slice(), meter),
            Err(StimulusFault::Bad(number)) => number_reply(self.present.alloc, b"23 ", number),
            Err(StimulusFault::Memory) => Err(Memory),
        }
    }

    /// As `run`, and then the module at this place of the netlist is run.
    #[tactic(auto, using(crate::proofs::Told::keeps_all))]
    fn netlist_trace<R: Threads + Wait + Sync, G: Gate, L: Send>(
        &mut self,
        crew: &Crew<R, G>,
        at: usize,
        order: Order,
        stimulus: &[Bits],
        meter: &mut Steps<L>,
    ) -> Result<Reply, Memory>
        requires in_range { at < length self.old.state.design.modules }
        ensures ok { (name : List ℕ) → place_named self.old.state.design.modules name ≡ Some at →
            IfOk result (λ reply. answer reply self.new.state ≡
            netlist_answer self.old.state
            (netlist_reply self.old.state order name stimulus.now (module_named (netlist_of self.old.state).modules name))) }
        ensures claims { OnOk result (HasClaims (present_keys self.old.state) self.old.seats self.new.seats) }
        ensures ticks { OnOk result (RisesUpTo (built_count self.old.state) meter.old meter.new) }
        ensures err { OnErr result (KeepsAll self.old.state self.new.state) }
        ensures returned { BuildsOrReturns (built_count self.old.state) self.old.seats self.new.seats
            meter.old meter.new }
    {
        // The netlist comes of a script, which begins with `proc`: so it has no process.
        let _words = self.present.script.as_slice();
        let (told, needed) = tell(
            crew,
            &self.present.design,
            &self.present.script,
            &mut self.results,
            meter,
        )?;
        let found = self.results.found.as_slice();
        let design = &self.present.design;
        let reply = trace_reply(self.present.alloc, design, found, at, order, stimulus, told)?;
        self.results.end(crew.rt, &needed);
        Ok(reply)
    }
}

/// The reply of the trace of the module at this place of the netlist in an order of time, behind a line with these words.
pub fn traced(
    alloc: Global,
    design: &Checked,
    found: &[Option<Kept>],
    at: usize,
    order: Order,
    stimulus: &[Bits],
    words: Text,
) -> Result<Reply, Memory>
    requires in_range { at < length (done_modules (outcomes_of design.now.design.modules found.now)) }
    requires small { length (done_modules (outcomes_of design.now.design.modules found.now)) < 2 ^ 32 }
    requires gates { Each IsShaped (done_modules (outcomes_of design.now.design.modules found.now)) }
    ensures value { («module» : Module) →
        slice_get (done_modules (outcomes_of design.now.design.modules found.now)) at ≡ Some «module» →
        IfOk result (λ reply. reply ≡ ok_reply (ok_line (words ++ counted (codes "steps") (length stimulus.now)) ++
        trace_text order (record {
          modules =
              done_modules (outcomes_of design.now.design.modules found.now);
        }) «module» stimulus.now)) }
{
    let modules = design.design().modules.as_slice();
    let netlist = netlist_modules(alloc, modules, found)?;
    let mut words = words;
    put_counted(&mut words, b"steps", stimulus.len())?;
    let mut text = ok_line(alloc, words.as_slice())?;
    put_titled_trace_in(&mut text, netlist.as_slice(), at, stimulus, order)?;
    Ok(ok_reply(text))
}

/// The reply to `sim netlist` of the module at this place by what was told.
pub fn trace_reply(
    alloc: Global,
    design: &Checked,
    found: &[Option<Kept>],
    at: usize,
    order: Order,
    stimulus: &[Bits],
    told: Told,
) -> Result<Reply, Memory>
    requires in_range { IsBuilt told → at < length (done_modules (outcomes_of design.now.design.modules found.now)) }
    requires small { length (done_modules (outcomes_of design.now.design.modules found.now)) < 2 ^ 32 }
    requires gates { Each IsShaped (done_modules (outcomes_of design.now.design.modules found.now)) }
    ensures value { IfOk result (λ reply. (s : State) (name : List ℕ) → told ≡ told_of s →
        outcomes_of design.now.design.modules found.now ≡ cold s.script s.design →
        place_named s.design.modules name ≡ Some at →
        reply ≡ (netlist_answer s
        (netlist_reply s order name stimulus.now (module_named (netlist_of s).modules name))).reply) }
{
    match told {
        Told::Built(words) => traced(alloc, design, found, at, order, stimulus, words),
        Told::Over(words) => over_reply(alloc, words),
    }
}

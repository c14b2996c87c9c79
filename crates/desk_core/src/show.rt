//! Commands that show a module of the present design, or run its source.

ghost use Rattle.std.specs.Prelude.{◌≡◌, ◌<◌, IfOk, List, Some, length, slice_get};
ghost use Rattle.rtl_ir.specs.declared.module.Module.{Module};
ghost use Rattle.rtl_readable.specs.Readable.{IsReadable};
ghost use Rattle.desk_core.specs.Answers.{show_answer, source_answer, source_reply};
ghost use Rattle.desk_core.specs.Present.{state_with};
ghost use Rattle.desk_core.specs.State.{KeptKey, answer};

use crate::present::Present;
use design_edit::place_named;
use desk_read::SimAsk;
use net_model::Order;
use reply_lines::{Reply, counted, number_reply, ok_line, ok_reply, text_reply, told_reply};
use rtl_bits::{Bits, Memory};
use rtl_write::module_text;
use sim_trace::{StimulusFault, put_trace_in, stimulus_of};

impl Present {
    /// The source of the module of this name.
    #[tactic(auto, using(crate::proofs::Showing::unknown, crate::proofs::Showing::shown))]
    pub fn show(&self, name: &[u8]) -> Result<Reply, Memory>
        ensures ok { (kept : List KeptKey) → IfOk result (λ reply.
            answer reply (state_with kept self.now) ≡ show_answer (state_with kept self.now) name.now) }
    {
        let modules = self.design.design().modules.as_slice();
        let Some(at) = place_named(modules, name) else {
            return told_reply(self.alloc, b"18 ", name);
        };
        let text = module_text(self.alloc, &modules[at])?;
        let words = counted(self.alloc, b"bytes", text.as_slice().len())?;
        text_reply(self.alloc, words.as_slice(), text)
    }

    /// The source of a module is run.
    #[tactic(auto, using(crate::proofs::Showing::unknown, crate::proofs::Showing::sourced, crate::proofs::Showing::bad_line))]
    pub fn run_source(&self, ask: &SimAsk) -> Result<Reply, Memory>
        requires readable { IsReadable self.now.design.design }
        ensures ok { (kept : List KeptKey) → IfOk result (λ reply.
            answer reply (state_with kept self.now) ≡
            source_answer (state_with kept self.now) ask.now.order ask.now.module ask.now.steps) }
    {
        let modules = self.design.design().modules.as_slice();
        let Some(at) = place_named(modules, ask.module.as_slice()) else {
            return told_reply(self.alloc, b"18 ", ask.module.as_slice());
        };
        match stimulus_of(self.alloc, &modules[at], ask.steps.as_slice()) {
            Ok(stimulus) => self.source_trace(at, ask.order, stimulus.as_slice()),
            Err(StimulusFault::Bad(number)) => number_reply(self.alloc, b"23 ", number),
            Err(StimulusFault::Memory) => Err(Memory),
        }
    }

    /// The reply of the trace of the source of the module at a place, in an order of time.
    fn source_trace(&self, at: usize, order: Order, stimulus: &[Bits]) -> Result<Reply, Memory>
        requires readable { IsReadable self.now.design.design }
        requires in_range { at < length self.now.design.design.modules }
        ensures value { (kept : List KeptKey) («module» : Module) →
            slice_get self.now.design.design.modules at ≡ Some «module» →
            IfOk result (λ reply. reply ≡ source_reply (state_with kept self.now) order «module» stimulus.now) }
    {
        let words = counted(self.alloc, b"steps", stimulus.len())?;
        let mut text = ok_line(self.alloc, words.as_slice())?;
        put_trace_in(&mut text, self.design.design(), at, stimulus, order)?;
        Ok(ok_reply(text))
    }
}

//! One text: it is loaded into a desk, and its netlist is printed.

ghost use Rattle.std.specs.Prelude.{◌≡◌, ◌⊎◌, ◌≤◌, ◌+◌, ℕ, Err, IfOk, IfSome, Ok, OnErr, OnOk, false, take, true};
ghost use Rattle.std.specs.Io.KnownBytes.{Appends, Keeps};
ghost use Rattle.synth_io.specs.Counts.{HasRisen};
ghost use Rattle.synth_io.specs.Taking.{TakesAtMost};
ghost use Rattle.synth_io.specs.declared.input.TheConstants.{LIMIT};
ghost use Rattle.build_crew.specs.Rises.{RisesUpTo};
ghost use Rattle.desk_core.specs.Builds.{builds_of};
ghost use Rattle.desk_core.specs.Step.{IsStep};
ghost use Rattle.script_core.specs.Words.{IsScript};
ghost use Rattle.synth_run.specs.declared.words.Mode.TheVariants.{Synth};
ghost use Rattle.synth_run.specs.Builds.{CountsBuilds};
ghost use Rattle.synth_run.specs.Refined.{IsRefinedBy};
ghost use Rattle.synth_run.specs.Replies.{HasAnswered, HasBegun, IsReadThrough};
ghost use Rattle.synth_run.specs.Said.{Said};
ghost use Rattle.synth_run.specs.Synth.{IsTextReply};

use crate::lines::after_line;
use crate::session::{Stop, refuse_long};
use crate::words::Plan;
use desk_core::{Command, Crew, Desk};
use reply_lines::Reply;
use rtl_bits::{Memory, Steps, Text};
use std::marker::{Send, Sync};
use std::sync::Wait;
use std::thread::Threads;
use synth_io::{Failed, InputError, Sink, Source, read_input, write_reply};
use work_crew::Gate;

/// The reply of the desk to a command.
fn reply_to<R: Threads + Wait + Sync, G: Gate, L: Send>(
    crew: &Crew<R, G>,
    desk: &mut Desk,
    command: &Command,
    meter: &mut Steps<L>,
) -> Result<Reply, Stop>
    ensures step { IfOk result (λ reply. IsStep command.now desk.old.state reply desk.new.state) }
    ensures builds { OnOk result (RisesUpTo (builds_of command.now desk.old.state) meter.old meter.new) }
    ensures cause { OnErr result (result ≡ Err Stop.Memory) }
{
    match desk.command(crew.rt, command, crew.gate, meter) {
        Ok(reply) => Ok(reply),
        Err(Memory) => Err(Stop::Memory),
    }
}

/// Writes the text. Whether it is an error.
pub(crate) fn tell<K: Sink>(sink: &mut K, text: &[u8], error: bool) -> Result<bool, Stop>
    ensures ok { IfOk result (λ is_error. (is_error ≡ error) × Appends (K.held sink.old) (K.held sink.new) text.now) }
    ensures err { OnErr result (result ≡ Err Stop.Sink) }
    ensures front { (n : ℕ) × Appends (K.held sink.old) (K.held sink.new) (take n text.now) }
    ensures cause { result ≡ Err Stop.Sink → HasRisen (K.faults sink.old) (K.faults sink.new) }
    ensures same { (result ≡ Err Stop.Sink → ⊥) → K.faults sink.new ≡ K.faults sink.old }
{
    match write_reply(sink, text) {
        Ok(()) => Ok(error),
        Err(Failed) => Err(Stop::Sink),
    }
}

/// Writes the netlist of the text, or an error. Whether it is an error.
fn answer_text<R: Threads + Wait + Sync, K: Sink, G: Gate, L: Send>(
    crew: &Crew<R, G>,
    plan: Plan,
    text: Text,
    sink: &mut K,
    meter: &mut Steps<L>,
) -> Result<bool, Stop>
    requires script { IsScript plan.script }
    requires some { 1 ≤ plan.workers }
    requires few { plan.workers ≤ 64 }
    ensures ok { IfOk result (λ error.
        (said : Said) × IsTextReply plan.script text said × Appends (K.held sink.old) (K.held sink.new) said.text ×
        (said.error ≡ error)) }
    ensures front { result ≡ Err Stop.Sink →
        (said : Said) × IsTextReply plan.script text said ×
        ((n : ℕ) × Appends (K.held sink.old) (K.held sink.new) (take n said.text)) }
    ensures memory { result ≡ Err Stop.Memory → Keeps (K.held sink.old) (K.held sink.new) }
    ensures refines { result ≡ Ok false → IsRefinedBy plan.script text (K.held sink.old) (K.held sink.new) }
    ensures builds { (result ≡ Err Stop.Memory → ⊥) → CountsBuilds plan.script text meter.old meter.new }
    ensures cause { result ≡ Err Stop.Sink → HasRisen (K.faults sink.old) (K.faults sink.new) }
    ensures same { (result ≡ Err Stop.Sink → ⊥) → K.faults sink.new ≡ K.faults sink.old }
    ensures source { result ≡ Err Stop.Source → ⊥ }
{
    let Ok(mut desk) = Desk::make(crew.alloc, plan.script, plan.workers) else {
        return Err(Stop::Memory);
    };
    let loaded = reply_to(crew, &mut desk, &Command::Load(text), meter)?;
    if loaded.error {
        return tell(sink, loaded.text.as_slice(), true);
    }
    let printed = reply_to(crew, &mut desk, &Command::Print, meter)?;
    if printed.error {
        return tell(sink, printed.text.as_slice(), true);
    }
    tell(sink, after_line(printed.text.as_slice()), false)
}

/// Reads one text, and writes its netlist or an error. Whether it is an error.
pub(crate) fn synthesise<R: Threads + Wait + Sync, S: Source, K: Sink, G: Gate, L: Send>(
    crew: &Crew<R, G>,
    plan: Plan,
    source: &mut S,
    sink: &mut K,
    meter: &mut Steps<L>,
) -> Result<bool, Stop>
    requires script { IsScript plan.script }
    requires some { 1 ≤ plan.workers }
    requires few { plan.workers ≤ 64 }
    ensures ok { IfOk result (λ error.
        HasAnswered Synth plan.script error (S.left source.old) (K.held sink.old) (K.held sink.new)) }
    ensures through { OnOk result (IsReadThrough Synth (S.left source.old) (S.left source.new)) }
    ensures begun { OnErr result (HasBegun Synth plan.script (S.left source.old) (K.held sink.old) (K.held sink.new)) }
    ensures kept { (result ≡ Err Stop.Source) ⊎ (result ≡ Err Stop.Memory) → Keeps (K.held sink.old) (K.held sink.new) }
    ensures refines { result ≡ Ok false → IfSome (S.left source.old) (λ input.
        IsRefinedBy plan.script input (K.held sink.old) (K.held sink.new)) }
    ensures builds { (result ≡ Err Stop.Memory → ⊥) → IfSome (S.left source.old) (λ input.
        CountsBuilds plan.script input meter.old meter.new) }
    ensures taken { TakesAtMost (LIMIT + 1) (S.left source.old) (S.left source.new) }
    ensures read_fault { result ≡ Err Stop.Source → HasRisen (S.faults source.old) (S.faults source.new) }
    ensures write_fault { result ≡ Err Stop.Sink → HasRisen (K.faults sink.old) (K.faults sink.new) }
    ensures source_count { (result ≡ Err Stop.Source → ⊥) → S.faults source.new ≡ S.faults source.old }
    ensures sink_count { (result ≡ Err Stop.Sink → ⊥) → K.faults sink.new ≡ K.faults sink.old }
{
    match read_input(crew.alloc, source) {
        Ok(text) => answer_text(crew, plan, text, sink, meter),
        Err(InputError::TooLong) => refuse_long(crew.alloc, sink),
        Err(InputError::Failed) => Err(Stop::Source),
        Err(InputError::Memory) => Err(Stop::Memory),
    }
}

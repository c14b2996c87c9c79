//! The top call.

ghost use Rattle.std.specs.Prelude.{◌≡◌, ◌≤◌, ◌+◌, ◌⊎◌, ℕ, List, map, string_bytes, Err, IfOk, IfSome, None, OnErr};
ghost use Rattle.std.specs.Prelude.{OnOk, OnSome, false, true};
ghost use Rattle.std.specs.Io.KnownBytes.{Consumes};
ghost use Rattle.script_core.specs.Words.{IsScript};
ghost use Rattle.synth_io.specs.Counts.{HasRisen};
ghost use Rattle.synth_io.specs.Taking.{TakesAtMost};
ghost use Rattle.synth_io.specs.declared.input.TheConstants.{LIMIT};
ghost use Rattle.synth_run.specs.Builds.{CountsTurns, HasCounted};
ghost use Rattle.synth_run.specs.Replies.{AnswersTaken, HasAnswered, HasAnsweredTaken, HasBegun, HasKept, HasRefined};
ghost use Rattle.synth_run.specs.Replies.{IsCompleted, IsPrintedSession, IsReadThrough, OfInput, exit_code};
ghost use Rattle.synth_run.specs.Replies.{status_of};
ghost use Rattle.synth_run.specs.Words.{plan_of};

use crate::desks::serve_desks;
use crate::generate::generate;
use crate::session::{Session, Stop, piece_of};
use crate::synth::synthesise;
use crate::words::{Mode, Plan, WordFault, read_words};
use desk_core::Crew;
use rtl_bits::Steps;
use std::alloc::Global;
use std::marker::{Send, Sync};
use std::sync::Wait;
use std::thread::Threads;
use synth_io::{Sink, Source};
use work_crew::Gate;

/// How a call ended.
#[derive(Clone, Copy, Debug, PartialEq, Eq)]
pub enum Status {
    /// The whole reply was written, and no error is in it.
    Done,
    /// The whole reply was written, and an error is in it.
    Refused,
    /// The words have no meaning; nothing was read or written.
    Usage,
    /// The source failed.
    ReadFault,
    /// The sink failed; a prefix of the reply was written.
    WriteFault,
    /// There was no memory; a prefix of the reply was written.
    Memory,
}

impl Status {
    /// The exit status of the program: the place in the order above, from 0.
    pub fn code(self) -> u8
        ensures value { result ≡ exit_code self }
    {
        match self {
            Status::Done => 0,
            Status::Refused => 1,
            Status::Usage => 2,
            Status::ReadFault => 3,
            Status::WriteFault => 4,
            Status::Memory => 5,
        }
    }
}

/// How a call ends that was answered, with an error or without, or that stopped.
fn status_of(answered: Result<bool, Stop>) -> Status
    ensures value { result ≡ status_of answered }
{
    match answered {
        Ok(false) => Status::Done,
        Ok(true) => Status::Refused,
        Err(Stop::Source) => Status::ReadFault,
        Err(Stop::Sink) => Status::WriteFault,
        Err(Stop::Memory) => Status::Memory,
    }
}

/// Answers the commands of an input. Whether an error was answered.
fn converse<R: Threads + Wait + Sync, S: Source, K: Sink, G: Gate, L: Send>(
    crew: &Crew<R, G>,
    plan: Plan,
    source: &mut S,
    sink: &mut K,
    meter: &mut Steps<L>,
) -> Result<bool, Stop>
    requires script { IsScript plan.script }
    requires some { 1 ≤ plan.workers }
    requires few { plan.workers ≤ 64 }
    ensures ok { IfOk result (λ refused.
        HasAnswered Mode.Session plan.script refused (S.left source.old) (K.held sink.old) (K.held sink.new)) }
    ensures through { OnOk result (IsReadThrough Mode.Session (S.left source.old) (S.left source.new)) }
    ensures begun { OnErr result
        (HasBegun Mode.Session plan.script (S.left source.old) (K.held sink.old) (K.held sink.new)) }
    ensures answered { result ≡ Err Stop.Source →
        AnswersTaken plan.script (S.left source.old) (S.left source.new) (K.held sink.old) (K.held sink.new) }
    ensures prints { OnOk result (IfSome (S.left source.old) (λ input.
        IsPrintedSession plan.script input (K.held sink.old) (K.held sink.new))) }
    ensures counts { (result ≡ Err Stop.Memory → ⊥) →
        (bytes : List ℕ) × Consumes (S.left source.old) (S.left source.new) bytes
        × CountsTurns plan.script (result ≡ Err Stop.Source) (S.left source.old) bytes meter.old meter.new }
    ensures taken { TakesAtMost (LIMIT + 1) (S.left source.old) (S.left source.new) }
    ensures read_fault { result ≡ Err Stop.Source → HasRisen (S.faults source.old) (S.faults source.new) }
    ensures write_fault { result ≡ Err Stop.Sink → HasRisen (K.faults sink.old) (K.faults sink.new) }
    ensures source_count { (result ≡ Err Stop.Source → ⊥) → S.faults source.new ≡ S.faults source.old }
    ensures sink_count { (result ≡ Err Stop.Sink → ⊥) → K.faults sink.new ≡ K.faults sink.old }
{
    let Ok(session) = Session::make(crew.alloc, plan) else {
        return Err(Stop::Memory);
    };
    let Ok(mut piece) = piece_of(crew.alloc) else {
        return Err(Stop::Memory);
    };
    session.answer_all(crew, &mut piece, source, sink, meter)
}

/// Does what the words ask for, over the source and into the sink.
///
/// At most 67,108,865 bytes are taken, in pieces of at most 65,536; each read but the last takes at least one. Each
/// reply is written in pieces of 4,096 bytes, of which the last may be shorter. In a session each command is answered
/// when its last line has come, before more is read; with several desks all is read before any command is answered.
/// Where a design is made, nothing is read. Each build of a module is a step of the meter. The workers run in threads,
/// as many as the words say, and a worker calls the gate before and after the job of each module, or, with several
/// desks, of each desk.
pub fn run<R: Threads + Wait + Sync, S: Source, K: Sink, G: Gate, L: Send>(
    rt: &R,
    alloc: Global,
    words: &[String],
    source: &mut S,
    sink: &mut K,
    gate: &G,
    meter: &mut Steps<L>,
) -> Status
    // The whole reply was written, and no error is in it; the input was read through, or no input is read.
    ensures done { result ≡ Status.Done → IfSome (plan_of (map string_bytes words.now)) (λ plan.
        HasAnswered plan.mode plan.script false (S.left source.old) (K.held sink.old) (K.held sink.new)
        × IsReadThrough plan.mode (S.left source.old) (S.left source.new)) }
    // The same, and an error is in it.
    ensures refused { result ≡ Status.Refused → IfSome (plan_of (map string_bytes words.now)) (λ plan.
        HasAnswered plan.mode plan.script true (S.left source.old) (K.held sink.old) (K.held sink.new)
        × IsReadThrough plan.mode (S.left source.old) (S.left source.new)) }
    // The words have no meaning, and nothing is read or written; where they have none, no other answer comes but want
    // of memory.
    ensures usage { result ≡ Status.Usage → plan_of (map string_bytes words.now) ≡ None }
    ensures no_meaning { plan_of (map string_bytes words.now) ≡ None →
        (result ≡ Status.Usage) ⊎ (result ≡ Status.Memory) }
    ensures untouched { plan_of (map string_bytes words.now) ≡ None →
        (source.new ≡ source.old) × (sink.new ≡ sink.old) }
    // Where a design is made, no input is read.
    ensures unread { IfSome (plan_of (map string_bytes words.now)) (λ plan.
        (count : ℕ) → plan.mode ≡ Mode.Generate count → source.new ≡ source.old) }

    // Whatever the answer, what was written is a prefix of the reply.
    ensures begun { IfSome (plan_of (map string_bytes words.now)) (λ plan.
        HasBegun plan.mode plan.script (S.left source.old) (K.held sink.old) (K.held sink.new)) }
    // In a session of one desk, just the commands were answered whose last line was taken with its LF; else nothing was
    // written.
    ensures read_fault { result ≡ Status.ReadFault → HasRisen (S.faults source.old) (S.faults source.new)
        × IfSome (plan_of (map string_bytes words.now)) (λ plan.
        HasAnsweredTaken plan.mode plan.script (S.left source.old) (S.left source.new)
        (K.held sink.old) (K.held sink.new)) }
    ensures write_fault { result ≡ Status.WriteFault → HasRisen (K.faults sink.old) (K.faults sink.new) }
    // Where memory is wanting, nothing was written, but in a session.
    ensures memory { result ≡ Status.Memory → IfSome (plan_of (map string_bytes words.now)) (λ plan.
        HasKept plan.mode (K.held sink.old) (K.held sink.new)) }
    // No other answer comes where a count changed.
    ensures source_count { (result ≡ Status.ReadFault → ⊥) → S.faults source.new ≡ S.faults source.old }
    ensures sink_count { (result ≡ Status.WriteFault → ⊥) → K.faults sink.new ≡ K.faults sink.old }
    ensures taken { TakesAtMost (LIMIT + 1) (S.left source.old) (S.left source.new) }
    // Where the words have a meaning and neither count rose, only memory can be wanting.
    ensures complete { OnSome (plan_of (map string_bytes words.now))
        ((HasRisen (S.faults source.old) (S.faults source.new) → ⊥)
        → (HasRisen (K.faults sink.old) (K.faults sink.new) → ⊥) → IsCompleted result) }

    // Each netlist that is written, or whose cells are counted, is what the script makes of the design that was present
    // then. No known output bit of any module is lost in it, whatever the stimulus, and its text reads as it.
    ensures refines { IfSome (plan_of (map string_bytes words.now)) (λ plan.
        OfInput plan.mode (S.left source.old) (λ input.
        HasRefined plan.mode result plan.script input (K.held sink.old) (K.held sink.new))) }
    // Where memory is not wanting, the meter rises by at most the number of different keys that the commands taken need
    // and that are not kept.
    ensures builds { IfSome (plan_of (map string_bytes words.now)) (λ plan.
        HasCounted plan.mode result plan.script (S.left source.old) (S.left source.new) meter.old meter.new) }
    ensures idle { plan_of (map string_bytes words.now) ≡ None → meter.new ≡ meter.old }
{
    let plan = match read_words(alloc, words) {
        Ok(plan) => plan,
        Err(WordFault::Usage) => return Status::Usage,
        Err(WordFault::Memory) => return Status::Memory,
    };
    let crew = Crew { rt, alloc, gate };
    match plan.mode {
        Mode::Synth => status_of(synthesise(&crew, plan, source, sink, meter)),
        Mode::Session => status_of(converse(&crew, plan, source, sink, meter)),
        Mode::Generate(count) => status_of(generate(&crew, plan, count, sink, meter)),
        Mode::Desks(count) => status_of(serve_desks(&crew, plan, count, source, sink, meter)),
    }
}

//! An input of several desks, which answer its commands beside each other over one cache.

ghost use Rattle.std.specs.Prelude.{◌≡◌, ◌≤◌, ◌+◌, ◌||◌, ℕ, All, List, Err, IfOk, IfSome, OnErr, OnOk, false, length};
ghost use Rattle.std.specs.Prelude.{take};
ghost use Rattle.std.specs.List.{AllZip};
ghost use Rattle.std.specs.Io.KnownBytes.{Appends, Keeps};
ghost use Rattle.desk_core.specs.State.{first_state};
ghost use Rattle.desk_core.specs.Step.{IsStep};
ghost use Rattle.many_desks.specs.Replies.{Replies};
ghost use Rattle.script_core.specs.Words.{IsScript};
ghost use Rattle.synth_io.specs.Counts.{HasRisen};
ghost use Rattle.synth_io.specs.Taking.{TakesAtMost};
ghost use Rattle.synth_io.specs.declared.input.TheConstants.{LIMIT};
ghost use Rattle.synth_run.specs.declared.words.Mode.TheVariants as modes;
ghost use Rattle.synth_run.specs.Desks.{CountsDesks, Part, desk_reply};
ghost use Rattle.synth_run.specs.Replies.{HasAnswered, HasBegun, IsPrintedDesks, IsReadThrough};
ghost use Rattle.synth_run.specs.Routes.{CountsParts, Holds, IsOf, IsRouter, Writes, any_error, bytes_of, left_of};
ghost use Rattle.synth_run.specs.Routes.{replies_to, reply_to};

use crate::routes::{Router, Tag};
use crate::session::{Stop, piece_of, refuse_long};
use crate::synth::tell;
use crate::words::Plan;
use desk_core::{Command, Crew, Kept, SoloDesk};
use many_desks::{Answers, Table, serve};
use reply_lines::{Reply, counted, error_reply, ok_line, ok_reply};
use result_cache::{Opened, Seat, SharedCache};
use rtl_bits::{Copied, Memory, Seq, Steps};
use script_core::Script;
use std::alloc::Global;
use std::marker::{Send, Sync};
use std::sync::Wait;
use std::thread::Threads;
use synth_io::{Sink, Source};
use work_crew::Gate;

/// The number of shards of the cache: so many results can be asked for at once.
const SHARDS: u32 = 16;

/// Desks that begin with a script: each answers the commands of a list.
#[derive_where(Clone, Copy)]
pub(crate) struct DeskTable<'a, R> {
    rt: &'a R,
    alloc: Global,
    script: &'a Script,
}

impl<R: Wait + Sync> Table for DeskTable<'_, R> {
    type Value = Kept;

    type State = SoloDesk;

    type Command = Command;

    type Reply = Reply;

    ghost use Rattle.desk_core.specs.Ages.{texts_of};
    ghost use Rattle.desk_core.specs.Builds.{asked_by};
    ghost use Rattle.desk_core.specs.Solo.{HasBuilt};
    ghost use Rattle.desk_core.specs.State.{first_state};
    ghost use Rattle.desk_core.specs.Step.{IsStep};

    ghost first_state = { λ table. first_state table.script.now };

    ghost steps = { λ table command before reply after. IsStep command before reply after };

    ghost does = { λ table command before old new n.
        HasBuilt (texts_of before.kept) (asked_by command before) old new n };

    fn start(&self) -> Result<SoloDesk, Memory> {
        Ok(SoloDesk::make(self.alloc, self.script.copy()?))
    }

    fn answer<L>(
        &self,
        state: &mut SoloDesk,
        command: &Command,
        cache: &SharedCache<Kept>,
        seat: &mut Seat,
        meter: &mut Steps<L>,
    ) -> Result<Reply, Memory> {
        state.command(self.rt, command, cache, seat, meter)
    }
}

/// Has the desks of a router answer their commands, over a new cache with a seat for each.
#[tactic(auto, using(crate::proofs::Counted::served_counts))]
fn answer_all<R: Threads + Wait + Sync, G: Gate, L: Send>(
    crew: &Crew<R, G>,
    script: &Script,
    router: &Router,
    meter: &mut Steps<L>,
) -> Result<Answers<Reply>, Memory>
    requires router { IsRouter router.now }
    ensures replies { IfOk result (λ answers.
        AllZip (Replies IsStep (first_state script.now)) router.now.lists.items answers) }
    ensures builds { OnOk result ((parts : List Part) → Holds parts router.now →
        CountsParts script.now parts meter.old meter.new) }
{
    let (rt, alloc) = (crew.rt, crew.alloc);
    let lists = router.lists.as_slice();
    let Opened { cache, mut seats } = SharedCache::make(alloc, lists.len() as u32, SHARDS)?;
    let table = DeskTable { rt, alloc, script };
    let answers = serve(
        rt, alloc, &table, lists, &cache, &mut seats, crew.gate, meter,
    );
    // Afterwards it is known that no key was built twice.
    cache.meet(rt, &mut seats);
    answers
}

/// The reply to a line that goes to a desk.
fn desk_reply(alloc: Global, desk: u32) -> Result<Reply, Memory>
    ensures value { IfOk result (λ reply. reply ≡ desk_reply desk) }
{
    let words = counted(alloc, b"desk", desk as usize)?;
    Ok(ok_reply(ok_line(alloc, words.as_slice())?))
}

/// Replies that are written in the order of the input: for each desk those that are not written yet, and whether an
/// error was among those that are.
#[derive(Drop)]
pub(crate) struct Writer<'a> {
    alloc: Global,
    left: Vec<&'a [Reply]>,
    refused: bool,
}

impl<'a> Writer<'a> {
    /// Each desk has all its replies left.
    fn make(alloc: Global, answers: &'a Answers<Reply>) -> Result<Writer<'a>, Memory>
        ensures left { IfOk result (λ writer. left_of writer ≡ answers.now) }
        ensures refused { IfOk result (λ writer. writer.refused ≡ false) }
    {
        let desks = answers.as_slice();
        let mut left = Vec::with_capacity(alloc, desks.len())?;
        for replies in desks {
            left.push(replies.as_slice())?;
        }
        Ok(Writer {
            alloc,
            left,
            refused: false,
        })
    }

    /// Writes a reply.
    fn write<K: Sink>(&mut self, reply: &Reply, sink: &mut K) -> Result<(), Stop>
        ensures ok { OnOk result (Appends (K.held sink.old) (K.held sink.new) reply.now.text) }
        ensures refused { OnOk result (self.new.refused ≡ (self.old.refused || reply.now.error)) }
        ensures left { self.new.left ≡ self.old.left }
        ensures err { OnErr result ((n : ℕ) × Appends (K.held sink.old) (K.held sink.new) (take n reply.now.text)) }
        ensures cause { result ≡ Err Stop.Sink → HasRisen (K.faults sink.old) (K.faults sink.new) }
        ensures same { (result ≡ Err Stop.Sink → ⊥) → K.faults sink.new ≡ K.faults sink.old }
        ensures source { result ≡ Err Stop.Source → ⊥ }
    {
        self.refused = tell(sink, reply.text.as_slice(), self.refused || reply.error)?;
        Ok(())
    }

    /// Writes the next reply of a desk.
    #[tactic(auto, using(crate::proofs::Written::wrote_none, crate::proofs::Written::wrote_next, crate::proofs::Written::wrote_cut))]
    fn write_next<K: Sink>(&mut self, desk: u32, sink: &mut K) -> Result<(), Stop>
        requires range { (1 ≤ desk) × (desk ≤ length self.old.left.items) }
        ensures ok { OnOk result
            (Writes self.old self.new (Tag.Command desk) (K.held sink.old) (K.held sink.new)) }
        ensures err { OnErr result ((n : ℕ) × Appends (K.held sink.old) (K.held sink.new)
            (take n (bytes_of (reply_to (Tag.Command desk) (left_of self.old))))) }
        ensures cause { result ≡ Err Stop.Sink → HasRisen (K.faults sink.old) (K.faults sink.new) }
        ensures same { (result ≡ Err Stop.Sink → ⊥) → K.faults sink.new ≡ K.faults sink.old }
        ensures source { result ≡ Err Stop.Source → ⊥ }
    {
        let at = desk as usize - 1;
        let [reply, rest @ ..] = self.left[at] else {
            return Ok(());
        };
        self.left[at] = rest;
        self.write(reply, sink)
    }

    /// Writes the reply to a part.
    #[tactic(auto, using(crate::proofs::Written::wrote_one, crate::proofs::Written::one_cut))]
    fn write_part<K: Sink>(&mut self, part: Tag, sink: &mut K) -> Result<(), Stop>
        requires range { IsOf (length self.old.left.items) part }
        ensures ok { OnOk result (Writes self.old self.new part (K.held sink.old) (K.held sink.new)) }
        ensures err { OnErr result ((n : ℕ) × Appends (K.held sink.old) (K.held sink.new)
            (take n (bytes_of (reply_to part (left_of self.old))))) }
        ensures cause { result ≡ Err Stop.Sink → HasRisen (K.faults sink.old) (K.faults sink.new) }
        ensures same { (result ≡ Err Stop.Sink → ⊥) → K.faults sink.new ≡ K.faults sink.old }
        ensures source { result ≡ Err Stop.Source → ⊥ }
    {
        let reply = match part {
            Tag::Command(desk) => return self.write_next(desk, sink),
            Tag::To(desk) => desk_reply(self.alloc, desk),
            Tag::Stray => error_reply(self.alloc, b"21"),
        };
        match reply {
            Ok(reply) => self.write(&reply, sink),
            Err(Memory) => Err(Stop::Memory),
        }
    }
}

/// Writes the replies to the parts of an input, in their order. Whether one of them is an error.
#[tactic(auto, using(crate::proofs::Written::written_first, crate::proofs::Written::written_next, crate::proofs::Written::written_cut, crate::proofs::Written::written_all, crate::proofs::Written::written_none))]
fn write_all<K: Sink>(
    alloc: Global,
    parts: &[Tag],
    answers: &Answers<Reply>,
    sink: &mut K,
) -> Result<bool, Stop>
    requires range { All (IsOf (length answers.now)) parts.now }
    ensures ok { IfOk result (λ refused. (refused ≡ any_error (replies_to parts.now answers.now))
        × Appends (K.held sink.old) (K.held sink.new) (bytes_of (replies_to parts.now answers.now))) }
    ensures err { OnErr result ((n : ℕ) × Appends (K.held sink.old) (K.held sink.new)
        (take n (bytes_of (replies_to parts.now answers.now)))) }
    ensures cause { result ≡ Err Stop.Sink → HasRisen (K.faults sink.old) (K.faults sink.new) }
    ensures same { (result ≡ Err Stop.Sink → ⊥) → K.faults sink.new ≡ K.faults sink.old }
    ensures source { result ≡ Err Stop.Source → ⊥ }
{
    let Ok(mut writer) = Writer::make(alloc, answers) else {
        return Err(Stop::Memory);
    };
    for part in parts {
        writer.write_part(*part, sink)?;
    }
    Ok(writer.refused)
}

/// Answers the commands of several desks: the input is read whole, then the desks answer beside each other, and then
/// the replies are written in the order of the input. Whether an error was answered.
#[tactic(auto, using(crate::proofs::Replying::begun_none, crate::proofs::Speaking::keeps_same))]
pub(crate) fn serve_desks<R: Threads + Wait + Sync, S: Source, K: Sink, G: Gate, L: Send>(
    crew: &Crew<R, G>,
    plan: Plan,
    count: u32,
    source: &mut S,
    sink: &mut K,
    meter: &mut Steps<L>,
) -> Result<bool, Stop>
    requires script { IsScript plan.script }
    requires range { (1 ≤ count) × (count ≤ 16) }
    ensures ok { IfOk result (λ refused.
        HasAnswered (modes.Desks count) plan.script refused (S.left source.old) (K.held sink.old) (K.held sink.new)) }
    ensures through { OnOk result (IsReadThrough (modes.Desks count) (S.left source.old) (S.left source.new)) }
    ensures begun { OnErr result
        (HasBegun (modes.Desks count) plan.script (S.left source.old) (K.held sink.old) (K.held sink.new)) }
    ensures nothing { result ≡ Err Stop.Source → Keeps (K.held sink.old) (K.held sink.new) }
    ensures prints { OnOk result (IfSome (S.left source.old) (λ input.
        IsPrintedDesks count plan.script input (K.held sink.old) (K.held sink.new))) }
    ensures counts { (result ≡ Err Stop.Memory → ⊥) → (result ≡ Err Stop.Source → ⊥) →
        IfSome (S.left source.old) (λ input. CountsDesks count plan.script input meter.old meter.new) }
    ensures uncounted { result ≡ Err Stop.Source → meter.new ≡ meter.old }
    ensures taken { TakesAtMost (LIMIT + 1) (S.left source.old) (S.left source.new) }
    ensures read_fault { result ≡ Err Stop.Source → HasRisen (S.faults source.old) (S.faults source.new) }
    ensures write_fault { result ≡ Err Stop.Sink → HasRisen (K.faults sink.old) (K.faults sink.new) }
    ensures source_count { (result ≡ Err Stop.Source → ⊥) → S.faults source.new ≡ S.faults source.old }
    ensures sink_count { (result ≡ Err Stop.Sink → ⊥) → K.faults sink.new ≡ K.faults sink.old }
{
    let Ok(mut router) = Router::make(crew.alloc, count) else {
        return Err(Stop::Memory);
    };
    let Ok(mut piece) = piece_of(crew.alloc) else {
        return Err(Stop::Memory);
    };
    let past = router.read_all(&mut piece, source)?;
    let Ok(answers) = answer_all(crew, &plan.script, &router, meter) else {
        return Err(Stop::Memory);
    };
    let refused = write_all(crew.alloc, router.parts.as_slice(), &answers, sink)?;
    if past {
        return refuse_long(crew.alloc, sink);
    }
    Ok(refused)
}

//! Sessions: each command is answered when its last line has come.

ghost use Rattle.std.specs.Prelude.{◌≡◌, ◌<◌, ◌≤◌, ◌∷◌, [], ◌++◌, ◌||◌, ◌+◌, ℕ, List, Bool, Err, IfErr, IfOk, OnErr};
ghost use Rattle.std.specs.Prelude.{OnOk, None, Ok, Option, Some, false, length, option_to_list, string_bytes, take};
ghost use Rattle.std.specs.Prelude.{true, vec_len};
ghost use Rattle.std.specs.Io.KnownBytes.{Appends, Consumes, IsAtEnd, Keeps};
ghost use Rattle.std.specs.Io.BufRead.{strip_last};
ghost use Rattle.desk_read.specs.Taking.{commands_from};
ghost use Rattle.desk_core.specs.State.{State, first_state};
ghost use Rattle.synth_io.specs.Counts.{HasRisen};
ghost use Rattle.synth_io.specs.Taking.{TakesAtMost};
ghost use Rattle.synth_io.specs.declared.input.TheConstants.{LIMIT};
ghost use Rattle.synth_run.specs.Lines.{is_unended, last_line, read_lines};
ghost use Rattle.synth_run.specs.Said.{too_long};
ghost use Rattle.synth_run.specs.Session.{Turn, commands_in, has_error, is_quit, up_to_quit};
ghost use Rattle.synth_run.specs.Taking.{BeginWith, BeginsBytes, BeginsLines, Breaks, Broken, Finishes, Held, Speaks};
ghost use Rattle.synth_run.specs.Taking.{TakesBytes, TakesLines};

use crate::lines::{split_line, without_cr};
use crate::words::Plan;
use desk_core::{Command, CommandReader, Crew, Desk};
use reply_lines::error_reply;
use rtl_bits::{Memory, Steps, Text};
use std::alloc::Global;
use std::marker::{Send, Sync};
use std::mem;
use std::sync::Wait;
use std::thread::Threads;
use synth_io::{Failed, Next, Sink, Source, read_next, write_reply};
use work_crew::Gate;

/// The most bytes that are asked for at once.
const PIECE: usize = 65_536;

/// Why a call stops before its end.
#[derive(Clone, Copy, Debug, PartialEq, Eq)]
pub(crate) enum Stop {
    /// The source failed.
    Source,
    /// The sink failed.
    Sink,
    Memory,
}

/// A desk whose replies are written, and whether one of them was an error.
#[derive(Drop)]
pub(crate) struct Speaker {
    desk: Desk,
    refused: bool,
}

/// A session: the desk, the reader of its commands, and the bytes of a line whose end has not come.
#[derive(Drop)]
pub(crate) struct Session {
    speaker: Speaker,
    reader: CommandReader,
    line: Text,
}

/// Whether the command ends the session.
pub(crate) fn is_quit(command: &Command) -> bool
    ensures value { result ≡ is_quit command.now }
{
    matches!(command, Command::Quit)
}

impl Speaker {
    /// Answers the command, and writes the reply. Whether it ends the session.
    fn answer<R: Threads + Wait + Sync, K: Sink, G: Gate, L: Send>(
        &mut self,
        crew: &Crew<R, G>,
        command: &Command,
        sink: &mut K,
        meter: &mut Steps<L>,
    ) -> Result<bool, Stop>
        ensures ok { IfOk result (λ ended. (turns : List Turn) × (commands_in turns ≡ command.now ∷ [])
            × Speaks self.old self.new ended turns (K.held sink.old) (K.held sink.new) meter.old meter.new) }
        ensures err { IfErr result (λ stop. (turns : List Turn) × BeginWith (command.now ∷ []) turns
            × Breaks self.old.desk.state stop turns (K.held sink.old) (K.held sink.new) meter.old meter.new) }
        ensures cause { result ≡ Err Stop.Sink → HasRisen (K.faults sink.old) (K.faults sink.new) }
        ensures same { (result ≡ Err Stop.Sink → ⊥) → K.faults sink.new ≡ K.faults sink.old }
        ensures source { result ≡ Err Stop.Source → ⊥ }
    {
        let Ok(reply) = self.desk.command(crew.rt, command, crew.gate, meter) else {
            return Err(Stop::Memory);
        };
        let Ok(()) = write_reply(sink, reply.text.as_slice()) else {
            return Err(Stop::Sink);
        };
        self.refused = self.refused || reply.error;
        Ok(is_quit(command))
    }

    /// Answers the command, where there is one.
    #[tactic(auto, using(crate::proofs::Turning::silent))]
    fn answer_any<R: Threads + Wait + Sync, K: Sink, G: Gate, L: Send>(
        &mut self,
        crew: &Crew<R, G>,
        command: Option<Command>,
        sink: &mut K,
        meter: &mut Steps<L>,
    ) -> Result<bool, Stop>
        ensures ok { IfOk result (λ ended. (turns : List Turn) × (commands_in turns ≡ option_to_list command)
            × Speaks self.old self.new ended turns (K.held sink.old) (K.held sink.new) meter.old meter.new) }
        ensures err { IfErr result (λ stop. (turns : List Turn) × BeginWith (option_to_list command) turns
            × Breaks self.old.desk.state stop turns (K.held sink.old) (K.held sink.new) meter.old meter.new) }
        ensures cause { result ≡ Err Stop.Sink → HasRisen (K.faults sink.old) (K.faults sink.new) }
        ensures same { (result ≡ Err Stop.Sink → ⊥) → K.faults sink.new ≡ K.faults sink.old }
        ensures source { result ≡ Err Stop.Source → ⊥ }
    {
        match command {
            None => Ok(false),
            Some(command) => self.answer(crew, &command, sink, meter),
        }
    }
}

impl Session {
    /// A session of no command yet, by the script of the plan.
    pub(crate) fn make(alloc: Global, plan: Plan) -> Result<Session, Memory>
        requires some { 1 ≤ plan.workers }
        requires few { plan.workers ≤ 64 }
        ensures desk { IfOk result (λ session. session.speaker.desk.state ≡ first_state plan.script) }
        ensures fresh { IfOk result (λ session. (session.speaker.refused ≡ false) × (session.reader ≡
            None) × (session.line ≡ [])) }
    {
        let desk = Desk::make(alloc, plan.script, plan.workers)?;
        Ok(Session {
            speaker: Speaker {
                desk,
                refused: false,
            },
            reader: CommandReader::make(alloc),
            line: Text::make(alloc),
        })
    }

    /// Takes a line, and answers the command that it completes. Whether that ends the session.
    fn take_line<R: Threads + Wait + Sync, K: Sink, G: Gate, L: Send>(
        &mut self,
        crew: &Crew<R, G>,
        line: &[u8],
        sink: &mut K,
        meter: &mut Steps<L>,
    ) -> Result<bool, Stop>
        ensures ok { IfOk result (λ ended.
            (turns : List Turn) × TakesLines self.old.reader (line.now ∷ []) turns self.new.reader
            × Speaks self.old.speaker self.new.speaker ended turns (K.held sink.old) (K.held sink.new)
            meter.old meter.new) }
        ensures err { IfErr result (λ stop. (turns : List Turn) × BeginsLines self.old.reader (line.now ∷ []) turns
            × Breaks self.old.speaker.desk.state stop turns (K.held sink.old) (K.held sink.new) meter.old meter.new) }
        ensures line { self.new.line ≡ self.old.line }
        ensures cause { result ≡ Err Stop.Sink → HasRisen (K.faults sink.old) (K.faults sink.new) }
        ensures same { (result ≡ Err Stop.Sink → ⊥) → K.faults sink.new ≡ K.faults sink.old }
        ensures source { result ≡ Err Stop.Source → ⊥ }
    {
        match self.reader.feed(line) {
            Ok(command) => self.speaker.answer_any(crew, command, sink, meter),
            Err(Memory) => Err(Stop::Memory),
        }
    }

    /// Takes the line whose end has come. Whether that ends the session.
    fn end_line<R: Threads + Wait + Sync, K: Sink, G: Gate, L: Send>(
        &mut self,
        crew: &Crew<R, G>,
        sink: &mut K,
        meter: &mut Steps<L>,
    ) -> Result<bool, Stop>
        ensures ok { IfOk result (λ ended.
            (turns : List Turn) × TakesLines self.old.reader (read_lines (self.old.line ∷ [])) turns self.new.reader
            × Speaks self.old.speaker self.new.speaker ended turns (K.held sink.old) (K.held sink.new)
            meter.old meter.new) }
        ensures err { IfErr result (λ stop.
            (turns : List Turn) × BeginsLines self.old.reader (read_lines (self.old.line ∷ [])) turns
            × Breaks self.old.speaker.desk.state stop turns (K.held sink.old) (K.held sink.new) meter.old meter.new) }
        ensures line { self.new.line ≡ [] }
        ensures cause { result ≡ Err Stop.Sink → HasRisen (K.faults sink.old) (K.faults sink.new) }
        ensures same { (result ≡ Err Stop.Sink → ⊥) → K.faults sink.new ≡ K.faults sink.old }
        ensures source { result ≡ Err Stop.Source → ⊥ }
    {
        let empty = Text::make(self.line.allocator());
        let line = mem::replace(&mut self.line, empty);
        self.take_line(crew, without_cr(line.as_slice()), sink, meter)
    }

    /// Puts bytes without LF behind the line whose end has not come.
    fn hold(&mut self, bytes: &[u8]) -> Result<(), Memory>
        ensures ok { OnOk result (self.new ≡ record self.old { line = self.old.line ++ bytes.now }) }
        ensures err { OnErr result (self.new ≡ self.old) }
    {
        self.line.extend(bytes)
    }

    /// Takes bytes, and answers the commands whose last lines end in them, up to one that ends the session. Whether one
    /// does.
    fn take_bytes<R: Threads + Wait + Sync, K: Sink, G: Gate, L: Send>(
        &mut self,
        crew: &Crew<R, G>,
        bytes: &[u8],
        sink: &mut K,
        meter: &mut Steps<L>,
    ) -> Result<bool, Stop>
        requires unended { is_unended self.old.line ≡ true }
        ensures unended { is_unended self.new.line ≡ true }
        ensures goes_on { result ≡ Ok false → (lines : List (List ℕ)) × (turns : List Turn)
            × TakesBytes self.old.line bytes.now lines self.new.line
            × TakesLines self.old.reader (read_lines lines) turns self.new.reader
            × Speaks self.old.speaker self.new.speaker false turns (K.held sink.old) (K.held sink.new)
            meter.old meter.new }
        ensures ends { result ≡ Ok true → (lines : List (List ℕ)) × (turns : List Turn)
            × BeginsBytes self.old.line bytes.now lines
            × TakesLines self.old.reader (read_lines lines) turns self.new.reader
            × Speaks self.old.speaker self.new.speaker true turns (K.held sink.old) (K.held sink.new)
            meter.old meter.new }
        ensures err { IfErr result (λ stop. (lines : List (List ℕ)) × (turns : List Turn)
            × BeginsBytes self.old.line bytes.now lines × BeginsLines self.old.reader (read_lines lines) turns
            × Breaks self.old.speaker.desk.state stop turns (K.held sink.old) (K.held sink.new) meter.old meter.new) }
        ensures cause { result ≡ Err Stop.Sink → HasRisen (K.faults sink.old) (K.faults sink.new) }
        ensures same { (result ≡ Err Stop.Sink → ⊥) → K.faults sink.new ≡ K.faults sink.old }
        ensures source { result ≡ Err Stop.Source → ⊥ }
    {
        let mut left = bytes;
        while let Some((front, behind)) = split_line(left) {
            let Ok(()) = self.hold(front) else {
                return Err(Stop::Memory);
            };
            match self.end_line(crew, sink, meter) {
                Ok(false) => left = behind,
                Ok(true) => return Ok(true),
                Err(stop) => return Err(stop),
            }
        }
        match self.hold(left) {
            Ok(()) => Ok(false),
            Err(Memory) => Err(Stop::Memory),
        }
    }

    /// Takes the last line, which has no end; nothing where it is empty.
    fn take_last<R: Threads + Wait + Sync, K: Sink, G: Gate, L: Send>(
        &mut self,
        crew: &Crew<R, G>,
        sink: &mut K,
        meter: &mut Steps<L>,
    ) -> Result<bool, Stop>
        ensures ok { IfOk result (λ ended.
            (turns : List Turn) × TakesLines self.old.reader (last_line self.old.line) turns self.new.reader
            × Speaks self.old.speaker self.new.speaker ended turns (K.held sink.old) (K.held sink.new)
            meter.old meter.new) }
        ensures err { IfErr result (λ stop.
            (turns : List Turn) × BeginsLines self.old.reader (last_line self.old.line) turns
            × Breaks self.old.speaker.desk.state stop turns (K.held sink.old) (K.held sink.new) meter.old meter.new) }
        ensures cause { result ≡ Err Stop.Sink → HasRisen (K.faults sink.old) (K.faults sink.new) }
        ensures same { (result ≡ Err Stop.Sink → ⊥) → K.faults sink.new ≡ K.faults sink.old }
        ensures source { result ≡ Err Stop.Source → ⊥ }
    {
        let empty = Text::make(self.line.allocator());
        let line = mem::replace(&mut self.line, empty);
        if line.as_slice().is_empty() {
            return Ok(false);
        }
        self.take_line(crew, line.as_slice(), sink, meter)
    }

    /// Ends the input. Whether an error was answered.
    fn finish<R: Threads + Wait + Sync, K: Sink, G: Gate, L: Send>(
        mut self,
        crew: &Crew<R, G>,
        sink: &mut K,
        meter: &mut Steps<L>,
    ) -> Result<bool, Stop>
        ensures ok { IfOk result (λ refused.
            Finishes self.speaker.desk.state self.speaker.refused (commands_from self.reader (last_line self.line))
            refused (K.held sink.old) (K.held sink.new) meter.old meter.new) }
        ensures err { IfErr result (λ stop.
            (turns : List Turn) × BeginWith (commands_from self.reader (last_line self.line)) turns
            × Breaks self.speaker.desk.state stop turns (K.held sink.old) (K.held sink.new) meter.old meter.new) }
        ensures cause { result ≡ Err Stop.Sink → HasRisen (K.faults sink.old) (K.faults sink.new) }
        ensures same { (result ≡ Err Stop.Sink → ⊥) → K.faults sink.new ≡ K.faults sink.old }
        ensures source { result ≡ Err Stop.Source → ⊥ }
    {
        match self.take_last(crew, sink, meter) {
            Ok(false) => {}
            Ok(true) => return Ok(self.speaker.refused),
            Err(stop) => return Err(stop),
        }
        let Session {
            mut speaker,
            reader,
            line: _,
        } = self;
        match speaker.answer_any(crew, reader.finish(), sink, meter) {
            Ok(_) => Ok(speaker.refused),
            Err(stop) => Err(stop),
        }
    }

    /// Answers the commands of an input, each when its last line has come. Whether an error was answered.
    pub(crate) fn answer_all<R: Threads + Wait + Sync, S: Source, K: Sink, G: Gate, L: Send>(
        mut self,
        crew: &Crew<R, G>,
        piece: &mut [u8],
        source: &mut S,
        sink: &mut K,
        meter: &mut Steps<L>,
    ) -> Result<bool, Stop>
        requires fresh { (self.speaker.refused ≡ false) × (self.reader ≡ None) × (self.line ≡ []) }
        requires some { 0 < length piece.old }
        ensures ok { IfOk result (λ refused.
            Held self.speaker.desk.state refused (S.left source.old) (S.left source.new)
            (K.held sink.old) (K.held sink.new) meter.old meter.new) }
        ensures err { IfErr result (λ stop. Broken self.speaker.desk.state stop (S.left source.old) (S.left source.new)
            (K.held sink.old) (K.held sink.new) meter.old meter.new) }
        ensures taken { TakesAtMost (LIMIT + 1) (S.left source.old) (S.left source.new) }
        ensures read_fault { result ≡ Err Stop.Source → HasRisen (S.faults source.old) (S.faults source.new) }
        ensures write_fault { result ≡ Err Stop.Sink → HasRisen (K.faults sink.old) (K.faults sink.new) }
        ensures source_count { (result ≡ Err Stop.Source → ⊥) → S.faults source.new ≡ S.faults source.old }
        ensures sink_count { (result ≡ Err Stop.Sink → ⊥) → K.faults sink.new ≡ K.faults sink.old }
    {
        let mut taken = 0;
        loop {
            let next = read_next(source, piece, taken);
            match next {
                Ok(Next::Bytes(count)) => {
                    taken += count;
                    match self.take_bytes(crew, &piece[..count], sink, meter) {
                        Ok(false) => {}
                        Ok(true) => return Ok(self.speaker.refused),
                        Err(stop) => return Err(stop),
                    }
                }
                Ok(Next::End) => return self.finish(crew, sink, meter),
                Ok(Next::Past) => return refuse_long(self.line.allocator(), sink),
                Err(Failed) => return Err(Stop::Source),
            }
        }
    }
}

/// Writes the reply to an input that is too long, which is an error.
#[tactic(auto, using(crate::proofs::Speaking::cut_nothing))]
pub(crate) fn refuse_long<K: Sink>(alloc: Global, sink: &mut K) -> Result<bool, Stop>
    ensures ok { IfOk result (λ error. (error ≡ true) × Appends (K.held sink.old) (K.held sink.new) too_long.text) }
    ensures err { OnErr result ((n : ℕ) × Appends (K.held sink.old) (K.held sink.new) (take n too_long.text)) }
    ensures memory { result ≡ Err Stop.Memory → Keeps (K.held sink.old) (K.held sink.new) }
    ensures cause { result ≡ Err Stop.Sink → HasRisen (K.faults sink.old) (K.faults sink.new) }
    ensures same { (result ≡ Err Stop.Sink → ⊥) → K.faults sink.new ≡ K.faults sink.old }
    ensures source { result ≡ Err Stop.Source → ⊥ }
{
    let Ok(reply) = error_reply(alloc, b"17 input") else {
        return Err(Stop::Memory);
    };
    match write_reply(sink, reply.text.as_slice()) {
        Ok(()) => Ok(true),
        Err(Failed) => Err(Stop::Sink),
    }
}

/// A buffer for the bytes of one read.
pub(crate) fn piece_of(alloc: Global) -> Result<Vec<u8>, Memory>
    ensures some { IfOk result (λ piece. 0 < vec_len piece) }
{
    Ok(vec![in alloc; 0u8; PIECE]?)
}

//! The commands of an input of several desks, each put into the list of its desk.

ghost use Rattle.std.specs.Prelude.{◌≡◌, ◌+◌, ◌<◌, ◌≤◌, ◌∷◌, [], ◌++◌, ℕ, List, Err, IfOk, None, Ok, OnOk, false, length};
ghost use Rattle.std.specs.Prelude.{true};
ghost use Rattle.synth_io.specs.Counts.{HasRisen};
ghost use Rattle.synth_io.specs.Taking.{TakesAtMost};
ghost use Rattle.synth_io.specs.declared.input.TheConstants.{LIMIT};
ghost use Rattle.synth_run.specs.Desks as desks;
ghost use Rattle.synth_run.specs.Desks.{Part, aim_in};
ghost use Rattle.synth_run.specs.Lines.{is_unended, last_line, read_lines};
ghost use Rattle.synth_run.specs.Routes.{EndsParts, Holds, IsRouted, IsRouter, TakesParts};
ghost use Rattle.synth_run.specs.Session.{is_quit};
ghost use Rattle.synth_run.specs.Taking.{BeginsBytes, TakesBytes};

use crate::aims::{Aim, aim_of};
use crate::lines::{split_line, without_cr};
use crate::session::{Stop, is_quit};
use desk_core::{Command, CommandReader};
use many_desks::Commands;
use rtl_bits::{Memory, Seq, Text};
use std::alloc::Global;
use std::mem;
use synth_io::{Failed, Next, Source, read_next};

/// What a part of an input of several desks is.
#[derive(Clone, Copy, Debug, PartialEq, Eq)]
pub(crate) enum Tag {
    /// The next command of the desk of this number.
    Command(u32),
    /// A line that goes to the desk of this number.
    To(u32),
    /// A line that names no desk.
    Stray,
}

/// The parts of an input so far, in their order, and for each desk the commands among them; the desk that the next
/// command is for, the reader of commands, and the bytes of a line whose end has not come.
#[derive(Drop)]
pub(crate) struct Router {
    alloc: Global,
    pub(crate) parts: Vec<Tag>,
    pub(crate) lists: Vec<Commands<Command>>,
    desk: u32,
    reader: CommandReader,
    line: Text,
}

impl Router {
    /// A router of so many desks, of no part yet: the first desk is that of the number 1.
    #[tactic(auto, using(crate::proofs::Routing::lists_more))]
    pub(crate) fn make(alloc: Global, count: u32) -> Result<Router, Memory>
        requires range { (1 ≤ count) × (count ≤ 16) }
        ensures router { IfOk result IsRouter }
        ensures count { IfOk result (λ router. length router.lists.items ≡ count) }
        ensures none { IfOk result (Holds []) }
        ensures fresh { IfOk result (λ router. (router.desk ≡ 1) × (router.reader ≡ None) × (router.line ≡ [])) }
    {
        let mut lists = Vec::with_capacity(alloc, count as usize)?;
        for _desk in 0..count {
            lists.push(Seq::make(alloc))?;
        }
        Ok(Router {
            alloc,
            parts: Vec::new(alloc),
            lists,
            desk: 1,
            reader: CommandReader::make(alloc),
            line: Text::make(alloc),
        })
    }

    /// How many desks there are.
    fn count(&self) -> u32
        requires router { IsRouter self.now }
        ensures value { result ≡ length self.now.lists.items }
    {
        self.lists.len() as u32
    }

    /// Puts a command into the list of the present desk. Whether it ends the input.
    #[tactic(auto, using(crate::proofs::Putting::router_more, crate::proofs::Routing::holds_command))]
    fn put(&mut self, command: Command) -> Result<bool, Memory>
        requires router { IsRouter self.old }
        ensures router { OnOk result (IsRouter self.new) }
        ensures count { OnOk result (length self.new.lists.items ≡ length self.old.lists.items) }
        ensures ok { OnOk result ((parts : List Part) → Holds parts self.old →
            Holds (parts ++ desks.command self.old.desk command ∷ []) self.new) }
        ensures quit { IfOk result (λ ended. ended ≡ is_quit command) }
        ensures same { (self.new.desk ≡ self.old.desk) × (self.new.reader ≡ self.old.reader)
            × (self.new.line ≡ self.old.line) }
    {
        let ended = is_quit(&command);
        self.lists[self.desk as usize - 1].push(command)?;
        self.parts.push(Tag::Command(self.desk))?;
        Ok(ended)
    }

    /// Takes a line between commands by what it says of desks. Whether it ends the input.
    #[tactic(auto, using(crate::proofs::Putting::aim_none, crate::proofs::Putting::aim_to, crate::proofs::Putting::aim_stray, crate::proofs::Putting::router_more))]
    fn take_outside(&mut self, line: &[u8]) -> Result<bool, Memory>
        requires router { IsRouter self.old }
        requires outside { self.old.reader ≡ None }
        ensures router { OnOk result (IsRouter self.new) }
        ensures ok { IfOk result (λ ended. (more : List Part) ×
            TakesParts self.old self.new (line.now ∷ []) ended more) }
        ensures line { self.new.line ≡ self.old.line }
    {
        match aim_of(self.alloc, self.count(), line)? {
            Aim::Command => self.take_any(line),
            Aim::To(desk) => {
                self.parts.push(Tag::To(desk))?;
                self.desk = desk;
                Ok(false)
            }
            Aim::Stray => {
                self.parts.push(Tag::Stray)?;
                Ok(false)
            }
        }
    }

    /// Takes a line of a command. Whether it ends the input.
    #[tactic(auto, using(crate::proofs::Putting::taken_put, crate::proofs::Putting::taken_on, crate::proofs::Putting::router_same))]
    fn take_any(&mut self, line: &[u8]) -> Result<bool, Memory>
        requires router { IsRouter self.old }
        requires command { aim_in (length self.old.lists.items) self.old.reader line.now ≡ desks.none }
        ensures router { OnOk result (IsRouter self.new) }
        ensures ok { IfOk result (λ ended. (more : List Part) ×
            TakesParts self.old self.new (line.now ∷ []) ended more) }
        ensures line { self.new.line ≡ self.old.line }
    {
        match self.reader.feed(line)? {
            Some(command) => self.put(command),
            None => Ok(false),
        }
    }

    /// Takes a line. Whether it ends the input.
    #[tactic(auto, using(crate::proofs::Putting::aim_inside, crate::proofs::Putting::none_open))]
    fn take_line(&mut self, line: &[u8]) -> Result<bool, Memory>
        requires router { IsRouter self.old }
        ensures router { OnOk result (IsRouter self.new) }
        ensures ok { IfOk result (λ ended. (more : List Part) ×
            TakesParts self.old self.new (line.now ∷ []) ended more) }
        ensures line { self.new.line ≡ self.old.line }
    {
        if self.reader.inside() {
            self.take_any(line)
        } else {
            self.take_outside(line)
        }
    }

    /// Takes the line whose end has come, of which these bytes are the last. Whether it ends the input.
    #[tactic(auto, using(crate::proofs::Putting::took_held, crate::proofs::Putting::router_same))]
    fn end_line(&mut self, bytes: &[u8]) -> Result<bool, Memory>
        requires router { IsRouter self.old }
        ensures router { OnOk result (IsRouter self.new) }
        ensures ok { IfOk result (λ ended. (more : List Part) ×
            TakesParts self.old self.new (read_lines ((self.old.line ++ bytes.now) ∷ [])) ended more) }
        ensures line { OnOk result (self.new.line ≡ []) }
    {
        self.line.extend(bytes)?;
        let empty = Text::make(self.line.allocator());
        let line = mem::replace(&mut self.line, empty);
        self.take_line(without_cr(line.as_slice()))
    }

    /// Takes bytes, up to a line that ends the input. Whether one does.
    fn take_bytes(&mut self, bytes: &[u8]) -> Result<bool, Memory>
        requires router { IsRouter self.old }
        requires unended { is_unended self.old.line ≡ true }
        ensures router { OnOk result (IsRouter self.new) }
        ensures goes_on { result ≡ Ok false → (lines : List (List ℕ)) × (more : List Part)
            × TakesBytes self.old.line bytes.now lines self.new.line × (is_unended self.new.line ≡ true)
            × TakesParts self.old self.new (read_lines lines) false more }
        ensures ends { result ≡ Ok true → (lines : List (List ℕ)) × (more : List Part)
            × BeginsBytes self.old.line bytes.now lines × TakesParts self.old self.new (read_lines lines) true more }
    {
        let mut left = bytes;
        while let Some((front, behind)) = split_line(left) {
            if self.end_line(front)? {
                return Ok(true);
            }
            left = behind;
        }
        self.line.extend(left)?;
        Ok(false)
    }

    /// Takes the last line, which has no end; nothing where it is empty. Whether it ends the input.
    #[tactic(auto, using(crate::proofs::Putting::took_held, crate::proofs::Putting::took_empty, crate::proofs::Putting::last_is, crate::proofs::Putting::router_same))]
    fn take_last(&mut self) -> Result<bool, Memory>
        requires router { IsRouter self.old }
        ensures router { OnOk result (IsRouter self.new) }
        ensures ok { IfOk result (λ ended. (more : List Part) ×
            TakesParts self.old self.new (last_line self.old.line) ended more) }
    {
        let empty = Text::make(self.line.allocator());
        let line = mem::replace(&mut self.line, empty);
        if line.as_slice().is_empty() {
            return Ok(false);
        }
        self.take_line(line.as_slice())
    }

    /// Takes the last line, and what a block says that is open at the end of the input.
    #[tactic(auto, using(crate::proofs::Putting::ended_put, crate::proofs::Putting::ended_on, crate::proofs::Putting::router_same, crate::proofs::Routing::ended_early))]
    fn finish(&mut self) -> Result<(), Memory>
        requires router { IsRouter self.old }
        ensures router { OnOk result (IsRouter self.new) }
        ensures ok { OnOk result ((more : List Part) × EndsParts self.old self.new more) }
    {
        if self.take_last()? {
            return Ok(());
        }
        let fresh = CommandReader::make(self.alloc);
        let reader = mem::replace(&mut self.reader, fresh);
        if let Some(unclosed) = reader.finish() {
            self.put(unclosed)?;
        }
        Ok(())
    }

    /// Reads the input to its end, to `quit` or past its limit. Whether it passes its limit.
    pub(crate) fn read_all<S: Source>(
        &mut self,
        piece: &mut [u8],
        source: &mut S,
    ) -> Result<bool, Stop>
        requires some { 0 < length piece.old }
        requires router { IsRouter self.old }
        requires none { Holds [] self.old }
        requires fresh { (self.old.desk ≡ 1) × (self.old.reader ≡ None) × (self.old.line ≡ []) }
        ensures router { OnOk result (IsRouter self.new) }
        ensures count { OnOk result (length self.new.lists.items ≡ length self.old.lists.items) }
        ensures ok { IfOk result (λ past. (parts : List Part) × Holds parts self.new
            × IsRouted (length self.old.lists.items) past parts (S.left source.old) (S.left source.new)) }
        ensures taken { TakesAtMost (LIMIT + 1) (S.left source.old) (S.left source.new) }
        ensures read_fault { result ≡ Err Stop.Source → HasRisen (S.faults source.old) (S.faults source.new) }
        ensures source_count { (result ≡ Err Stop.Source → ⊥) → S.faults source.new ≡ S.faults source.old }
        ensures sink { result ≡ Err Stop.Sink → ⊥ }
    {
        let mut taken = 0;
        loop {
            let next = read_next(source, piece, taken);
            match next {
                Ok(Next::Bytes(count)) => {
                    taken += count;
                    match self.take_bytes(&piece[..count]) {
                        Ok(false) => {}
                        Ok(true) => return Ok(false),
                        Err(Memory) => return Err(Stop::Memory),
                    }
                }
                Ok(Next::End) => {
                    return match self.finish() {
                        Ok(()) => Ok(false),
                        Err(Memory) => Err(Stop::Memory),
                    };
                }
                Ok(Next::Past) => return Ok(true),
                Err(Failed) => return Err(Stop::Source),
            }
        }
    }
}

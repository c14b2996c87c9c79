//! Reading commands, one line after another.

ghost use Rattle.std.specs.Prelude.{◌≡◌, ◌↔◌, [], ◌∷◌, ◌++◌, IfOk, None, OnErr, OnOk, is_some, option_to_list};
ghost use Rattle.desk_read.specs.Commands.{block_command, is_end};
ghost use Rattle.desk_read.specs.Taking.{CompletesNone, Takes, answer_to, block_after, commands_from};

use crate::command::{Command, SimAsk};
use crate::head::{Head, Opening, Simulated, head_of};
use rtl_bits::{Memory, Text};
use std::alloc::Global;
use std::marker::Model;

/// A block that is open: how it was opened, and the text of its lines so far.
#[derive(Drop)]
struct Block {
    opening: Opening,
    text: Text,
}

/// Reads commands, one line after another. Contracts see the block that is open, or none.
#[derive(Drop)]
pub struct CommandReader {
    alloc: Global,
    block: Option<Block>,
}

impl Model for CommandReader {
    ghost use Rattle.std.specs.Prelude.{Option};
    ghost use Rattle.std.specs.Option.{option_map};
    ghost use Rattle.desk_read.specs.Taking.{OpenBlock};

    ghost Value = { Option OpenBlock };

    ghost view = { λ r. option_map (λ block. record { opening = block.opening; text = block.text }) r.block };
}

impl CommandReader {
    /// A reader with no block open. It keeps the allocator, and takes no memory.
    pub fn make(alloc: Global) -> CommandReader
        ensures value { result ≡ None }
    {
        CommandReader { alloc, block: None }
    }

    /// Takes the next line, which is handed in without its end, and gives the command that it
    /// completes. After an error the reader is as before.
    pub fn feed(&mut self, line: &[u8]) -> Result<Option<Command>, Memory>
        ensures answer { IfOk result (λ command. command ≡ answer_to self.old line.now) }
        ensures block { OnOk result (self.new ≡ block_after self.old line.now) }
        ensures commands { IfOk result (λ command. Takes self.old line.now command self.new) }
        ensures none { IfOk result (λ command. (command ≡ None) ↔ CompletesNone self.old line.now) }
        ensures err { OnErr result (self.new ≡ self.old) }
    {
        match self.block.take() {
            None => self.begin(line),
            Some(block) if is_end(line) => Ok(Some(closed(block))),
            Some(mut block) => {
                let added = put_line(&mut block.text, line);
                self.block = Some(block);
                added?;
                Ok(None)
            }
        }
    }

    /// Takes a line outside a block.
    fn begin(&mut self, line: &[u8]) -> Result<Option<Command>, Memory>
        requires outside { self.old ≡ None }
        ensures answer { IfOk result (λ command. command ≡ answer_to self.old line.now) }
        ensures block { OnOk result (self.new ≡ block_after self.old line.now) }
        ensures commands { IfOk result (λ command. Takes self.old line.now command self.new) }
        ensures none { IfOk result (λ command. (command ≡ None) ↔ CompletesNone self.old line.now) }
        ensures err { OnErr result (self.new ≡ self.old) }
    {
        match head_of(self.alloc, line)? {
            Head::Blank => Ok(None),
            Head::Whole(command) => Ok(Some(command)),
            Head::Opens(opening) => {
                let text = Text::make(self.alloc);
                self.block = Some(Block { opening, text });
                Ok(None)
            }
        }
    }

    /// Whether the next line stands inside a block. It takes no memory.
    pub fn inside(&self) -> bool
        ensures value { result ≡ is_some self.now }
    {
        match &self.block {
            None => false,
            Some(_) => true,
        }
    }

    /// Ends the input: `Unclosed` exactly where a block is open. It takes no memory.
    pub fn finish(self) -> Option<Command>
        ensures value { option_to_list result ≡ commands_from self [] }
    {
        match self.block {
            None => None,
            Some(_) => Some(Command::Unclosed),
        }
    }
}

/// Whether the line ends a block.
fn is_end(line: &[u8]) -> bool
    ensures value { result ≡ is_end line.now }
{
    line == b".".as_slice()
}

/// The command of a block that is ended.
fn closed(block: Block) -> Command
    ensures value { result ≡ block_command block.opening block.text }
{
    let Block { opening, text } = block;
    match opening {
        Opening::Load => Command::Load(text),
        Opening::Edit => Command::Edit(text),
        Opening::SimSource(asked) => Command::SimSource(simulation(asked, text)),
        Opening::SimNetlist(asked) => Command::SimNetlist(simulation(asked, text)),
    }
}

/// What a simulation is given by its first line and by its block.
fn simulation(asked: Simulated, steps: Text) -> SimAsk
    ensures module { result.module ≡ asked.module }
    ensures order { result.order ≡ asked.order }
    ensures steps { result.steps ≡ steps }
{
    let Simulated { module, order } = asked;
    SimAsk {
        module,
        order,
        steps,
    }
}

/// Puts the line last, ended by LF. After an error the text is as before.
fn put_line(text: &mut Text, line: &[u8]) -> Result<(), Memory>
    ensures ok { OnOk result (text.new ≡ text.old ++ line.now ++ 10 ∷ []) }
    ensures err { OnErr result (text.new ≡ text.old) }
{
    let mut ended = Text::from_slice(text.allocator(), line)?;
    ended.push(b'\n')?;
    text.extend(ended.as_slice())
}

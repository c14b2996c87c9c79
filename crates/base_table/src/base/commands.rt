//! Commands that are read of the lines of a session.

use desk_read::{Command, CommandReader};
use rtl_bits::Memory;
use std::alloc::Global;

/// The name of a command.
fn name_of(command: &Command) -> &'static str {
    match command {
        Command::Load(_) => "load",
        Command::Edit(_) => "edit",
        Command::Remove(_) => "drop",
        Command::Script(_) => "script",
        Command::Run => "run",
        Command::Print => "print",
        Command::Show(_) => "show",
        Command::Version => "version",
        Command::Modules => "modules",
        Command::Ports(_) => "ports",
        Command::SimSource(_) => "source",
        Command::SimNetlist(_) => "netlist",
        Command::Quit => "quit",
        Command::Bad => "bad",
        Command::Unclosed => "unclosed",
    }
}

/// The first thing that a command was given, or nothing.
fn first_of(command: &Command) -> &[u8] {
    match command {
        Command::Load(text) | Command::Edit(text) | Command::Script(text) => text.as_slice(),
        Command::Remove(name) | Command::Show(name) | Command::Ports(name) => name.as_slice(),
        Command::SimSource(ask) | Command::SimNetlist(ask) => ask.module.as_slice(),
        _ => &[],
    }
}

/// The steps that a command was given, or nothing.
fn steps_of(command: &Command) -> &[u8] {
    match command {
        Command::SimSource(ask) | Command::SimNetlist(ask) => ask.steps.as_slice(),
        _ => &[],
    }
}

/// Puts a part last, with a mark before it.
fn put_part(shown: &mut Vec<u8>, mark: u8, part: &[u8]) -> Result<(), Memory> {
    shown.push(mark)?;
    shown.extend_from_slice(part)?;
    Ok(())
}

/// Puts an answer last: `NAME(FIRST,SECOND)` for a command, else `-`.
fn put_answer(shown: &mut Vec<u8>, answer: &Option<Command>) -> Result<(), Memory> {
    let Some(command) = answer else {
        shown.extend_from_slice(b" -")?;
        return Ok(());
    };
    put_part(shown, b' ', name_of(command).as_bytes())?;
    put_part(shown, b'(', first_of(command))?;
    put_part(shown, b',', steps_of(command))?;
    shown.push(b')')?;
    Ok(())
}

/// Reads a line, and puts its answer last.
fn feed(reader: &mut CommandReader, line: &[u8], shown: &mut Vec<u8>) -> Result<(), Memory> {
    let answer = reader.feed(line)?;
    put_answer(shown, &answer)
}

/// The answers to the lines, and then to their end.
fn answers(alloc: Global, lines: &[&[u8]]) -> Result<Vec<u8>, Memory> {
    let mut reader = CommandReader::make(alloc);
    let mut shown = Vec::new(alloc);
    for line in lines {
        feed(&mut reader, line, &mut shown)?;
    }
    let last = reader.finish();
    put_answer(&mut shown, &last)?;
    Ok(shown)
}

/// Whether a session is answered so, line by line and at its end.
pub fn are_answered(alloc: Global, fields: &[&[u8]]) -> Result<bool, Memory> {
    let [_, text, wanted] = fields else {
        return Ok(false);
    };
    let lines: Vec<&[u8]> = text.split(|byte| *byte == b'\n').collect(alloc)?;
    Ok(answers(alloc, lines.as_slice())?.as_slice() == *wanted)
}

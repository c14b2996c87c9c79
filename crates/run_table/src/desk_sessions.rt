//! Sessions over a desk, which is held as a front end holds one that links the crates.

ghost use Rattle.std.specs.Prelude.{◌≤◌};

use desk_core::{Command, CommandReader, Desk};
use rtl_bits::{Memory, Steps, Text};
use script_core::{Script, ScriptFault, parse_script};
use std::alloc::Global;
use std::marker::Sync;
use std::sync::Wait;
use std::thread::Threads;
use table_rows::str_of;
use work_crew::NoGate;

/// The name of the counter of builds.
struct Builds;

/// A desk, what it answered so far, and whether the session has ended.
#[derive(Drop)]
struct Session {
    desk: Desk,
    replies: Text,
    ended: bool,
}

impl Session {
    /// A session of no command yet, of a desk with this script and so many workers, from 1 to 64.
    fn make(alloc: Global, script: Script, workers: u32) -> Result<Session, Memory>
        requires some { 1 ≤ workers }
        requires few { workers ≤ 64 }
    {
        let desk = Desk::make(alloc, script, workers)?;
        let replies = Text::make(alloc);
        let ended = false;
        Ok(Session {
            desk,
            replies,
            ended,
        })
    }

    /// Answers a command, where there is one and the session has not ended.
    fn answer<R: Threads + Wait + Sync>(
        &mut self,
        rt: &R,
        command: Option<Command>,
        meter: &mut Steps<Builds>,
    ) -> Result<(), Memory> {
        let Some(command) = command else {
            return Ok(());
        };
        if self.ended {
            return Ok(());
        }
        let reply = self.desk.command(rt, &command, &NoGate, meter)?;
        self.ended = reply.last;
        self.replies.extend(reply.text.as_slice())
    }

    /// Takes a line, and answers the command that it completes, where it completes one.
    fn feed<R: Threads + Wait + Sync>(
        &mut self,
        rt: &R,
        reader: &mut CommandReader,
        line: &[u8],
        meter: &mut Steps<Builds>,
    ) -> Result<(), Memory> {
        let command = reader.feed(line)?;
        self.answer(rt, command, meter)
    }

    /// Answers the commands of lines.
    fn answer_lines<R: Threads + Wait + Sync>(
        &mut self,
        rt: &R,
        alloc: Global,
        lines: &[&[u8]],
        meter: &mut Steps<Builds>,
    ) -> Result<(), Memory> {
        let mut reader = CommandReader::make(alloc);
        for line in lines {
            self.feed(rt, &mut reader, line, meter)?;
        }
        let last = reader.finish();
        self.answer(rt, last, meter)
    }
}

/// The script of a text that has one.
fn script_of(alloc: Global, text: &[u8]) -> Result<Option<Script>, Memory> {
    match parse_script(alloc, text) {
        Ok(script) => Ok(Some(script)),
        Err(ScriptFault::Bad(_)) => Ok(None),
        Err(ScriptFault::Memory) => Err(Memory),
    }
}

/// What a session is answered by a desk with this script and so many workers, from 1 to 64, and how many builds it
/// counts.
fn replies<R: Threads + Wait + Sync>(
    rt: &R,
    alloc: Global,
    script: Script,
    workers: u32,
    lines: &[u8],
) -> Result<(Text, u64), Memory>
    requires some { 1 ≤ workers }
    requires few { workers ≤ 64 }
{
    let lines: Vec<&[u8]> = lines.split(|byte| *byte == b'\n').collect(alloc)?;
    let mut session = Session::make(alloc, script, workers)?;
    let mut meter = Steps::make(&Builds);
    let answered = session.answer_lines(rt, alloc, lines.as_slice(), &mut meter);
    let builds = meter.end(&Builds);
    answered?;
    Ok((session.replies, builds))
}

/// Whether a desk with so many workers answers the commands of a session with these bytes and counts so many builds.
fn holds_by<R: Threads + Wait + Sync>(
    rt: &R,
    alloc: Global,
    workers: u32,
    fields: &[&[u8]],
) -> Result<bool, Memory>
    requires some { 1 ≤ workers }
    requires few { workers ≤ 64 }
{
    let [_, script, builds, lines, wanted] = fields else {
        return Ok(false);
    };
    let Some(script) = script_of(alloc, script)? else {
        return Ok(false);
    };
    let (replied, counted) = replies(rt, alloc, script, workers, lines)?;
    let is_counted = str_of(builds).parse::<u64>().ok() == Some(counted);
    Ok(is_counted && replied.as_slice() == *wanted)
}

/// Whether the commands of a session are answered with these bytes, and so many builds are counted, by one worker and
/// by four.
pub fn is_answered<R: Threads + Wait + Sync>(
    rt: &R,
    alloc: Global,
    fields: &[&[u8]],
) -> Result<bool, Memory> {
    Ok(holds_by(rt, alloc, 1, fields)? && holds_by(rt, alloc, 4, fields)?)
}

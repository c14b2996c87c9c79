//! The count of rows.

use rtl_bits::{Memory, Text};
use std::alloc::Global;
use std::fs::File;
use std::io::{self, Read};
use std::process::ExitCode;
use std::rt::Files;
use synth_io::{StdSink, StdSource, read_input, write_reply};

/// The bytes that part the rows of a table, and the fields of a row.
#[derive(Clone, Copy)]
pub struct Parting {
    rows: u8,
    fields: u8,
}

/// A row is a line, and its fields are parted by bars.
pub const LINES: Parting = Parting {
    rows: b'\n',
    fields: b'|',
};

/// Rows are parted by bytes 254 and fields by bytes 255, so that a field may have lines.
pub const TEXTS: Parting = Parting {
    rows: 254,
    fields: 255,
};

/// What the rows of tables come to.
#[derive(Drop)]
pub struct Tally {
    held: u32,
    failed: u32,
    /// A line for each row that does not hold.
    lines: Text,
}

/// The front of a text up to its first end of line.
fn first_line(text: &[u8]) -> &[u8] {
    text.split(|byte| *byte == b'\n').next().unwrap_or(text)
}

impl Tally {
    /// No row yet.
    pub fn make(alloc: Global) -> Tally {
        Tally {
            held: 0,
            failed: 0,
            lines: Text::make(alloc),
        }
    }

    /// Adds the line of a row that does not hold.
    fn put_line(&mut self, table: &str, name: &[u8]) -> Result<(), Memory> {
        self.lines.extend(table.as_bytes())?;
        self.lines.extend(b": ")?;
        self.lines.extend(first_line(name))?;
        self.lines.extend(b"\n")
    }

    /// Counts a row of the table, by its name.
    pub fn count(&mut self, table: &str, name: &[u8], holds: bool) -> Result<(), Memory> {
        if holds {
            self.held = self.held.saturating_add(1);
            return Ok(());
        }
        self.failed = self.failed.saturating_add(1);
        self.put_line(table, name)
    }

    /// Counts the rows of a table. Whether one holds is asked of its fields, of which the first is its name.
    pub fn rows<F: Fn(Global, &[&[u8]]) -> Result<bool, Memory>>(
        &mut self,
        table: &str,
        text: &[u8],
        parting: Parting,
        holds: F,
    ) -> Result<(), Memory>
        requires callable { F.IsAlwaysCallable holds }
    {
        let alloc = self.lines.allocator();
        for row in text.split(|byte| *byte == parting.rows) {
            if row.is_empty() {
                continue;
            }
            let fields: Vec<&[u8]> = row.split(|byte| *byte == parting.fields).collect(alloc)?;
            let is_held = holds(alloc, fields.as_slice())?;
            self.count(table, fields.as_slice().first().unwrap_or(&row), is_held)?;
        }
        Ok(())
    }

    /// Counts the rows that a reader gives. Where they cannot be read that is a row that does not hold.
    pub fn read<R: Read + Drop, F: Fn(Global, &[&[u8]]) -> Result<bool, Memory>>(
        &mut self,
        table: &str,
        reader: R,
        parting: Parting,
        holds: F,
    ) -> Result<(), Memory>
        requires callable { F.IsAlwaysCallable holds }
    {
        match read_input(self.lines.allocator(), &mut StdSource::make(reader)) {
            Ok(text) => self.rows(table, text.as_slice(), parting, holds),
            Err(_) => self.count(table, b"cannot be read", false),
        }
    }

    /// Counts the rows of the file of this name.
    pub fn file<R: Files, F: Fn(Global, &[&[u8]]) -> Result<bool, Memory>>(
        &mut self,
        rt: &R,
        name: &str,
        parting: Parting,
        holds: F,
    ) -> Result<(), Memory>
        requires callable { F.IsAlwaysCallable holds }
    {
        match File::open(rt, name) {
            Ok(file) => self.read(name, file, parting, holds),
            Err(_) => self.count(name, b"cannot be opened", false),
        }
    }
}

/// How many rows held, and a line for each that did not.
fn summary(alloc: Global, tally: &Tally) -> Result<Text, Memory> {
    let Tally { held, failed, .. } = tally;
    let words = format!(in alloc; "{held} rows hold, {failed} do not\n")?;
    let mut text = Text::from_slice(alloc, words.as_bytes())?;
    text.extend(tally.lines.as_slice())?;
    Ok(text)
}

/// Prints how many rows held, and a line for each that did not; fails where there is no memory.
pub fn report(rt: &(impl Print + AllocGlobal), tally: Result<Tally, Memory>) -> ExitCode {
    let Ok(tally) = tally else {
        return ExitCode::FAILURE;
    };
    let Ok(text) = summary(rt.alloc(), &tally) else {
        return ExitCode::FAILURE;
    };
    match write_reply(&mut StdSink::make(io::writer(rt)), text.as_slice()) {
        Ok(()) => ExitCode::SUCCESS,
        Err(_) => ExitCode::FAILURE,
    }
}

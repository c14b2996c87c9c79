//! Rows of bits, names, signals and ports, and of sources, sinks and commands.

mod bits;
mod calls;
mod commands;
mod lists;
mod names;
mod numbers;
mod ports;
mod records;
mod signals;
mod sinks;
mod sources;

use rtl_bits::Memory;
use std::alloc::Global;
use table_rows::{LINES, TEXTS, Tally};

/// The files whose rows are lines.
const FILES: [&str; 14] = [
    "base/bits",
    "base/numbers",
    "base/filled",
    "base/given",
    "base/names",
    "base/parts",
    "base/extended",
    "base/joined",
    "base/ports",
    "base/sources",
    "base/reads",
    "base/sinks",
    "base/writes",
    "base/calls",
];

/// Whether a row of the file of this name holds.
fn holds(alloc: Global, file: &str, fields: &[&[u8]]) -> Result<bool, Memory> {
    match file {
        "base/bits" => bits::has_values(alloc, fields),
        "base/numbers" => numbers::are_numbers(alloc, fields),
        "base/filled" => numbers::are_filled(alloc, fields),
        "base/given" => numbers::has_bits(alloc, fields),
        "base/names" => names::is_numbered(alloc, fields),
        "base/parts" => signals::is_part(alloc, fields),
        "base/extended" => signals::is_extended(alloc, fields),
        "base/joined" => signals::is_joined(alloc, fields),
        "base/ports" => ports::has_table(alloc, fields),
        "base/sources" => sources::give(alloc, fields),
        "base/reads" => sources::fails(alloc, fields),
        "base/sinks" => sinks::hold(alloc, fields),
        "base/writes" => sinks::is_refused(alloc, fields),
        "base/calls" => calls::end_well(alloc, fields),
        _ => Ok(false),
    }
}

/// Counts the rows of the files.
pub(crate) fn count(rt: &HostRuntime, tally: &mut Tally) -> Result<(), Memory> {
    for file in FILES {
        tally.file(rt, file, LINES, |alloc, fields| holds(alloc, file, fields))?;
    }
    tally.file(rt, "base/commands", TEXTS, commands::are_answered)
}

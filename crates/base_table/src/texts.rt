//! Rows of texts: their tokens and values, and what is written of designs that have a fault.

mod answer;
mod generated;
mod items;
mod ports;
mod tokens;
mod values;
mod whole;

use rtl_bits::Memory;
use std::alloc::Global;
use table_rows::{LINES, TEXTS, Tally};

/// The files whose rows are lines.
const OF_LINES: [&str; 3] = ["texts/values", "texts/widths", "texts/integers"];

/// The files whose fields are texts.
const OF_TEXTS: [&str; 6] = [
    "texts/tokens",
    "texts/items",
    "texts/strings",
    "texts/texts",
    "texts/ports",
    "texts/generated",
];

/// Whether a row of the file of this name holds.
fn holds(alloc: Global, file: &str, fields: &[&[u8]]) -> Result<bool, Memory> {
    match file {
        "texts/tokens" => tokens::has_tokens(alloc, fields),
        "texts/items" => items::has_items(alloc, fields),
        "texts/values" => values::has_bits(alloc, fields),
        "texts/widths" => Ok(values::has_width(fields)),
        "texts/integers" => Ok(values::is_integer(fields)),
        "texts/strings" => values::has_characters(alloc, fields),
        "texts/texts" => whole::is_written(alloc, fields),
        "texts/ports" => ports::is_kept(alloc, fields),
        "texts/generated" => generated::is_written(alloc, fields),
        _ => Ok(false),
    }
}

/// Counts the rows of the files.
pub(crate) fn count(rt: &HostRuntime, tally: &mut Tally) -> Result<(), Memory> {
    for file in OF_LINES {
        tally.file(rt, file, LINES, |alloc, fields| holds(alloc, file, fields))?;
    }
    for file in OF_TEXTS {
        tally.file(rt, file, TEXTS, |alloc, fields| holds(alloc, file, fields))?;
    }
    Ok(())
}
